//! Worked steps of a table of links: lines that start, lose their link and carry messages, side by side.
use super::bench::USUAL;
use arrayvec::ArrayVec;
use link_frames::MAX_FRAME_LEN;
use link_table::{Change, LinkTable, NoLinkError, Notice};
use std::alloc::{AllocError, Global};
use std::test::*;

// What happens in a step.
enum Act {
    // A frame of the user on a line.
    Frame(u8, &'static [u8]),
    // A message of call control to each of two lines.
    Messages(u8, u8),
    // The turn of a link.
    Turn,
}

// The notice to call control.
#[derive(Clone, Copy, PartialEq, Eq)]
enum Told {
    Nothing,
    Message(&'static [u8]),
    Up,
    Down,
    NoLink,
}

// The frame of the exchange, the act, the notice, and the frames sent, each with its line.
type Row = (u32, Act, Told, &'static [(u8, &'static [u8])]);

const CALL: &[u8] = b"\x02\x01\x7F";

const SABME: &[u8] = b"\x00\x01\x7F";

const UA: &[u8] = b"\x00\x01\x73";

const UA_OF_USER: &[u8] = b"\x02\x01\x73";

const DISC: &[u8] = b"\x00\x01\x53";

// Lines 0 and 3 have links, and line 1 has none. T200 of line 3 expires before its turn. The loss of line 3 leaves line 0 untouched.
static ROWS: [Row; 17] = [
    (8_000, Act::Turn, Told::Nothing, &[(0, CALL)]),
    (8_001, Act::Turn, Told::Nothing, &[]),
    (8_003, Act::Turn, Told::Nothing, &[(3, CALL)]),
    (8_010, Act::Frame(0, UA_OF_USER), Told::Up, &[]),
    (8_010, Act::Frame(3, SABME), Told::Nothing, &[(3, UA)]),
    (8_011, Act::Frame(3, UA_OF_USER), Told::Up, &[]),
    (8_012, Act::Frame(1, SABME), Told::NoLink, &[]),
    (8_012, Act::Frame(200, SABME), Told::NoLink, &[]),
    (8_013, Act::Frame(3, b"\x00\x03\x7F"), Told::Nothing, &[]),
    (
        8_014,
        Act::Messages(3, 0),
        Told::Nothing,
        &[(3, b"\x02\x01\x00\x00m"), (0, b"\x02\x01\x00\x00m")],
    ),
    (
        8_020,
        Act::Frame(0, b"\x00\x01\x00\x02x"),
        Told::Message(b"x"),
        &[(0, b"\x00\x01\x01\x02")],
    ),
    (8_021, Act::Frame(3, DISC), Told::Down, &[(3, UA)]),
    (
        8_022,
        Act::Messages(3, 0),
        Told::Nothing,
        &[(0, b"\x02\x01\x02\x02m")],
    ),
    (
        8_023,
        Act::Messages(1, 0),
        Told::Nothing,
        &[(1, b"m"), (0, b"\x02\x01\x04\x02m")],
    ),
    (
        16_032,
        Act::Turn,
        Told::Nothing,
        &[(0, b"\x02\x01\x01\x03")],
    ),
    (16_033, Act::Turn, Told::Nothing, &[]),
    (16_035, Act::Turn, Told::Nothing, &[(3, CALL)]),
];

fn is_sent(table: &LinkTable, wanted: &[(u8, &[u8])]) -> bool {
    let frames = table.frames();
    let lines = table.lines();
    if frames.len() != wanted.len() || lines.len() != wanted.len() {
        return false;
    }
    let sent = lines.iter().zip(frames.iter());
    for ((line, frame), (wanted_line, octets)) in sent.zip(wanted.iter()) {
        if line != wanted_line || frame.as_slice() != *octets {
            return false;
        }
    }
    true
}

fn is_told(told: &Result<Option<Notice<'_>>, NoLinkError>, wanted: Told) -> bool {
    match (told, wanted) {
        (Ok(None), Told::Nothing) => true,
        (Ok(Some(Notice::Message(message))), Told::Message(octets)) => message.octets() == octets,
        (Ok(Some(Notice::Link(Change::Up))), Told::Up) => true,
        (Ok(Some(Notice::Link(Change::Down))), Told::Down) => true,
        (Err(NoLinkError), Told::NoLink) => true,
        _ => false,
    }
}

fn is_changed(change: Option<Change>, wanted: Told) -> bool {
    match (change, wanted) {
        (None, Told::Nothing) => true,
        (Some(Change::Up), Told::Up) => true,
        (Some(Change::Down), Told::Down) => true,
        _ => false,
    }
}

// Submits a message. Returns whether the step has capacity for it.
fn submit(table: &mut LinkTable, line: u8, message: &[u8], at: u32) -> bool {
    let has_capacity = table.messages() < 64 && message.len() <= 112;
    if has_capacity {
        table.submit(line, message, at);
    }
    has_capacity
}

fn holds(table: &mut LinkTable, row: &Row) -> bool {
    let (at, act, told, sent) = row;
    if table.is_receiving() {
        return false;
    }
    let is_right = match act {
        Act::Frame(line, octets) => {
            let is_right = is_told(&table.receive(*line, octets, *at), *told);
            table.finish(*at);
            is_right
        }
        Act::Messages(first, second) => {
            table.begin();
            submit(table, *first, b"m", *at) && submit(table, *second, b"m", *at)
        }
        Act::Turn => is_changed(table.turn(&USUAL, *at), *told),
    };
    is_right && is_sent(table, sent)
}

fn follows_the_rows(alloc: Global) -> Result<bool, AllocError> {
    let mut table = LinkTable::new(alloc, &[true, false, false, true], 0)?;
    for row in &ROWS {
        if !holds(&mut table, row) {
            return Ok(false);
        }
    }
    Ok(table.is_up(0) && !table.is_up(3) && table.has_link(3) && !table.has_link(1))
}

#[test]
fn links_of_two_lines(rt: HostRuntime) {
    assert!(rt; matches!(follows_the_rows(rt.alloc()), Ok(true)));
}

const ALL: [bool; 32] = [true; 32];

// The peer of line 0 is busy.
static BUSY: Row = (1, Act::Frame(0, b"\x02\x01\x05\x00"), Told::Nothing, &[]);

static WAITING: Row = (2, Act::Messages(0, 0), Told::Nothing, &[]);

// Establishes the links of all lines.
fn establish_all(table: &mut LinkTable) -> bool {
    for line in 0..32_u8 {
        if table.is_receiving() || !is_told(&table.receive(line, SABME, 0), Told::Up) {
            return false;
        }
        table.finish(0);
    }
    true
}

// A peer that was busy acknowledges nothing and asks: the step has an answer on line 0, 64 messages to other lines, and
// the seven I frames that waited on line 0.
fn fills_a_step(alloc: Global) -> Result<bool, AllocError> {
    let mut table = LinkTable::new(alloc, &ALL, 0)?;
    if !establish_all(&mut table) || !holds(&mut table, &BUSY) {
        return Ok(false);
    }
    for _ in 0..4_u8 {
        if !holds(&mut table, &WAITING) {
            return Ok(false);
        }
    }
    if table.is_receiving() || table.receive(0, b"\x00\x01\x01\x01", 3).is_err() {
        return Ok(false);
    }
    for message in 0..64_u8 {
        if !submit(&mut table, 1 + message % 31, b"m", 3) {
            return Ok(false);
        }
    }
    table.finish(3);
    Ok(is_full_step(table.lines()))
}

fn is_full_step(lines: &[u8]) -> bool {
    if lines.len() != 72 {
        return false;
    }
    for (at, line) in lines.iter().enumerate() {
        let wanted = if at == 0 || at > 64 {
            0
        } else {
            1 + (at - 1) % 31
        };
        if usize::from(*line) != wanted {
            return false;
        }
    }
    true
}

#[test]
fn a_full_step(rt: HostRuntime) {
    assert!(rt; matches!(fills_a_step(rt.alloc()), Ok(true)));
}

// The frames on a wire from one exchange to another one, with their lines.
#[derive(Default, Drop)]
struct Carried {
    line: u8,
    octets: ArrayVec<u8, MAX_FRAME_LEN>,
}

type Wire = ArrayVec<Carried, 80>;

// Puts the frames of a step on the wire. The other exchange receives them as frames of a user.
fn send(table: &LinkTable, wire: &mut Wire) {
    for (line, frame) in table.lines().iter().zip(table.frames().iter()) {
        let mut octets = ArrayVec::new();
        if let [address, rest @ ..] = frame.as_slice() {
            let is_whole = octets.try_push(*address ^ 0x02).is_ok()
                && octets.try_extend_from_slice(rest).is_ok();
            if is_whole && !wire.is_full() {
                wire.push(Carried {
                    line: *line,
                    octets,
                });
            }
        }
    }
}

// An exchange receives all frames on a wire, and sends its own. Returns the number of messages taken on lines 2 and 5.
fn take(table: &mut LinkTable, from: &mut Wire, to: &mut Wire, at: u32) -> (u32, u32) {
    let mut first = 0_u32;
    let mut second = 0_u32;
    for _ in 0..80_u8 {
        if from.is_empty() || table.is_receiving() {
            break;
        }
        let frame = from.remove(0);
        let told = table.receive(frame.line, frame.octets.as_slice(), at);
        if matches!(told, Ok(Some(Notice::Message(_)))) {
            if frame.line == 2 {
                first = first.saturating_add(1);
            } else {
                second = second.saturating_add(1);
            }
        }
        table.finish(at);
        send(table, to);
    }
    (first, second)
}

// Two exchanges are joined by lines 2 and 5. The first one calls, and each sends messages on both lines.
fn carries_both_ways(alloc: Global) -> Result<bool, AllocError> {
    let linked = [false, false, true, false, false, true];
    let mut near = LinkTable::new(alloc, &linked, 0)?;
    let mut far = LinkTable::new(alloc, &linked, 0)?;
    let mut there = Wire::new();
    let mut back = Wire::new();
    for at in 8_000..8_032_u32 {
        if !near.is_receiving() {
            near.turn(&USUAL, at);
            send(&near, &mut there);
        }
    }
    take(&mut far, &mut there, &mut back, 8_040);
    take(&mut near, &mut back, &mut there, 8_041);
    if !near.is_up(2) || !near.is_up(5) || !far.is_up(2) || !far.is_up(5) || near.is_receiving() {
        return Ok(false);
    }
    near.begin();
    let is_submitted = submit(&mut near, 5, b"one", 8_050)
        && submit(&mut near, 2, b"two", 8_050)
        && submit(&mut near, 5, b"three", 8_050);
    send(&near, &mut there);
    let taken = take(&mut far, &mut there, &mut back, 8_060);
    if far.is_receiving() {
        return Ok(false);
    }
    far.begin();
    let is_replied = submit(&mut far, 5, b"four", 8_061);
    send(&far, &mut back);
    let returned = take(&mut near, &mut back, &mut there, 8_070);
    Ok(is_submitted && is_replied && taken == (1, 2) && returned == (0, 1))
}

#[test]
fn two_tables_on_a_wire(rt: HostRuntime) {
    assert!(rt; matches!(carries_both_ways(rt.alloc()), Ok(true)));
}

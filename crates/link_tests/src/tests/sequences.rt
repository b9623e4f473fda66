//! Worked sequences: windows, numbers, retransmissions, and timers.
use super::bench::{USUAL, is_sent, receive, submit};
use link_procedures::{FrameOutbox, Indication, Link, MAX_QUEUE_LEN, State};
use std::test::*;

// What happens to a link.
enum Act {
    // A frame of the user.
    Frame(&'static [u8]),
    // A message of layer 3.
    Message(&'static [u8]),
    // The turn of the link.
    Turn,
}

// The frame of the exchange, the act, the frames sent to the end of the step, and the indication.
type Line = (u32, Act, &'static [&'static [u8]], Option<Indication>);

const SABME: &[u8] = b"\x00\x01\x7F";

const UA_FINAL: &[u8] = b"\x00\x01\x73";

const UA_OF_USER: &[u8] = b"\x02\x01\x73";

const UP: Option<Indication> = Some(Indication::Established);

const DOWN: Option<Indication> = Some(Indication::Released);

const CALL: &[u8] = b"\x02\x01\x7F";

const ENQUIRY: &[u8] = b"\x02\x01\x01\x01";

// Seven messages are sent; the others wait for RR.
static WINDOW: [Line; 13] = [
    (1, Act::Frame(SABME), &[UA_FINAL], UP),
    (1, Act::Message(b"a"), &[b"\x02\x01\x00\x00a"], None),
    (1, Act::Message(b"b"), &[b"\x02\x01\x02\x00b"], None),
    (1, Act::Message(b"c"), &[b"\x02\x01\x04\x00c"], None),
    (1, Act::Message(b"d"), &[b"\x02\x01\x06\x00d"], None),
    (1, Act::Message(b"e"), &[b"\x02\x01\x08\x00e"], None),
    (1, Act::Message(b"f"), &[b"\x02\x01\x0A\x00f"], None),
    (1, Act::Message(b"g"), &[b"\x02\x01\x0C\x00g"], None),
    (1, Act::Message(b"h"), &[], None),
    (1, Act::Message(b"i"), &[], None),
    (
        2,
        Act::Frame(b"\x02\x01\x01\x02"),
        &[b"\x02\x01\x0E\x00h"],
        None,
    ),
    (
        3,
        Act::Frame(b"\x02\x01\x01\x04"),
        &[b"\x02\x01\x10\x00i"],
        None,
    ),
    (4, Act::Frame(b"\x02\x01\x01\x12"), &[], None),
];

// REJ makes the link send again from N(R).
static REJECTED: [Line; 7] = [
    (1, Act::Frame(SABME), &[UA_FINAL], UP),
    (1, Act::Message(b"a"), &[b"\x02\x01\x00\x00a"], None),
    (1, Act::Message(b"b"), &[b"\x02\x01\x02\x00b"], None),
    (1, Act::Message(b"c"), &[b"\x02\x01\x04\x00c"], None),
    (
        2,
        Act::Frame(b"\x02\x01\x09\x02"),
        &[b"\x02\x01\x02\x00b", b"\x02\x01\x04\x00c"],
        None,
    ),
    (3, Act::Frame(b"\x02\x01\x01\x06"), &[], None),
    (4, Act::Message(b"d"), &[b"\x02\x01\x06\x00d"], None),
];

// REJ is sent once, until the frame in sequence arrives.
static REJECTING: [Line; 6] = [
    (1, Act::Frame(SABME), &[UA_FINAL], UP),
    (
        1,
        Act::Frame(b"\x00\x01\x02\x00b"),
        &[b"\x00\x01\x09\x00"],
        None,
    ),
    (1, Act::Frame(b"\x00\x01\x04\x00c"), &[], None),
    (
        1,
        Act::Frame(b"\x00\x01\x04\x01c"),
        &[b"\x00\x01\x01\x01"],
        None,
    ),
    (
        1,
        Act::Frame(b"\x00\x01\x00\x00a"),
        &[b"\x00\x01\x01\x02"],
        Some(Indication::Data),
    ),
    (
        1,
        Act::Frame(b"\x00\x01\x04\x00c"),
        &[b"\x00\x01\x09\x02"],
        None,
    ),
];

// A busy peer gets no message. The enquiry after T200 finds that it is ready.
static BUSY: [Line; 6] = [
    (1, Act::Frame(SABME), &[UA_FINAL], UP),
    (1, Act::Message(b"a"), &[b"\x02\x01\x00\x00a"], None),
    (2, Act::Frame(b"\x02\x01\x05\x02"), &[], None),
    (3, Act::Message(b"b"), &[], None),
    (8_002, Act::Turn, &[ENQUIRY], None),
    (
        8_003,
        Act::Frame(b"\x02\x01\x01\x03"),
        &[b"\x02\x01\x02\x00b"],
        None,
    ),
];

// Without an answer SABME is sent four times, and the link is released.
static CALLING: [Line; 7] = [
    (7_999, Act::Turn, &[], None),
    (8_000, Act::Turn, &[CALL], None),
    (16_000, Act::Turn, &[CALL], None),
    (24_000, Act::Turn, &[CALL], None),
    (32_000, Act::Turn, &[CALL], None),
    (40_000, Act::Turn, &[], DOWN),
    (48_000, Act::Turn, &[CALL], None),
];

// Without an answer to three enquiries the link is established again, and its message waits.
static RECOVERING: [Line; 8] = [
    (0, Act::Frame(SABME), &[UA_FINAL], UP),
    (0, Act::Message(b"a"), &[b"\x02\x01\x00\x00a"], None),
    (8_000, Act::Turn, &[ENQUIRY], None),
    (16_000, Act::Turn, &[ENQUIRY], None),
    (24_000, Act::Turn, &[ENQUIRY], None),
    (32_000, Act::Turn, &[CALL], None),
    (32_001, Act::Frame(UA_OF_USER), &[], UP),
    (32_002, Act::Message(b"b"), &[b"\x02\x01\x00\x00b"], None),
];

// T203 counts as no retransmission.
static IDLE: [Line; 6] = [
    (0, Act::Frame(SABME), &[UA_FINAL], UP),
    (80_000, Act::Turn, &[ENQUIRY], None),
    (88_000, Act::Turn, &[ENQUIRY], None),
    (96_000, Act::Turn, &[ENQUIRY], None),
    (104_000, Act::Turn, &[ENQUIRY], None),
    (112_000, Act::Turn, &[CALL], None),
];

// An unsolicited DM with F 0 starts the establishment, and T200.
static REQUESTED: [Line; 5] = [
    (1, Act::Frame(b"\x02\x01\x1F"), &[], None),
    (2, Act::Frame(b"\x02\x01\x0F"), &[CALL], None),
    (8_001, Act::Turn, &[], None),
    (8_002, Act::Turn, &[CALL], None),
    (8_003, Act::Frame(UA_OF_USER), &[], UP),
];

fn happens(link: &mut Link, act: &Act, at: u32, out: &mut FrameOutbox) -> Option<Indication> {
    match act {
        Act::Frame(octets) => receive(link, octets, at, out),
        Act::Message(octets) => {
            submit(link, octets, at, out);
            None
        }
        Act::Turn => {
            out.clear();
            link.turned(&USUAL, at, out)
        }
    }
}

fn holds(sequence: &[Line]) -> bool {
    let mut link = Link::new(0);
    let mut out = FrameOutbox::new();
    for (at, act, sent, told) in sequence {
        if happens(&mut link, act, *at, &mut out) != *told || !is_sent(&out, sent) {
            return false;
        }
    }
    true
}

#[test]
fn follows_the_sequences(rt: HostRuntime) {
    assert!(rt; holds(&WINDOW));
    assert!(rt; holds(&REJECTED));
    assert!(rt; holds(&REJECTING));
    assert!(rt; holds(&BUSY));
    assert!(rt; holds(&CALLING));
    assert!(rt; holds(&RECOVERING));
    assert!(rt; holds(&IDLE));
    assert!(rt; holds(&REQUESTED));
}

// Whether 300 messages are sent in sequence, each with the next number modulo 128.
fn sends_all_numbers() -> bool {
    let mut link = Link::new(0);
    let mut out = FrameOutbox::new();
    receive(&mut link, SABME, 0, &mut out);
    for number in 0..300_u32 {
        let send = (number % 128 * 2) as u8;
        let next = ((number + 1) % 128 * 2) as u8;
        submit(&mut link, b"m", 0, &mut out);
        if !is_sent(&out, &[&[0x02, 0x01, send, 0x00, b'm']]) {
            return false;
        }
        receive(&mut link, &[0x02, 0x01, 0x01, next], 0, &mut out);
        if !is_sent(&out, &[]) {
            return false;
        }
    }
    true
}

// Whether 300 messages are taken, and each is acknowledged by the next number modulo 128.
fn takes_all_numbers() -> bool {
    let mut link = Link::new(0);
    let mut out = FrameOutbox::new();
    receive(&mut link, SABME, 0, &mut out);
    for number in 0..300_u32 {
        let send = (number % 128 * 2) as u8;
        let next = ((number + 1) % 128 * 2) as u8;
        let told = receive(&mut link, &[0x00, 0x01, send, 0x00, b'm'], 0, &mut out);
        if told != Some(Indication::Data) || !is_sent(&out, &[&[0x00, 0x01, 0x01, next]]) {
            return false;
        }
    }
    true
}

#[test]
fn wraps_numbers(rt: HostRuntime) {
    assert!(rt; sends_all_numbers());
    assert!(rt; takes_all_numbers());
}

// Establishes a link, of which 64 messages wait.
fn fill(link: &mut Link, out: &mut FrameOutbox) {
    receive(link, SABME, 0, out);
    for _ in 0..MAX_QUEUE_LEN {
        submit(link, b"m", 0, out);
    }
}

// Whether a link with 64 waiting messages loses them with the next one, and informs layer 3 once.
fn tells_a_full_queue() -> bool {
    let mut link = Link::new(0);
    let mut out = FrameOutbox::new();
    fill(&mut link, &mut out);
    if link.state() != State::MultipleFrameEstablished || !link.is_up() {
        return false;
    }
    submit(&mut link, b"m", 0, &mut out);
    if !is_sent(&out, &[CALL]) || link.is_up() {
        return false;
    }
    out.clear();
    link.turned(&USUAL, 1, &mut out) == DOWN && link.turned(&USUAL, 2, &mut out).is_none()
}

// Whether UA before the turn of such a link brings the release, and another SABME. Only the next UA establishes the link.
fn releases_a_full_queue_first() -> bool {
    let mut link = Link::new(0);
    let mut out = FrameOutbox::new();
    fill(&mut link, &mut out);
    submit(&mut link, b"m", 0, &mut out);
    if receive(&mut link, UA_OF_USER, 1, &mut out) != DOWN
        || !is_sent(&out, &[CALL])
        || link.is_up()
    {
        return false;
    }
    out.clear();
    link.turned(&USUAL, 2, &mut out).is_none()
        && receive(&mut link, UA_OF_USER, 3, &mut out) == UP
        && link.is_up()
}

#[test]
fn loses_a_full_queue(rt: HostRuntime) {
    assert!(rt; tells_a_full_queue());
    assert!(rt; releases_a_full_queue_first());
}

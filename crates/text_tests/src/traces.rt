// The contents of traces. Other inputs are in the tables of `examples/`.
use circuit_model::Slot;
use exchange_events::{Event, Trace};
use number_plan::Found;
use std::test::Fail;
use trace_text::read_trace;

// The lines before a case, so that the case is line 2 of an exchange of one line.
const HEADER: &str = "exchange 1 1 0 1\n";

// The 30 octets of a line, with digits of both cases.
const OCTETS: &str = "00010203040506070809a0B1c2D3e4F5FFfF0123456789abcdefABCDEF55";

// Returns the trace of a text. It has no clause, so that the tests do not depend on the grammar.
fn read(rt: &HostRuntime, text: &str) -> Result<Trace, Fail> {
    Ok(
        read_trace(rt.alloc(), text.as_bytes())
            .ok()
            .ok_or("it is a trace")?,
    )
}

// Returns whether these are the octets of ringing tone and of busy tone.
fn has_tones(trace: &Trace, ringback: &[u8], busy: &[u8]) -> bool {
    trace.tones.ringback.as_slice() == ringback && trace.tones.busy.as_slice() == busy
}

#[test]
fn tones_have_their_octets(rt: HostRuntime) -> Result<(), Fail> {
    let text = format!(in rt.alloc(); "{HEADER}tone busy  44\nsync\ntone ringback 11fF\nF\n")?;
    let trace = read(&rt, text.as_str())?;
    assert!(rt; has_tones(&trace, &[0x11, 0xFF], &[0x44]));
    Ok(())
}

// Returns whether the segments end after these events.
fn ends_at(trace: &Trace, ends: &[u32]) -> bool {
    trace.segments.as_slice() == ends
}

fn has_two_numbers(trace: &Trace) -> bool {
    trace.plan.look(b"123") == Found::Line(0)
        && trace.plan.look(b"00") == Found::Room(63)
        && trace.plan.look(b"2") == Found::Nothing
}

// Returns whether the events are two messages of line 0, the second one without octets.
fn has_two_messages(trace: &Trace) -> bool {
    let [Event::Message(one, octets), Event::Message(other, none)] = trace.events.as_slice() else {
        return false;
    };
    *one == 0
        && *other == 0
        && octets.as_slice() == [8, 0xFF, 5].as_slice()
        && none.as_slice().is_empty()
}

#[test]
fn numbers_and_messages(rt: HostRuntime) -> Result<(), Fail> {
    let text = format!(in rt.alloc();
        "{HEADER} number 12  line 0\nsync\nnumber 00 room 63\nM 0 08fF05\n M  0 \nsync"
    )?;
    let trace = read(&rt, text.as_str())?;
    assert!(rt; has_two_numbers(&trace) && has_two_messages(&trace) && ends_at(&trace, &[2]));
    Ok(())
}

fn has_sizes(trace: &Trace, external: u8, bridges: u8, processors: u8) -> bool {
    trace.external == external && trace.bridges == bridges && trace.processors == processors
}

// Returns whether only the first two lines send, with these octets.
fn sends(input: &[Option<[u8; 30]>], first: Option<[u8; 30]>, second: Option<[u8; 30]>) -> bool {
    let [one, other] = input else {
        return false;
    };
    *one == first && *other == second
}

// Returns whether the events are a nail and two frames, the first one with these octets of line 1.
fn has_nail_and_frames(trace: &Trace, octets: [u8; 30]) -> bool {
    let [
        Event::Nail(one, other),
        Event::Frame(first),
        Event::Frame(second),
    ] = trace.events.as_slice()
    else {
        return false;
    };
    *one == Slot { line: 0, place: 0 }
        && *other == Slot { line: 1, place: 15 }
        && sends(first.as_slice(), None, Some(octets))
        && sends(second.as_slice(), None, None)
}

#[test]
fn whole_trace(rt: HostRuntime) -> Result<(), Fail> {
    let text = format!(in rt.alloc();
        "\n#\0\n  exchange 1  2 1 3 \nsync\n nail 0/1  1/17\nsync\nF 1:{OCTETS}\n#\nsync\nsync\nF"
    )?;
    let trace = read(&rt, text.as_str())?;
    let octets = [
        0, 1, 2, 3, 4, 5, 6, 7, 8, 9, 0xA0, 0xB1, 0xC2, 0xD3, 0xE4, 0xF5, 0xFF, 0xFF, 0x01, 0x23,
        0x45, 0x67, 0x89, 0xAB, 0xCD, 0xEF, 0xAB, 0xCD, 0xEF, 0x55,
    ];
    assert!(rt; has_sizes(&trace, 2, 1, 3) && has_nail_and_frames(&trace, octets));
    assert!(rt; ends_at(&trace, &[1, 2, 3]));
    Ok(())
}

// Returns whether the events are these: a seat in room 63, a slot that is freed, and a seat in room 0.
fn has_seats_and_free(trace: &Trace) -> bool {
    let [
        Event::Seat(one, last),
        Event::Free(freed),
        Event::Seat(other, first),
    ] = trace.events.as_slice()
    else {
        return false;
    };
    *one == Slot { line: 0, place: 0 }
        && *last == 63
        && *freed == Slot { line: 0, place: 29 }
        && *other == Slot { line: 0, place: 15 }
        && *first == 0
}

#[test]
fn seats_and_frees(rt: HostRuntime) -> Result<(), Fail> {
    let text = format!(in rt.alloc(); "{HEADER}seat 0/1 63\nfree  0/31\n seat 0/17 0 ")?;
    let trace = read(&rt, text.as_str())?;
    assert!(rt; has_seats_and_free(&trace));
    Ok(())
}

#[test]
fn a_trace_has_at_most_65535_events(rt: HostRuntime) -> Result<(), Fail> {
    let mut text = format!(in rt.alloc(); "{HEADER}")?;
    for _ in 0..65_535 {
        text.push_str("F\n")?;
    }
    let trace = read(&rt, text.as_str())?;
    assert!(rt; trace.events.as_slice().len() == 65_535 && ends_at(&trace, &[65_535]));
    Ok(())
}

#[test]
fn changes_are_numbered_by_the_events_before_them(rt: HostRuntime) -> Result<(), Fail> {
    let text = format!(in rt.alloc();
        "{HEADER}change\nF\nF\nchange\nchange\nsync\nF\n change \nF\nsync\nchange"
    )?;
    let trace = read(&rt, text.as_str())?;
    assert!(rt; ends_at(&trace, &[2, 3, 4]));
    assert!(rt; trace.changes.as_slice() == [0, 2, 2, 3, 4].as_slice());
    Ok(())
}

// A heading that reads a trace line by line, compared with the trace that is read as a whole, and lines
// that it refuses.
use exchange_events::{Event, Trace};
use number_plan::Found;
use std::alloc::{AllocError, Global};
use std::test::Fail;
use trace_text::{Happening, Heading, Limits, LineError, Reason, read_trace};

// The lines of traces, with each kind of line among them.
const TRACES: [&[&str]; 3] = [
    &[
        "",
        "#\0",
        "  exchange 1  2 1 3 ",
        "number 12 line 1",
        "sync",
        "number 00 room 63",
        "tone busy  44",
        "timer T303 7",
        "timer T309 9",
        "down 0",
        "M 0 08fF05",
        "up  0",
        " restart  1",
        "restart 0",
        "sync",
        "F",
        "#",
        "sync",
        "sync",
        " nail 0/1  1/17",
    ],
    &[
        "exchange 1 1 0 1",
        "change",
        "F",
        "M  0 ",
        "change",
        "change",
        "sync",
        "seat 0/31 5",
        "free 0/31",
        "change",
    ],
    &["exchange 1 32 2 8", "sync", "", "# no event"],
];

// The events, segment ends and changes of the lines so far.
#[derive(Drop)]
struct Follower {
    heading: Heading,
    events: Vec<Event>,
    ends: Vec<u32>,
    changes: Vec<u32>,
}

impl Follower {
    fn new(alloc: Global) -> Follower {
        Follower {
            heading: Heading::new(alloc),
            events: Vec::new(alloc),
            ends: Vec::new(alloc),
            changes: Vec::new(alloc),
        }
    }

    // Ends the open segment, if it has events.
    fn end_segment(&mut self) -> Result<(), AllocError> {
        let count = self.heading.event_count();
        if count > self.ends.last().copied().unwrap_or(0) {
            self.ends.push(count)?;
        }
        Ok(())
    }

    fn read(&mut self, alloc: Global, line: &str) -> Result<(), Fail> {
        let read = self
            .heading
            .read_line(alloc, Limits::for_lines(), line.as_bytes());
        match read.ok().ok_or("the line is read")? {
            Happening::Nothing => {}
            Happening::Event(event) => self.events.push(event)?,
            Happening::SegmentEnd => self.end_segment()?,
            Happening::Change => {
                self.end_segment()?;
                self.changes.push(self.heading.event_count())?;
            }
        }
        Ok(())
    }
}

// Returns the effects of these lines. The last segment is ended.
fn followed(alloc: Global, lines: &[&str]) -> Result<Follower, Fail> {
    let mut follower = Follower::new(alloc);
    for line in lines {
        follower.read(alloc, line)?;
    }
    follower.end_segment()?;
    Ok(follower)
}

// The trace of these lines.
fn trace_of(alloc: Global, lines: &[&str]) -> Result<Trace, Fail> {
    let mut text = Vec::new(alloc);
    for line in lines {
        text.extend_from_slice(line.as_bytes())?;
        text.push(b'\n')?;
    }
    Ok(
        read_trace(alloc, text.as_slice())
            .ok()
            .ok_or("it is a trace")?,
    )
}

fn is_same(one: &Event, other: &Event) -> bool {
    match (one, other) {
        (Event::Nail(a, b), Event::Nail(c, d)) => *a == *c && *b == *d,
        (Event::Seat(a, room), Event::Seat(b, number)) => *a == *b && *room == *number,
        (Event::Free(a), Event::Free(b)) => *a == *b,
        (Event::Message(line, a), Event::Message(number, b)) => {
            *line == *number && a.as_slice() == b.as_slice()
        }
        (Event::LinkUp(a), Event::LinkUp(b)) => *a == *b,
        (Event::LinkDown(a), Event::LinkDown(b)) => *a == *b,
        (Event::RestartLine(a), Event::RestartLine(b)) => *a == *b,
        (Event::Frame(a), Event::Frame(b)) => a.as_slice() == b.as_slice(),
        _ => false,
    }
}

fn are_same(events: &[Event], others: &[Event]) -> bool {
    if events.len() != others.len() {
        return false;
    }
    for place in 0..events.len() {
        if !is_same(&events[place], &others[place]) {
            return false;
        }
    }
    true
}

// Whether the heading has the sizes, the plan, the tones and the timers of the trace.
fn is_heading_of(heading: &Heading, trace: &Trace) -> bool {
    let Some(sizes) = heading.sizes() else {
        return false;
    };
    sizes.external == trace.external
        && sizes.bridges == trace.bridges
        && sizes.processors == trace.processors
        && heading.plan().look(b"12") == trace.plan.look(b"12")
        && heading.plan().look(b"00") == trace.plan.look(b"00")
        && heading.tones().busy.as_slice() == trace.tones.busy.as_slice()
        && heading.timers().t303 == trace.timers.t303
        && heading.timers().t305 == trace.timers.t305
        && heading.timers().t309 == trace.timers.t309
}

fn tells_the_same(follower: &Follower, trace: &Trace) -> bool {
    is_heading_of(&follower.heading, trace)
        && are_same(follower.events.as_slice(), trace.events.as_slice())
        && follower.ends.as_slice() == trace.segments.as_slice()
        && follower.changes.as_slice() == trace.changes.as_slice()
}

#[test]
fn a_heading_tells_what_a_trace_says(rt: HostRuntime) -> Result<(), Fail> {
    let alloc = rt.alloc();
    for lines in TRACES {
        let follower = followed(alloc, lines)?;
        let trace = trace_of(alloc, lines)?;
        assert!(rt; tells_the_same(&follower, &trace));
    }
    Ok(())
}

// Lines that are refused after the lines of `BEFORE`, each for its reason.
const REFUSED: [(&str, Reason); 17] = [
    ("exchange 1 2 1 3", Reason::Word),
    ("number 121 line 0", Reason::Prefix),
    ("number 4x line 0", Reason::Number),
    ("tone busy 11", Reason::Word),
    ("timer T303 8", Reason::Word),
    ("M 2", Reason::Slot),
    ("M 0 0", Reason::Hex),
    ("F 1:00", Reason::Length),
    ("up 2", Reason::Slot),
    ("down 00", Reason::Slot),
    ("down", Reason::Word),
    ("up 0 1", Reason::Word),
    ("restart", Reason::Word),
    ("restart 2", Reason::Slot),
    ("restart 0/1", Reason::Slot),
    ("restart 0 1", Reason::Word),
    ("restarts 0", Reason::Word),
];

const BEFORE: [&str; 4] = [
    "exchange 1 2 1 3",
    "number 12 line 1",
    "tone busy 44",
    "timer T303 7",
];

// Whether the heading has the content of the lines of `BEFORE` and this many events.
fn is_still(heading: &Heading, count: u32) -> bool {
    heading.event_count() == count
        && heading.plan().look(b"12") == Found::Line(1)
        && heading.plan().look(b"121") == Found::Line(1)
        && heading.plan().look(b"4") == Found::Nothing
        && heading.tones().busy.as_slice() == [0x44].as_slice()
        && heading.timers().t303 == 7
}

// Whether the line is refused for this reason and changes nothing.
fn refuses(heading: &mut Heading, alloc: Global, limits: Limits, line: &str, why: Reason) -> bool {
    let count = heading.event_count();
    heading.read_line(alloc, limits, line.as_bytes()).err() == Some(LineError::Refused(why))
        && is_still(heading, count)
}

fn refuses_each(heading: &mut Heading, alloc: Global, rows: &[(&str, Reason)]) -> bool {
    for (line, why) in rows {
        if !refuses(heading, alloc, Limits::for_lines(), line, *why) {
            return false;
        }
    }
    true
}

#[test]
fn a_refused_line_changes_nothing(rt: HostRuntime) -> Result<(), Fail> {
    let alloc = rt.alloc();
    let mut follower = followed(alloc, &BEFORE)?;
    assert!(rt; refuses_each(&mut follower.heading, alloc, &REFUSED));
    follower.read(alloc, "F")?;
    let most = Limits {
        max_events: 1,
        max_changes: 0,
    };
    assert!(rt; refuses(&mut follower.heading, alloc, most, "F", Reason::Limit));
    assert!(rt; refuses(&mut follower.heading, alloc, most, "change", Reason::Limit));
    follower.read(alloc, "F")?;
    assert!(rt; is_still(&follower.heading, 2));
    Ok(())
}

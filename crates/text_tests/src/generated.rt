// The events, frames and segments of generated traces, compared with the counts of another program.
use exchange_events::{Event, Trace};
use generated_trace::generate_trace;
use std::alloc::{AllocError, Global};
use std::test::Fail;

// Returns the number of frames of a trace.
fn frames(trace: &Trace) -> usize {
    let mut count: usize = 0;
    for event in trace.events.as_slice() {
        if matches!(event, Event::Frame(_)) {
            count = count.saturating_add(1);
        }
    }
    count
}

// Returns whether a trace has this many events, frames and segments.
fn has_counts(trace: &Trace, events: usize, of_frames: usize, segments: usize) -> bool {
    trace.events.as_slice().len() == events
        && frames(trace) == of_frames
        && trace.segments.as_slice().len() == segments
}

// A seed and a number of calls, and the numbers of events, frames and segments of the trace.
const COUNTS: [(u64, u32, usize, usize, usize); 5] = [
    (0, 1, 87, 2, 7),
    (6, 1, 84, 1, 5),
    (1, 3, 101, 6, 19),
    (18446744073709551615, 5, 114, 11, 29),
    (4294967295, 2000, 13618, 3986, 11553),
];

fn have_counts(
    alloc: Global,
    rows: &[(u64, u32, usize, usize, usize)],
) -> Result<bool, AllocError> {
    for (seed, calls, events, of_frames, segments) in rows {
        let calls = *calls;
        if calls < 1 || calls > 2000 {
            return Ok(false);
        }
        let trace = generate_trace(alloc, *seed, calls)?;
        if !has_counts(&trace, *events, *of_frames, *segments) {
            return Ok(false);
        }
    }
    Ok(true)
}

#[test]
fn traces_have_their_events_and_frames(rt: HostRuntime) -> Result<(), Fail> {
    assert!(rt; have_counts(rt.alloc(), &COUNTS)?);
    Ok(())
}

//! The output of the command `gen`.
ghost use Rattle.std.specs.Prelude.{◌≡◌, [], ◌++◌, count_by, map, IfOk};
ghost use Rattle.std.specs.List.{concat};
ghost use Rattle.exchange_run.specs.Summary.{is_frame, summary_text};

use exchange_events::{Event, Trace};
use itoa::Buffer;
use meters::{Meter, append_summaries};
use std::alloc::{AllocError, Global};

/// Returns the line that counts the events and the frames of a trace, and each meter's text, in order.
pub fn summary(
    alloc: Global,
    trace: &Trace,
    meters: &[Box<dyn Meter>],
) -> Result<Vec<u8>, AllocError>
    ensures { IfOk result (λ t. t.items ≡ summary_text trace.now (concat (map (λ meter. text meter []) meters.now))) }
{
    let mut buffer = Buffer::new();
    let events = trace.events.as_slice();
    let mut text = Vec::from_slice(alloc, b"events ")?;
    text.extend_from_slice(buffer.format(events.len()).as_bytes())?;
    text.extend_from_slice(b" frames ")?;
    text.extend_from_slice(buffer.format(frames_in(events)).as_bytes())?;
    text.extend_from_slice(b"\n")?;
    append_summaries(meters, &mut text)?;
    Ok(text)
}

// Returns the number of frames among the events.
fn frames_in(events: &[Event]) -> usize
    ensures { result ≡ count_by is_frame events.now }
{
    events
        .iter()
        .filter(|event| matches!(event, Event::Frame(_)))
        .count()
}

//! The choice between threads and one thread for a segment.
ghost use Rattle.std.specs.Prelude.{◌<◌, ◌≤◌, ◌↔◌, IsTrue, length};
ghost use Rattle.exchange_events.specs.Sound.{IsSound};
ghost use Rattle.call_processor.specs.Parts.{events_of_segment};
ghost use Rattle.segment_run.specs.Choice.{events_beside};
ghost use Rattle.segment_run.specs.declared.choice.TheConstants.{MIN_PARALLEL_EVENTS};

use call_processor::event_range;
use exchange_events::Trace;

/// The least number of events outside the largest part of a segment for which threads pay. `bench/README.md` has the
/// measurements.
pub const MIN_PARALLEL_EVENTS: u32 = 4096;

/// Returns whether all parts of a segment except the largest have enough events together for threads, from the number
/// of events of each worker.
pub fn is_worth_threads(loads: &[u32; 9]) -> bool
    ensures { IsTrue result ↔ MIN_PARALLEL_EVENTS ≤ events_beside loads.now }
{
    let mut largest: u32 = 0;
    let mut beside: u32 = 0;
    for load in loads {
        beside = beside.saturating_add(largest.min(*load));
        largest = largest.max(*load);
    }
    beside >= MIN_PARALLEL_EVENTS
}

/// Returns whether a segment has fewer events than threads need, whichever worker has them.
pub fn is_short(trace: &Trace, segment: u32) -> bool
    requires sound { IsSound trace.now }
    requires segment { segment < length trace.now.segments }
    ensures { IsTrue result ↔ length (events_of_segment trace.now segment) < MIN_PARALLEL_EVENTS }
{
    let (first, end) = event_range(trace, segment);
    end - first < MIN_PARALLEL_EVENTS
}

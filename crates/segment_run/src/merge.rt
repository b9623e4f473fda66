//! The answers of several workers, merged by their positions in the history.
ghost use Rattle.std.specs.Prelude.{◌≡◌, ◌≤◌, ℕ, List, length, OnOk, OnErr, vec_capacity};
ghost use Rattle.call_processor.specs.declared.worked.Placed.{Placed};
ghost use Rattle.call_processor.specs.Keeping.{StillHolds};
ghost use Rattle.segment_run.specs.Merging.{AddsMerged, IsNextRun, Keep, first_of_two};
ghost use Rattle.segment_run.specs.Merging.{AreApart};
ghost use Rattle.segment_run.specs.Merging.{all_of};

use call_processor::{AnswerSink, WorkerBuffers};
use std::alloc::AllocError;

// Returns the index of the sink that has the first event of all, the position of this event, and the position of the
// first event of the others.
fn next_run<K: AnswerSink>(used: &[WorkerBuffers<K>]) -> Option<(usize, u32, u32)>
    ensures { IsNextRun K.holds used.now (length used.now) result }
{
    let mut found = None;
    for i in 0..used.len() {
        if let Some(place) = used[i].sink.first_place() {
            found = Some(earlier(found, i, place));
        }
    }
    found
}

// Returns the earlier of the result so far and an event of buffers i, with the first position of all others.
fn earlier(found: Option<(usize, u32, u32)>, i: usize, place: u32) -> (usize, u32, u32)
    ensures { result ≡ first_of_two found i place }
{
    match found {
        None => (i, place, u32::MAX),
        Some((k, first, below)) => {
            if place < first {
                (i, place, first)
            } else if place < below {
                (k, first, place)
            } else {
                (k, first, below)
            }
        }
    }
}

/// Appends the answers of all these sinks to the answers of `into`, in the order of their positions. The sink whose
/// first event comes first moves all its events that come before any other sink's, so each round compares at most
/// nine positions. `count` is the number of all events.
///
/// # Errors
///
/// [`AllocError`] if an allocation fails. Then `into` has the answers that it had before, and perhaps more after them.
pub fn merge<K: AnswerSink>(
    into: &mut K,
    used: &mut Vec<WorkerBuffers<K>>,
    count: usize,
) -> Result<(), AllocError>
    ensures merged { OnOk result ((kept : List Placed) (parts : List (List Placed)) → K.holds into.old kept → Keep K.holds used.old.items parts
        → AreApart parts → length (all_of parts) ≤ count → AddsMerged K.holds kept parts into.new) }
    ensures refused { OnErr result ((kept : List Placed) (parts : List (List Placed)) → K.holds into.old kept → Keep K.holds used.old.items parts
        → AreApart parts → StillHolds K.holds kept into.new) }
    ensures count { length used.new.items ≡ length used.old.items }
    ensures room { vec_capacity used.new ≡ vec_capacity used.old }
{
    for _ in 0..count {
        let Some((k, _, below)) = next_run(used.as_slice()) else {
            return Ok(());
        };
        used[k].sink.move_before(into, below)?;
    }
    Ok(())
}

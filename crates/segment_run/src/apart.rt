//! A segment whose workers run in parallel, each in its own thread.
ghost use Rattle.std.specs.Prelude.{◌≡◌, ◌+◌, ◌≤◌, ℕ, List, [], IsTrue, IfOk, OnOk, OnErr, length, slice_index, vec_len, vec_capacity};
ghost use Rattle.exchange_core.specs.Boards.{turns_of};
ghost use Rattle.tone_rules.specs.Tables.{table_of};
ghost use Rattle.call_processor.specs.declared.worked.Placed.{Placed};
ghost use Rattle.call_processor.specs.Frames.{IsReadyAt};
ghost use Rattle.segment_run.specs.Merging.{AddsMerged, AreApart, AreKeptApart, Keep, all_of};
ghost use Rattle.segment_run.specs.Segment.{AddsAnswers, IsChief, MayRun, Ran, RanTo};
ghost use Rattle.segment_run.specs.Workers.{load};

use crate::answers::SegmentOutput;
use crate::buffer_pool::BufferPool;
use crate::merge::merge;
use crate::working::work_all;
use call_processor::{AnswerSink, Machine, RunContext, WorkerBuffers, event_range};
use exchange_core::Switchboard;
use frame_engine::Carrier;
use gate::Gate;
use std::alloc::AllocError;
use std::sync::Wait;
use std::thread::Threads;

/// Runs the workers of one segment in parallel and merges their answers. `loads` has the number of events of each
/// worker.
///
/// # Errors
///
/// [`AllocError`] if an allocation fails. The history then has the events processed so far, the buffer pool is dropped,
/// and the sink has only the answers that it had before.
pub fn run_apart<B: Switchboard, G: Gate, C: Carrier, K: AnswerSink, R: Threads + Wait + Sync>(
    cx: &RunContext<B, G, R>,
    seat: &mut B::Seat,
    segment: u32,
    machine: Box<Machine<C>>,
    buffer_pool: BufferPool<B::Seat, K>,
    sink: &mut K,
    loads: &[u32; 9],
) -> Result<SegmentOutput<B::Seat, C, K>, AllocError>
    requires seated { B.seated cx.now.board.now seat.old }
    requires may { MayRun (B.board cx.now.board.now) cx.now.trace.now segment (B.known seat.old) }
    requires loads { (i : ℕ) → i ≤ cx.now.trace.now.processors → slice_index loads.now i ≡ load cx.now.trace.now segment i }
    requires ready { IsReadyAt C.carries C.next C.sizes (B.board cx.now.board.now) (B.known seat.old) machine.value }
    ensures seated { B.seated cx.now.board.now seat.new }
    ensures chief { IsChief (turns_of (B.board cx.now.board.now)) (B.known seat.new) }
    ensures ran { Ran cx.now.trace.now segment (B.known seat.old) (B.known seat.new) }
    ensures whole { IfOk result (RanTo C.carries C.next C.sizes (B.board cx.now.board.now)
        cx.now.trace.now segment (B.known seat.old) (B.known seat.new)) }
    ensures answered { OnOk result ((kept : List Placed) → K.holds sink.old kept
        → AddsAnswers K.holds C.plays (table_of cx.now.trace.now.tones) (B.board cx.now.board.now) (B.known seat.old) (B.known seat.new) kept sink.new) }
    ensures kept { OnErr result ((kept : List Placed) → K.holds sink.old kept → K.holds sink.new kept) }
{
    let mut done = work_all(cx, seat, segment, machine, buffer_pool, loads);
    let (first, end) = event_range(cx.trace, segment);
    merge_or_truncate(sink, &mut done.used, done.whole, (end - first) as usize)?;
    give_back(&mut done.used, &mut done.unused);
    Ok(SegmentOutput {
        machine: done.machine,
        buffer_pool: BufferPool {
            unused: done.unused,
            used: done.used,
            batch: done.batch,
        },
    })
}

// Appends the answers in these buffers to the sink's, in the order of the history, if all parts are
// complete. Otherwise, and if an allocation fails, the sink has only the answers that it had before.
fn merge_or_truncate<K: AnswerSink>(
    sink: &mut K,
    used: &mut Vec<WorkerBuffers<K>>,
    whole: bool,
    count: usize,
) -> Result<(), AllocError>
    ensures whole { OnOk result (IsTrue whole) }
    ensures merged { OnOk result ((kept : List Placed) (parts : List (List Placed)) → K.holds sink.old kept → Keep K.holds used.old.items parts
        → AreApart parts → length (all_of parts) ≤ count → AddsMerged K.holds kept parts sink.new) }
    ensures kept { OnErr result ((kept : List Placed) → K.holds sink.old kept → (IsTrue whole → AreKeptApart K.holds used.old.items)
        → K.holds sink.new kept) }
    ensures count { length used.new.items ≡ length used.old.items }
    ensures room { vec_capacity used.new ≡ vec_capacity used.old }
{
    if !whole {
        return Err(AllocError);
    }
    let kept = sink.len();
    let done = merge(sink, used, count);
    if done.is_err() {
        sink.truncate(kept);
    }
    done
}

// Moves the used buffers to the others.
fn give_back<K>(used: &mut Vec<WorkerBuffers<K>>, unused: &mut Vec<WorkerBuffers<K>>)
    requires room { vec_len unused.old + vec_len used.old ≤ vec_capacity unused.old }
    ensures back { length unused.new.items ≡ length unused.old.items + length used.old.items }
    ensures gone { (used.new.items ≡ []) × (vec_capacity used.new ≡ vec_capacity used.old) }
{
    while let Some(one) = used.pop() {
        unused.push_reserved(one);
    }
}

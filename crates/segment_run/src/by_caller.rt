//! A segment that its caller processes.
ghost use Rattle.std.specs.Prelude.{List, OnOk, OnErr};
ghost use Rattle.exchange_core.specs.Boards.{turns_of};
ghost use Rattle.tone_rules.specs.Tables.{table_of};
ghost use Rattle.call_processor.specs.declared.worked.Placed.{Placed};
ghost use Rattle.call_processor.specs.Frames.{IsReadyAt};
ghost use Rattle.segment_run.specs.Segment.{AddsAnswers, HasGrown, IsChief, MayRun, Ran, RanWhole};

use crate::buffer_pool::BufferPool;
use call_processor::{AnswerSink, Machine, RunContext, run_sequential};
use exchange_core::Switchboard;
use frame_engine::Carrier;
use gate::Gate;
use std::alloc::AllocError;
use std::sync::Wait;
use std::thread::Threads;

/// Processes all events of one segment in the calling thread, in file order, as
/// [`run_segment_with`](crate::run_segment_with) does. The machine and the buffer pool stay with the caller, who also
/// chooses: threads pay for no segment that [is short](crate::is_short).
///
/// # Errors
///
/// [`AllocError`] if an allocation fails. The history then has the events processed so far, and the sink has only the
/// answers that it had before.
pub fn run_by_caller<B: Switchboard, G: Gate, C: Carrier, K: AnswerSink, R: Threads + Wait + Sync>(
    cx: &RunContext<B, G, R>,
    seat: &mut B::Seat,
    segment: u32,
    machine: &mut Machine<C>,
    buffer_pool: &mut BufferPool<B::Seat, K>,
    sink: &mut K,
) -> Result<(), AllocError>
    requires seated { B.seated cx.now.board.now seat.old }
    requires may { MayRun (B.board cx.now.board.now) cx.now.trace.now segment (B.known seat.old) }
    requires ready { IsReadyAt C.carries C.next C.sizes (B.board cx.now.board.now) (B.known seat.old) machine.old }
    ensures seated { B.seated cx.now.board.now seat.new }
    ensures chief { IsChief (turns_of (B.board cx.now.board.now)) (B.known seat.new) }
    ensures ran { Ran cx.now.trace.now segment (B.known seat.old) (B.known seat.new) }
    ensures whole { OnOk result (RanWhole cx.now.trace.now segment (B.known seat.old) (B.known seat.new)) }
    ensures long { OnOk result (HasGrown cx.now.trace.now segment (B.known seat.old) (B.known seat.new)) }
    ensures ready { IsReadyAt C.carries C.next C.sizes (B.board cx.now.board.now) (B.known seat.new) machine.new }
    ensures answered { OnOk result ((kept : List Placed) → K.holds sink.old kept
        → AddsAnswers K.holds C.plays (table_of cx.now.trace.now.tones) (B.board cx.now.board.now) (B.known seat.old) (B.known seat.new) kept sink.new) }
    ensures kept { OnErr result ((kept : List Placed) → K.holds sink.old kept → K.holds sink.new kept) }
{
    let kept = sink.len();
    let buffers = &mut buffer_pool.unused[0];
    let done = run_sequential(cx, seat, segment, machine, buffers, sink);
    if done.is_err() {
        sink.truncate(kept);
        return Err(AllocError);
    }
    Ok(())
}

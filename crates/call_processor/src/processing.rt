ghost use Rattle.std.specs.Prelude.{◌≡◌, ◌<◌, ◌≤◌, [], true, false, All, List, OnOk, OnErr, is_ok, length};
ghost use Rattle.exchange_core.specs.Ahead.{IsReadAt};
ghost use Rattle.exchange_core.specs.Boards.{turns_of};
ghost use Rattle.exchange_core.specs.declared.tool.Tool.TheVariants.{Nothing};
ghost use Rattle.exchange_events.specs.Orders.{IsEvent, Processor};
ghost use Rattle.call_processor.specs.Alone.{DidNext, IsOnly};
ghost use Rattle.call_processor.specs.declared.worked.Placed.{Placed};
ghost use Rattle.call_processor.specs.Keeping.{KeepsEvent, KeepsEvents};
ghost use Rattle.call_processor.specs.Parts.{is_its, part_of};
ghost use Rattle.call_processor.specs.Work.{DidEvent, MayWork};
ghost use Rattle.call_processor.specs.WorkerOutputs.{HasAnswered, HasDoneEvents};

use crate::alloc_failure::AllocFailureFlag;
use crate::answer_list::AnswerList;
use crate::answer_sink::AnswerSink;
use crate::context::RunContext;
use crate::segment::{event_range, is_of_processor};
use crate::worked::{Worked, WorkerBuffers, WorkerOutput};
use exchange_core::{StepContext, Switchboard, Tool};
use exchange_events::Trace;
use gate::Gate;
use std::alloc::{AllocError, Global};
use std::sync::Wait;

/// The greatest number of events in one turn of a call processor. A pass wakes a waiting thread through the scheduler,
/// which takes the time of many events. A waiting worker waits for at most one turn of each other worker.
pub const MAX_TURN_EVENTS: u32 = 512;

// Processes one event of a call processor in a turn of the seat, and keeps the turn if `keep` is true. The context
// holds the message of the event, if it was read ahead.
pub(crate) fn do_event<B: Switchboard, G: Gate, K: AnswerSink, R: Wait>(
    cx: &RunContext<B, G, R>,
    seat: &mut B::Seat,
    processor: u32,
    event: u32,
    keep: bool,
    context: &mut StepContext,
    sink: &mut K,
) -> Result<(), AllocError>
    requires seated { B.seated cx.now.board.now seat.old }
    requires known { IsEvent (B.board cx.now.board.now).trace event }
    requires its { is_its (B.board cx.now.board.now).trace (Processor processor) event ≡ true }
    requires turn { 0 < (B.known seat.old).left }
    requires tool { context.old.tool ≡ Nothing }
    requires ahead { IsReadAt (B.board cx.now.board.now).trace event context.old.ahead }
    ensures seated { B.seated cx.now.board.now seat.new }
    ensures handled { DidEvent (B.known seat.old) event (B.known seat.new) }
    ensures next { IsOnly (B.known seat.old) → DidNext (turns_of (B.board cx.now.board.now)) (B.known seat.old) event (B.known seat.new) }
    ensures tool { context.new.tool ≡ Nothing }
    ensures kept { OnOk result (KeepsEvent K.holds B.board B.known cx.now event seat sink) }
    ensures refused { OnErr result ((answers : List Placed) → K.holds sink.old answers → K.holds sink.new answers) }
{
    cx.gate.before_turn(processor, event);
    let (place, response) = cx.board.handle_into(cx.rt, seat, event, context, keep);
    cx.gate.after_turn(processor, event);
    sink.push(cx.alloc, place, event, response, &context.out, &[], 0)
}

// Processes the events of one call processor in one segment in order, until an allocation fails. It tests every event
// of the segment: there are at most nine workers, and no list is stored. Unless the gate may hold a thread, it keeps
// each turn for `MAX_TURN_EVENTS` events. The caller must release the last turn.
fn do_events<B: Switchboard, G: Gate, K: AnswerSink, R: Wait>(
    cx: &RunContext<B, G, R>,
    seat: &mut B::Seat,
    segment: u32,
    processor: u32,
    context: &mut StepContext,
    sink: &mut K,
    failure: &AllocFailureFlag,
) -> Result<(), AllocError>
    requires seated { B.seated cx.now.board.now seat.old }
    requires may { MayWork (B.board cx.now.board.now) cx.now.trace.now segment (Processor processor) (B.known seat.old) }
    requires processor { processor < cx.now.trace.now.processors }
    requires tool { context.old.tool ≡ Nothing }
    ensures seated { B.seated cx.now.board.now seat.new }
    ensures works { KeepsEvents K.holds B.board B.known cx.now segment processor seat sink (is_ok result) }
{
    sink.clear();
    let (first, end) = event_range(cx.trace, segment);
    let mut left = 0;
    for event in first..end {
        if !is_of_processor(cx.trace, processor, event) {
            continue;
        }
        if failure.is_set() {
            return Err(AllocError);
        }
        context.preparse(cx.trace, event);
        left = if left == 0 { MAX_TURN_EVENTS } else { left } - 1;
        let keep = left > 0 && !cx.gate.may_hold();
        do_event(cx, seat, processor, event, keep, context, sink)?;
    }
    Ok(())
}

/// Processes the events of one call processor in one segment of a board's trace, in file order. Segments and
/// processors are counted from 0. The seat waits for its turn and keeps it for several consecutive events, unless the
/// gate [may hold](Gate::may_hold) a thread. It does not have the turn at the end.
///
/// If an allocation fails, the work ends there, and only the last event processed may lack its answer.
pub fn process<B: Switchboard, G: Gate, R: Wait>(
    rt: &R,
    alloc: Global,
    board: &B,
    mut seat: B::Seat,
    trace: &Trace,
    segment: u32,
    processor: u32,
    gate: &G,
) -> Worked<B::Seat>
    requires seated { B.seated board.now seat }
    requires trace { trace.now ≡ (B.board board.now).trace }
    requires segment { segment < length trace.now.segments }
    requires processor { processor < trace.now.processors }
    requires turns { length (part_of trace.now segment (Processor processor)) ≤ (B.known seat).left }
    ensures seated { B.seated board.now result.seat }
    ensures passed { B.keeps result.seat ≡ false }
    ensures works { HasAnswered B.known (B.board board.now) (part_of trace.now segment (Processor processor)) (B.known seat) result }
    // An event that is not a frame has no octets.
    ensures octets { All (λ p. p.answer.octets ≡ []) result.answers.items }
{
    let cx = RunContext {
        rt,
        alloc,
        board,
        trace,
        gate,
    };
    let mut context = StepContext::new(Tool::Nothing);
    let mut sink = AnswerList::new(alloc);
    let done = do_events(
        &cx,
        &mut seat,
        segment,
        processor,
        &mut context,
        &mut sink,
        &AllocFailureFlag::new(),
    );
    board.release(&mut seat);
    Worked {
        seat,
        answers: Vec::from(sink.items),
        whole: done.is_ok(),
    }
}

/// Processes the events of one call processor in one segment as [`process`] does, with buffers that it receives and
/// returns. It begins with an empty answer sink. If an allocation of another worker has failed, the work ends before
/// the next event. The seat does not have the turn at the end in any case.
pub fn process_with<B: Switchboard, G: Gate, K: AnswerSink, R: Wait>(
    cx: &RunContext<B, G, R>,
    mut seat: B::Seat,
    segment: u32,
    processor: u32,
    mut buffers: WorkerBuffers<K>,
    failure: &AllocFailureFlag,
) -> WorkerOutput<B::Seat, K>
    requires seated { B.seated cx.now.board.now seat }
    requires may { MayWork (B.board cx.now.board.now) cx.now.trace.now segment (Processor processor) (B.known seat) }
    requires processor { processor < cx.now.trace.now.processors }
    ensures seated { B.seated cx.now.board.now result.seat }
    ensures passed { B.keeps result.seat ≡ false }
    ensures works { HasDoneEvents K.holds B.known (B.board cx.now.board.now) cx.now.trace.now segment processor (B.known seat) result }
{
    buffers.context.tool = Tool::Nothing;
    let whole = do_events(
        cx,
        &mut seat,
        segment,
        processor,
        &mut buffers.context,
        &mut buffers.sink,
        failure,
    )
    .is_ok();
    cx.board.release(&mut seat);
    if !whole {
        failure.set();
    }
    WorkerOutput {
        seat,
        buffers,
        whole,
    }
}

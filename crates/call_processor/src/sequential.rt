//! A segment that one thread processes in file order.
ghost use Rattle.std.specs.Prelude.{◌≡◌, ◌<◌, ◌≤◌, IsTrue, List, OnOk, OnErr, is_ok, length};
ghost use Rattle.seat_history.specs.Seats.{Settled};
ghost use Rattle.exchange_core.specs.Boards.{turns_of};
ghost use Rattle.exchange_core.specs.declared.tool.Tool.TheVariants.{Nothing};
ghost use Rattle.exchange_events.specs.Orders.{IsEvent};
ghost use Rattle.call_processor.specs.Alone.{DidInOrder, DidNext, IsOnly, KeepsNext, KeepsSegment};
ghost use Rattle.call_processor.specs.Frames.{IsReadyAt};
ghost use Rattle.call_processor.specs.Parts.{events_of_segment};
ghost use Rattle.call_processor.specs.Work.{DidEvent};
ghost use Rattle.call_processor.specs.declared.worked.Placed.{Placed};

use crate::answer_sink::AnswerSink;
use crate::context::RunContext;
use crate::framing::{do_frame, grow};
use crate::machine::Machine;
use crate::processing::do_event;
use crate::segment::{event_range, input_of, processor_at};
use crate::worked::WorkerBuffers;
use exchange_core::{StepContext, Switchboard, Tool};
use frame_engine::Carrier;
use gate::Gate;
use std::alloc::AllocError;
use std::sync::Wait;
use std::thread::Threads;

// Processes one event of any worker, at the gate with the number of that worker, and keeps the turn. The context serves
// commands and messages. A frame uses the context of the machine.
fn do_next<B: Switchboard, G: Gate, C: Carrier, K: AnswerSink, R: Threads + Wait + Sync>(
    cx: &RunContext<B, G, R>,
    seat: &mut B::Seat,
    event: u32,
    machine: &mut Machine<C>,
    context: &mut StepContext,
    sink: &mut K,
) -> Result<(), AllocError>
    requires seated { B.seated cx.now.board.now seat.old }
    requires trace { cx.now.trace.now ≡ (B.board cx.now.board.now).trace }
    requires some { 0 < cx.now.trace.now.processors }
    requires known { IsEvent cx.now.trace.now event }
    requires turn { 0 < (B.known seat.old).left }
    requires baton { IsTrue (B.known seat.old).baton }
    requires only { IsOnly (B.known seat.old) }
    requires context { context.old.tool ≡ Nothing }
    requires ready { IsReadyAt C.carries C.next C.sizes (B.board cx.now.board.now) (B.known seat.old) machine.old }
    requires lines { length machine.old.octets.items ≡ (B.board cx.now.board.now).trace.external }
    ensures seated { B.seated cx.now.board.now seat.new }
    ensures handled { DidEvent (B.known seat.old) event (B.known seat.new) }
    ensures next { DidNext (turns_of (B.board cx.now.board.now)) (B.known seat.old) event (B.known seat.new) }
    ensures context { context.new.tool ≡ Nothing }
    ensures ready { IsReadyAt C.carries C.next C.sizes (B.board cx.now.board.now) (B.known seat.new) machine.new }
    ensures lines { length machine.new.octets.items ≡ (B.board cx.now.board.now).trace.external }
    ensures kept { OnOk result (KeepsNext K.holds C.plays B.board B.known cx.now event seat sink) }
    ensures refused { OnErr result ((answers : List Placed) → K.holds sink.old answers → K.holds sink.new answers) }
{
    let Some(input) = input_of(cx.trace, event) else {
        // No other seat waits for the turn, so reading the message before the turn gains nothing.
        context.ahead = None;
        let processor = processor_at(cx.trace, event);
        return do_event(cx, seat, processor, event, true, context, sink);
    };
    do_frame(cx, seat, event, true, input, machine, sink)
}

/// Processes all events of one segment of a board's trace in one thread, in file order, with the boundaries and octets
/// of its frames. Segments are counted from 0. The caller is seat 0, which has joined all others, so no other seat
/// processes an event between. At the gate, each event has the number of its worker. An answer sink appends the answers
/// to those that it has.
///
/// The seat keeps the turn from each event to the next, because no other seat waits for it. It has the turn at the end,
/// and its next split, join or release passes the turn on.
///
/// # Errors
///
/// [`AllocError`] if an allocation fails. The work ends there, and only the last event processed may lack its answer.
pub fn run_sequential<B: Switchboard, G: Gate, C: Carrier, K: AnswerSink, R: Threads + Wait + Sync>(
    cx: &RunContext<B, G, R>,
    seat: &mut B::Seat,
    segment: u32,
    machine: &mut Machine<C>,
    buffers: &mut WorkerBuffers<K>,
    sink: &mut K,
) -> Result<(), AllocError>
    requires seated { B.seated cx.now.board.now seat.old }
    requires trace { cx.now.trace.now ≡ (B.board cx.now.board.now).trace }
    requires segment { segment < length cx.now.trace.now.segments }
    requires turns { length (events_of_segment cx.now.trace.now segment) ≤ (B.known seat.old).left }
    requires baton { IsTrue (B.known seat.old).baton }
    requires only { IsOnly (B.known seat.old) }
    requires ready { IsReadyAt C.carries C.next C.sizes (B.board cx.now.board.now) (B.known seat.old) machine.old }
    ensures seated { B.seated cx.now.board.now seat.new }
    ensures in_order { DidInOrder (events_of_segment cx.now.trace.now segment) (B.known seat.old) (is_ok result) (B.known seat.new) }
    ensures settled { Settled (turns_of (B.board cx.now.board.now)) (B.known seat.old) → Settled (turns_of (B.board cx.now.board.now)) (B.known seat.new) }
    ensures works { KeepsSegment K.holds C.plays B.board B.known cx.now segment seat sink (is_ok result) }
    ensures ready { IsReadyAt C.carries C.next C.sizes (B.board cx.now.board.now) (B.known seat.new) machine.new }
{
    if !matches!(buffers.context.tool, Tool::Nothing) {
        buffers.context.tool = Tool::Nothing;
    }
    let external = usize::from(cx.trace.external);
    grow(cx.alloc, &mut machine.octets, external)?;
    let (first, end) = event_range(cx.trace, segment);
    for event in first..end {
        do_next(cx, seat, event, machine, &mut buffers.context, sink)?;
    }
    Ok(())
}

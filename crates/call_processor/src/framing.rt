ghost use Rattle.std.specs.Prelude.{◌≡◌, ◌<◌, ◌≤◌, false, IsTrue, All, List, OnOk, OnErr, is_ok, length};
ghost use Rattle.exchange_events.specs.declared.trace.Event.TheVariants.{Frame};
ghost use Rattle.exchange_events.specs.Orders.{Frame_worker, IsEvent};
ghost use Rattle.exchange_core.specs.Boards.{turns_of};
ghost use Rattle.exchange_core.specs.Working.{IsNumbered};
ghost use Rattle.tone_rules.specs.Tables.{table_of};
ghost use Rattle.call_processor.specs.Alone.{DidNext, IsOnly};
ghost use Rattle.call_processor.specs.Frames.{IsReady, IsReadyAt, HasFrame};
ghost use Rattle.call_processor.specs.Parts.{part_of};
ghost use Rattle.call_processor.specs.declared.worked.Placed.{Placed};
ghost use Rattle.call_processor.specs.Keeping.{KeepsFrame, KeepsFrames};
ghost use Rattle.call_processor.specs.Work.{DidEvent};
ghost use Rattle.call_processor.specs.WorkerOutputs.{EndsReady, HasAnswered, HasRunFrames, MayDoFrames};

use crate::alloc_failure::AllocFailureFlag;
use crate::answer_list::AnswerList;
use crate::answer_sink::AnswerSink;
use crate::context::RunContext;
use crate::machine::Machine;
use crate::segment::{event_range, input_of};
use crate::worked::{FrameWorkerOutput, Framed, Worked, WorkerBuffers, WorkerOutput};
use circuit_model::IDLE;
use exchange_core::{Switchboard, Tool};
use exchange_events::{Input, Trace};
use frame_engine::Carrier;
use gate::Gate;
use std::alloc::{AllocError, Global};
use std::sync::Wait;
use std::thread::Threads;

// Processes one frame: its boundary in a turn of the seat, then its octets. Unless `keep` is true, the seat passes the
// turn before the octets move, so that the call processors go on meanwhile.
pub(crate) fn do_frame<
    B: Switchboard,
    G: Gate,
    C: Carrier,
    K: AnswerSink,
    R: Threads + Wait + Sync,
>(
    cx: &RunContext<B, G, R>,
    seat: &mut B::Seat,
    event: u32,
    keep: bool,
    input: &Input,
    machine: &mut Machine<C>,
    sink: &mut K,
) -> Result<(), AllocError>
    requires seated { B.seated cx.now.board.now seat.old }
    requires known { IsEvent (B.board cx.now.board.now).trace event }
    requires frame { IsNumbered (B.board cx.now.board.now).trace event (Frame input.now) }
    requires turn { 0 < (B.known seat.old).left }
    requires baton { IsTrue (B.known seat.old).baton }
    requires ready { IsReadyAt C.carries C.next C.sizes (B.board cx.now.board.now) (B.known seat.old) machine.old }
    requires trace { cx.now.trace.now ≡ (B.board cx.now.board.now).trace }
    requires lines { length machine.old.octets.items ≡ (B.board cx.now.board.now).trace.external }
    ensures seated { B.seated cx.now.board.now seat.new }
    ensures handled { DidEvent (B.known seat.old) event (B.known seat.new) }
    ensures next { IsOnly (B.known seat.old) → DidNext (turns_of (B.board cx.now.board.now)) (B.known seat.old) event (B.known seat.new) }
    ensures ready { IsReadyAt C.carries C.next C.sizes (B.board cx.now.board.now) (B.known seat.new) machine.new }
    ensures lines { length machine.new.octets.items ≡ (B.board cx.now.board.now).trace.external }
    ensures kept { OnOk result (KeepsFrame K.holds C.plays B.board B.known cx.now event seat sink) }
    ensures refused { OnErr result ((answers : List Placed) → K.holds sink.old answers → K.holds sink.new answers) }
{
    let worker = u32::from(cx.trace.processors);
    cx.gate.before_turn(worker, event);
    let (place, response) = cx
        .board
        .handle_into(cx.rt, seat, event, &mut machine.context, keep);
    cx.gate.after_turn(worker, event);
    let Tool::Image(image) = &mut machine.context.tool else {
        unreachable!()
    };
    let frame = image.frame();
    cx.gate.before_crossing(frame);
    let octets = machine.octets.as_mut_slice();
    machine
        .engine
        .frame(cx.rt, image, &cx.trace.tones, input.as_slice(), octets);
    cx.gate.after_crossing(frame);
    let octets = machine.octets.as_slice();
    sink.push(
        cx.alloc,
        place,
        event,
        response,
        &machine.context.out,
        octets,
        machine.engine.sounding(),
    )
}

// Gives the buffer the length of n lines, if it has another one.
pub(crate) fn grow(
    alloc: Global,
    octets: &mut Vec<[u8; 30]>,
    lines: usize,
) -> Result<(), AllocError>
    ensures { OnOk result (length octets.new.items ≡ lines) }
{
    if octets.len() != lines {
        *octets = vec![in alloc; [IDLE; 30]; lines]?;
    }
    Ok(())
}

// Processes the frames of a segment in order, until an allocation fails.
fn do_frames<B: Switchboard, G: Gate, C: Carrier, K: AnswerSink, R: Threads + Wait + Sync>(
    cx: &RunContext<B, G, R>,
    seat: &mut B::Seat,
    segment: u32,
    machine: &mut Machine<C>,
    sink: &mut K,
    failure: &AllocFailureFlag,
) -> Result<(), AllocError>
    requires seated { B.seated cx.now.board.now seat.old }
    requires may { MayDoFrames C.carries C.next C.sizes (B.board cx.now.board.now) cx.now.trace.now segment (B.known seat.old) machine.old }
    ensures seated { B.seated cx.now.board.now seat.new }
    ensures works { KeepsFrames K.holds C.plays B.board B.known cx.now segment seat sink (is_ok result) }
    ensures ready { IsReadyAt C.carries C.next C.sizes (B.board cx.now.board.now) (B.known seat.new) machine.new }
{
    sink.clear();
    let external = usize::from(cx.trace.external);
    grow(cx.alloc, &mut machine.octets, external)?;
    let (first, end) = event_range(cx.trace, segment);
    for event in first..end {
        let Some(input) = input_of(cx.trace, event) else {
            continue;
        };
        if failure.is_set() {
            return Err(AllocError);
        }
        do_frame(cx, seat, event, false, input, machine, sink)?;
    }
    Ok(())
}

/// Processes the frames of one segment of a board's trace, in file order. Segments are counted from 0. Each boundary
/// waits for a turn of the seat, and the seat passes the turn before the octets of the frame move, so that the call
/// processors go on meanwhile. At the gate, the number of the frame worker is the number of call processors.
///
/// The octets of an answer are those that the engine outputs in its frame, with the tones of the trace, for each
/// external line.
///
/// If an allocation fails, the work ends there, and only the last frame processed may lack its answer.
pub fn run_frames<B: Switchboard, G: Gate, C: Carrier, R: Threads + Wait + Sync>(
    rt: &R,
    alloc: Global,
    board: &B,
    mut seat: B::Seat,
    trace: &Trace,
    segment: u32,
    engine: C,
    tool: Tool,
    gate: &G,
) -> Framed<B::Seat, C>
    requires seated { B.seated board.now seat }
    requires trace { trace.now ≡ (B.board board.now).trace }
    requires segment { segment < length trace.now.segments }
    requires turns { length (part_of trace.now segment Frame_worker) ≤ (B.known seat).left }
    requires baton { IsTrue (B.known seat).baton }
    // The engine carries the frames of the history that the seat has seen, and the tool is of its size.
    requires ready { IsReady C.carries C.next C.sizes (B.board board.now) (B.known seat).seen engine tool }
    ensures seated { B.seated board.now result.worked.seat }
    ensures passed { B.keeps result.worked.seat ≡ false }
    ensures works { HasAnswered B.known (B.board board.now) (part_of trace.now segment Frame_worker) (B.known seat) result.worked }
    ensures ready { EndsReady C.carries C.next C.sizes B.known (B.board board.now) result }
    ensures octets { All (HasFrame C.plays (table_of trace.now.tones) (B.board board.now) (B.known result.worked.seat)) result.worked.answers.items }
{
    let cx = RunContext {
        rt,
        alloc,
        board,
        trace,
        gate,
    };
    let mut machine = Machine::new(alloc, engine, tool);
    let mut sink = AnswerList::new(alloc);
    let done = do_frames(
        &cx,
        &mut seat,
        segment,
        &mut machine,
        &mut sink,
        &AllocFailureFlag::new(),
    );
    board.release(&mut seat);
    Framed {
        worked: Worked {
            seat,
            answers: Vec::from(sink.items),
            whole: done.is_ok(),
        },
        engine: machine.engine,
        tool: machine.context.tool,
    }
}

/// Processes the frames of one segment as [`run_frames`] does, with a machine and with buffers that the frame worker
/// receives and returns. It begins with an empty answer sink. If an allocation of another worker has failed, the work
/// ends before the next frame.
pub fn run_frames_with<
    B: Switchboard,
    G: Gate,
    C: Carrier,
    K: AnswerSink,
    R: Threads + Wait + Sync,
>(
    cx: &RunContext<B, G, R>,
    mut seat: B::Seat,
    segment: u32,
    mut machine: Box<Machine<C>>,
    mut buffers: WorkerBuffers<K>,
    failure: &AllocFailureFlag,
) -> FrameWorkerOutput<B::Seat, C, K>
    requires seated { B.seated cx.now.board.now seat }
    requires may { MayDoFrames C.carries C.next C.sizes (B.board cx.now.board.now) cx.now.trace.now segment (B.known seat) machine.value }
    ensures seated { B.seated cx.now.board.now result.output.seat }
    ensures passed { B.keeps result.output.seat ≡ false }
    ensures done { HasRunFrames K.holds C.plays C.carries C.next C.sizes B.known (B.board cx.now.board.now)
        cx.now.trace.now segment (B.known seat) result }
{
    let whole = do_frames(
        cx,
        &mut seat,
        segment,
        &mut machine,
        &mut buffers.sink,
        failure,
    )
    .is_ok();
    cx.board.release(&mut seat);
    if !whole {
        failure.set();
    }
    FrameWorkerOutput {
        output: WorkerOutput {
            seat,
            buffers,
            whole,
        },
        machine,
    }
}

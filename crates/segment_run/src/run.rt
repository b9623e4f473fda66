//! A run of a segment, with any answer sink or with complete answers.
ghost use Rattle.std.specs.Prelude.{◌≡◌, ◌+◌, ◌<◌, ◌≤◌, ◌^◌, List, IfOk, OnOk, OnErr, length, map};
ghost use Rattle.exchange_core.specs.Boards.{turns_of};
ghost use Rattle.tone_rules.specs.Tables.{table_of};
ghost use Rattle.call_processor.specs.declared.worked.Placed.{Placed};
ghost use Rattle.call_processor.specs.Frames.{IsReady, IsReadyAt, IsReadyFor};
ghost use Rattle.segment_run.specs.Segment.{AddsAnswers, HasGrown, HasTurns, IsAnswerOf, IsChief, MayRun, Ran, RanTo, RanWhole, HasAnswers};

use crate::answers::{SegmentAnswer, SegmentOutput};
use crate::apart::run_apart;
use crate::buffer_pool::BufferPool;
use crate::by_caller::run_by_caller;
use crate::choice::is_worth_threads;
use crate::dealing::loads_of;
use call_processor::{AnswerList, AnswerSink, Machine, Placed, RunContext};
use exchange_core::{Switchboard, Tool};
use exchange_events::{Answer, Trace};
use frame_engine::Carrier;
use gate::Gate;
use std::alloc::{AllocError, Global};
use std::collections::VecDeque;
use std::sync::Wait;
use std::thread::Threads;

/// Runs one segment of a board's trace. Segments are counted from 0. Returns the answers in the order of the history.
///
/// If threads pay, or if the gate requests them, each worker that has events gets its own seat, with a turn for each of
/// them, and processes them in file order. All workers run in parallel, one of them in the calling thread, and then
/// seat 0 joins their seats. Otherwise the calling thread processes all events in file order.
///
/// Seat 0 holds the baton, all other seats are joined, and it has a turn for each event of the segment.
///
/// # Errors
///
/// [`AllocError`] if an allocation fails. The history then has the events processed so far.
pub fn run_segment<B: Switchboard, G: Gate, C: Carrier, R: Threads + Wait + Sync>(
    rt: &R,
    alloc: Global,
    board: &B,
    seat: &mut B::Seat,
    trace: &Trace,
    segment: u32,
    engine: C,
    tool: Tool,
    gate: &G,
) -> Result<SegmentAnswer<C>, AllocError>
    requires seated { B.seated board.now seat.old }
    requires trace { trace.now ≡ (B.board board.now).trace }
    requires segment { segment < length trace.now.segments }
    requires chief { IsChief (turns_of (B.board board.now)) (B.known seat.old) }
    requires numbers { (B.known seat.old).made + 10 < 2 ^ 32 }
    requires turns { HasTurns trace.now segment (B.known seat.old) }
    requires ready { IsReady C.carries C.next C.sizes (B.board board.now) (B.known seat.old).seen engine tool }
    ensures seated { B.seated board.now seat.new }
    ensures chief { IsChief (turns_of (B.board board.now)) (B.known seat.new) }
    ensures ran { Ran trace.now segment (B.known seat.old) (B.known seat.new) }
    ensures whole { IfOk result (λ a. RanWhole trace.now segment (B.known seat.old) (B.known seat.new)) }
    ensures turns { IfOk result (λ a. HasGrown trace.now segment (B.known seat.old) (B.known seat.new)) }
    ensures answered { IfOk result (HasAnswers C.plays (B.board board.now) trace.now (B.known seat.old) (B.known seat.new)) }
    ensures ready { IfOk result (λ a. IsReadyFor C.carries C.next C.sizes (B.board board.now) (B.known seat.new) a.engine a.tool) }
{
    let cx = RunContext {
        rt,
        alloc,
        board,
        trace,
        gate,
    };
    let buffer_pool = BufferPool::new(alloc, &AnswerList::new(alloc))?;
    let machine = Box::new(alloc, Machine::new(alloc, engine, tool))?;
    let answer = run_for_answers(&cx, seat, segment, machine, buffer_pool)?;
    Ok(answer)
}

// Runs one segment in this buffer pool, with a list of complete answers as the sink.
fn run_for_answers<B: Switchboard, G: Gate, C: Carrier, R: Threads + Wait + Sync>(
    cx: &RunContext<B, G, R>,
    seat: &mut B::Seat,
    segment: u32,
    machine: Box<Machine<C>>,
    buffer_pool: BufferPool<B::Seat, AnswerList>,
) -> Result<SegmentAnswer<C>, AllocError>
    requires seated { B.seated cx.now.board.now seat.old }
    requires may { MayRun (B.board cx.now.board.now) cx.now.trace.now segment (B.known seat.old) }
    requires ready { IsReadyAt C.carries C.next C.sizes (B.board cx.now.board.now) (B.known seat.old) machine.value }
    ensures seated { B.seated cx.now.board.now seat.new }
    ensures chief { IsChief (turns_of (B.board cx.now.board.now)) (B.known seat.new) }
    ensures ran { Ran cx.now.trace.now segment (B.known seat.old) (B.known seat.new) }
    ensures answer { IfOk result (IsAnswerOf C.plays C.carries C.next C.sizes (B.board cx.now.board.now)
        cx.now.trace.now segment (B.known seat.old) (B.known seat.new)) }
{
    let mut sink = AnswerList::new(cx.alloc);
    let done = run_segment_with(cx, seat, segment, machine, buffer_pool, &mut sink)?;
    let answers = answers_of(cx.alloc, &mut sink.items)?;
    let machine = Box::into_inner(done.machine);
    Ok(SegmentAnswer {
        answers,
        engine: machine.engine,
        tool: machine.context.tool,
    })
}

// Moves the answers out of their positions.
fn answers_of(alloc: Global, placed: &mut VecDeque<Placed>) -> Result<Vec<Answer>, AllocError>
    ensures { IfOk result (λ m. m.items ≡ map (λ p. p.answer) placed.old.items) }
{
    let mut answers = Vec::with_capacity(alloc, placed.len())?;
    while let Some(one) = placed.pop_front() {
        answers.push_reserved(one.answer);
    }
    Ok(answers)
}

/// Runs one segment of a board's trace as [`run_segment`] does, with a machine and in a buffer pool that it returns for
/// the next segment. Appends the answers to an answer sink's, in the order of the history.
///
/// # Errors
///
/// [`AllocError`] if an allocation fails. The history then has the events processed so far, the buffer pool is dropped,
/// and the sink has only the answers that it had before.
pub fn run_segment_with<
    B: Switchboard,
    G: Gate,
    C: Carrier,
    K: AnswerSink,
    R: Threads + Wait + Sync,
>(
    cx: &RunContext<B, G, R>,
    seat: &mut B::Seat,
    segment: u32,
    mut machine: Box<Machine<C>>,
    mut buffer_pool: BufferPool<B::Seat, K>,
    sink: &mut K,
) -> Result<SegmentOutput<B::Seat, C, K>, AllocError>
    requires seated { B.seated cx.now.board.now seat.old }
    requires may { MayRun (B.board cx.now.board.now) cx.now.trace.now segment (B.known seat.old) }
    requires ready { IsReadyAt C.carries C.next C.sizes (B.board cx.now.board.now) (B.known seat.old) machine.value }
    ensures seated { B.seated cx.now.board.now seat.new }
    ensures chief { IsChief (turns_of (B.board cx.now.board.now)) (B.known seat.new) }
    ensures ran { Ran cx.now.trace.now segment (B.known seat.old) (B.known seat.new) }
    ensures whole { IfOk result (RanTo C.carries C.next C.sizes (B.board cx.now.board.now)
        cx.now.trace.now segment (B.known seat.old) (B.known seat.new)) }
    ensures answered { OnOk result ((kept : List Placed) → K.holds sink.old kept
        → AddsAnswers K.holds C.plays (table_of cx.now.trace.now.tones) (B.board cx.now.board.now) (B.known seat.old) (B.known seat.new) kept sink.new) }
    ensures kept { OnErr result ((kept : List Placed) → K.holds sink.old kept → K.holds sink.new kept) }
{
    let loads = loads_of(cx.trace, segment);
    if cx.gate.apart() || is_worth_threads(&loads) {
        return run_apart(cx, seat, segment, machine, buffer_pool, sink, &loads);
    }
    run_by_caller(cx, seat, segment, &mut machine, &mut buffer_pool, sink)?;
    Ok(SegmentOutput {
        machine,
        buffer_pool,
    })
}

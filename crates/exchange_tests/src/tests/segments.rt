//! Segments by the calls that store whole answers: by one worker, by the frame worker, and by all of them.
ghost use Rattle.std.specs.Prelude.{◌≡◌, ◌+◌, ◌*◌, ◌<◌, ◌≤◌, length, IfOk};
ghost use Rattle.exchange_events.specs.Sound.{IsSound};
ghost use Rattle.exchange_core.specs.Boards.{turns_of};
ghost use Rattle.exchange_core.specs.Working.{order_of};
ghost use Rattle.seat_history.specs.Seats.{first_seat};
ghost use Rattle.shared_exchange.specs.Sharing.{IsSeated};
ghost use Rattle.call_processor.specs.Frames.{IsReadyFor};
ghost use Rattle.segment_run.specs.Segment.{IsChief};
ghost use Rattle.segment_run.specs.Segments.{IsDoneBelow};

use super::opened::opened;
use super::work::{Outcome, kept_outcome};
use call_processor::{Placed, process, run_frames};
use control_memory::Image;
use exchange_core::{Switchboard, Tool};
use exchange_events::{Answer, Trace};
use fabric_map::FabricMap;
use frame_engine::Carrier;
use gate::{Gate, OpenGate};
use segment_run::{SegmentAnswer, run_segment};
use shared_exchange::{Seat, SharedExchange};
use std::alloc::{AllocError, Global};
use std::sync::Wait;
use std::thread::Threads;

/// The compared part of an answer: the number of its event, the kind of reply, and for a frame the octet that each of
/// two lines sends in its first place.
type Shown = (u32, Outcome, Option<(u8, u8)>);

/// The answer to the nail.
const NAIL: [Shown; 1] = [(1, Outcome::Granted(0, 0), None)];

/// The answers to the five frames: an octet leaves two frames after its arrival.
const FIVE_FRAMES: [Shown; 5] = [
    (2, Outcome::Frame(0), Some((0xD5, 0xD5))),
    (3, Outcome::Frame(1), Some((0xD5, 0xD5))),
    (4, Outcome::Frame(2), Some((129, 1))),
    (5, Outcome::Frame(3), Some((130, 2))),
    (6, Outcome::Frame(4), Some((131, 3))),
];

fn shown(answer: &Answer) -> Shown {
    let octets = match answer.octets.as_slice() {
        [zero, one] => Some((zero[0], one[0])),
        _ => None,
    };
    (answer.event, kept_outcome(answer), octets)
}

// Returns whether these are the compared parts of the answers, and there are no more.
fn show(answers: &[Answer], wanted: &[Shown]) -> bool {
    let mut left = wanted.iter();
    for answer in answers {
        if left.next() != Some(&shown(answer)) {
            return false;
        }
    }
    left.next().is_none()
}

// Returns whether these are the compared parts of a worker's answers, and there are no more.
fn are_shown(answers: &[Placed], wanted: &[Shown]) -> bool {
    let mut left = wanted.iter();
    for placed in answers {
        if left.next() != Some(&shown(&placed.answer)) {
            return false;
        }
    }
    left.next().is_none()
}

// Returns an exchange for a trace, with seat 0 of it, and an engine and a control memory for its first frame.
fn equipped<'t, C: Carrier>(
    alloc: Global,
    trace: &'t Trace,
) -> Result<(SharedExchange<'t, FabricMap>, Seat<'t, FabricMap>, C, Tool), AllocError>
    requires sound { IsSound trace.now }
    requires sizes { (trace.now.external ≡ 2) × (trace.now.bridges ≡ 0) }
    ensures board { IfOk result (λ r. r.0.setting.trace ≡ trace.now) }
    ensures seated { IfOk result (λ r. IsSeated r.0 r.1) }
    ensures chief { IfOk result (λ r. IsChief (turns_of r.0.setting) r.1.known) }
    ensures few { IfOk result (λ r. r.1.known.made ≤ 0) }
    ensures done { IfOk result (λ r. IsDoneBelow trace.now 0 (order_of r.1.known.seen)) }
    ensures ready { IfOk result (λ r. IsReadyFor C.carries C.next C.sizes r.0.setting r.1.known r.2 r.3) }
{
    let image = Image::new(alloc, 2, 0, 30)?;
    let engine = C::new(alloc, 2, 0, 30)?;
    let (board, seat) = opened(alloc, trace, 2)?;
    Ok((board, seat, engine, Tool::Image(image)))
}

// Runs a segment of a trace, after all segments before it. Returns whether it has the expected answers, and the values
// for the next one.
fn run_next<B: Switchboard, G: Gate, C: Carrier, R: Threads + Wait + Sync>(
    rt: &R,
    alloc: Global,
    board: &B,
    seat: &mut B::Seat,
    trace: &Trace,
    segment: u32,
    engine: C,
    tool: Tool,
    gate: &G,
    wanted: &[Shown],
) -> Result<(bool, C, Tool), AllocError>
    requires seated { B.seated board.now seat.old }
    requires trace { trace.now ≡ (B.board board.now).trace }
    requires sound { IsSound trace.now }
    requires segment { segment < length trace.now.segments }
    requires chief { IsChief (turns_of (B.board board.now)) (B.known seat.old) }
    requires few { (B.known seat.old).made ≤ 9 * segment }
    requires done { IsDoneBelow trace.now segment (order_of (B.known seat.old).seen) }
    requires ready { IsReadyFor C.carries C.next C.sizes (B.board board.now) (B.known seat.old) engine tool }
    ensures seated { B.seated board.now seat.new }
    ensures chief { IsChief (turns_of (B.board board.now)) (B.known seat.new) }
    ensures few { (B.known seat.new).made ≤ 9 * (segment + 1) }
    ensures done { IfOk result (λ r. IsDoneBelow trace.now (segment + 1) (order_of (B.known seat.new).seen)) }
    ensures ready { IfOk result (λ r. IsReadyFor C.carries C.next C.sizes (B.board board.now) (B.known seat.new) r.1 r.2) }
{
    let answer = run_segment(rt, alloc, board, seat, trace, segment, engine, tool, gate)?;
    let SegmentAnswer {
        answers,
        engine,
        tool,
    } = answer;
    Ok((show(answers.as_slice(), wanted), engine, tool))
}

// Runs both segments of a trace. Returns whether the nail and the five frames have the expected answers.
fn run_both<B: Switchboard, G: Gate, C: Carrier, R: Threads + Wait + Sync>(
    rt: &R,
    alloc: Global,
    board: &B,
    mut seat: B::Seat,
    trace: &Trace,
    engine: C,
    tool: Tool,
    gate: &G,
) -> Result<bool, AllocError>
    requires seated { B.seated board.now seat }
    requires trace { trace.now ≡ (B.board board.now).trace }
    requires sound { IsSound trace.now }
    requires segments { length trace.now.segments ≡ 2 }
    requires chief { IsChief (turns_of (B.board board.now)) (B.known seat) }
    requires few { (B.known seat).made ≤ 0 }
    requires done { IsDoneBelow trace.now 0 (order_of (B.known seat).seen) }
    requires ready { IsReadyFor C.carries C.next C.sizes (B.board board.now) (B.known seat) engine tool }
{
    let (nailed, engine, tool) = run_next(
        rt, alloc, board, &mut seat, trace, 0, engine, tool, gate, &NAIL,
    )?;
    let (carried, _, _) = run_next(
        rt,
        alloc,
        board,
        &mut seat,
        trace,
        1,
        engine,
        tool,
        gate,
        &FIVE_FRAMES,
    )?;
    Ok(nailed && carried)
}

/// Returns whether both segments of a trace of two lines have the expected answers, in sequence, with an engine of type
/// `C`.
pub fn segments_are_answered<C: Carrier, G: Gate, R: Threads + Wait + Sync>(
    rt: &R,
    alloc: Global,
    trace: &Trace,
    gate: &G,
) -> Result<bool, AllocError>
    requires sound { IsSound trace.now }
    requires sizes { (trace.now.external ≡ 2) × (trace.now.bridges ≡ 0) }
    requires segments { length trace.now.segments ≡ 2 }
{
    let (board, seat, engine, tool) = equipped::<C>(alloc, trace)?;
    run_both(rt, alloc, &board, seat, trace, engine, tool, gate)
}

// Returns whether a call processor has the expected answer to the nail, and no other.
fn processes<B: Switchboard, R: Wait>(
    rt: &R,
    alloc: Global,
    board: &B,
    seat: B::Seat,
    trace: &Trace,
) -> bool
    requires seated { B.seated board.now seat }
    requires trace { trace.now ≡ (B.board board.now).trace }
    requires processors { 0 < trace.now.processors }
    requires segments { 0 < length trace.now.segments }
    requires first { B.known seat ≡ first_seat (length trace.now.events) }
{
    let worked = process(rt, alloc, board, seat, trace, 0, 0, &OpenGate);
    worked.whole && are_shown(worked.answers.as_slice(), &NAIL)
}

/// Returns whether the call processor of a trace of two lines answers its whole part of the first segment.
pub fn part_is_answered<R: Wait>(rt: &R, alloc: Global, trace: &Trace) -> Result<bool, AllocError>
    requires sound { IsSound trace.now }
    requires sizes { (trace.now.external ≡ 2) × (trace.now.bridges ≡ 0) }
    requires processors { 0 < trace.now.processors }
    requires segments { 0 < length trace.now.segments }
{
    let (board, seat) = opened(alloc, trace, 2)?;
    Ok(processes(rt, alloc, &board, seat, trace))
}

// Runs the first segment, and then the frame worker with the second one. Returns whether the five frames have the
// expected answers.
fn carries<B: Switchboard, C: Carrier, R: Threads + Wait + Sync>(
    rt: &R,
    alloc: Global,
    board: &B,
    mut seat: B::Seat,
    trace: &Trace,
    engine: C,
    tool: Tool,
) -> Result<bool, AllocError>
    requires seated { B.seated board.now seat }
    requires trace { trace.now ≡ (B.board board.now).trace }
    requires sound { IsSound trace.now }
    requires segments { length trace.now.segments ≡ 2 }
    requires chief { IsChief (turns_of (B.board board.now)) (B.known seat) }
    requires few { (B.known seat).made ≤ 0 }
    requires done { IsDoneBelow trace.now 0 (order_of (B.known seat).seen) }
    requires ready { IsReadyFor C.carries C.next C.sizes (B.board board.now) (B.known seat) engine tool }
{
    let (nailed, engine, tool) = run_next(
        rt, alloc, board, &mut seat, trace, 0, engine, tool, &OpenGate, &NAIL,
    )?;
    let framed = run_frames(rt, alloc, board, seat, trace, 1, engine, tool, &OpenGate);
    Ok(nailed && framed.worked.whole && are_shown(framed.worked.answers.as_slice(), &FIVE_FRAMES))
}

/// Returns whether the frame worker of a trace of two lines answers the whole second segment, after the first one was
/// run, with an engine of type `C`.
pub fn frames_are_answered<C: Carrier, R: Threads + Wait + Sync>(
    rt: &R,
    alloc: Global,
    trace: &Trace,
) -> Result<bool, AllocError>
    requires sound { IsSound trace.now }
    requires sizes { (trace.now.external ≡ 2) × (trace.now.bridges ≡ 0) }
    requires segments { length trace.now.segments ≡ 2 }
{
    let (board, seat, engine, tool) = equipped::<C>(alloc, trace)?;
    carries(rt, alloc, &board, seat, trace, engine, tool)
}

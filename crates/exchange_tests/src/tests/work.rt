//! Seats at work at any switchboard, in sequence and in their own threads.
ghost use Rattle.std.specs.Prelude.{◌≡◌, ◌≤◌, ◌<◌, ◌+◌, ◌^◌, length, IfSome, IsTrue, true};
ghost use Rattle.std.specs.Thread.{IsSync};
ghost use Rattle.exchange_events.specs.Orders.{IsEvent};
ghost use Rattle.exchange_core.specs.Boards.{IsToolAt};
ghost use Rattle.exchange_core.specs.Working.{IsNumbered};
ghost use Rattle.control_memory.specs.Image.{Control};
ghost use Rattle.exchange_tests.specs.Steps.{HasStepped};

use control_memory::Image;
use exchange_core::{StepContext, Switchboard, Tool};
use exchange_events::{Answer, Event, Kept, Reply, Trace};
use std::alloc::Global;
use std::sync::Wait;
use std::thread::{Threads, join};

/// The reply to an event.
#[derive(Clone, Copy, PartialEq, Eq)]
pub enum Outcome {
    Granted(u32, u32),
    Busy,
    Frame(u32),
    Other,
}

/// Returns the outcome of a reply.
pub fn answer_of(reply: &Reply) -> Outcome {
    match reply {
        Reply::Granted(there, back) => Outcome::Granted(*there, *back),
        Reply::Busy => Outcome::Busy,
        Reply::Frame { number, .. } => Outcome::Frame(*number),
        _ => Outcome::Other,
    }
}

/// Returns the outcome of a stored answer.
pub fn kept_outcome(answer: &Answer) -> Outcome {
    match &answer.reply {
        Kept::Granted(there, back) => Outcome::Granted(*there, *back),
        Kept::Busy => Outcome::Busy,
        Kept::Frame { number, .. } => Outcome::Frame(*number),
        _ => Outcome::Other,
    }
}

/// Returns the event with this number, if there is one.
pub fn event_numbered(trace: &Trace, event: u32) -> Option<&Event>
    ensures known { IfSome result (λ e. IsEvent trace.now event) }
    ensures number { IfSome result (λ e. IsNumbered trace.now event e.now) }
{
    let index = (event as usize).checked_sub(1)?;
    trace.events.as_slice().get(index)
}

// Processes a nail, with a step context or with a tool. Returns `None` if the event is not a nail.
fn nail<B: Switchboard, R: Wait>(
    rt: &R,
    board: &B,
    trace: &Trace,
    seat: &mut B::Seat,
    event: u32,
    with_context: bool,
) -> Option<(u32, Outcome)>
    requires trace { trace.now ≡ (B.board board.now).trace }
    requires seated { B.seated board.now seat.old }
    requires turn { 0 < (B.known seat.old).left }
    ensures seated { B.seated board.now seat.new }
    ensures stepped { HasStepped (B.known seat.old) (B.known seat.new) }
{
    match event_numbered(trace, event)? {
        Event::Nail(_, _) => {}
        _ => return None,
    }
    if with_context {
        let mut context = StepContext::new(Tool::Nothing);
        let (place, response) = board.handle_into(rt, seat, event, &mut context, false);
        return Some((place, answer_of(&response.into_reply(context.out))));
    }
    let mut tool = Tool::Nothing;
    let (place, reply) = board.handle(rt, seat, event, &mut tool);
    Some((place, answer_of(&reply)))
}

// Processes a nail or a frame, by the holder of the baton. Returns `None` if the event is neither, or if an allocation
// fails.
fn nail_or_frame<B: Switchboard, R: Wait>(
    rt: &R,
    alloc: Global,
    board: &B,
    trace: &Trace,
    seat: &mut B::Seat,
    event: u32,
) -> Option<(u32, Outcome)>
    requires sizes { (trace.now.external ≡ 4) × (trace.now.bridges ≡ 0) × ((B.board board.now).slots ≡ 30) }
    requires trace { trace.now ≡ (B.board board.now).trace }
    requires seated { B.seated board.now seat.old }
    requires turn { 0 < (B.known seat.old).left }
    requires baton { IsTrue (B.known seat.old).baton }
    ensures seated { B.seated board.now seat.new }
    ensures stepped { HasStepped (B.known seat.old) (B.known seat.new) }
{
    if event <= 60 {
        return nail(rt, board, trace, seat, event, false);
    }
    match event_numbered(trace, event)? {
        Event::Frame(_) => {}
        _ => return None,
    }
    let mut tool = Tool::Image(Image::new(alloc, 4, 0, 30).ok()?);
    let (place, reply) = board.handle(rt, seat, event, &mut tool);
    Some((place, answer_of(&reply)))
}

/// A step of two seats: a seat's number and an event, and its place and its reply.
pub type Step = ((u32, u32), (u32, Outcome));

/// Processes steps of two seats in this order; seat 0 holds the baton, and the other one works with a step context.
/// Returns whether each has the expected reply.
pub fn are_answered<B: Switchboard, R: Wait>(
    rt: &R,
    alloc: Global,
    board: &B,
    trace: &Trace,
    zero: &mut B::Seat,
    one: &mut B::Seat,
    steps: &[Step],
) -> bool
    requires trace { trace.now ≡ (B.board board.now).trace }
    requires sizes { (trace.now.external ≡ 4) × (trace.now.bridges ≡ 0) × ((B.board board.now).slots ≡ 30) }
    requires zero { B.seated board.now zero.old × IsTrue (B.known zero.old).baton × (length steps.now ≤ (B.known zero.old).left) }
    requires one { B.seated board.now one.old × (length steps.now ≤ (B.known one.old).left) }
    ensures seated { B.seated board.now zero.new × B.seated board.now one.new }
    ensures number { (B.known zero.new).number ≡ (B.known zero.old).number }
    ensures seats { ((B.known zero.new).made ≡ (B.known zero.old).made) × (length (B.known zero.new).kept ≡ length (B.known zero.old).kept) }
{
    for &((number, event), wanted) in steps {
        let answer = match number {
            0 => nail_or_frame(rt, alloc, board, trace, zero, event),
            _ => nail(rt, board, trace, one, event, true),
        };
        if answer != Some(wanted) {
            return false;
        }
    }
    true
}

/// Processes every second event from `first` on, n in all. Returns the number of granted ones.
pub fn every_second<B: Switchboard, R: Wait>(
    rt: &R,
    board: &B,
    trace: &Trace,
    seat: &mut B::Seat,
    first: u32,
    count: u32,
) -> u32
    requires trace { trace.now ≡ (B.board board.now).trace }
    requires seated { B.seated board.now seat.old }
    requires turns { (count ≤ (B.known seat.old).left) × (count ≤ 30) × (first ≤ 2) }
    ensures seated { B.seated board.now seat.new }
    ensures number { (B.known seat.new).number ≡ (B.known seat.old).number }
    ensures seats { ((B.known seat.new).made ≡ (B.known seat.old).made) × (length (B.known seat.new).kept ≡ length (B.known seat.old).kept) }
{
    let mut granted = 0;
    for i in 0..count {
        if let Some((_, Outcome::Granted(0, 0))) = nail(
            rt,
            board,
            trace,
            seat,
            first + 2 * i,
            false,
        ) {
            granted += 1;
        }
    }
    granted
}

/// Two seats process the nails, each every second one and in its own thread. Returns the number of nails that each was
/// granted, and seat 0, which has joined the other.
pub fn side_by_side<B: Switchboard, R: Threads + Wait + Sync>(
    rt: &R,
    board: &B,
    trace: &Trace,
    mut seat: B::Seat,
) -> ((u32, u32), B::Seat)
    requires trace { trace.now ≡ (B.board board.now).trace }
    requires seated { B.seated board.now seat }
    requires chief { ((B.known seat).number ≡ 0) × (60 ≤ (B.known seat).left) × ((B.known seat).made ≡ 0) × (length (B.known seat).kept ≡ 0) }
    ensures seated { B.seated board.now result.1 }
    ensures chief { ((B.known result.1).number ≡ 0) × ((B.known result.1).made ≡ length (B.known result.1).kept) }
{
    let mut other = board.split(&mut seat, 30, false);
    let ((odd, mut seat), (even, other)) = join(
        rt,
        move || -> (u32, B::Seat)
            requires trace { trace.now ≡ (B.board board.now).trace }
            requires seated { B.seated board.now seat }
            requires turns { 30 ≤ (B.known seat).left }
            requires chief { ((B.known seat).number ≡ 0) × ((B.known seat).made ≡ 1) × (length (B.known seat).kept ≡ 0) }
            ensures seated { B.seated board.entry.now result.1 }
            ensures number { (B.known result.1).number ≡ 0 }
            ensures made { (B.known result.1).made ≡ 1 }
            ensures kept { length (B.known result.1).kept ≡ 0 }
        {
            let odd = every_second(rt, board, trace, &mut seat, 1, 30);
            (odd, seat)
        },
        move || -> (u32, B::Seat)
            requires { (trace.now ≡ (B.board board.now).trace) × B.seated board.now other × (30 ≤ (B.known other).left) }
            ensures { B.seated board.entry.now result.1 }
        {
            let even = every_second(rt, board, trace, &mut other, 2, 30);
            (even, other)
        },
    );
    board.join(&mut seat, other);
    ((odd, even), seat)
}

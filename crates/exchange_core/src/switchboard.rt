ghost use Rattle.std.specs.Prelude.{◌≡◌, ◌+◌, ◌<◌, ◌≤◌, ◌^◌, Bool, false, IsTrue, None};
ghost use Rattle.seat_history.specs.declared.seat_knowledge.SeatKnowledge.{SeatKnowledge};
ghost use Rattle.seat_history.specs.Histories.{StartsWith, before};
ghost use Rattle.seat_history.specs.Seats.{Settled, after_join, after_split, new_seat};
ghost use Rattle.exchange_events.specs.Orders.{IsEvent};
ghost use Rattle.exchange_events.specs.Responses.{reply_of};
ghost use Rattle.exchange_core.specs.Ahead.{IsReadAt};
ghost use Rattle.exchange_core.specs.Boards.{Board, HasTakenTurn, IsFrame, IsToolAt, turns_of};
ghost use Rattle.exchange_events.specs.Sound.{IsSound};

use crate::step_context::StepContext;
use crate::tool::Tool;
use exchange_events::{Reply, Response};
use std::sync::Wait;

/// An exchange at which many callers process the events of one trace, each in its turn, in one history.
///
/// A caller has a lock seat, here only seat, with a number and a count of turns. Seat 0 makes other seats, and joins
/// them again. A seat knows a prefix of the history, which it has seen, and its own entries. Only the seat that holds
/// the baton processes frames, and it has seen every earlier frame. No call allocates.
pub trait Switchboard: Sync {
    /// The right to process a number of events.
    type Seat: Send + Drop;

    /// The trace and its fabric.
    ghost board: { Self → Board };

    /// The knowledge of a seat.
    ghost known: { Self.Seat → SeatKnowledge };

    /// Whether a seat has kept the turn.
    ghost keeps: { Self.Seat → Bool };

    /// The seat is of this board.
    ghost seated: { Self → Self.Seat → Type 0 };

    /// Makes a new seat from seat 0, with `budget` of its turns, and with the baton if `baton` is true. Seat 0 makes
    /// fewer than 2^32 seats, so no number repeats.
    fn split(&self, seat: &mut Self::Seat, budget: u32, baton: bool) -> Self::Seat
        requires seated { seated self.now seat.old }
        requires chief { (known seat.old).number ≡ 0 }
        requires turns { budget ≤ (known seat.old).left }
        requires baton { IsTrue baton → IsTrue (known seat.old).baton }
        requires numbers { (known seat.old).made + 1 < 2 ^ 32 }
        ensures sound { IsSound (board self.now).trace }
        ensures seated { seated self.now seat.new × seated self.now result }
        ensures old { known seat.new ≡ after_split budget baton (known seat.old) }
        ensures new { known result ≡ new_seat budget baton (known seat.old) }
        ensures free { (keeps seat.new ≡ false) × (keeps result ≡ false) };

    /// Processes one event of the trace, by its number, counted from 1, after it has waited for the seat's turn.
    /// Returns the event's position in the history, counted from 0, and the exchange's reply.
    ///
    /// A frame requires the baton and a control memory of the exchange's size, into which its boundary is written. The
    /// other events need neither.
    fn handle<R: Wait>(
        &self,
        rt: &R,
        seat: &mut Self::Seat,
        event: u32,
        tool: &mut Tool,
    ) -> (u32, Reply)
        requires seated { seated self.now seat.old }
        requires known { IsEvent (board self.now).trace event }
        requires turn { 0 < (known seat.old).left }
        requires baton { IsFrame (board self.now).trace event → IsTrue (known seat.old).baton }
        requires tool { IsToolAt (board self.now) event tool.old }
        ensures seated { seated self.now seat.new }
        ensures done { HasTakenTurn (board self.now) (known seat.old) (known seat.new) result.0 event result.1 tool.new }
        ensures free { keeps seat.new ≡ false };

    /// Works like [`handle`](Switchboard::handle), with a step context instead of the tool. The messages and records of
    /// the step replace the contents of the outbox, because a list with capacity for 64 messages is expensive to make
    /// for each event. A message that was parsed ahead is taken from the context, and is not parsed again in the turn.
    ///
    /// If `keep` is true, the seat keeps the turn, and its next event does not wait. No other seat processes an event
    /// until it passes the turn, by an event without `keep` or by [`release`](Switchboard::release).
    fn handle_into<R: Wait>(
        &self,
        rt: &R,
        seat: &mut Self::Seat,
        event: u32,
        context: &mut StepContext,
        keep: bool,
    ) -> (u32, Response)
        requires seated { seated self.now seat.old }
        requires known { IsEvent (board self.now).trace event }
        requires turn { 0 < (known seat.old).left }
        requires baton { IsFrame (board self.now).trace event → IsTrue (known seat.old).baton }
        requires tool { IsToolAt (board self.now) event context.old.tool }
        requires ahead { IsReadAt (board self.now).trace event context.old.ahead }
        ensures seated { seated self.now seat.new }
        ensures done { HasTakenTurn (board self.now) (known seat.old) (known seat.new) result.0 event (reply_of result.1 context.new.out) context.new.tool }
        // A step consumes the message that was parsed ahead, so the context can serve any event next.
        ensures ahead { context.new.ahead ≡ None }
        // No other seat processed an event since this one kept the turn.
        ensures kept { IsTrue (keeps seat.old) → before result.0 (known seat.new).seen ≡ (known seat.old).seen }
        ensures keeps { keeps seat.new ≡ keep };

    /// Passes the turn if the seat kept it.
    fn release(&self, seat: &mut Self::Seat)
        requires seated { seated self.now seat.old }
        ensures seated { seated self.now seat.new }
        ensures known { known seat.new ≡ known seat.old }
        ensures free { keeps seat.new ≡ false };

    /// Joins another seat to seat 0, with its turns, its baton and its entries.
    fn join(&self, seat: &mut Self::Seat, other: Self::Seat)
        requires seated { seated self.now seat.old × seated self.now other }
        requires chief { (known seat.old).number ≡ 0 }
        ensures sound { IsSound (board self.now).trace }
        ensures seated { seated self.now seat.new }
        ensures seat { known seat.new ≡ after_join (known seat.old) (known other) }
        ensures first { StartsWith (known seat.new).seen (known seat.old).seen }
        ensures second { StartsWith (known seat.new).seen (known other).seen }
        ensures settled { Settled (turns_of (board self.now)) (known seat.new) }
        ensures free { keeps seat.new ≡ false };

    /// The trace of a board that has a seat is sound, so a worker knows this before its first call.
    ghost sound_trace: { (x : Self) (s : Self.Seat) → seated x s → IsSound (board x).trace };
}

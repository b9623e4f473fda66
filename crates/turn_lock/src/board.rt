//! The views of the seats of a lock, and the rule of the table that they share. Word 0 is the next ticket to be drawn,
//! word 16 the served ticket, and word 32 the position of the next entry. Slot 0 holds the state.
ghost use Rattle.std.specs.Prelude.{ℕ, Bool, false};

use crate::stepper::Stepper;
use atomic_table::{Seat, TableRule};
use seat_history::SeatKnowledge;
use std::marker::{Brand, PhantomData};
use std::snapshot::Snapshot;

/// The ticket of a seat.
pub enum Stage {
    /// The seat has no ticket.
    Idle,
    /// The seat waits for the turn of this ticket.
    Waits(u64),
    /// The seat has the turn of this ticket, in a call or between two calls.
    Served(u64),
}

/// The view of a seat, which the table keeps. No value of it is made.
pub struct View<C> {
    /// `None` if the seat was joined.
    pub setting: Option<C>,
    pub budget: u64,
    /// The knowledge of the seat.
    pub known: SeatKnowledge,
    pub stage: Stage,
    /// The event of the last step that began.
    pub event: u64,
    /// 1 if that event is not yet in the history, otherwise 0.
    pub due: u64,
    // A clause reads an array as a list, of any length.
    /// In a call of `join`, the two histories that seat 0 and the other seat had seen.
    pub first: [(u32, u32); 0],
    pub second: [(u32, u32); 0],
}

/// The values that a lock is opened with.
pub struct Opening<S> {
    pub state: Snapshot<S>,
    pub budget: u64,
}

impl<S> Drop for Opening<S> {
    fn drop(self) {
        let Opening {
            state: _,
            budget: _,
        } = self;
    }
}

/// The rule of the lock, defined in `specs/Rule.antt`.
pub struct Turns<S> {
    marker: PhantomData<S>,
}

impl<S: Stepper> TableRule<Option<S>, View<S::Setting>, Opening<S>> for Turns<S> {
    ghost use Rattle.turn_lock.specs.Rule.{TurnRule};
    ghost use Rattle.turn_lock.specs.Moves.{first_view};

    ghost holds = { λ k. TurnRule S.setting S.journal S.room S.reserved (S.setting k.state.value) k.budget };

    ghost first = { λ k. first_view (S.setting k.state.value) k.budget };
}

/// A seat at the table. It has no bytes.
pub type Token<S> = Seat<Option<S>, View<<S as Stepper>::Setting>>;

/// The steps and the baton that a new seat gets from a split. Each call names them.
pub trait Gift {
    ghost turns: { ℕ };

    ghost baton: { Bool };
}

impl Gift for Brand {
    ghost turns = { 0 };

    ghost baton = { false };
}

/// The event of the step that begins. Each call names it.
pub trait Aim {
    ghost event: { ℕ };
}

impl Aim for Brand {
    ghost event = { 0 };
}

//! A lock and its seats, as their callers have them.
ghost use Rattle.std.specs.Prelude.{◌≡◌, ◌+◌, ◌<◌, ◌≤◌, ◌^◌, [], false, length, IfOk, IfErr, IsTrue};
ghost use Rattle.seat_history.specs.Histories.{HasNone, StartsWith, before, entries_of, unseen};
ghost use Rattle.seat_history.specs.Seats.{HasJoinedAll, Settled, after_join, after_split, after_step, first_seat, new_seat};
ghost use Rattle.turn_lock.specs.Locks.{IsSeatOf};

use crate::board::Token;
use crate::moves::Board;
use crate::stepper::Stepper;
use std::alloc::{AllocError, Global};
use std::marker::Model;
use std::sync::Wait;

/// A state that many threads step in turn. Contracts see the identity of the lock, its setting and its budget.
#[derive(Drop)]
pub struct TurnLock<S: Stepper> {
    board: Board<S>,
}

impl<S: Stepper> Model for TurnLock<S> {
    ghost use Rattle.turn_lock.specs.Locks.{Lock};

    ghost Value = { Lock S.Setting };

    ghost view = { λ l. record {
      id = l.board.table.shared.table_id;
      setting = S.setting l.board.table.shared.key.state.value;
      budget = l.board.table.shared.key.budget;
    } };
}

/// A lock seat: the right to a number of steps. Contracts see the lock of the seat, its knowledge, and whether it has
/// kept the turn.
#[derive(Drop)]
pub struct Seat<S: Stepper> {
    token: Token<S>,
    number: u32,
    left: u32,
    baton: bool,
    made: u32,
    keeps: bool,
}

impl<S: Stepper> Model for Seat<S> {
    ghost use Rattle.turn_lock.specs.Locks.{SeatAt, seat_with};
    ghost use Rattle.turn_lock.specs.Moves.{MatchesView};

    ghost Value = { SeatAt S.Setting };

    ghost view = { λ s. seat_with s.token.table_id s.token.me.0 s.keeps };

    ghost invariant = { λ s. MatchesView S.setting S.journal S.room s.token.me s.number s.left s.baton s.made s.keeps };
}

impl<S: Stepper> TurnLock<S> {
    /// Opens a lock over a state whose journal is empty and has capacity for `budget` entries. Seat 0 gets all steps
    /// and the baton. Returns the state if an allocation fails.
    pub fn open(
        alloc: Global,
        state: S,
        budget: u32,
    ) -> Result<(TurnLock<S>, Seat<S>), (S, AllocError)>
        requires empty { S.journal state ≡ [] }
        requires room { budget ≤ S.room state }
        ensures lock { IfOk result (λ r. (r.0.setting ≡ S.setting state) × (r.0.budget ≡ budget)) }
        ensures of { IfOk result (λ r. IsSeatOf r.0 r.1) }
        ensures seat { IfOk result (λ r. (r.1.known ≡ first_seat budget) × (r.1.keeps ≡ false)) }
        ensures refused { IfErr result (λ e. e.0 ≡ state) }
    {
        let (board, token) = Board::open(alloc, state, budget)?;
        let seat = Seat {
            token,
            number: 0,
            left: budget,
            baton: true,
            made: 0,
            keeps: false,
        };
        Ok((TurnLock { board }, seat))
    }

    /// Steps the state by an event in the turn of the seat, and returns the position of this step in the history and
    /// the reply. Waits for the turn, unless the seat kept it. Does not allocate. A reserved event requires the baton.
    ///
    /// If `keep` is true, the seat keeps the turn and its next step does not wait. No other seat steps until this one
    /// passes the turn, by a step with `keep` false, or by [`Seat::release`], [`Seat::split`], [`Seat::join`] or
    /// [`close`](TurnLock::close). If `keep` is false, the step passes the turn.
    ///
    /// After a step of seat 0, its view accounts for the whole history (`settled`). If all other seats are joined, no
    /// other seat has stepped in between (`alone`).
    pub fn step<R: Wait>(
        &self,
        rt: &R,
        seat: &mut Seat<S>,
        event: u32,
        tool: &mut S::Tool,
        keep: bool,
    ) -> (u32, S::Reply)
        requires of { IsSeatOf self.now seat.old }
        requires turn { 0 < seat.old.known.left }
        requires baton { S.reserved self.now.setting event → IsTrue seat.old.known.baton }
        requires ready { S.ready self.now.setting event tool.old }
        ensures of { IsSeatOf self.now seat.new }
        // The seat has one step less. Its entry is appended to the history and to its own entries.
        ensures seat { seat.new.known ≡ after_step (before result.0 seat.new.known.seen) event seat.old.known }
        ensures place { length seat.new.known.seen ≡ result.0 + 1 }
        ensures below { result.0 < self.now.budget }
        ensures begins { StartsWith (before result.0 seat.new.known.seen) seat.old.known.seen }
        ensures reply { S.answers self.now.setting (before result.0 seat.new.known.seen) seat.old.known.number event result.1 tool.new }
        ensures own { seat.new.known.own ≡ entries_of seat.new.known.number seat.new.known.seen }
        // The holder of the baton had seen every reserved entry of the history before.
        ensures reserved { IsTrue seat.old.known.baton
            → HasNone (S.reserved self.now.setting) (unseen seat.old.known.seen (before result.0 seat.new.known.seen)) }
        ensures settled { seat.old.known.number ≡ 0 → Settled self.now.budget seat.new.known }
        ensures alone { seat.old.known.number ≡ 0 → HasJoinedAll seat.old.known → before result.0 seat.new.known.seen ≡ seat.old.known.seen }
        // No other seat steps between two steps of one turn.
        ensures kept { IsTrue seat.old.keeps → before result.0 seat.new.known.seen ≡ seat.old.known.seen }
        ensures keeps { seat.new.keeps ≡ keep }
    {
        let (place, reply) = self
            .board
            .step(rt, &mut seat.token, seat.keeps, seat.number, event, tool);
        seat.left -= 1;
        seat.keeps = true;
        if !keep {
            seat.release(self);
        }
        (place as u32, reply)
    }

    /// Ends the lock once seat 0 has joined all other seats, and returns the state. Its journal is the whole history,
    /// all of which seat 0 has seen. Passes the turn first, if the seat kept it.
    pub fn close(self, seat: Seat<S>) -> S
        requires of { IsSeatOf self seat }
        requires chief { seat.known.number ≡ 0 }
        requires all { HasJoinedAll seat.known }
        ensures setting { S.setting result ≡ self.setting }
        ensures journal { S.journal result ≡ seat.known.seen }
        ensures settled { Settled self.budget seat.known }
    {
        let mut seat = seat;
        seat.release(&self);
        let TurnLock { board } = self;
        let Seat {
            token,
            number: _,
            left: _,
            baton: _,
            made: _,
            keeps: _,
        } = seat;
        board.close(token)
    }
}

impl<S: Stepper> Seat<S> {
    /// Returns 0 for the seat of `open`. Any other number is 1 more than the number of seats that `split` made before.
    pub fn number(&self) -> u32
        ensures { result ≡ self.now.known.number }
    {
        self.number
    }

    /// Returns the number of steps left.
    pub fn left(&self) -> u32
        ensures { result ≡ self.now.known.left }
    {
        self.left
    }

    /// Returns whether the seat has the turn, because its last step kept it.
    pub fn has_turn(&self) -> bool
        ensures { result ≡ self.now.keeps }
    {
        self.keeps
    }

    /// Returns whether this seat holds the baton.
    pub fn baton(&self) -> bool
        ensures { result ≡ self.now.known.baton }
    {
        self.baton
    }

    /// Passes the turn, if the seat kept it.
    pub fn release(&mut self, lock: &TurnLock<S>)
        requires of { IsSeatOf lock.now self.old }
        ensures of { IsSeatOf lock.now self.new }
        ensures known { self.new.known ≡ self.old.known }
        ensures free { self.new.keeps ≡ false }
    {
        if self.keeps {
            lock.board.pass(&mut self.token);
            self.keeps = false;
        }
    }

    /// Makes a new seat, which gets `budget` steps of seat 0, and the baton if `baton` is true. Seat 0 passes the turn
    /// first, if it kept it. It makes fewer than 2^32 seats, so no number repeats.
    pub fn split(&mut self, lock: &TurnLock<S>, budget: u32, baton: bool) -> Seat<S>
        requires of { IsSeatOf lock.now self.old }
        requires chief { self.old.known.number ≡ 0 }
        requires turns { budget ≤ self.old.known.left }
        requires baton { IsTrue baton → IsTrue self.old.known.baton }
        requires numbers { self.old.known.made + 1 < 2 ^ 32 }
        ensures of { IsSeatOf lock.now self.new × IsSeatOf lock.now result }
        ensures old { self.new.known ≡ after_split budget baton self.old.known }
        ensures new { result.known ≡ new_seat budget baton self.old.known }
        ensures free { (self.new.keeps ≡ false) × (result.keeps ≡ false) }
    {
        self.release(lock);
        let token = lock.board.split(&mut self.token, budget, baton);
        self.left -= budget;
        self.made += 1;
        if baton {
            self.baton = false;
        }
        Seat {
            token,
            number: self.made,
            left: budget,
            baton,
            made: 0,
            keeps: false,
        }
    }

    /// Joins another seat, with its steps, its baton and its entries. Both seats pass the turn first, if they kept it.
    pub fn join(&mut self, lock: &TurnLock<S>, other: Seat<S>)
        requires of { IsSeatOf lock.now self.old × IsSeatOf lock.now other }
        requires chief { self.old.known.number ≡ 0 }
        ensures of { IsSeatOf lock.now self.new }
        ensures seat { self.new.known ≡ after_join self.old.known other.known }
        ensures first { StartsWith self.new.known.seen self.old.known.seen }
        ensures second { StartsWith self.new.known.seen other.known.seen }
        ensures settled { Settled lock.now.budget self.new.known }
        ensures free { self.new.keeps ≡ false }
    {
        self.release(lock);
        let mut other = other;
        other.release(lock);
        let Seat {
            token,
            number: _,
            left,
            baton,
            made: _,
            keeps: _,
        } = other;
        lock.board.join(&mut self.token, token);
        self.left += left;
        self.baton = self.baton || baton;
    }
}

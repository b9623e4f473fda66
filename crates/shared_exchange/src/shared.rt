ghost use Rattle.std.specs.Prelude.{◌≡◌, [], false, IfOk, length};
ghost use Rattle.seat_history.specs.Seats.{HasJoinedAll, Settled, first_seat};
ghost use Rattle.exchange_core.specs.Boards.{IsFrame, turns_of};
ghost use Rattle.shared_exchange.specs.Sharing.{IsSeated, board_of};
ghost use Rattle.turn_lock.specs.Locks.{IsSeatOf};

use crate::stepper::Exchange;
use control_memory::PathMap;
use exchange_core::{Core, StepContext, Switchboard, Tool};
use exchange_events::{Reply, Response};
use std::alloc::{AllocError, Global};
use std::marker::Model;
use std::mem;
use std::sync::Wait;
use turn_lock::TurnLock;

/// A core that many callers share: a switchboard. Contracts see its lock, whose setting is the board.
#[derive(Drop)]
pub struct SharedExchange<'t, P: PathMap> {
    lock: TurnLock<Exchange<'t, P>>,
}

impl<'t, P: PathMap> Model for SharedExchange<'t, P> {
    ghost use Rattle.exchange_core.specs.Boards.{Board};
    ghost use Rattle.shared_exchange.specs.Sharing.{IsBoard};
    ghost use Rattle.turn_lock.specs.Locks.{Lock};

    ghost Value = { Lock Board };

    ghost view = { λ x. x.lock };

    ghost invariant = { λ x. IsBoard x.lock };
}

/// A seat at a shared exchange: the right to process a number of events. Contracts see the knowledge of the lock's
/// seat, and whether it has kept the turn.
#[derive(Drop)]
pub struct Seat<'t, P: PathMap> {
    turns: turn_lock::Seat<Exchange<'t, P>>,
}

impl<'t, P: PathMap> Model for Seat<'t, P> {
    ghost use Rattle.exchange_core.specs.Boards.{Board};
    ghost use Rattle.turn_lock.specs.Locks.{SeatAt};

    ghost Value = { SeatAt Board };

    ghost view = { λ s. s.turns };
}

impl<'t, P: PathMap + Drop> SharedExchange<'t, P> {
    /// Shares a core that has processed no event. Seat 0 gets a step for each event of the trace, and the baton.
    /// Returns `AllocError` if an allocation fails, and drops the core.
    pub fn open(
        alloc: Global,
        core: Core<'t, P>,
    ) -> Result<(SharedExchange<'t, P>, Seat<'t, P>), AllocError>
        requires empty { core.journal ≡ [] }
        ensures board { IfOk result (λ r. r.0.setting ≡ board_of core.entry) }
        ensures of { IfOk result (λ r. IsSeated r.0 r.1) }
        ensures seat { IfOk result (λ r. (r.1.known ≡ first_seat (length core.entry.trace.events)) × (r.1.keeps ≡ false)) }
    {
        let turns = core.trace().events.as_slice().len() as u32;
        let core = Box::new(alloc, core)?;
        match TurnLock::open(alloc, Exchange { core }, turns) {
            Ok((lock, turns)) => Ok((SharedExchange { lock }, Seat { turns })),
            Err((_, refused)) => Err(refused),
        }
    }
}

impl<'t, P: PathMap> SharedExchange<'t, P> {
    /// Ends the sharing once seat 0 has joined all other seats, and returns the core. Its journal is the whole history,
    /// all of which seat 0 has seen. Passes the turn first, if the seat kept it.
    pub fn close(self, seat: Seat<'t, P>) -> Core<'t, P>
        requires of { IsSeatOf self seat }
        requires chief { seat.known.number ≡ 0 }
        requires all { HasJoinedAll seat.known }
        ensures board { board_of result ≡ self.entry.setting }
        ensures journal { result.journal ≡ seat.entry.known.seen }
        ensures settled { Settled (turns_of self.entry.setting) seat.entry.known }
    {
        let SharedExchange { lock } = self;
        let Seat { turns } = seat;
        let Exchange { core } = lock.close(turns);
        Box::into_inner(core)
    }
}

impl<'t, P: PathMap + Send> Switchboard for SharedExchange<'t, P> {
    type Seat = Seat<'t, P>;

    ghost board = { λ x. x.setting };

    ghost known = { λ s. s.known };

    ghost keeps = { λ s. s.keeps };

    ghost seated = { IsSeated };

    ghost sound_trace = { λ x s seated. seated.sound };

    fn split(&self, seat: &mut Seat<'t, P>, budget: u32, baton: bool) -> Seat<'t, P> {
        Seat {
            turns: seat.turns.split(&self.lock, budget, baton),
        }
    }

    fn handle<R: Wait>(
        &self,
        rt: &R,
        seat: &mut Seat<'t, P>,
        event: u32,
        tool: &mut Tool,
    ) -> (u32, Reply) {
        let mut context = StepContext::new(mem::replace(tool, Tool::Nothing));
        let (place, response) = self.handle_into(rt, seat, event, &mut context, false);
        let StepContext {
            tool: lent,
            out,
            ..
        } = context;
        *tool = lent;
        (place, response.into_reply(out))
    }

    fn handle_into<R: Wait>(
        &self,
        rt: &R,
        seat: &mut Seat<'t, P>,
        event: u32,
        context: &mut StepContext,
        keep: bool,
    ) -> (u32, Response) {
        self.lock.step(rt, &mut seat.turns, event, context, keep)
    }

    fn release(&self, seat: &mut Seat<'t, P>) {
        seat.turns.release(&self.lock);
    }

    fn join(&self, seat: &mut Seat<'t, P>, other: Seat<'t, P>) {
        let Seat { turns } = other;
        seat.turns.join(&self.lock, turns);
    }
}

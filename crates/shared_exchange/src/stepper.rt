//! The core as the lock steps it.
ghost use Rattle.std.specs.Prelude.{◌≡◌, ◌-◌, length, None};
ghost use Rattle.exchange_events.specs.Orders.{IsEvent};
ghost use Rattle.exchange_events.specs.Responses.{reply_of};
ghost use Rattle.exchange_core.specs.Ahead.{IsReadAt};
ghost use Rattle.exchange_core.specs.Boards.{IsFrame, IsToolAt};
ghost use Rattle.shared_exchange.specs.Sharing.{Answers, board_of};

use control_memory::PathMap;
use exchange_core::{Core, StepContext};
use exchange_events::{Response, Trace};
use std::marker::Model;
use turn_lock::Stepper;

/// The constant part of the state. No value of it is made.
pub struct BoardConfig {
    trace: Trace,
    slots: u64,
    bound: u64,
}

impl Model for BoardConfig {
    ghost use Rattle.exchange_core.specs.Boards.{Board};

    ghost Value = { Board };

    ghost view = { λ s. record { trace = s.trace; slots = s.slots; bound = s.bound } };
}

/// The core, which the lock steps. It is in a box, so that a step moves one word out of the lock and back.
#[derive(Drop)]
pub struct Exchange<'t, P: PathMap> {
    pub core: Box<Core<'t, P>>,
}

impl<'t, P: PathMap> Stepper for Exchange<'t, P> {
    type Tool = StepContext;

    type Reply = Response;

    type Setting = BoardConfig;

    ghost setting = { λ x. board_of x.core.value };

    ghost journal = { λ x. x.core.value.journal };

    ghost room = { λ x. length x.core.value.trace.events - length x.core.value.journal };

    ghost reserved = { λ board event. IsFrame board.trace event };

    ghost ready = { λ board event context. IsEvent board.trace event × IsToolAt board event context.tool × IsReadAt board.trace event context.ahead };

    ghost answers = { λ board history by event response context. Answers board history event (reply_of response context.out) context.tool × (context.ahead ≡ None) };

    fn step(&mut self, by: u32, event: u32, context: &mut StepContext) -> Response {
        self.core.step_into(by, event, context)
    }
}

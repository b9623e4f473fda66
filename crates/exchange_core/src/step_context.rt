ghost use Rattle.std.specs.Prelude.{◌≡◌, [], None, IfSome, is_some};
ghost use Rattle.exchange_events.specs.Orders.{IsEvent};
ghost use Rattle.exchange_core.specs.Ahead.{IsReadAt, IsReadOf, LooksAhead, is_readable};

use crate::tool::Tool;
use call_control::{PreparsedMessage, preparse};
use exchange_events::{Event, Outbox, Trace};
use number_plan::Plan;

/// The input and output of a step: the control memory of a frame, the message that was parsed ahead, and the outbox for
/// messages and records. A worker reuses one context for all its events.
#[derive(Debug, Drop)]
pub struct StepContext {
    /// The control memory if the event is a frame.
    pub tool: Tool,
    /// The parsed message if the event is a message.
    pub ahead: Option<PreparsedMessage>,
    /// The messages that the step sent, and the calls that it recorded.
    pub out: Outbox,
}

impl StepContext {
    /// Makes a step context with this tool and an empty outbox. Nothing is parsed ahead.
    pub fn new(tool: Tool) -> StepContext
        ensures tool { result.tool ≡ tool }
        ensures ahead { result.ahead ≡ None }
        ensures sends { result.out.sends ≡ [] }
        ensures moved { result.out.moved ≡ None }
        ensures records { result.out.records ≡ [] }
    {
        StepContext {
            tool,
            ahead: None,
            out: Outbox::new(),
        }
    }

    /// Parses the event with this number if it is a message, and looks up its digits. A worker does that before its
    /// turn, because the trace decides the result and in the turn the others wait.
    pub fn preparse(&mut self, trace: &Trace, event: u32)
        requires known { IsEvent trace.now event }
        ensures ahead { IsReadAt trace.now event self.new.ahead }
        ensures exact { LooksAhead trace.now event self.new.ahead }
        ensures tool { self.new.tool ≡ self.old.tool }
        ensures out { self.new.out ≡ self.old.out }
    {
        self.ahead = event_ahead(&trace.plan, trace.event(event));
    }
}

// Parses the message of an event, if it has one.
fn event_ahead(plan: &Plan, event: &Event) -> Option<PreparsedMessage>
    ensures read { IfSome result (IsReadOf plan.now event.now) }
    ensures exact { is_some result ≡ is_readable event.now }
{
    match event {
        Event::Message(_, octets) => preparse(plan, octets.as_slice()),
        Event::Nail(_, _) => None,
        Event::Seat(_, _) => None,
        Event::Free(_) => None,
        Event::LinkUp(_) => None,
        Event::LinkDown(_) => None,
        Event::RestartLine(_) => None,
        Event::Frame(_) => None,
    }
}

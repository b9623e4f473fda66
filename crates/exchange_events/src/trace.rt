//! A trace and its events.
ghost use Rattle.std.specs.Prelude.{◌≡◌, Some};
ghost use Rattle.exchange_events.specs.Orders.{IsEvent, event_at};

use crate::input::Input;
use crate::list::ListOf;
use crate::octets::Octets;
use call_timers::Timers;
use circuit_model::Slot;
use number_plan::Plan;
use tone_rules::Tones;

/// One event of a trace.
#[derive(Debug, Drop)]
pub enum Event {
    /// Connect two slots, both ways.
    Nail(Slot, Slot),
    /// Make a slot a member of a conference room, 0 to 63.
    Seat(Slot, u8),
    /// Undo the nail or the seat of a slot.
    Free(Slot),
    /// A message from the user of a line: 0 to 260 octets.
    Message(u8, Octets),
    /// The data link of a line is up: it is established or re-established (DL-ESTABLISH indication or confirm).
    LinkUp(u8),
    /// The data link of a line is down (DL-RELEASE indication).
    LinkDown(u8),
    /// The exchange restarts the interface of a line: its calls end, and its user is sent RESTART (Q.931, 5.5.1).
    RestartLine(u8),
    /// The boundary of a frame, and its input.
    Frame(Input),
}

/// The events of a trace in file order, numbered from 1. Contracts see their list.
pub type Events = ListOf<Event>;

/// The number of the last event of each segment that has events, rising. Contracts see their list.
pub type Segments = ListOf<u32>;

/// For each change of meters, in file order, the number of events before it. Contracts see their list.
pub type Changes = ListOf<u32>;

/// A trace: the sizes of the exchange, its number plan, its tones and its timers, its events, and the places at which
/// its meters change.
#[derive(Debug, Drop)]
pub struct Trace {
    /// The number of external lines, 1 to 32.
    pub external: u8,
    /// The number of conference bridge lines, at most 2.
    pub bridges: u8,
    /// The number of call processors that share the work, 1 to 8.
    pub processors: u8,
    /// The numbers, with the lines and conference rooms to which they are routed.
    pub plan: Plan,
    /// The octets of the tones. A tone that is not given has none.
    pub tones: Tones,
    /// The time that a leg waits in a state, in frames. A timer that is not given has its usual value.
    pub timers: Timers,
    /// The events, in file order.
    pub events: Events,
    /// The ends of the segments.
    pub segments: Segments,
    /// The places of the changes of meters, at most 65,535.
    pub changes: Changes,
}

impl Trace {
    /// Returns the event with this number, counted from 1.
    pub fn event(&self, number: u32) -> &Event
        requires { IsEvent self.now number }
        ensures { event_at self.now.events number ≡ Some result.now }
    {
        &self.events.as_slice()[number as usize - 1]
    }
}

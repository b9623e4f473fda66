//! The legs of calls: the state of a call on one line.

use circuit_model::Slot;

/// The two sides of a call.
#[derive(Clone, Copy, Debug, PartialEq, Eq)]
pub enum Side {
    /// The line that requested the call. It chose the call reference value.
    Caller,
    /// The line that the call is for. The exchange chose the call reference value.
    Called,
}

impl Side {
    ghost use Rattle.std.specs.Prelude.{◌≡◌};
    ghost use Rattle.call_states.specs.Status.{flag_to};

    /// Returns the call reference flag of messages to a leg of this side (Q.931, 4.3): true towards the side that chose
    /// the call reference value.
    pub fn flag(self) -> bool
        ensures { result ≡ flag_to self }
    {
        self == Side::Caller
    }
}

/// The peer of a leg in its call.
#[derive(Clone, Copy, Debug, PartialEq, Eq)]
pub enum Peer {
    /// No peer: the call is being cleared.
    Alone,
    /// The leg that holds this slot.
    Leg(Slot),
    /// A conference room.
    Room(u8),
}

/// A leg of a call: the state of the call on one line, as long as it holds a slot of it.
#[derive(Clone, Copy, Debug, PartialEq, Eq)]
pub struct Leg {
    /// The call state value (Q.931, 4.5.7), one of [`states`](q931_codec::states).
    pub state: u8,
    /// The call reference value (4.3), below 32,768.
    pub reference: u16,
    /// The side of the call.
    pub side: Side,
    /// The peer of the leg.
    pub peer: Peer,
    /// The cause value (4.5.12) that the leg was cleared with, 0 until then.
    pub cause: u8,
    /// The number of the first frame of its wait in its state.
    pub since: u32,
    /// Whether the message that it got in this state was retransmitted. In state 10, active, whether it waits for the data
    /// link of its line: T309 runs (5.8.9).
    pub resent: bool,
    /// Whether its user was sent STATUS ENQUIRY after an outage of the data link, and has not reported its state since
    /// (5.8.10). It counts only in state 10.
    pub enquired: bool,
}

/// A leg and the slot that it holds.
#[derive(Clone, Copy, Debug, PartialEq, Eq)]
pub struct HeldLeg {
    /// The slot.
    pub slot: Slot,
    /// The leg.
    pub leg: Leg,
}

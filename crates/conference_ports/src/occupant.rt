//! The owner of a port.

use circuit_model::Slot;

/// The owner of a port: a member, and its conference room.
#[derive(Clone, Copy, Debug, PartialEq, Eq)]
pub struct Occupant {
    /// The conference room.
    pub room: u8,
    /// The bearer channel of the member.
    pub member: Slot,
}

//! The outlet and the internal slot of a path.
use circuit_model::Slot;

/// The outlet of a path, and the internal slot in which it crosses.
#[derive(Clone, Copy, Debug, PartialEq, Eq)]
pub struct Route {
    /// The outlet.
    pub to: Slot,
    /// The internal slot.
    pub slot: u8,
}

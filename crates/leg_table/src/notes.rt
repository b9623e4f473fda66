//! The data of a slot in addition to its leg.

use call_states::Pending;
use exchange_events::Encoded;

/// The data of a slot in addition to its leg: a pending number, or a message that may be retransmitted. No leg has
/// both.
#[derive(Clone, Debug, Drop)]
pub enum SlotData {
    /// A number in overlap sending, so far.
    Number(Pending),
    /// The octets of a message.
    Message(Encoded),
}

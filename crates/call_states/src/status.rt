//! The STATUS messages that report a leg's state.

ghost use Rattle.std.specs.Prelude.{◌≡◌, ◌<◌};
ghost use Rattle.q931_codec.specs.Outgoing.{outgoing_of};
ghost use Rattle.call_states.specs.Status.{status, unexpected_cause};

use crate::leg::Leg;
use q931_codec::causes::{MESSAGE_NOT_COMPATIBLE_WITH_CALL_STATE, MESSAGE_TYPE_NOT_IMPLEMENTED};
use q931_codec::{Message, MessageKind, Outgoing};

/// Returns the STATUS (Q.931, 3.1.16) to a leg with this cause value and the leg's state.
pub fn status_message(leg: &Leg, cause: u8) -> Outgoing<'static>
    ensures { outgoing_of result ≡ status leg.now cause }
{
    Outgoing {
        cause: Some(cause),
        state: Some(leg.state),
        ..Outgoing::new(leg.side.flag(), leg.reference, MessageKind::Status)
    }
}

/// Returns the STATUS for a message whose act is [`Act::Unexpected`](crate::Act::Unexpected): with cause 97 if the
/// message type is unknown (5.8.4), otherwise with 101.
pub fn unexpected(leg: &Leg, message: &Message) -> Outgoing<'static>
    ensures { outgoing_of result ≡ status leg.now (unexpected_cause message.now.kind) }
{
    match message.kind {
        MessageKind::Unknown(_) => status_message(leg, MESSAGE_TYPE_NOT_IMPLEMENTED),
        _ => status_message(leg, MESSAGE_NOT_COMPATIBLE_WITH_CALL_STATE),
    }
}

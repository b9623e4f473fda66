//! The readable cause of a message.

ghost use Rattle.std.specs.Prelude.{◌≡◌};
ghost use Rattle.q931_codec.specs.Contents.{cause_in};

use q931_codec::Message;

/// Returns the readable cause value of a message (Q.931, 4.5.12): its first cause's. `None` if it has no cause, or if
/// the first one ends before its value.
pub fn cause_in(message: &Message) -> Option<u8>
    ensures { result ≡ cause_in message.now.elements }
{
    message.cause()
}

//! A received message, and the reasons for which octets are not a message.

use crate::codes::{PROTOCOL_DISCRIMINATOR, REFERENCE_LENGTH};
use crate::kind::MessageKind;
use q931_elements::Elements;
use thiserror::Error;

/// The reason for which a received message is ignored: it changes no call, and gets no reply.
#[derive(Clone, Copy, Debug, PartialEq, Eq, Error)]
pub enum Discard {
    /// The protocol discriminator is not user-network call control (Q.931, 5.8.1).
    #[error("another protocol discriminator")]
    Discriminator = 1,
    /// The message ends before its message type (5.8.2).
    #[error("the message is too short")]
    Short = 2,
    /// The call reference does not have two octets. Q.931 (4.3) has other lengths too, which this exchange ignores.
    #[error("a call reference of another length")]
    ReferenceLength = 3,
}

/// A received message. Contracts see `elements` as the list of its information elements.
#[derive(Clone, Debug, Drop)]
pub struct Message<'a> {
    /// The call reference flag (Q.931, 4.3): true if the message goes to the side that chose the call reference value.
    pub flag: bool,
    /// The call reference value (4.3), below 32,768.
    pub reference: u16,
    /// The message type (4.4).
    pub kind: MessageKind,
    /// The information elements (4.5).
    pub elements: Elements<'a>,
}

ghost use Rattle.std.specs.Prelude.{◌≡◌, ◌↔◌, IfOk, IsErrOf, Ok};
ghost use Rattle.q931_codec.specs.declared.message.Message.{Message};
ghost use Rattle.q931_codec.specs.Grammar.{IsMessage};
ghost use Rattle.q931_codec.specs.Reading.{HasOtherDiscriminator, IsShort, HasOtherReferenceLength, reading};

/// Reads a message: its header (Q.931, 4.2 to 4.4), and its elements, which are slices of the octets.
///
/// # Errors
///
/// - [`Discard::Discriminator`] if there is a first octet, and it is not 08.
/// - [`Discard::ReferenceLength`] if the first octet is 08, and there is a second that is not 02.
/// - [`Discard::Short`] if there are no octets, only 08, or 08 02 and fewer than three others.
pub fn read(octets: &[u8]) -> Result<Message<'_>, Discard>
    // Octets are read as a message if and only if it is in the grammar.
    ensures found { IfOk result (λ m. IsMessage octets.now m) }
    ensures only { (m : Message) → IsMessage octets.now m → result ≡ Ok m }

    // Each reason is returned if and only if it holds.
    ensures discriminator { IsErrOf result Discard.Discriminator ↔ HasOtherDiscriminator octets.now }
    ensures short { IsErrOf result Discard.Short ↔ IsShort octets.now }
    ensures reference_length { IsErrOf result Discard.ReferenceLength ↔ HasOtherReferenceLength octets.now }

    ensures computed { result ≡ reading octets.now }
{
    match octets {
        [
            PROTOCOL_DISCRIMINATOR,
            REFERENCE_LENGTH,
            high,
            low,
            kind,
            elements @ ..,
        ] => {
            let call_reference = u16::from_be_bytes([*high, *low]);
            Ok(Message {
                flag: call_reference >= 0x8000,
                reference: call_reference % 0x8000,
                kind: MessageKind::from(*kind),
                elements: Elements::new(elements),
            })
        }
        [] | [PROTOCOL_DISCRIMINATOR] | [PROTOCOL_DISCRIMINATOR, REFERENCE_LENGTH, ..] => {
            Err(Discard::Short)
        }
        [PROTOCOL_DISCRIMINATOR, ..] => Err(Discard::ReferenceLength),
        _ => Err(Discard::Discriminator),
    }
}

//! Reads and writes the octets of messages of ITU-T Q.931 (05/98).
//!
//! - [`read`] parses a message without copying it, if and only if its header is there (`found`, `only`). Otherwise it
//!   returns the reason (`discriminator`, `short`, `reference_length`). No string of octets is two messages
//!   ([`one_message`]).
//! - `cause`, `call_state`, `channel` and the like of [`Message`] return the value in the first element of a kind.
//! - [`write`] has one encoding of each message (`encoded`), of 107 octets at most (`fits`). Reading it gives the
//!   message again (`read_back`, [`written_fields_are_read`]).
//!
//! Nothing here allocates.
#![tactic(auto)]

mod bearer;
pub mod causes;
pub mod codes;
mod contents;
mod encoding;
mod kind;
mod laws;
mod message;
mod numbers;
mod outgoing;
pub mod restart_classes;
pub mod states;

pub use bearer::BearerCapability;
pub use contents::ChannelIdentification;
pub use encoding::write;
pub use kind::MessageKind;
pub use laws::{
    law_of_cause_values, law_of_restart_classes, law_of_states, one_message,
    written_fields_are_read,
};
pub use message::{Discard, Message, read};
pub use numbers::{MAX_DIGITS, dialled_digits, is_called_number};
pub use outgoing::Outgoing;

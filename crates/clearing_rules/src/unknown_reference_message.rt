//! The reply to a message on a call reference without a call.

ghost use Rattle.std.specs.Prelude.{◌≡◌, None, option_map};
ghost use Rattle.q931_codec.specs.Outgoing.{outgoing_of};
ghost use Rattle.clearing_rules.specs.Restarting.{global_call_reference};
ghost use Rattle.clearing_rules.specs.UnknownReference.{answer_without_call};

use crate::restart_message::GLOBAL_CALL_REFERENCE;
use q931_codec::causes::{
    INVALID_CALL_REFERENCE, MESSAGE_NOT_COMPATIBLE_WITH_CALL_STATE, RESPONSE_TO_STATUS_ENQUIRY,
};
use q931_codec::states::NULL;
use q931_codec::{Message, MessageKind, Outgoing};

/// Returns the reply to a message on a call reference without a leg on its line (Q.931, 5.8.3.2). There is none on the
/// global call reference, where only [`restart`](crate::restart) reads a message. On every other one the reply is:
///
/// - STATUS ENQUIRY: a STATUS with cause 30 and state 0, null;
/// - STATUS with a call state other than null: a RELEASE COMPLETE with cause 101, message not compatible with call
///   state (5.8.11);
/// - every other STATUS, SETUP, RELEASE COMPLETE: none. A SETUP with flag 0 requests a call, to which other rules reply;
/// - every other type, also an unknown one, and RESTART and RESTART ACKNOWLEDGE, which belong on the global call
///   reference: a RELEASE COMPLETE with cause 81, invalid call reference value.
///
/// The reply has the message's call reference with the other flag.
pub fn unknown_reference(message: &Message) -> Option<Outgoing<'static>>
    ensures answer { option_map outgoing_of result ≡ answer_without_call message.now }
    ensures global { message.now.reference ≡ global_call_reference → result ≡ None }
{
    if message.reference == GLOBAL_CALL_REFERENCE {
        return None;
    }
    match message.kind {
        MessageKind::Setup | MessageKind::ReleaseComplete => None,
        MessageKind::Status => status_without_call(message),
        MessageKind::StatusEnquiry => Some(Outgoing {
            cause: Some(RESPONSE_TO_STATUS_ENQUIRY),
            state: Some(NULL),
            ..message_back(message, MessageKind::Status)
        }),
        _ => Some(no_call(message, INVALID_CALL_REFERENCE)),
    }
}

ghost use Rattle.std.specs.Prelude.{Some};
ghost use Rattle.q931_codec.specs.declared.kind.MessageKind.TheVariants as kind;
ghost use Rattle.q931_codec.specs.Contents.{call_state_in};
ghost use Rattle.clearing_rules.specs.UnknownReference.{answer_to_status, message_back};

// Returns the reply to a STATUS: RELEASE COMPLETE if it reports a call state other than null.
fn status_without_call(message: &Message) -> Option<Outgoing<'static>>
    ensures { option_map outgoing_of result ≡ answer_to_status message.now (call_state_in message.now.elements) }
{
    match message.call_state() {
        None | Some(NULL) => None,
        Some(_) => Some(no_call(message, MESSAGE_NOT_COMPATIBLE_WITH_CALL_STATE)),
    }
}

// Returns the RELEASE COMPLETE to the sender of a message on a call reference without a call.
fn no_call(message: &Message, cause: u8) -> Outgoing<'static>
    ensures { outgoing_of result ≡ record (message_back message.now kind.ReleaseComplete) { cause = Some cause } }
{
    Outgoing {
        cause: Some(cause),
        ..message_back(message, MessageKind::ReleaseComplete)
    }
}

// Returns a message of this type without elements, on the call reference of the message to which it replies.
fn message_back(message: &Message, kind: MessageKind) -> Outgoing<'static>
    ensures { outgoing_of result ≡ message_back message.now kind }
{
    Outgoing::new(!message.flag, message.reference, kind)
}

//! The call table: the act of each message at a leg in its state.

ghost use Rattle.std.specs.Prelude.{◌≡◌};
ghost use Rattle.call_states.specs.Acts.{act_of, act_of_status, act_on, is_among, before_release_request};

use crate::act::Act;
use crate::leg::Leg;
use q931_codec::causes::{NORMAL_CALL_CLEARING, TEMPORARY_FAILURE};
use q931_codec::states::{
    ACTIVE, CALL_DELIVERED, CALL_PRESENT, CALL_RECEIVED, DISCONNECT_INDICATION,
    INCOMING_CALL_PROCEEDING, NULL, OUTGOING_CALL_PROCEEDING, OVERLAP_SENDING, RELEASE_REQUEST,
};
use q931_codec::{Message, MessageKind};

/// Returns the act of a message at a leg, by the call table. A message without a readable cause counts as one with
/// cause 16, normal call clearing. Only the elements that the act depends on are searched for.
pub fn on_message(leg: &Leg, message: &Message) -> Act
    ensures { result ≡ act_on leg.now.state message.now }
{
    match message.kind {
        MessageKind::Disconnect | MessageKind::Release | MessageKind::ReleaseComplete => {
            let cause = message.cause().unwrap_or(NORMAL_CALL_CLEARING);
            act_of(leg.state, message.kind, cause, None)
        }
        MessageKind::Status => {
            act_of(
                leg.state,
                message.kind,
                NORMAL_CALL_CLEARING,
                message.call_state(),
            )
        }
        _ => act_of(leg.state, message.kind, NORMAL_CALL_CLEARING, None),
    }
}

// Returns the act of the call table. The reply to a message in a state in which it is not expected is STATUS.
fn act_of(state: u8, kind: MessageKind, cause: u8, reported: Option<u8>) -> Act
    ensures { result ≡ act_of state kind cause reported }
{
    let before_release_request = is_before_release_request(state);
    let releasing = state == RELEASE_REQUEST;
    match kind {
        MessageKind::Information if state == OVERLAP_SENDING => Act::Digits,
        MessageKind::Information
            if matches!(state, OUTGOING_CALL_PROCEEDING | CALL_DELIVERED | ACTIVE) => {
            Act::Nothing
        }
        MessageKind::CallProceeding if state == CALL_PRESENT => Act::Proceeding,
        MessageKind::Alerting if matches!(state, CALL_PRESENT | INCOMING_CALL_PROCEEDING) => {
            Act::Alerting
        }
        MessageKind::Connect
            if matches!(
                state,
                CALL_PRESENT | CALL_RECEIVED | INCOMING_CALL_PROCEEDING
            ) => { Act::Answer }
        MessageKind::ConnectAcknowledge if state == ACTIVE => Act::Nothing,
        MessageKind::Disconnect if before_release_request => Act::Disconnect(cause),
        MessageKind::Release if before_release_request => Act::Release(cause),
        MessageKind::Release if releasing => Act::ReleaseComplete(cause),
        MessageKind::ReleaseComplete if before_release_request || releasing => Act::ReleaseComplete(
            cause,
        ),
        MessageKind::Status if before_release_request || releasing => act_of_status(
            state, reported,
        ),
        MessageKind::StatusEnquiry if before_release_request || releasing => Act::Enquiry,
        MessageKind::Progress
        | MessageKind::Notify
        | MessageKind::Facility
        | MessageKind::UserInformation
        | MessageKind::Setup
            if before_release_request || releasing => { Act::Nothing }
        _ => Act::Unexpected,
    }
}

// Returns the act of a STATUS that reports a state.
fn act_of_status(state: u8, reported: Option<u8>) -> Act
    ensures { result ≡ act_of_status state reported }
{
    match reported {
        Some(NULL) => Act::ReleaseComplete(TEMPORARY_FAILURE),
        Some(reported) if state == ACTIVE => Act::Report(reported),
        _ => Act::Nothing,
    }
}

// Returns whether a leg in this state was not asked to release its channel.
fn is_before_release_request(state: u8) -> bool
    ensures { result ≡ is_among before_release_request state }
{
    matches!(
        state,
        OVERLAP_SENDING
            | OUTGOING_CALL_PROCEEDING
            | CALL_DELIVERED
            | CALL_PRESENT
            | CALL_RECEIVED
            | INCOMING_CALL_PROCEEDING
            | ACTIVE
            | DISCONNECT_INDICATION
    )
}

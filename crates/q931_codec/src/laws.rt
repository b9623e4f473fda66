// Theorems on the definitions only: these functions do nothing, and their contracts are the theorems.
ghost use Rattle.std.specs.Prelude.{◌≡◌, ℕ, List};
ghost use Rattle.q931_codec.specs.CallStates as state;
ghost use Rattle.q931_codec.specs.Causes as cause;
ghost use Rattle.q931_codec.specs.RestartClasses as class;
ghost use Rattle.q931_codec.specs.declared.message.Message.{Message};
ghost use Rattle.q931_codec.specs.Grammar.{IsMessage};
ghost use Rattle.q931_codec.specs.Outgoing.{OutgoingMessage, IsWritable, message_at_receiver};
ghost use Rattle.q931_codec.specs.Fields.{HasFields};

use crate::causes::{
    BEARER_CAPABILITY_NOT_IMPLEMENTED, DESTINATION_OUT_OF_ORDER, INVALID_CALL_REFERENCE,
    INVALID_ELEMENT_CONTENTS, INVALID_NUMBER_FORMAT, MANDATORY_ELEMENT_MISSING,
    MESSAGE_NOT_COMPATIBLE_WITH_CALL_STATE, MESSAGE_TYPE_NOT_IMPLEMENTED, NO_CHANNEL_AVAILABLE,
    NORMAL_CALL_CLEARING, NORMAL_UNSPECIFIED, REQUESTED_CHANNEL_NOT_AVAILABLE,
    RESPONSE_TO_STATUS_ENQUIRY, SWITCHING_EQUIPMENT_CONGESTION, TEMPORARY_FAILURE,
    UNALLOCATED_NUMBER, USER_BUSY,
};
use crate::restart_classes::{ALL_INTERFACES, INDICATED_CHANNELS, SINGLE_INTERFACE};
use crate::states::{
    ACTIVE, CALL_DELIVERED, CALL_PRESENT, CALL_RECEIVED, DISCONNECT_INDICATION,
    INCOMING_CALL_PROCEEDING, NULL, OUTGOING_CALL_PROCEEDING, OVERLAP_SENDING, RELEASE_REQUEST,
};

/// A string of octets is one message at most.
pub fn one_message()
    ensures { (octets : List ℕ) (one other : Message) → IsMessage octets one → IsMessage octets other → one ≡ other }
{}

/// Reading a written message gives each field of the outgoing message.
pub fn written_fields_are_read()
    ensures { (m : OutgoingMessage) → IsWritable m → HasFields (message_at_receiver m) m }
{}

/// Code and definitions have the same call state values.
pub fn law_of_states()
    ensures null { NULL ≡ state.null }
    ensures overlap_sending { OVERLAP_SENDING ≡ state.overlap_sending }
    ensures outgoing_call_proceeding { OUTGOING_CALL_PROCEEDING ≡ state.outgoing_call_proceeding }
    ensures call_delivered { CALL_DELIVERED ≡ state.call_delivered }
    ensures call_present { CALL_PRESENT ≡ state.call_present }
    ensures call_received { CALL_RECEIVED ≡ state.call_received }
    ensures incoming_call_proceeding { INCOMING_CALL_PROCEEDING ≡ state.incoming_call_proceeding }
    ensures active { ACTIVE ≡ state.active }
    ensures disconnect_indication { DISCONNECT_INDICATION ≡ state.disconnect_indication }
    ensures release_request { RELEASE_REQUEST ≡ state.release_request }
{}

/// Code and definitions have the same cause values.
pub fn law_of_cause_values()
    ensures unallocated { UNALLOCATED_NUMBER ≡ cause.unallocated_number }
    ensures normal { NORMAL_CALL_CLEARING ≡ cause.normal_call_clearing }
    ensures busy { USER_BUSY ≡ cause.user_busy }
    ensures out_of_order { DESTINATION_OUT_OF_ORDER ≡ cause.destination_out_of_order }
    ensures unspecified { NORMAL_UNSPECIFIED ≡ cause.normal_unspecified }
    ensures format { INVALID_NUMBER_FORMAT ≡ cause.invalid_number_format }
    ensures enquiry { RESPONSE_TO_STATUS_ENQUIRY ≡ cause.response_to_status_enquiry }
    ensures no_channel { NO_CHANNEL_AVAILABLE ≡ cause.no_channel_available }
    ensures temporary { TEMPORARY_FAILURE ≡ cause.temporary_failure }
    ensures congestion { SWITCHING_EQUIPMENT_CONGESTION ≡ cause.switching_equipment_congestion }
    ensures requested { REQUESTED_CHANNEL_NOT_AVAILABLE ≡ cause.requested_channel_not_available }
    ensures bearer { BEARER_CAPABILITY_NOT_IMPLEMENTED ≡ cause.bearer_capability_not_implemented }
    ensures reference { INVALID_CALL_REFERENCE ≡ cause.invalid_call_reference }
    ensures mandatory { MANDATORY_ELEMENT_MISSING ≡ cause.mandatory_element_missing }
    ensures unknown_type { MESSAGE_TYPE_NOT_IMPLEMENTED ≡ cause.message_type_not_implemented }
    ensures contents { INVALID_ELEMENT_CONTENTS ≡ cause.invalid_element_contents }
    ensures incompatible { MESSAGE_NOT_COMPATIBLE_WITH_CALL_STATE ≡ cause.message_not_compatible_with_call_state }
{}

/// Code and definitions have the same classes of restart.
pub fn law_of_restart_classes()
    ensures channels { INDICATED_CHANNELS ≡ class.indicated_channels }
    ensures interface { SINGLE_INTERFACE ≡ class.single_interface }
    ensures interfaces { ALL_INTERFACES ≡ class.all_interfaces }
{}

// Theorems on the definitions only: these functions do nothing, and their contracts are the theorems.
ghost use Rattle.std.specs.Prelude.{◌≡◌, ◌<◌, ◌^◌, Some, None, IfSome};
ghost use Rattle.q931_codec.specs.declared.message.Message.{Message};
ghost use Rattle.q931_codec.specs.Outgoing.{IsWritable};
ghost use Rattle.q931_codec.specs.RestartClasses.{single_interface, all_interfaces};
ghost use Rattle.clearing_rules.specs.declared.scope.Restart.{Restart};
ghost use Rattle.clearing_rules.specs.declared.scope.Restart.TheVariants.{Channel, Interface};
ghost use Rattle.clearing_rules.specs.Restarting.{acknowledgement, global_call_reference, restart_of, IsOnLine};
ghost use Rattle.clearing_rules.specs.UnknownReference.{answer_without_call};
ghost use Rattle.clearing_rules.specs.Worked.{acknowledged_in_octets, acknowledgement_of_octets, answer_to_octets, restart_in_octets};
ghost use Rattle.clearing_rules.specs.Worked as worked;

use crate::restart_message::GLOBAL_CALL_REFERENCE;

/// The replies can be written: each reply to a message whose call reference value has 15 bits, and each acknowledgement
/// of a restart.
pub fn law_of_answers()
    ensures answer { (m : Message) → m.reference < 2 ^ 15 → IfSome (answer_without_call m) IsWritable }
    ensures acknowledgement { (r : Restart) → IsOnLine r → IsWritable (acknowledgement r) }
    ensures restart { (r : Restart) → IsOnLine r → IsWritable (restart_of r) }
{}

/// Code and definitions have the same global call reference.
pub fn law_of_global_reference()
    ensures { GLOBAL_CALL_REFERENCE ≡ global_call_reference }
{}

/// The replies to messages on call references without a call, from octets to octets.
pub fn worked_answers()
    ensures enquiry { answer_to_octets worked.enquiry ≡ Some worked.no_call }
    ensures enquiry_from_called { answer_to_octets worked.enquiry_from_called ≡ Some worked.no_call_to_called }
    ensures disconnect { answer_to_octets worked.disconnect ≡ Some worked.invalid_reference }
    ensures release { answer_to_octets worked.release_from_called ≡ Some worked.invalid_reference_to_called }
    ensures restart { answer_to_octets worked.restart_on_a_call ≡ Some worked.invalid_reference }
    ensures unknown { answer_to_octets worked.unknown_type ≡ Some worked.invalid_reference }
    ensures release_complete { answer_to_octets worked.release_complete ≡ None }
    ensures status { answer_to_octets worked.status ≡ Some worked.incompatible }
    ensures status_from_called { answer_to_octets worked.status_from_called ≡ Some worked.incompatible_to_called }
    ensures status_of_null { answer_to_octets worked.status_of_null ≡ None }
    ensures status_without_state { answer_to_octets worked.status_without_state ≡ None }
    ensures status_on_global { answer_to_octets worked.status_on_global ≡ None }
    ensures setup { answer_to_octets worked.setup_from_called ≡ None }
    ensures global { answer_to_octets worked.restart_interface ≡ None }
    ensures global_enquiry { answer_to_octets worked.enquiry_on_global ≡ None }
{}

/// The restarts that octets request, the octets that acknowledge them, and the restarts that octets acknowledge.
pub fn worked_restarts()
    ensures interface { restart_in_octets worked.restart_interface ≡ Some (Interface single_interface) }
    ensures all { restart_in_octets worked.restart_all ≡ Some (Interface all_interfaces) }
    ensures first { restart_in_octets worked.restart_1 ≡ Some (Channel 0) }
    ensures after_signalling { restart_in_octets worked.restart_17 ≡ Some (Channel 15) }
    ensures preferred { restart_in_octets worked.restart_31 ≡ Some (Channel 29) }
    ensures any { restart_in_octets worked.restart_any ≡ None }
    ensures signalling { restart_in_octets worked.restart_16 ≡ None }
    ensures no_indicator { restart_in_octets worked.restart_nothing ≡ None }
    ensures flag { restart_in_octets worked.restart_from_called ≡ None }
    ensures reference { restart_in_octets worked.restart_on_a_call ≡ None }
    ensures acknowledge { restart_in_octets worked.restart_acknowledge ≡ None }
    ensures interface_acknowledged { acknowledgement_of_octets worked.restart_interface ≡ Some worked.interface_acknowledged }
    ensures channel_acknowledged { acknowledgement_of_octets worked.restart_1 ≡ Some worked.channel_1_acknowledged }
    ensures acknowledges_interface { acknowledged_in_octets worked.interface_acknowledged ≡ Some (Interface single_interface) }
    ensures acknowledges_channel { acknowledged_in_octets worked.channel_2_acknowledged ≡ Some (Channel 1) }
    ensures acknowledges_at_flag { acknowledged_in_octets worked.restart_acknowledge ≡ None }
    ensures requests_only { acknowledged_in_octets worked.restart_interface ≡ None }
{}

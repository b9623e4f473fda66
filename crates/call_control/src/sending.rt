//! Adds messages and records to the outbox of a step.
ghost use Rattle.std.specs.Prelude.{◌≡◌, ◌<◌, ◌≤◌, ◌+◌, ◌^◌, ◌++◌, [], ◌∷◌, length, true, Some};
ghost use Rattle.std.specs.List.{cons_option};
ghost use Rattle.circuit_map.specs.Connections.{Connections};
ghost use Rattle.q931_codec.specs.declared.kind.MessageKind.TheVariants as kind;
ghost use Rattle.q931_codec.specs.Outgoing.{IsWritable, encoding, outgoing_of, bare};
ghost use Rattle.call_states.specs.Status.{FitsMessages};
ghost use Rattle.clearing_rules.specs.UnknownReference.{answer_without_call};
ghost use Rattle.q931_codec.specs.MessageType.{IsNamed};
ghost use Rattle.call_profile.specs.Acts.{message_to};
ghost use Rattle.call_profile.specs.Calls.{answer_back};
ghost use Rattle.call_profile.specs.Legs.{Legs};
ghost use Rattle.exchange_events.specs.Limits.{max_sends, max_records};
ghost use Rattle.call_profile.specs.Setup.{refuse};
ghost use Rattle.call_control.specs.Standing.{Performs};

use call_states::{HeldLeg, Leg};
use clearing_rules::unknown_reference;
use exchange_events::{CallRecord, Encoded, Outbox, Records, Signal};
use q931_codec::{Message, MessageKind, Outgoing, write};

/// Sends a message to the user of a line.
pub(crate) fn send(out: &mut Outbox, line: u8, message: &Outgoing)
    requires room { length out.old.sends < max_sends }
    requires writable { IsWritable (outgoing_of message.now) }
    ensures sends { out.new.sends ≡ out.old.sends ++ record { line = line; octets = encoding (outgoing_of message.now) } ∷ [] }
    ensures moved { out.new.moved ≡ out.old.moved }
    ensures records { out.new.records ≡ out.old.records }
{
    out.sends.push(Signal {
        line,
        octets: Encoded::of(write(message)),
    });
}

/// Sends a message of a type, without elements, to the user of a leg.
pub(crate) fn send_bare(out: &mut Outbox, held: &HeldLeg, kind: MessageKind)
    requires room { length out.old.sends < max_sends }
    requires told { FitsMessages held.now.leg }
    requires named { IsNamed kind }
    ensures sends { out.new.sends ≡ out.old.sends ++ record { line = held.now.slot.line; octets = encoding (message_to held.now.leg kind) } ∷ [] }
    ensures moved { out.new.moved ≡ out.old.moved }
    ensures records { out.new.records ≡ out.old.records }
{
    send(out, held.slot.line, &message_to(&held.leg, kind));
}

/// Refuses a SETUP with a cause.
#[inline(never)]
pub(crate) fn refuse(out: &mut Outbox, line: u8, reference: u16, cause: u8)
    requires room { length out.old.sends ≤ 60 }
    requires reference { reference < 2 ^ 15 }
    requires cause { cause < 128 }
    ensures makes { (map : Connections) (legs : Legs) → Performs (refuse line reference cause) map legs out.old map legs out.new }
    ensures moved { out.new.moved ≡ out.old.moved }
{
    send(out, line, &release_complete(reference, cause));
}

/// Sends the reply to a message on the call reference of no call, if there is one.
#[inline(never)]
pub(crate) fn answer_on_no_call(out: &mut Outbox, line: u8, message: &Message)
    requires room { length out.old.sends < max_sends }
    requires reference { message.now.reference < 2 ^ 15 }
    ensures makes { (map : Connections) (legs : Legs) → Performs (answer_back line (answer_without_call message.now)) map legs out.old map legs out.new }
    ensures moved { out.new.moved ≡ out.old.moved }
{
    if let Some(answer) = unknown_reference(message) {
        send(out, line, &answer);
    }
}

/// Returns a message of a type, without elements, to the user of a leg.
pub(crate) fn message_to(leg: &Leg, kind: MessageKind) -> Outgoing<'static>
    ensures { outgoing_of result ≡ message_to leg.now kind }
{
    Outgoing::new(leg.side.flag(), leg.reference, kind)
}

// Returns the RELEASE COMPLETE that refuses a SETUP with this call reference.
fn release_complete(reference: u16, cause: u8) -> Outgoing<'static>
    ensures { outgoing_of result ≡ record (bare true reference kind.ReleaseComplete) { cause = Some cause } }
{
    Outgoing {
        cause: Some(cause),
        ..Outgoing::new(true, reference, MessageKind::ReleaseComplete)
    }
}

/// Replaces all records by this call, if there is one.
pub(crate) fn record_only(records: &mut Records, call: Option<CallRecord>)
    ensures { records.new ≡ cons_option call [] }
{
    records.clear();
    record_also(records, call);
}

/// Adds the record of a call, if there is one.
pub(crate) fn record_also(records: &mut Records, call: Option<CallRecord>)
    requires { length records.old < max_records }
    ensures all { records.new ≡ records.old ++ cons_option call [] }
    ensures few { length records.new ≤ length records.old + 1 }
{
    if let Some(call) = call {
        records.push(call);
    }
}

//! A received message, from its octets to its operations.
ghost use Rattle.std.specs.Prelude.{◌≡◌, ◌<◌, ◌≤◌, ◌^◌, [], None, Ok, IfSome};
ghost use Rattle.circuit_map.specs.Connections.{SameSizes};
ghost use Rattle.call_control.specs.Ahead.{HasDialled, IsReadAhead};
ghost use Rattle.call_control.specs.AtWork.{IsAtWork, EachAtWork, EachWithTones};
ghost use Rattle.call_profile.specs.Calls.{with_leg_named, request_read, outcome_of_octets, outcome_for, request_on_global};
ghost use Rattle.call_profile.specs.Legs.{leg_named};
ghost use Rattle.exchange_events.specs.Sizes.{Setting};
ghost use Rattle.call_profile.specs.World.{World};
ghost use Rattle.call_control.specs.Standing.{HasMade};

use crate::operations::CallControl;
use crate::preparsing::{PreparsedMessage, Received, asks_for_call, number_of, read_received};
use crate::sending::answer_on_no_call;
use clearing_rules::{GLOBAL_CALL_REFERENCE, acknowledged_restart, restart};
use control_memory::PathMap;
use exchange_events::Outbox;
use number_plan::Plan;
use q931_codec::Message;
use tone_rules::Tones;

impl<P: PathMap> CallControl<P> {
    /// Processes the octets that the user of a line has sent, and records the calls whose clearing they begin. Octets
    /// that are not a message have no effect. A message that was parsed ahead is not parsed again.
    pub fn handle_message(
        &mut self,
        out: &mut Outbox,
        plan: &Plan,
        tones: &Tones,
        line: u8,
        received: &Received,
    )
        requires work { (s : Setting) × (w : World) × (s.plan ≡ plan.now) × (s.tones ≡ tones.now) × IsAtWork s self.old.map self.old.legs w }
        requires line { line < self.old.map.external }
        requires ahead { IfSome received.now.ahead (IsReadAhead plan.now received.now.octets.now) }
        requires fresh { (out.old.sends ≡ []) × (out.old.moved ≡ None) }
        ensures makes { EachAtWork plan.now tones.now self.old.map self.old.legs (λ s w.
            HasMade s self.new.map self.new.legs out.new (outcome_of_octets s w line received.now.octets.now).making) }
        ensures records { EachAtWork plan.now tones.now self.old.map self.old.legs (λ s w.
            out.new.records ≡ (outcome_of_octets s w line received.now.octets.now).recorded) }
        ensures few { IfSome out.new.moved (λ moves. (moves.0 ≤ self.old.map.bound) × (moves.1 ≤ self.old.map.bound)) }
        ensures sizes { SameSizes self.old.map self.new.map }
    {
        match &read_received(received) {
            Some(message) => self.receive(out, plan, tones, line, message, &received.ahead),
            None => out.records.clear(),
        }
    }

    // Processes a message, and records the calls whose clearing it begins. The state of its leg decides the operations.
    // A SETUP from the side that chose the call reference requests a new call.
    fn receive(
        &mut self,
        out: &mut Outbox,
        plan: &Plan,
        tones: &Tones,
        line: u8,
        message: &Message,
        ahead: &Option<PreparsedMessage>,
    )
        requires work { (s : Setting) × (w : World) × (s.plan ≡ plan.now) × (s.tones ≡ tones.now) × IsAtWork s self.old.map self.old.legs w }
        requires line { line < self.old.map.external }
        requires reference { message.now.reference < 2 ^ 15 }
        requires ahead { IfSome ahead.now (HasDialled plan.now message.now) }
        requires fresh { (out.old.sends ≡ []) × (out.old.moved ≡ None) }
        ensures makes { EachAtWork plan.now tones.now self.old.map self.old.legs (λ s w.
            HasMade s self.new.map self.new.legs out.new (outcome_for s w line (request_read self.old.legs line (Ok message.now))).making) }
        ensures records { EachAtWork plan.now tones.now self.old.map self.old.legs (λ s w.
            out.new.records ≡ (outcome_for s w line (request_read self.old.legs line (Ok message.now))).recorded) }
        ensures few { IfSome out.new.moved (λ moves. (moves.0 ≤ self.old.map.bound) × (moves.1 ≤ self.old.map.bound)) }
        ensures sizes { SameSizes self.old.map self.new.map }
    {
        match &self.legs.find(line, message.flag, message.reference) {
            Some(held) => self.act(out, plan, tones, held, message),
            None => self.answer_without_leg(out, plan, tones, line, message, ahead),
        }
    }

    // Processes a message without a leg, and records the calls that it ends: a RESTART on the global call reference, a
    // SETUP from the side that chose the call reference, or a message to which there is a fixed reply.
    #[inline(never)]
    fn answer_without_leg(
        &mut self,
        out: &mut Outbox,
        plan: &Plan,
        tones: &Tones,
        line: u8,
        message: &Message,
        ahead: &Option<PreparsedMessage>,
    )
        requires work { (s : Setting) × (w : World) × (s.plan ≡ plan.now) × (s.tones ≡ tones.now) × IsAtWork s self.old.map self.old.legs w }
        requires line { line < self.old.map.external }
        requires reference { message.now.reference < 2 ^ 15 }
        requires ahead { IfSome ahead.now (HasDialled plan.now message.now) }
        requires nameless { leg_named self.old.legs line message.now.flag message.now.reference ≡ None }
        requires fresh { (out.old.sends ≡ []) × (out.old.moved ≡ None) }
        ensures makes { EachAtWork plan.now tones.now self.old.map self.old.legs (λ s w.
            HasMade s self.new.map self.new.legs out.new (outcome_for s w line (with_leg_named message.now None)).making) }
        ensures records { EachAtWork plan.now tones.now self.old.map self.old.legs (λ s w.
            out.new.records ≡ (outcome_for s w line (with_leg_named message.now None)).recorded) }
        ensures few { IfSome out.new.moved (λ moves. (moves.0 ≤ self.old.map.bound) × (moves.1 ≤ self.old.map.bound)) }
        ensures sizes { SameSizes self.old.map self.new.map }
    {
        if message.reference == GLOBAL_CALL_REFERENCE {
            return self.answer_on_global_reference(out, tones, line, message);
        }
        if asks_for_call(message) {
            self.setup(out, line, message, &number_of(plan, message, ahead));
            out.records.clear();
            return;
        }
        answer_on_no_call(out, line, message);
        out.records.clear();
    }

    // Processes a message on the global call reference. Only a RESTART and a RESTART ACKNOWLEDGE have an effect.
    #[inline(never)]
    fn answer_on_global_reference(
        &mut self,
        out: &mut Outbox,
        tones: &Tones,
        line: u8,
        message: &Message,
    )
        requires work { (s : Setting) × (w : World) × (s.tones ≡ tones.now) × IsAtWork s self.old.map self.old.legs w }
        requires line { line < self.old.map.external }
        requires fresh { (out.old.sends ≡ []) × (out.old.moved ≡ None) }
        ensures makes { EachWithTones tones.now self.old.map self.old.legs (λ s w.
            HasMade s self.new.map self.new.legs out.new (outcome_for s w line (request_on_global message.now)).making) }
        ensures records { EachWithTones tones.now self.old.map self.old.legs (λ s w.
            out.new.records ≡ (outcome_for s w line (request_on_global message.now)).recorded) }
        ensures moved { out.new.moved ≡ None }
        ensures sizes { SameSizes self.old.map self.new.map }
    {
        if let Some(restarted) = restart(message) {
            out.records = self.restart_line(out, tones, line, restarted);
            return;
        }
        match acknowledged_restart(message) {
            Some(acknowledged) => self.confirm_line(out, line, acknowledged),
            None => out.records.clear(),
        }
    }
}

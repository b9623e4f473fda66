//! The operations of each act on the leg of a message and on its peer.
ghost use Rattle.std.specs.Prelude.{ℕ, ◌≡◌, ◌≢◌, ◌<◌, ◌≤◌, ◌+◌, ◌*◌, ◌++◌, [], ◌∷◌, None, Some, IfSome, length};
ghost use Rattle.circuit_model.specs.Extent.{IsExternal};
ghost use Rattle.circuit_map.specs.Connections.{SameSizes, hears_at};
ghost use Rattle.q931_codec.specs.Causes.{response_to_status_enquiry};
ghost use Rattle.q931_codec.specs.Outgoing.{outgoing_of};
ghost use Rattle.call_states.specs.Acts.{cause_of_act};
ghost use Rattle.call_states.specs.Status.{FitsMessages, unexpected_cause};
ghost use Rattle.call_states.specs.declared.act.Act.TheVariants as asked;
ghost use Rattle.q931_codec.specs.CallStates.{active};
ghost use Rattle.call_profile.specs.ActCourse.{course_of};
ghost use Rattle.call_control.specs.Choices.{course_of_status, status_sent};
ghost use Rattle.call_profile.specs.Acts.{with_progress, with_enquiry, peer_of, with_peer, disconnect, in_disconnect_indication, in_release_request, in_state, tone_of, on_alerting, on_connect, on_disconnect, on_release, remove_leg, clear_with};
ghost use Rattle.call_control.specs.AtWork.{IsAtWork, EachAtWork};
ghost use Rattle.call_profile.specs.Calls.{making_by, outcome_by, course_on};
ghost use Rattle.call_profile.specs.Legs.{leg_at};
ghost use Rattle.exchange_events.specs.Limits.{max_sends};
ghost use Rattle.call_profile.specs.Operations.{Clear, Pair, Making, making_after_all};
ghost use Rattle.call_profile.specs.Peers.{IsThere, PeerIsThere, IsSilent};
ghost use Rattle.exchange_events.specs.Sizes.{Setting, Dimensions};
ghost use Rattle.call_control.specs.Standing.{Holds, Makes, HasMade, Performs, PerformsQuietly};
ghost use Rattle.call_profile.specs.World.{World};

use crate::operations::CallControl;
use crate::sending::{message_to, record_only, send, send_bare};
use call_states::{Act, Condition, HeldLeg, Leg, Peer, on_message, status_message, unexpected};
use circuit_model::{Kind, Slot};
use control_memory::PathMap;
use exchange_events::Outbox;
use number_plan::Plan;
use q931_codec::causes::{MESSAGE_NOT_COMPATIBLE_WITH_CALL_STATE, RESPONSE_TO_STATUS_ENQUIRY};
use q931_codec::states::{
    ACTIVE, CALL_DELIVERED, CALL_RECEIVED, DISCONNECT_INDICATION, INCOMING_CALL_PROCEEDING,
    RELEASE_REQUEST,
};
use q931_codec::{Message, MessageKind, Outgoing};
use tone_rules::{Tones, tone_given};

impl<P: PathMap> CallControl<P> {
    /// Performs the act of a message on its leg, and records the call whose clearing begins with it.
    pub(crate) fn act(
        &mut self,
        out: &mut Outbox,
        plan: &Plan,
        tones: &Tones,
        held: &HeldLeg,
        message: &Message,
    )
        requires work { (s : Setting) × (w : World) × (s.plan ≡ plan.now) × (s.tones ≡ tones.now) × IsAtWork s self.old.map self.old.legs w }
        requires external { IsExternal self.old.map.external held.now.slot }
        requires held { leg_at self.old.legs held.now.slot ≡ Some held.now.leg }
        requires fresh { (out.old.sends ≡ []) × (out.old.moved ≡ None) }
        ensures makes { EachAtWork plan.now tones.now self.old.map self.old.legs (λ s w.
            HasMade s self.new.map self.new.legs out.new (making_by s w (course_on s w held.now message.now))) }
        ensures records { (s : Setting) (w : World) → IsAtWork s self.old.map self.old.legs w
            → out.new.records ≡ (outcome_by s w (course_on s w held.now message.now)).recorded }
        ensures few { IfSome out.new.moved (λ moves. (moves.0 ≤ self.old.map.bound) × (moves.1 ≤ self.old.map.bound)) }
        ensures sizes { SameSizes self.old.map self.new.map }
    {
        let act = on_message(&held.leg, message);
        let peer = self.peer_of(held.leg.peer);
        let call = self.record_of_act(held, &peer, act);
        match act {
            Act::Digits => self.on_digits(out, plan, tones, held, message),
            _ => self.perform(out, tones, held, &peer, act, message),
        }
        record_only(&mut out.records, call);
    }

    /// Returns the other leg of a call, if there is one.
    #[inline(always)]
    pub(crate) fn peer_of(&self, peer: Peer) -> Option<HeldLeg>
        ensures { result ≡ peer_of self.now.legs peer }
    {
        match peer {
            Peer::Leg(slot) => {
                let leg = self.legs.get(slot)?;
                Some(HeldLeg { slot, leg })
            }
            Peer::Alone | Peer::Room(_) => None,
        }
    }

    // Performs an act other than further digits: the leg, its peer and the message decide it.
    fn perform(
        &mut self,
        out: &mut Outbox,
        tones: &Tones,
        held: &HeldLeg,
        peer: &Option<HeldLeg>,
        act: Act,
        message: &Message,
    )
        requires work { (d : Dimensions) × (w : World) × Holds d self.old.map self.old.legs w }
        requires other { act ≢ asked.Digits }
        requires there { IsThere self.old.map.external held.now }
        requires count { length self.old.legs.held ≡ 30 * self.old.map.external }
        requires peer { peer.now ≡ peer_of self.old.legs held.now.leg.peer }
        requires peer_there { PeerIsThere self.old.map.external held.now peer.now }
        requires cause { IfSome (cause_of_act act) (λ cause. cause < 128) }
        requires silent { act ≡ asked.Answer → hears_at self.old.map held.now.slot ≡ None }
        requires waiting { act ≡ asked.Alerting → IsSilent self.old.map peer.now }
        requires talking { (reported : ℕ) → act ≡ asked.Report reported → held.now.leg.state ≡ active }
        requires fresh { (out.old.sends ≡ []) × (out.old.moved ≡ None) }
        ensures makes { (s : Setting) (w : World) → s.tones ≡ tones.now → w.legs ≡ self.old.legs
            → Performs (course_of s w held.now message.now act).operations self.old.map self.old.legs out.old self.new.map self.new.legs out.new }
        ensures few { IfSome out.new.moved (λ moves. (moves.0 ≤ self.old.map.bound) × (moves.1 ≤ self.old.map.bound)) }
        ensures sizes { SameSizes self.old.map self.new.map }
    {
        match act {
            Act::Nothing | Act::Digits => {}
            Act::Unexpected => report_unexpected(out, held, message),
            Act::Enquiry => report_state(out, held),
            Act::Proceeding => self.put(held.slot, in_state(INCOMING_CALL_PROCEEDING, held.leg)),
            Act::Alerting => self.on_alerting(out, tones, held, peer),
            Act::Answer => self.on_connect(out, held, peer),
            Act::Report(reported) => self.on_report(out, tones, held, peer, reported),
            Act::Disconnect(cause) => {
                self.on_disconnect(out, held);
                self.clear_peer(out, tones, peer, cause);
            }
            Act::Release(cause) => {
                self.on_release(out, held);
                self.clear_peer(out, tones, peer, cause);
            }
            Act::ReleaseComplete(cause) => {
                self.remove_leg(held, Condition::Idle);
                self.clear_peer(out, tones, peer, cause);
            }
        }
    }

    // ALERTING: the called user is being alerted. The caller is sent ALERTING, with ringing tone if the trace gives
    // that tone. The caller's slot has no circuit yet, so nothing is released first.
    fn on_alerting(
        &mut self,
        out: &mut Outbox,
        tones: &Tones,
        held: &HeldLeg,
        peer: &Option<HeldLeg>,
    )
        requires there { IsThere self.old.map.external held.now }
        requires count { length self.old.legs.held ≡ 30 * self.old.map.external }
        requires peer_there { PeerIsThere self.old.map.external held.now peer.now }
        requires waiting { IsSilent self.old.map peer.now }
        requires room { length out.old.sends < max_sends }
        ensures makes { Performs (with_peer peer.now (on_alerting tones.now held.now)) self.old.map self.old.legs out.old self.new.map self.new.legs out.new }
        ensures moved { out.new.moved ≡ out.old.moved }
        ensures sizes { SameSizes self.old.map self.new.map }
    {
        let Some(caller) = peer else {
            return;
        };
        let waits = in_state(CALL_DELIVERED, caller.leg);
        let tone = tone_of(tones, waits);
        self.put(held.slot, in_state(CALL_RECEIVED, held.leg));
        self.put(caller.slot, waits);
        self.sound(caller.slot, tone);
        let alerting = message_to(&caller.leg, MessageKind::Alerting);
        send(out, caller.slot.line, &with_progress(tone, alerting));
    }

    // CONNECT: the called user has answered. The two slots are connected.
    fn on_connect(&mut self, out: &mut Outbox, held: &HeldLeg, peer: &Option<HeldLeg>)
        requires work { (d : Dimensions) × (w : World) × Holds d self.old.map self.old.legs w }
        requires there { IsThere self.old.map.external held.now }
        requires count { length self.old.legs.held ≡ 30 * self.old.map.external }
        requires peer_there { PeerIsThere self.old.map.external held.now peer.now }
        requires silent { hears_at self.old.map held.now.slot ≡ None }
        requires room { length out.old.sends + 1 < max_sends }
        requires fresh { out.old.moved ≡ None }
        ensures makes { Performs (with_peer peer.now (on_connect self.old.legs held.now))
            self.old.map self.old.legs out.old self.new.map self.new.legs out.new }
        ensures few { IfSome out.new.moved (λ moves. (moves.0 ≤ self.old.map.bound) × (moves.1 ≤ self.old.map.bound)) }
        ensures sizes { SameSizes self.old.map self.new.map }
    {
        let Some(caller) = peer else {
            return;
        };
        out.moved = Some(self.connect(caller.slot, held.slot));
        self.put_answered(held.slot, in_state(ACTIVE, held.leg));
        self.put_answered(caller.slot, in_state(ACTIVE, caller.leg));
        send_bare(out, held, MessageKind::ConnectAcknowledge);
        send_bare(out, caller, MessageKind::Connect);
    }

    // Releases the caller's circuit, which can be a tone, connects the caller to the called slot, and returns the
    // number of live paths that were moved in each direction.
    fn connect(&mut self, caller: Slot, called: Slot) -> (u32, u32)
        requires work { (d : Dimensions) × (w : World) × Holds d self.old.map self.old.legs w }
        requires caller_external { IsExternal self.old.map.external caller }
        requires called_external { IsExternal self.old.map.external called }
        requires distinct { caller ≢ called }
        requires silent { hears_at self.old.map called ≡ None }
        ensures makes { (d : Dimensions) (m : Making) → Makes d self.old.map self.old.legs m.sends m.moves m
            → Makes d self.new.map self.new.legs m.sends (Some result) (making_after_all d m (Clear caller ∷ Pair caller called ∷ [])) }
        ensures few { (result.0 ≤ self.old.map.bound) × (result.1 ≤ self.old.map.bound) }
        ensures legs { self.new.legs ≡ self.old.legs }
        ensures sizes { SameSizes self.old.map self.new.map }
    {
        self.clear(caller);
        self.pair(caller, called)
    }

    // DISCONNECT: the user of the leg clears the call.
    fn on_disconnect(&mut self, out: &mut Outbox, held: &HeldLeg)
        requires there { IsThere self.old.map.external held.now }
        requires count { length self.old.legs.held ≡ 30 * self.old.map.external }
        requires room { length out.old.sends < max_sends }
        ensures makes { Performs (on_disconnect held.now) self.old.map self.old.legs out.old self.new.map self.new.legs out.new }
        ensures count { length self.new.legs.held ≡ length self.old.legs.held }
        ensures sends { length out.new.sends ≡ length out.old.sends + 1 }
        ensures moved { out.new.moved ≡ out.old.moved }
        ensures sizes { SameSizes self.old.map self.new.map }
    {
        self.clear(held.slot);
        let release = message_to(&held.leg, MessageKind::Release);
        self.expect(out, held.slot, in_release_request(held.leg), &release);
    }

    // RELEASE: the user of the leg has released its channel, and the exchange releases the call reference.
    fn on_release(&mut self, out: &mut Outbox, held: &HeldLeg)
        requires there { IsThere self.old.map.external held.now }
        requires count { length self.old.legs.held ≡ 30 * self.old.map.external }
        requires room { length out.old.sends < max_sends }
        ensures makes { Performs (on_release held.now) self.old.map self.old.legs out.old self.new.map self.new.legs out.new }
        ensures count { length self.new.legs.held ≡ length self.old.legs.held }
        ensures sends { length out.new.sends ≡ length out.old.sends + 1 }
        ensures moved { out.new.moved ≡ out.old.moved }
        ensures sizes { SameSizes self.old.map self.new.map }
    {
        self.remove_leg(held, Condition::Idle);
        send_bare(out, held, MessageKind::ReleaseComplete);
    }

    // STATUS at a leg in state 10: what a user reports counts if it had a STATUS ENQUIRY. In another state than 10 it
    // does not have the call as the exchange has it, and both legs are cleared.
    fn on_report(
        &mut self,
        out: &mut Outbox,
        tones: &Tones,
        held: &HeldLeg,
        peer: &Option<HeldLeg>,
        reported: u8,
    )
        requires there { IsThere self.old.map.external held.now }
        requires count { length self.old.legs.held ≡ 30 * self.old.map.external }
        requires state { held.now.leg.state ≡ active }
        requires peer { peer.now ≡ peer_of self.old.legs held.now.leg.peer }
        requires peer_there { PeerIsThere self.old.map.external held.now peer.now }
        requires room { length out.old.sends + 1 < max_sends }
        ensures makes { (s : Setting) (w : World) → s.tones ≡ tones.now → w.legs ≡ self.old.legs
            → Performs (course_of_status s w held.now reported).operations self.old.map self.old.legs out.old self.new.map self.new.legs out.new }
        ensures moved { out.new.moved ≡ out.old.moved }
        ensures sizes { SameSizes self.old.map self.new.map }
    {
        if !held.leg.enquired {
            return;
        }
        if reported == ACTIVE {
            self.put(held.slot, with_enquiry(false, held.leg));
            return;
        }
        self.clear_leg(out, tones, held, MESSAGE_NOT_COMPATIBLE_WITH_CALL_STATE);
        self.clear_peer(out, tones, peer, MESSAGE_NOT_COMPATIBLE_WITH_CALL_STATE);
    }

    /// RELEASE COMPLETE, a restart or an outage: removes the leg, and every circuit at its slot. Stores the condition of
    /// its channel.
    pub(crate) fn remove_leg(&mut self, held: &HeldLeg, condition: Condition)
        requires external { IsExternal self.old.map.external held.now.slot }
        requires count { length self.old.legs.held ≡ 30 * self.old.map.external }
        ensures makes { PerformsQuietly (remove_leg condition held.now) self.old.map self.old.legs self.new.map self.new.legs }
        ensures count { length self.new.legs.held ≡ length self.old.legs.held }
        ensures sizes { SameSizes self.old.map self.new.map }
    {
        self.clear(held.slot);
        self.remove(held.slot, condition);
    }

    /// Clears the other leg of a call with a cause, if there is one.
    pub(crate) fn clear_peer(
        &mut self,
        out: &mut Outbox,
        tones: &Tones,
        peer: &Option<HeldLeg>,
        cause: u8,
    )
        requires there { IfSome peer.now (λ other. IsThere self.old.map.external other) }
        requires count { length self.old.legs.held ≡ 30 * self.old.map.external }
        requires room { length out.old.sends < max_sends }
        requires cause { cause < 128 }
        ensures makes { Performs (with_peer peer.now (clear_with tones.now cause)) self.old.map self.old.legs out.old self.new.map self.new.legs out.new }
        ensures few { length out.new.sends ≤ length out.old.sends + 1 }
        ensures moved { out.new.moved ≡ out.old.moved }
        ensures records { out.new.records ≡ out.old.records }
        ensures sizes { SameSizes self.old.map self.new.map }
    {
        if let Some(other) = peer {
            self.clear_leg(out, tones, other, cause);
        }
    }

    /// Clears a leg with a cause. Its user receives the tone of that cause if the trace gives it.
    pub(crate) fn clear_leg(&mut self, out: &mut Outbox, tones: &Tones, held: &HeldLeg, cause: u8)
        requires there { IsThere self.old.map.external held.now }
        requires count { length self.old.legs.held ≡ 30 * self.old.map.external }
        requires room { length out.old.sends < max_sends }
        requires cause { cause < 128 }
        ensures makes { Performs (clear_with tones.now cause held.now) self.old.map self.old.legs out.old self.new.map self.new.legs out.new }
        ensures count { length self.new.legs.held ≡ length self.old.legs.held }
        ensures few { length out.new.sends ≤ length out.old.sends + 1 }
        ensures moved { out.new.moved ≡ out.old.moved }
        ensures records { out.new.records ≡ out.old.records }
        ensures sizes { SameSizes self.old.map self.new.map }
    {
        let alone = in_disconnect_indication(cause, held.leg);
        let tone = tone_of(tones, alone);
        self.clear(held.slot);
        self.put(held.slot, alone);
        self.sound(held.slot, tone);
        let disconnect = disconnect_message(&held.leg, cause);
        send(out, held.slot.line, &with_progress(tone, disconnect));
    }
}

// Sends the STATUS to the user of a leg that a message is unexpected. A separate function, because it is rare.
#[inline(never)]
fn report_unexpected(out: &mut Outbox, held: &HeldLeg, message: &Message)
    requires room { length out.old.sends < max_sends }
    requires told { FitsMessages held.now.leg }
    ensures sends { out.new.sends ≡ out.old.sends ++ status_sent held.now (unexpected_cause message.now.kind) ∷ [] }
    ensures moved { out.new.moved ≡ out.old.moved }
    ensures records { out.new.records ≡ out.old.records }
{
    send(out, held.slot.line, &unexpected(&held.leg, message));
}

// Sends the STATUS that replies to STATUS ENQUIRY. A separate function, because it is rare.
#[inline(never)]
fn report_state(out: &mut Outbox, held: &HeldLeg)
    requires room { length out.old.sends < max_sends }
    requires told { FitsMessages held.now.leg }
    ensures sends { out.new.sends ≡ out.old.sends ++ status_sent held.now response_to_status_enquiry ∷ [] }
    ensures moved { out.new.moved ≡ out.old.moved }
    ensures records { out.new.records ≡ out.old.records }
{
    send(
        out,
        held.slot.line,
        &status_message(&held.leg, RESPONSE_TO_STATUS_ENQUIRY),
    );
}

// Returns the leg in another state.
fn in_state(state: u8, leg: Leg) -> Leg
    ensures { result ≡ in_state state leg }
{
    Leg { state, ..leg }
}

/// Returns the leg whose user has a STATUS ENQUIRY to answer, or has answered it.
pub(crate) fn with_enquiry(enquired: bool, leg: Leg) -> Leg
    ensures { result ≡ with_enquiry enquired leg }
{
    Leg { enquired, ..leg }
}

/// Returns the leg without its peer in release request.
pub(crate) fn in_release_request(leg: Leg) -> Leg
    ensures { result ≡ in_release_request leg }
{
    Leg {
        state: RELEASE_REQUEST,
        peer: Peer::Alone,
        ..leg
    }
}

// Returns the leg without its peer in disconnect indication, cleared with a cause.
fn in_disconnect_indication(cause: u8, leg: Leg) -> Leg
    ensures { result ≡ in_disconnect_indication cause leg }
{
    Leg {
        state: DISCONNECT_INDICATION,
        peer: Peer::Alone,
        cause,
        ..leg
    }
}

// Returns the tone of a leg's slot, if the trace gives it.
fn tone_of(tones: &Tones, leg: Leg) -> Option<Kind>
    ensures { result ≡ tone_of tones.now leg }
{
    tone_given(tones, leg.state, leg.cause)
}

// Adds a progress indicator to a message if and only if its user's slot gets a tone.
fn with_progress(tone: Option<Kind>, message: Outgoing<'static>) -> Outgoing<'static>
    ensures { outgoing_of result ≡ with_progress tone (outgoing_of message.entry) }
{
    Outgoing {
        progress: tone.is_some(),
        ..message
    }
}

// Returns the DISCONNECT with a cause to the user of a leg.
fn disconnect_message(leg: &Leg, cause: u8) -> Outgoing<'static>
    ensures { outgoing_of result ≡ disconnect leg.now cause }
{
    Outgoing {
        cause: Some(cause),
        ..message_to(leg, MessageKind::Disconnect)
    }
}

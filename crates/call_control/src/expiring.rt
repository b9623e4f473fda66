//! The legs that a frame examines, and the operations of an expired timer.
ghost use Rattle.std.specs.Prelude.{◌≡◌, ◌<◌, ◌≤◌, ◌+◌, ◌*◌, ◌%◌, ◌++◌, [], true, None, Some, length};
ghost use Rattle.std.specs.List.{cons_option};
ghost use Rattle.circuit_model.specs.Extent.{IsExternal};
ghost use Rattle.circuit_map.specs.Connections.{SameSizes};
ghost use Rattle.q931_codec.specs.Outgoing.{outgoing_of};
ghost use Rattle.call_states.specs.Acts.{is_among};
ghost use Rattle.exchange_events.specs.Limits.{max_records, max_sends};
ghost use Rattle.exchange_events.specs.Sizes.{Setting, Dimensions};
ghost use Rattle.q931_codec.specs.Causes.{destination_out_of_order, no_user_responding};
ghost use Rattle.call_profile.specs.Acts.{message_to, peer_of};
ghost use Rattle.call_profile.specs.EndedCalls.{record_ended, record_of_expiry, expired_records};
ghost use Rattle.call_profile.specs.Expiring.{timed_state, release_over, send_again, give_up, ask_for_release, setup_over, clear_both, outage_over, on_expiry, outcome_of_lines};
ghost use Rattle.call_profile.specs.KeptMessages.{awaiting_answer};
ghost use Rattle.call_profile.specs.Legs.{kept_at};
ghost use Rattle.call_profile.specs.Peers.{IsThere, PeerIsThere};
ghost use Rattle.call_profile.specs.World.{World};
ghost use Rattle.call_control.specs.AtWork.{IsInOrder, EachInOrder};
ghost use Rattle.call_control.specs.Standing.{PerformsQuietly, Expires, Holds, HasMade, Performs};

use crate::acts::in_release_request;
use crate::operations::CallControl;
use crate::sending::{message_to, record_also, send};
use call_profile::retransmitted_from;
use call_states::{Condition, HeldLeg, Leg};
use call_timers::{Expiry, Timers, due};
use circuit_model::{CHANNELS_PER_LINE, Slot};
use control_memory::PathMap;
use exchange_events::{Outbox, Signal};
use q931_codec::causes::{
    DESTINATION_OUT_OF_ORDER, INVALID_NUMBER_FORMAT, NO_ANSWER_FROM_USER, NO_USER_RESPONDING,
    RECOVERY_ON_TIMER_EXPIRY,
};
use q931_codec::{MessageKind, Outgoing};
use tone_rules::Tones;

impl<P: PathMap> CallControl<P> {
    /// Examines one leg of each external line, lowest line first, after a frame's boundary. Performs the operations of
    /// each expired timer, and records the calls that it ends, in the same order. Returns at once if no leg of that
    /// place can be due.
    pub fn handle_timers(
        &mut self,
        out: &mut Outbox,
        tones: &Tones,
        timers: &Timers,
        external: u8,
        frame: u32,
    )
        requires work { (s : Setting) × (w : World) × (s.tones ≡ tones.now) × (s.timers ≡ timers.now) × IsInOrder s self.old.map self.old.legs w }
        requires lines { (external ≡ self.old.map.external) × (external ≤ 32) }
        requires fresh { (out.old.sends ≡ []) × (out.old.moved ≡ None) × (out.old.records ≡ []) }
        ensures makes { EachInOrder tones.now timers.now self.old.map self.old.legs (λ s w.
            HasMade s self.new.map self.new.legs out.new (outcome_of_lines s frame w s.dimensions.external).making) }
        ensures records { EachInOrder tones.now timers.now self.old.map self.old.legs (λ s w.
            out.new.records ≡ (outcome_of_lines s frame w s.dimensions.external).recorded) }
        ensures moved { out.new.moved ≡ None }
        ensures sizes { SameSizes self.old.map self.new.map }
    {
        let place = (frame % u32::from(CHANNELS_PER_LINE)) as u8;
        if !self.legs.may_be_due(place, frame, timers) {
            return;
        }
        for line in 0..external {
            self.expire_slot(out, tones, timers, frame, Slot { line, place });
        }
        self.legs.update_due_frame(place);
    }

    // Examines the leg that holds a slot, if there is one.
    fn expire_slot(&mut self, out: &mut Outbox, tones: &Tones, timers: &Timers, frame: u32, x: Slot)
        requires work { (s : Setting) × (w : World) × (s.tones ≡ tones.now) × (s.timers ≡ timers.now) × IsInOrder s self.old.map self.old.legs w }
        requires external { IsExternal self.old.map.external x }
        requires room { (length out.old.sends + 1 < max_sends) × (length out.old.records < max_records) }
        ensures makes { Expires tones.now timers.now frame x self.old.map self.old.legs out.old self.new.map self.new.legs out.new }
        ensures records { (s : Setting) (w : World) → s.timers ≡ timers.now → Holds s.dimensions self.old.map self.old.legs w
            → out.new.records ≡ out.old.records ++ expired_records s frame w x }
        ensures few { (length out.new.sends ≤ length out.old.sends + 2) × (length out.new.records ≤ length out.old.records + 1) }
        ensures moved { out.new.moved ≡ out.old.moved }
        ensures sizes { SameSizes self.old.map self.new.map }
    {
        let Some(leg) = self.legs.get(x) else {
            return;
        };
        let Some(expiry) = due(leg.state, leg.resent, leg.since, frame, timers) else {
            return;
        };
        let held = HeldLeg { slot: x, leg };
        let peer = self.peer_of(leg.peer);
        self.on_expiry(out, tones, &held, &peer, expiry);
    }

    // Performs the operations of a leg's expired timer, and records the call that it ends.
    fn on_expiry(
        &mut self,
        out: &mut Outbox,
        tones: &Tones,
        held: &HeldLeg,
        peer: &Option<HeldLeg>,
        expiry: Expiry,
    )
        requires there { IsThere self.old.map.external held.now }
        requires count { length self.old.legs.held ≡ 30 * self.old.map.external }
        requires peer { peer.now ≡ peer_of self.old.legs held.now.leg.peer }
        requires peer_there { PeerIsThere self.old.map.external held.now peer.now }
        requires state { held.now.leg.state ≡ timed_state expiry }
        requires cause { held.now.leg.cause < 128 }
        requires room { (length out.old.sends + 1 < max_sends) × (length out.old.records < max_records) }
        ensures makes { Performs (on_expiry tones.now self.old.legs held.now expiry) self.old.map self.old.legs out.old self.new.map self.new.legs out.new }
        ensures records { (d : Dimensions) (w : World) → Holds d self.old.map self.old.legs w
            → out.new.records ≡ out.old.records ++ cons_option (record_of_expiry w held.now expiry) [] }
        ensures few { (length out.new.sends ≤ length out.old.sends + 2) × (length out.new.records ≤ length out.old.records + 1) }
        ensures moved { out.new.moved ≡ out.old.moved }
        ensures sizes { SameSizes self.old.map self.new.map }
    {
        match expiry {
            Expiry::Digits => self.clear_leg(out, tones, held, INVALID_NUMBER_FORMAT),
            Expiry::SetupAgain | Expiry::ReleaseAgain => self.send_again(out, held),
            Expiry::SetupOver => self.setup_over(out, tones, held, peer),
            Expiry::Proceeding => self.clear_both(out, tones, held, peer, NO_USER_RESPONDING),
            Expiry::Alerting => self.clear_both(out, tones, held, peer, NO_ANSWER_FROM_USER),
            Expiry::Outage => self.outage_over(out, tones, held, peer),
            Expiry::Disconnect => self.ask_for_release(out, held),
            Expiry::ReleaseOver => self.release_over(held),
        }
    }

    /// Retransmits the stored message to the user of a leg.
    pub(crate) fn send_again(&mut self, out: &mut Outbox, held: &HeldLeg)
        requires there { IsThere self.old.map.external held.now }
        requires count { length self.old.legs.held ≡ 30 * self.old.map.external }
        requires state { is_among awaiting_answer held.now.leg.state ≡ true }
        requires room { length out.old.sends < max_sends }
        ensures makes { Performs (send_again held.now (kept_at self.old.legs held.now.slot))
            self.old.map self.old.legs out.old self.new.map self.new.legs out.new }
        ensures few { length out.new.sends ≤ length out.old.sends + 1 }
        ensures moved { out.new.moved ≡ out.old.moved }
        ensures records { out.new.records ≡ out.old.records }
        ensures map { self.new.map ≡ self.old.map }
    {
        let Some(octets) = self.legs.kept_message(held.slot) else {
            return;
        };
        out.sends.push(Signal {
            line: held.slot.line,
            octets: octets.copied(),
        });
        let leg = retransmitted_from(self.map.next_frame(), held.leg);
        self.legs.restart_wait(held.slot, leg);
    }

    // The called user did not answer the SETUP: removes its leg, and clears the caller.
    fn setup_over(
        &mut self,
        out: &mut Outbox,
        tones: &Tones,
        held: &HeldLeg,
        peer: &Option<HeldLeg>,
    )
        requires there { IsThere self.old.map.external held.now }
        requires count { length self.old.legs.held ≡ 30 * self.old.map.external }
        requires peer { peer.now ≡ peer_of self.old.legs held.now.leg.peer }
        requires peer_there { PeerIsThere self.old.map.external held.now peer.now }
        requires room { (length out.old.sends + 1 < max_sends) × (length out.old.records < max_records) }
        ensures makes { Performs (setup_over tones.now self.old.legs held.now) self.old.map self.old.legs out.old self.new.map self.new.legs out.new }
        ensures records { (d : Dimensions) (w : World) → Holds d self.old.map self.old.legs w
            → out.new.records ≡ out.old.records ++ cons_option (record_ended w held.now no_user_responding) [] }
        ensures few { (length out.new.sends ≤ length out.old.sends + 2) × (length out.new.records ≤ length out.old.records + 1) }
        ensures moved { out.new.moved ≡ out.old.moved }
        ensures sizes { SameSizes self.old.map self.new.map }
    {
        let call = self.record_ended(held, peer, NO_USER_RESPONDING);
        self.give_up(out, held);
        self.clear_peer(out, tones, peer, NO_USER_RESPONDING);
        record_also(&mut out.records, call);
    }

    // The data link of the leg's line did not come up again: removes the leg, and clears the other leg of its call.
    fn outage_over(
        &mut self,
        out: &mut Outbox,
        tones: &Tones,
        held: &HeldLeg,
        peer: &Option<HeldLeg>,
    )
        requires there { IsThere self.old.map.external held.now }
        requires count { length self.old.legs.held ≡ 30 * self.old.map.external }
        requires peer { peer.now ≡ peer_of self.old.legs held.now.leg.peer }
        requires peer_there { PeerIsThere self.old.map.external held.now peer.now }
        requires room { (length out.old.sends + 1 < max_sends) × (length out.old.records < max_records) }
        ensures makes { Performs (outage_over tones.now self.old.legs held.now) self.old.map self.old.legs out.old self.new.map self.new.legs out.new }
        ensures records { (d : Dimensions) (w : World) → Holds d self.old.map self.old.legs w
            → out.new.records ≡ out.old.records ++ cons_option (record_ended w held.now destination_out_of_order) [] }
        ensures few { (length out.new.sends ≤ length out.old.sends + 2) × (length out.new.records ≤ length out.old.records + 1) }
        ensures moved { out.new.moved ≡ out.old.moved }
        ensures sizes { SameSizes self.old.map self.new.map }
    {
        let call = self.record_ended(held, peer, DESTINATION_OUT_OF_ORDER);
        self.remove_leg(held, Condition::Owed);
        self.clear_peer(out, tones, peer, DESTINATION_OUT_OF_ORDER);
        record_also(&mut out.records, call);
    }

    // The user did not reply to RELEASE, which was sent twice: removes the leg. The establishment of the data link
    // sends RESTART, which its user is owed if the link is down.
    fn release_over(&mut self, held: &HeldLeg)
        requires external { IsExternal self.old.map.external held.now.slot }
        requires count { length self.old.legs.held ≡ 30 * self.old.map.external }
        ensures makes { PerformsQuietly (release_over self.old.legs held.now) self.old.map self.old.legs self.new.map self.new.legs }
        ensures sizes { SameSizes self.old.map self.new.map }
    {
        let condition = Condition::unanswered(self.legs.is_down(held.slot.line));
        self.remove_leg(held, condition);
    }

    // Clears the called leg with cause 102, recovery on timer expiry, and the caller with `cause`.
    fn clear_both(
        &mut self,
        out: &mut Outbox,
        tones: &Tones,
        held: &HeldLeg,
        peer: &Option<HeldLeg>,
        cause: u8,
    )
        requires there { IsThere self.old.map.external held.now }
        requires count { length self.old.legs.held ≡ 30 * self.old.map.external }
        requires peer { peer.now ≡ peer_of self.old.legs held.now.leg.peer }
        requires peer_there { PeerIsThere self.old.map.external held.now peer.now }
        requires cause { cause < 128 }
        requires room { (length out.old.sends + 1 < max_sends) × (length out.old.records < max_records) }
        ensures makes { Performs (clear_both tones.now self.old.legs held.now cause) self.old.map self.old.legs out.old self.new.map self.new.legs out.new }
        ensures records { (d : Dimensions) (w : World) → Holds d self.old.map self.old.legs w
            → out.new.records ≡ out.old.records ++ cons_option (record_ended w held.now cause) [] }
        ensures few { (length out.new.sends ≤ length out.old.sends + 2) × (length out.new.records ≤ length out.old.records + 1) }
        ensures moved { out.new.moved ≡ out.old.moved }
        ensures sizes { SameSizes self.old.map self.new.map }
    {
        let call = self.record_ended(held, peer, cause);
        self.clear_leg(out, tones, held, RECOVERY_ON_TIMER_EXPIRY);
        self.clear_peer(out, tones, peer, cause);
        record_also(&mut out.records, call);
    }

    // Removes the leg, and sends RELEASE COMPLETE to its user.
    fn give_up(&mut self, out: &mut Outbox, held: &HeldLeg)
        requires there { IsThere self.old.map.external held.now }
        requires count { length self.old.legs.held ≡ 30 * self.old.map.external }
        requires room { length out.old.sends < max_sends }
        ensures makes { Performs (give_up held.now) self.old.map self.old.legs out.old self.new.map self.new.legs out.new }
        ensures count { length self.new.legs.held ≡ length self.old.legs.held }
        ensures sends { length out.new.sends ≡ length out.old.sends + 1 }
        ensures moved { out.new.moved ≡ out.old.moved }
        ensures records { out.new.records ≡ out.old.records }
        ensures sizes { SameSizes self.old.map self.new.map }
    {
        self.remove_leg(held, Condition::Idle);
        let message = with_cause(
            &held.leg,
            MessageKind::ReleaseComplete,
            RECOVERY_ON_TIMER_EXPIRY,
        );
        send(out, held.slot.line, &message);
    }

    // The user did not release the call: sends RELEASE with the cause of the clearing.
    fn ask_for_release(&mut self, out: &mut Outbox, held: &HeldLeg)
        requires there { IsThere self.old.map.external held.now }
        requires count { length self.old.legs.held ≡ 30 * self.old.map.external }
        requires cause { held.now.leg.cause < 128 }
        requires room { length out.old.sends < max_sends }
        ensures makes { Performs (ask_for_release held.now) self.old.map self.old.legs out.old self.new.map self.new.legs out.new }
        ensures few { length out.new.sends ≤ length out.old.sends + 1 }
        ensures moved { out.new.moved ≡ out.old.moved }
        ensures records { out.new.records ≡ out.old.records }
        ensures map { self.new.map ≡ self.old.map }
    {
        let release = with_cause(&held.leg, MessageKind::Release, held.leg.cause);
        self.expect(out, held.slot, in_release_request(held.leg), &release);
    }
}

// Returns a message of a type to the user of a leg, with only a cause.
fn with_cause(leg: &Leg, kind: MessageKind, cause: u8) -> Outgoing<'static>
    ensures { outgoing_of result ≡ record (message_to leg.now kind) { cause = Some cause } }
{
    Outgoing {
        cause: Some(cause),
        ..message_to(leg, kind)
    }
}

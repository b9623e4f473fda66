//! RESTART: removes the legs of the restarted slots.
ghost use Rattle.std.specs.Prelude.{◌≡◌, ◌+◌, ◌*◌, ◌++◌, ◌<◌, ◌≤◌, [], None, Some, IfSome, length};
ghost use Rattle.std.specs.List.{cons_option};
ghost use Rattle.circuit_model.specs.Extent.{IsExternal};
ghost use Rattle.circuit_map.specs.Connections.{Connections, SameSizes};
ghost use Rattle.clearing_rules.specs.Restarting.{IsOnLine};
ghost use Rattle.call_profile.specs.Acts.{with_peer};
ghost use Rattle.call_control.specs.AtWork.{IsAtWork, EachWithTones};
ghost use Rattle.call_profile.specs.EndedCalls.{record_ended, slot_records};
ghost use Rattle.call_profile.specs.Legs.{Legs, leg_at};
ghost use Rattle.call_profile.specs.LegStanding.{LegsStand};
ghost use Rattle.call_profile.specs.LinkChanges.{with_interface};
ghost use Rattle.exchange_events.specs.Limits.{max_records, max_sends};
ghost use Rattle.call_profile.specs.Peers.{IsThere};
ghost use Rattle.call_profile.specs.Restarts.{MessageOutcome as The_outcome, confirm_slot, outcome_of_confirmation, outcome_of_restart, restart_leg, restart_peer, restart_slot, restarts_slot};
ghost use Rattle.exchange_events.specs.Sizes.{Setting, Dimensions};
ghost use Rattle.call_control.specs.Standing.{Holds, HasMade, Makes, Performs, PerformsBy, PerformsQuietly};
ghost use Rattle.call_profile.specs.World.{World};

use crate::operations::CallControl;
use crate::sending::{record_also, send};
use call_states::{Condition, HeldLeg};
use circuit_model::{CHANNELS_PER_LINE, Slot};
use clearing_rules::{Restart, restart_acknowledge, restart_request};
use control_memory::PathMap;
use exchange_events::{Outbox, Records};
use q931_codec::causes::TEMPORARY_FAILURE;
use q931_codec::restart_classes::SINGLE_INTERFACE;
use tone_rules::Tones;

/// Every slot of a line.
pub(crate) const WHOLE_LINE: Restart = Restart::Interface(SINGLE_INTERFACE);

/// The removal of legs by a restart, by the user or the exchange, or by a failure of the data link.
#[derive(Clone, Copy)]
pub(crate) struct Removal {
    /// The slots whose legs are removed.
    pub(crate) asked: Restart,
    /// The cause that the rest of each call is cleared with.
    pub(crate) cause: u8,
    /// The condition of the channels of removed legs.
    pub(crate) condition: Condition,
}

impl<P: PathMap> CallControl<P> {
    /// Restarts the requested slots of a line, lowest first, and then acknowledges. Returns the records of the calls
    /// that this ends, in the same order.
    pub(crate) fn restart_line(
        &mut self,
        out: &mut Outbox,
        tones: &Tones,
        line: u8,
        asked: Restart,
    ) -> Records
        requires work { (s : Setting) × (w : World) × (s.tones ≡ tones.now) × IsAtWork s self.old.map self.old.legs w }
        requires line { line < self.old.map.external }
        requires on_line { IsOnLine asked }
        requires fresh { (out.old.sends ≡ []) × (out.old.moved ≡ None) }
        ensures makes { EachWithTones tones.now self.old.map self.old.legs (λ s w.
            HasMade s self.new.map self.new.legs out.new (outcome_of_restart s.dimensions s.tones asked line w).making) }
        ensures records { EachWithTones tones.now self.old.map self.old.legs (λ s w. result ≡ (outcome_of_restart s.dimensions s.tones asked line w).recorded) }
        ensures moved { out.new.moved ≡ None }
        ensures sizes { SameSizes self.old.map self.new.map }
    {
        let mut records = Records::new();
        for place in 0..CHANNELS_PER_LINE {
            self.restart_slot(out, tones, &mut records, asked, Slot { line, place });
        }
        send(out, line, &restart_acknowledge(asked));
        records
    }

    // Restarts a slot, if that is requested and a leg holds it.
    fn restart_slot(
        &mut self,
        out: &mut Outbox,
        tones: &Tones,
        records: &mut Records,
        asked: Restart,
        x: Slot,
    )
        requires work { (d : Dimensions) × (w : World) × Holds d self.old.map self.old.legs w × LegsStand d.external tones.now w }
        requires external { IsExternal self.old.map.external x }
        requires room { (length out.old.sends < max_sends) × (length records.old < max_records) }
        ensures makes { PerformsBy (λ legs. restart_slot tones.now asked legs x) self.old.map self.old.legs out.old self.new.map self.new.legs out.new }
        ensures records { (d : Dimensions) (w : World) → Holds d self.old.map self.old.legs w → records.new ≡ records.old ++ slot_records asked w x }
        ensures few { (length out.new.sends ≤ length out.old.sends + 1) × (length records.new ≤ length records.old + 1) }
        ensures moved { out.new.moved ≡ out.old.moved }
        ensures sizes { SameSizes self.old.map self.new.map }
    {
        if !asked.covers(x.place) {
            return;
        }
        let Some(leg) = self.legs.get(x) else {
            return;
        };
        let held = HeldLeg { slot: x, leg };
        let removal = Removal {
            asked,
            cause: TEMPORARY_FAILURE,
            condition: Condition::Idle,
        };
        self.restart_leg(out, tones, records, &held, removal);
    }

    /// Removes the leg of a restarted slot, and the other leg of its call if its slot is restarted too. Otherwise clears
    /// that with the cause of the removal. Records the call.
    pub(crate) fn restart_leg(
        &mut self,
        out: &mut Outbox,
        tones: &Tones,
        records: &mut Records,
        held: &HeldLeg,
        removal: Removal,
    )
        requires work { (d : Dimensions) × (w : World) × Holds d self.old.map self.old.legs w × LegsStand d.external tones.now w }
        requires external { IsExternal self.old.map.external held.now.slot }
        requires at { leg_at self.old.legs held.now.slot ≡ Some held.now.leg }
        requires cause { removal.cause < 128 }
        requires room { (length out.old.sends < max_sends) × (length records.old < max_records) }
        ensures makes { Performs (restart_leg tones.now removal.cause removal.condition removal.asked self.old.legs (Some held.now))
            self.old.map self.old.legs out.old self.new.map self.new.legs out.new }
        ensures records { (d : Dimensions) (w : World) → Holds d self.old.map self.old.legs w
            → records.new ≡ records.old ++ cons_option (record_ended w held.now removal.cause) [] }
        ensures few { (length out.new.sends ≤ length out.old.sends + 1) × (length records.new ≤ length records.old + 1) }
        ensures moved { out.new.moved ≡ out.old.moved }
        ensures sizes { SameSizes self.old.map self.new.map }
    {
        let peer = self.peer_of(held.leg.peer);
        let call = self.record_ended(held, &peer, removal.cause);
        record_also(records, call);
        self.remove_leg(held, removal.condition);
        self.restart_peer(out, tones, held.slot.line, &peer, removal);
    }

    // Removes the other leg of a call if its slot is restarted too. Otherwise clears it with the cause of the removal.
    fn restart_peer(
        &mut self,
        out: &mut Outbox,
        tones: &Tones,
        line: u8,
        peer: &Option<HeldLeg>,
        removal: Removal,
    )
        requires there { IfSome peer.now (λ other. IsThere self.old.map.external other) }
        requires count { length self.old.legs.held ≡ 30 * self.old.map.external }
        requires cause { removal.cause < 128 }
        requires room { length out.old.sends < max_sends }
        ensures makes { Performs (with_peer peer.now (restart_peer tones.now removal.cause removal.condition removal.asked line))
            self.old.map self.old.legs out.old self.new.map self.new.legs out.new }
        ensures few { length out.new.sends ≤ length out.old.sends + 1 }
        ensures moved { out.new.moved ≡ out.old.moved }
        ensures sizes { SameSizes self.old.map self.new.map }
    {
        let Some(other) = peer else {
            return;
        };
        if restarts_slot(removal.asked, line, other.slot) {
            self.remove_leg(other, removal.condition);
        } else {
            self.clear_leg(out, tones, other, removal.cause);
        }
    }
}

impl<P: PathMap> CallControl<P> {
    /// Processes a RESTART ACKNOWLEDGE: its user confirms that the channels which it covers are idle. Ends no call.
    pub(crate) fn confirm_line(&mut self, out: &mut Outbox, line: u8, acknowledged: Restart)
        requires work { (s : Setting) × (w : World) × IsAtWork s self.old.map self.old.legs w }
        requires line { line < self.old.map.external }
        requires on_line { IsOnLine acknowledged }
        requires fresh { (out.old.sends ≡ []) × (out.old.moved ≡ None) }
        ensures makes { (s : Setting) (w : World) → IsAtWork s self.old.map self.old.legs w
            → HasMade s self.new.map self.new.legs out.new (outcome_of_confirmation s.dimensions acknowledged line w).making }
        ensures records { (s : Setting) (w : World) → IsAtWork s self.old.map self.old.legs w
            → out.new.records ≡ (outcome_of_confirmation s.dimensions acknowledged line w).recorded }
        ensures moved { out.new.moved ≡ None }
        ensures sizes { SameSizes self.old.map self.new.map }
    {
        for place in 0..CHANNELS_PER_LINE {
            self.confirm_slot(acknowledged, Slot { line, place });
        }
        out.records.clear();
    }

    // Stores that the channel of a slot is idle, if that is acknowledged and was not confirmed.
    fn confirm_slot(&mut self, acknowledged: Restart, x: Slot)
        requires external { IsExternal self.old.map.external x }
        requires count { length self.old.legs.held ≡ 30 * self.old.map.external }
        ensures makes { PerformsQuietly (confirm_slot acknowledged self.old.legs x) self.old.map self.old.legs self.new.map self.new.legs }
        ensures count { length self.new.legs.held ≡ length self.old.legs.held }
        ensures map { self.new.map ≡ self.old.map }
    {
        if acknowledged.covers(x.place) && self.legs.is_unconfirmed(x) {
            self.remove(x, Condition::Idle);
        }
    }
}

/// Sends RESTART of the whole interface to the user of a line, if the interface is restarted.
pub(crate) fn request_restart(out: &mut Outbox, line: u8, whole: bool)
    requires room { length out.old.sends < max_sends }
    ensures makes { (d : Dimensions) (map : Connections) (legs : Legs) (a : The_outcome) → Makes d map legs out.old.sends out.old.moved a.making
        → Makes d map legs out.new.sends out.new.moved (with_interface d whole line a).making }
    ensures moved { out.new.moved ≡ out.old.moved }
{
    if whole {
        send(out, line, &restart_request(WHOLE_LINE));
    }
}

// Returns whether a restart on a line includes this slot.
fn restarts_slot(asked: Restart, line: u8, x: Slot) -> bool
    ensures { result ≡ restarts_slot asked line x }
{
    x.line == line && asked.covers(x.place)
}

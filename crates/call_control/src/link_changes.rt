//! A line's data link goes down or comes up: the legs of the line wait, are removed, go on, are enquired of or are cleared,
//! and channels are restarted.
ghost use Rattle.std.specs.Prelude.{◌≡◌, ◌+◌, ◌*◌, ◌++◌, ◌<◌, ◌≤◌, [], ◌∷◌, None, Some, true, false, length};
ghost use Rattle.std.specs.List.{cons_option};
ghost use Rattle.circuit_model.specs.Extent.{IsExternal};
ghost use Rattle.circuit_map.specs.Connections.{SameSizes};
ghost use Rattle.q931_codec.specs.CallStates.{active};
ghost use Rattle.call_control.specs.AtWork.{IsInOrder, EachLinked};
ghost use Rattle.call_control.specs.Standing.{Holds, HasMade, Performs, PerformsBy, PerformsQuietly};
ghost use Rattle.call_profile.specs.EndedCalls.{dropped_record, dropped_records};
ghost use Rattle.call_profile.specs.Legs.{leg_at};
ghost use Rattle.call_profile.specs.LegStanding.{LegsStand};
ghost use Rattle.call_profile.specs.LinkChanges.{start_waiting, drop_leg, drop_slot, enquire, restart_channel, restarts_interface, resume_slot, outcome_of_link};
ghost use Rattle.call_profile.specs.Operations.{Await};
ghost use Rattle.call_profile.specs.Peers.{IsThere};
ghost use Rattle.exchange_events.specs.Limits.{max_records, max_sends};
ghost use Rattle.exchange_events.specs.Sizes.{Setting, Dimensions};
ghost use Rattle.call_profile.specs.World.{World};

use crate::acts::with_enquiry;
use crate::operations::CallControl;
use crate::restarting::{Removal, WHOLE_LINE, request_restart};
use crate::sending::{send, send_bare};
use call_states::{Condition, HeldLeg};
use circuit_model::{CHANNELS_PER_LINE, Slot};
use clearing_rules::{Restart, restart_request};
use control_memory::PathMap;
use exchange_events::{Outbox, Records};
use q931_codec::MessageKind;
use q931_codec::causes::{DESTINATION_OUT_OF_ORDER, TEMPORARY_FAILURE};
use q931_codec::states::{ACTIVE, DISCONNECT_INDICATION, OVERLAP_SENDING, RELEASE_REQUEST};
use tone_rules::Tones;

impl<P: PathMap> CallControl<P> {
    /// Processes a failure of the data link of a line (Q.931, 5.8.9): each leg of the line in state 10 waits for the link,
    /// one that is being cleared goes on, and each other leg is removed, so that its user is owed a RESTART. Clears the
    /// other legs of their calls, and records these calls. No path is made.
    pub fn link_down(&mut self, out: &mut Outbox, tones: &Tones, line: u8)
        requires work { (s : Setting) × (w : World) × (s.tones ≡ tones.now) × IsInOrder s self.old.map self.old.legs w }
        requires line { line < self.old.map.external }
        requires fresh { (out.old.sends ≡ []) × (out.old.moved ≡ None) }
        ensures makes { EachLinked tones.now self.old.map self.old.legs (λ s w.
            HasMade s self.new.map self.new.legs out.new (outcome_of_link s.dimensions s.tones true line w).making) }
        ensures records { EachLinked tones.now self.old.map self.old.legs (λ s w.
            out.new.records ≡ (outcome_of_link s.dimensions s.tones true line w).recorded) }
        ensures moved { out.new.moved ≡ None }
        ensures sizes { SameSizes self.old.map self.new.map }
    {
        self.legs.set_link(line, true);
        let mut records = Records::new();
        for place in 0..CHANNELS_PER_LINE {
            self.drop_slot(out, tones, &mut records, Slot { line, place });
        }
        out.records = records;
    }

    /// Processes the establishment of the data link of a line (Q.931, 5.8.8 to 5.8.10): clears each leg of the line in
    /// state 2, sends STATUS ENQUIRY to the user of each in state 10, which waits for the link no longer, and RELEASE again
    /// to the user of each in state 19. Sends each RESTART that is awaited, or one for the whole interface if no leg is left
    /// on the line (5.5). Ends no call.
    pub fn link_up(&mut self, out: &mut Outbox, tones: &Tones, line: u8)
        requires work { (s : Setting) × (w : World) × (s.tones ≡ tones.now) × IsInOrder s self.old.map self.old.legs w }
        requires line { line < self.old.map.external }
        requires fresh { (out.old.sends ≡ []) × (out.old.moved ≡ None) }
        ensures makes { EachLinked tones.now self.old.map self.old.legs (λ s w.
            HasMade s self.new.map self.new.legs out.new (outcome_of_link s.dimensions s.tones false line w).making) }
        ensures records { EachLinked tones.now self.old.map self.old.legs (λ s w.
            out.new.records ≡ (outcome_of_link s.dimensions s.tones false line w).recorded) }
        ensures moved { out.new.moved ≡ None }
        ensures sizes { SameSizes self.old.map self.new.map }
    {
        let whole = self.legs.restarts_interface(line);
        self.legs.set_link(line, false);
        for place in 0..CHANNELS_PER_LINE {
            self.resume_slot(out, tones, whole, Slot { line, place });
        }
        request_restart(out, line, whole);
        out.records.clear();
    }

    // Removes the leg that holds a slot of a line whose data link failed, lets it wait for the link, or lets it be cleared.
    fn drop_slot(&mut self, out: &mut Outbox, tones: &Tones, records: &mut Records, x: Slot)
        requires work { (d : Dimensions) × (w : World) × Holds d self.old.map self.old.legs w × LegsStand d.external tones.now w }
        requires external { IsExternal self.old.map.external x }
        requires room { (length out.old.sends < max_sends) × (length records.old < max_records) }
        ensures makes { PerformsBy (λ legs. drop_slot tones.now legs x) self.old.map self.old.legs out.old self.new.map self.new.legs out.new }
        ensures records { (d : Dimensions) (w : World) → Holds d self.old.map self.old.legs w → records.new ≡ records.old ++ dropped_records w x }
        ensures few { (length out.new.sends ≤ length out.old.sends + 1) × (length records.new ≤ length records.old + 1) }
        ensures moved { out.new.moved ≡ out.old.moved }
        ensures sizes { SameSizes self.old.map self.new.map }
    {
        let Some(leg) = self.legs.get(x) else {
            return;
        };
        let held = HeldLeg { slot: x, leg };
        match leg.state {
            ACTIVE => self.start_waiting(&held),
            DISCONNECT_INDICATION | RELEASE_REQUEST => {}
            _ => {
                let removal = Removal {
                    asked: WHOLE_LINE,
                    cause: DESTINATION_OUT_OF_ORDER,
                    condition: Condition::Owed,
                };
                self.restart_leg(out, tones, records, &held, removal);
            }
        }
    }

    // Starts T309 for a leg in state 10, unless it runs. Its user gets STATUS ENQUIRY when the link is up.
    fn start_waiting(&mut self, held: &HeldLeg)
        requires there { IsThere self.old.map.external held.now }
        requires count { length self.old.legs.held ≡ 30 * self.old.map.external }
        requires state { held.now.leg.state ≡ active }
        ensures makes { PerformsQuietly (start_waiting held.now) self.old.map self.old.legs self.new.map self.new.legs }
        ensures map { self.new.map ≡ self.old.map }
    {
        if held.leg.resent {
            return;
        }
        self.await_link(held.slot, with_enquiry(false, held.leg));
    }

    // Clears the leg that holds a slot of a line whose data link is up again if it is in state 2, enquires of it if it is in
    // state 10, and sends RELEASE again if it is in state 19. Restarts the channel if no leg holds the slot, and it
    // awaits RESTART.
    fn resume_slot(&mut self, out: &mut Outbox, tones: &Tones, whole: bool, x: Slot)
        requires work { (d : Dimensions) × (w : World) × Holds d self.old.map self.old.legs w × LegsStand d.external tones.now w }
        requires external { IsExternal self.old.map.external x }
        requires room { length out.old.sends < max_sends }
        ensures makes { PerformsBy (λ legs. resume_slot tones.now whole legs x) self.old.map self.old.legs out.old self.new.map self.new.legs out.new }
        ensures few { length out.new.sends ≤ length out.old.sends + 1 }
        ensures moved { out.new.moved ≡ out.old.moved }
        ensures records { out.new.records ≡ out.old.records }
        ensures sizes { SameSizes self.old.map self.new.map }
    {
        let Some(leg) = self.legs.get(x) else {
            if self.legs.awaits_restart(x) {
                self.restart_channel(out, whole, x);
            }
            return;
        };
        let held = HeldLeg { slot: x, leg };
        match leg.state {
            ACTIVE => self.enquire(out, &held),
            OVERLAP_SENDING => self.clear_leg(out, tones, &held, TEMPORARY_FAILURE),
            RELEASE_REQUEST => self.send_again(out, &held),
            _ => {}
        }
    }

    // Sends RESTART for the channel of a slot without a leg, unless one for the whole interface follows. Its user has not
    // acknowledged it yet.
    fn restart_channel(&mut self, out: &mut Outbox, whole: bool, x: Slot)
        requires external { IsExternal self.old.map.external x }
        requires count { length self.old.legs.held ≡ 30 * self.old.map.external }
        requires room { length out.old.sends < max_sends }
        ensures makes { Performs (restart_channel whole x) self.old.map self.old.legs out.old self.new.map self.new.legs out.new }
        ensures few { length out.new.sends ≤ length out.old.sends + 1 }
        ensures moved { out.new.moved ≡ out.old.moved }
        ensures records { out.new.records ≡ out.old.records }
        ensures map { self.new.map ≡ self.old.map }
    {
        self.remove(x, Condition::Unconfirmed);
        if !whole {
            send(out, x.line, &restart_request(Restart::Channel(x.place)));
        }
    }

    // Stops T309 for a leg in state 10, and sends STATUS ENQUIRY to its user.
    fn enquire(&mut self, out: &mut Outbox, held: &HeldLeg)
        requires there { IsThere self.old.map.external held.now }
        requires count { length self.old.legs.held ≡ 30 * self.old.map.external }
        requires state { held.now.leg.state ≡ active }
        requires room { length out.old.sends < max_sends }
        ensures makes { Performs (enquire held.now) self.old.map self.old.legs out.old self.new.map self.new.legs out.new }
        ensures few { length out.new.sends ≤ length out.old.sends + 1 }
        ensures moved { out.new.moved ≡ out.old.moved }
        ensures records { out.new.records ≡ out.old.records }
        ensures map { self.new.map ≡ self.old.map }
    {
        self.put(held.slot, with_enquiry(true, held.leg));
        send_bare(out, held, MessageKind::StatusEnquiry);
    }
}

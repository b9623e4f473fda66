//! The exchange restarts the interface of a line: removes the legs of the line, and sends RESTART to its user.
ghost use Rattle.std.specs.Prelude.{◌≡◌, ◌+◌, ◌++◌, ◌<◌, ◌≤◌, [], None, length};
ghost use Rattle.circuit_model.specs.Extent.{IsExternal};
ghost use Rattle.circuit_map.specs.Connections.{SameSizes};
ghost use Rattle.call_control.specs.AtWork.{IsInOrder, EachLinked};
ghost use Rattle.call_control.specs.Standing.{Holds, HasMade, PerformsBy};
ghost use Rattle.call_profile.specs.EndedCalls.{slot_records};
ghost use Rattle.call_profile.specs.LegStanding.{LegsStand};
ghost use Rattle.call_profile.specs.LinkChanges.{give_up_slot, outcome_of_line_restart, whole_line};
ghost use Rattle.exchange_events.specs.Limits.{max_records, max_sends};
ghost use Rattle.exchange_events.specs.Sizes.{Setting, Dimensions};
ghost use Rattle.call_profile.specs.World.{World};

use crate::operations::CallControl;
use crate::restarting::{Removal, WHOLE_LINE, request_restart};
use call_states::{Condition, HeldLeg};
use circuit_model::{CHANNELS_PER_LINE, Slot};
use control_memory::PathMap;
use exchange_events::{Outbox, Records};
use q931_codec::causes::TEMPORARY_FAILURE;
use tone_rules::Tones;

impl<P: PathMap> CallControl<P> {
    /// Restarts the interface of a line (Q.931, 5.5.1): removes each leg of the line, clears the other legs of their calls,
    /// and records these calls. Then sends RESTART to the user of the line. If the data link of the line is down, the user is
    /// owed a RESTART of each channel instead. No path is made.
    pub fn restart_interface(&mut self, out: &mut Outbox, tones: &Tones, line: u8)
        requires work { (s : Setting) × (w : World) × (s.tones ≡ tones.now) × IsInOrder s self.old.map self.old.legs w }
        requires line { line < self.old.map.external }
        requires fresh { (out.old.sends ≡ []) × (out.old.moved ≡ None) }
        ensures makes { EachLinked tones.now self.old.map self.old.legs (λ s w.
            HasMade s self.new.map self.new.legs out.new (outcome_of_line_restart s.dimensions s.tones line w).making) }
        ensures records { EachLinked tones.now self.old.map self.old.legs (λ s w.
            out.new.records ≡ (outcome_of_line_restart s.dimensions s.tones line w).recorded) }
        ensures moved { out.new.moved ≡ None }
        ensures sizes { SameSizes self.old.map self.new.map }
    {
        let down = self.legs.is_down(line);
        let condition = Condition::unanswered(down);
        let mut records = Records::new();
        for place in 0..CHANNELS_PER_LINE {
            self.give_up_slot(out, tones, &mut records, Slot { line, place }, condition);
        }
        request_restart(out, line, !down);
        out.records = records;
    }

    // Removes the leg that holds a slot of a line that the exchange restarts, and ends its call. Stores the condition of the
    // channel.
    fn give_up_slot(
        &mut self,
        out: &mut Outbox,
        tones: &Tones,
        records: &mut Records,
        x: Slot,
        condition: Condition,
    )
        requires work { (d : Dimensions) × (w : World) × Holds d self.old.map self.old.legs w × LegsStand d.external tones.now w }
        requires external { IsExternal self.old.map.external x }
        requires room { (length out.old.sends < max_sends) × (length records.old < max_records) }
        ensures makes { PerformsBy (λ legs. give_up_slot tones.now condition legs x) self.old.map self.old.legs out.old self.new.map self.new.legs out.new }
        ensures records { (d : Dimensions) (w : World) → Holds d self.old.map self.old.legs w → records.new ≡ records.old ++ slot_records whole_line w x }
        ensures few { (length out.new.sends ≤ length out.old.sends + 1) × (length records.new ≤ length records.old + 1) }
        ensures moved { out.new.moved ≡ out.old.moved }
        ensures sizes { SameSizes self.old.map self.new.map }
    {
        let Some(leg) = self.legs.get(x) else {
            self.remove(x, condition);
            return;
        };
        let removal = Removal {
            asked: WHOLE_LINE,
            cause: TEMPORARY_FAILURE,
            condition,
        };
        let held = HeldLeg { slot: x, leg };
        self.restart_leg(out, tones, records, &held, removal);
    }
}

//! The number of frames of calls, in total and of the longest.
ghost use Rattle.std.specs.Prelude.{◌≡◌, ◌++◌, [], ◌∷◌, List, OnOk, OnErr, IsOk};
ghost use Rattle.exchange_events.specs.declared.record.CallRecord.{CallRecord};
ghost use Rattle.meters.specs.Registers.{IsHeldBy, holding_text, holding_text_with};

use crate::meter::Meter;
use crate::texts::append_registers;
use exchange_events::CallRecord;
use std::alloc::AllocError;
use std::marker::Model;

/// Adds up the frames in which calls held their circuits, and stores the longest such time.
///
/// Its text is the line `holding TOTAL LONGEST`. Both registers saturate at 18,446,744,073,709,551,615. No record
/// reaches that for the longest call, but one rule serves all registers.
#[derive(Debug, Drop)]
pub struct HoldingTime {
    total: u64,
    longest: u64,
}

impl Model for HoldingTime {
    ghost use Rattle.meters.specs.Registers.{Held};

    ghost Value = { Held };

    ghost view = { λ h. record { total = h.total; longest = h.longest } };
}

impl HoldingTime {
    /// Makes a holding time that has recorded no call. It does not allocate.
    pub fn new() -> HoldingTime
        ensures stands { IsHeldBy [] result }
        ensures text { (calls : List CallRecord) → holding_text_with result calls ≡ holding_text calls }
    {
        HoldingTime {
            total: 0,
            longest: 0,
        }
    }
}

impl Meter for HoldingTime {
    ghost stands = { λ held calls. IsHeldBy calls held };

    ghost text = { holding_text_with };

    /// Records one more call. It does not allocate and never fails.
    fn note(&mut self, told: &CallRecord) -> Result<(), AllocError>
        ensures done { IsOk result }
        ensures stands { (calls : List CallRecord) → IsHeldBy calls self.old → IsHeldBy (calls ++ told.now ∷ []) self.new }
        ensures text { (calls : List CallRecord) → holding_text_with self.new calls ≡ holding_text_with self.old (told.now ∷ calls) }
    {
        let frames = u64::from(told.to.saturating_sub(told.from));
        self.total = self.total.saturating_add(frames);
        self.longest = self.longest.max(frames);
        Ok(())
    }

    /// Appends the text of the calls that the meter represents.
    fn summary(&self, out: &mut Vec<u8>) -> Result<(), AllocError>
        ensures text { OnOk result (out.new.items ≡ out.old.items ++ holding_text_with self.now []) }
        ensures calls { OnOk result ((calls : List CallRecord) → IsHeldBy calls self.now → out.new.items ≡ out.old.items ++ holding_text calls) }
        ensures kept { OnErr result (out.new.items ≡ out.old.items) }
    {
        append_registers(out, b"holding ", self.total, self.longest)
    }
}

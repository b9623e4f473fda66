//! The number of calls, and of answered calls.
ghost use Rattle.std.specs.Prelude.{◌≡◌, ◌++◌, [], ◌∷◌, List, OnOk, OnErr, IsOk};
ghost use Rattle.exchange_events.specs.declared.record.CallRecord.{CallRecord};
ghost use Rattle.meters.specs.Registers.{ArePegsOf, peg_text, peg_text_with};

use crate::meter::Meter;
use crate::texts::append_registers;
use exchange_events::CallRecord;
use std::alloc::AllocError;
use std::marker::Model;

/// Counts calls, and the answered ones among them.
///
/// Its text is the line `peg CALLS ANSWERED`. Both counts saturate at 18,446,744,073,709,551,615.
#[derive(Debug, Drop)]
pub struct PegCount {
    calls: u64,
    answered: u64,
}

impl Model for PegCount {
    ghost use Rattle.meters.specs.Registers.{Pegs};

    ghost Value = { Pegs };

    ghost view = { λ p. record { calls = p.calls; answered = p.answered } };
}

impl PegCount {
    /// Makes a peg count that has recorded no call. It does not allocate.
    pub fn new() -> PegCount
        ensures stands { ArePegsOf [] result }
        ensures text { (calls : List CallRecord) → peg_text_with result calls ≡ peg_text calls }
    {
        PegCount {
            calls: 0,
            answered: 0,
        }
    }
}

impl Meter for PegCount {
    ghost stands = { λ pegs calls. ArePegsOf calls pegs };

    ghost text = { peg_text_with };

    /// Records one more call. It does not allocate and never fails.
    fn note(&mut self, told: &CallRecord) -> Result<(), AllocError>
        ensures done { IsOk result }
        ensures stands { (calls : List CallRecord) → ArePegsOf calls self.old → ArePegsOf (calls ++ told.now ∷ []) self.new }
        ensures text { (calls : List CallRecord) → peg_text_with self.new calls ≡ peg_text_with self.old (told.now ∷ calls) }
    {
        self.calls = self.calls.saturating_add(1);
        if told.answered {
            self.answered = self.answered.saturating_add(1);
        }
        Ok(())
    }

    /// Appends the text of the calls that the meter represents.
    fn summary(&self, out: &mut Vec<u8>) -> Result<(), AllocError>
        ensures text { OnOk result (out.new.items ≡ out.old.items ++ peg_text_with self.now []) }
        ensures calls { OnOk result ((calls : List CallRecord) → ArePegsOf calls self.now → out.new.items ≡ out.old.items ++ peg_text calls) }
        ensures kept { OnErr result (out.new.items ≡ out.old.items) }
    {
        append_registers(out, b"peg ", self.calls, self.answered)
    }
}

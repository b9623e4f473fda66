//! A meter that counts the calls with one cause.
ghost use Rattle.std.specs.Prelude.{◌≡◌, ◌++◌, [], ◌∷◌, List, string_bytes, OnOk, OnErr, IsOk, IfOk};
ghost use Rattle.exchange_events.specs.declared.record.CallRecord.{CallRecord};
ghost use Rattle.library_example.specs.Causes.{IsCountOf, calls_with, cause_line, text_with};
ghost use Rattle.meters.specs.Registers.{register_value};

use exchange_events::CallRecord;
use meters::Meter;
use std::alloc::{AllocError, Global};
use std::marker::Model;

/// Counts the calls that were cleared with one cause. Its text is the line `cause C: N`, where N saturates at
/// 18,446,744,073,709,551,615.
#[derive(Debug, Drop)]
pub struct CauseCount {
    cause: u8,
    calls: u64,
}

impl Model for CauseCount {
    ghost use Rattle.library_example.specs.Causes.{CauseCalls};

    ghost Value = { CauseCalls };

    ghost view = { λ c. record { cause = c.cause; calls = c.calls } };
}

impl CauseCount {
    /// Returns a count of the calls with this cause, which has recorded no call. It does not allocate.
    pub fn new(cause: u8) -> CauseCount
        ensures stands { IsCountOf [] result }
        ensures text { (calls : List CallRecord) → text_with result calls ≡ cause_line cause (register_value (calls_with cause calls)) }
    {
        CauseCount { cause, calls: 0 }
    }
}

impl Meter for CauseCount {
    ghost stands = { λ count calls. IsCountOf calls count };

    ghost text = { text_with };

    /// Records one more call. It does not allocate and never fails.
    fn note(&mut self, told: &CallRecord) -> Result<(), AllocError>
        ensures done { IsOk result }
        ensures stands { (calls : List CallRecord) → IsCountOf calls self.old → IsCountOf (calls ++ told.now ∷ []) self.new }
        ensures text { (calls : List CallRecord) → text_with self.new calls ≡ text_with self.old (told.now ∷ calls) }
    {
        if told.cause == self.cause {
            self.calls = self.calls.saturating_add(1);
        }
        Ok(())
    }

    /// Appends the text of the calls that the meter represents.
    fn summary(&self, out: &mut Vec<u8>) -> Result<(), AllocError>
        ensures text { OnOk result (out.new.items ≡ out.old.items ++ text_with self.now []) }
        ensures calls { OnOk result ((calls : List CallRecord) → IsCountOf calls self.now
            → out.new.items ≡ out.old.items ++ cause_line self.now.cause (register_value (calls_with self.now.cause calls))) }
        ensures kept { OnErr result (out.new.items ≡ out.old.items) }
    {
        let line = line_of(*out.allocator(), self.cause, self.calls)?;
        out.extend_from_slice(line.as_bytes())
    }
}

// Returns the text of a count.
fn line_of(alloc: Global, cause: u8, calls: u64) -> Result<String, AllocError>
    ensures line { IfOk result (λ text. string_bytes text ≡ cause_line cause calls) }
{
    format!(in alloc; "cause {cause}: {calls}\n")
}

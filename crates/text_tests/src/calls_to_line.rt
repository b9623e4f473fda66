// A program's own meter that never refuses a record: it counts the calls to one line.
ghost use Rattle.std.specs.Prelude.{◌≡◌, ◌++◌, [], ◌∷◌, List, string_bytes, OnOk, OnErr, IsOk, IfOk};
ghost use Rattle.exchange_events.specs.declared.record.CallRecord.{CallRecord};
ghost use Rattle.text_tests.specs.CallsTo.{IsCountOf, calls_to, is_to, to_line, to_text_with};
ghost use Rattle.meters.specs.Registers.{register_value};

use exchange_events::{CallRecord, Party};
use meters::Meter;
use std::alloc::{AllocError, Global};
use std::marker::Model;

/// Counts the calls to one line. Its text is the line `to L: N`, where N saturates at 18,446,744,073,709,551,615.
#[derive(Drop)]
pub(crate) struct CallsToLine {
    line: u8,
    calls: u64,
}

impl Model for CallsToLine {
    ghost use Rattle.text_tests.specs.CallsTo.{LineCount};

    ghost Value = { LineCount };

    ghost view = { λ c. record { line = c.line; calls = c.calls } };
}

impl CallsToLine {
    /// Makes a count of the calls to this line that has recorded no call. It does not allocate.
    pub(crate) fn new(line: u8) -> CallsToLine
        ensures stands { IsCountOf [] result }
        ensures text { (calls : List CallRecord) → to_text_with result calls ≡ to_line line (register_value (calls_to line calls)) }
    {
        CallsToLine { line, calls: 0 }
    }
}

impl Meter for CallsToLine {
    ghost stands = { λ count calls. IsCountOf calls count };

    ghost text = { to_text_with };

    /// Records one more call. It does not allocate and never fails.
    fn note(&mut self, told: &CallRecord) -> Result<(), AllocError>
        ensures done { IsOk result }
        ensures stands { (calls : List CallRecord) → IsCountOf calls self.old → IsCountOf (calls ++ told.now ∷ []) self.new }
        ensures text { (calls : List CallRecord) → to_text_with self.new calls ≡ to_text_with self.old (told.now ∷ calls) }
    {
        if is_to(self.line, told.called) {
            self.calls = self.calls.saturating_add(1);
        }
        Ok(())
    }

    /// Appends the text of the calls that the meter represents.
    fn summary(&self, out: &mut Vec<u8>) -> Result<(), AllocError>
        ensures text { OnOk result (out.new.items ≡ out.old.items ++ to_text_with self.now []) }
        ensures calls { OnOk result ((calls : List CallRecord) → IsCountOf calls self.now
            → out.new.items ≡ out.old.items ++ to_line self.now.line (register_value (calls_to self.now.line calls))) }
        ensures kept { OnErr result (out.new.items ≡ out.old.items) }
    {
        let line = line_of(*out.allocator(), self.line, self.calls)?;
        out.extend_from_slice(line.as_bytes())
    }
}

// Returns whether a call to this party is one to the line.
fn is_to(line: u8, called: Party) -> bool
    ensures { result ≡ is_to line called }
{
    match called {
        Party::Line(at) => at.line == line,
        Party::Room(_) => false,
    }
}

// Returns the text of a count.
fn line_of(alloc: Global, line: u8, calls: u64) -> Result<String, AllocError>
    ensures line { IfOk result (λ text. string_bytes text ≡ to_line line calls) }
{
    format!(in alloc; "to {line}: {calls}\n")
}

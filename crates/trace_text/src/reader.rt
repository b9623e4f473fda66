// Reading a trace line by line.
ghost use Rattle.std.specs.Prelude.{◌≡◌, ℕ, ◌⊎◌, IfOk, IfErr, Ok, Err};
ghost use Rattle.trace_text.specs.TraceGrammar.{IsTrace, IsRefused};
ghost use Rattle.trace_text.specs.TraceDraft.{IsFault};

use crate::draft::Draft;
use crate::fault::{Reason, TraceFault};
use exchange_events::Trace;
use std::alloc::Global;

/// The maximum number of bytes of a trace: 64 MiB (defined by this project).
pub const MAX_BYTES: usize = 67_108_864;

// Reads a trace line by line.
fn read_lines(alloc: Global, bytes: &[u8]) -> Result<Trace, TraceFault>
    ensures read { IfOk result (λ t. IsTrace bytes.now t) }
    ensures refused { IfErr result (λ e. IsFault bytes.now e) }
{
    if bytes.len() > MAX_BYTES {
        return Err(TraceFault::Line {
            number: 0,
            reason: Reason::Limit,
        });
    }
    let mut draft = Draft::new(alloc);
    let mut rest = bytes;
    let mut number = 0;
    while !rest.is_empty() {
        number += 1;
        match draft.read_first(alloc, rest) {
            Ok(others) => rest = others,
            Err(fault) => return Err(fault.at_line(number)),
        }
    }
    draft.finish(number)
}

/// Reads a trace (`docs/FORMATS.md`).
///
/// # Errors
///
/// - [`TraceFault::Line`] if the bytes are not a trace, with the first line that fails and its first failing check.
/// - [`TraceFault::Memory`] if an allocation fails.
pub fn read_trace(alloc: Global, bytes: &[u8]) -> Result<Trace, TraceFault>
    ensures read { IfOk result (λ t. IsTrace bytes.now t) }
    // The error is the first line that fails, with its first failing check.
    ensures refused { (number : ℕ) (why : Reason) →
        result ≡ Err (TraceFault.Line number why) → IsRefused bytes.now number why }
    // Every trace is read, unless an allocation fails.
    ensures reads_each { (t : Trace) →
        IsTrace bytes.now t → (result ≡ Ok t) ⊎ (result ≡ Err TraceFault.Memory) }
    // All other bytes are refused, unless an allocation fails.
    ensures refuses_each { (number : ℕ) (why : Reason) →
        IsRefused bytes.now number why
        → (result ≡ Err (TraceFault.Line number why)) ⊎ (result ≡ Err TraceFault.Memory) }
{
    read_lines(alloc, bytes)
}

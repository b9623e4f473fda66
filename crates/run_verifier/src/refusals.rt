//! The lines that refuse an input, and the write of a line that ends a call.
ghost use Rattle.std.specs.Prelude.{◌≡◌, ◌⊎◌, IfOk};
ghost use Rattle.run_verifier.specs.declared.ending.Ending.TheVariants.{WriteFailed};
ghost use Rattle.run_verifier.specs.Refusals.{Says, reason_name, refusal};
ghost use Rattle.ex_io.specs.Streams.{stream};

use crate::ending::Ending;
use ex_io::{Sink, write_all};
use itoa::Buffer;
use std::alloc::{AllocError, Global};
use trace_text::Reason;

// Returns the name of a reason in a refusal.
fn name_of(reason: Reason) -> &'static [u8]
    ensures { result.now ≡ reason_name reason }
{
    match reason {
        Reason::Header => b"header",
        Reason::Word => b"word",
        Reason::Slot => b"slot",
        Reason::Hex => b"hex",
        Reason::Length => b"length",
        Reason::Number => b"number",
        Reason::Prefix => b"prefix",
        Reason::Limit => b"limit",
    }
}

/// Returns the line that refuses an input, at its first line that fails.
pub fn refusal(alloc: Global, number: u32, reason: Reason) -> Result<Vec<u8>, AllocError>
    ensures { IfOk result (λ line. line.items ≡ refusal number reason) }
{
    let mut buffer = Buffer::new();
    let mut line = Vec::from_slice(alloc, b"refused ")?;
    line.extend_from_slice(buffer.format(number).as_bytes())?;
    line.extend_from_slice(b" ")?;
    line.extend_from_slice(name_of(reason))?;
    line.extend_from_slice(b"\n")?;
    Ok(line)
}

/// Writes the line that ends a call, and returns the call's ending: the given one, unless the write fails.
pub fn say<K: Sink>(sink: &mut K, line: &[u8], ending: Ending) -> Ending
    ensures answer { Says ending line.now result (stream K.written K.faults sink.old sink.new) }
    ensures writes { (result ≡ WriteFailed) ⊎ (K.faults sink.new ≡ K.faults sink.old) }
{
    match write_all(sink, line) {
        Ok(()) => ending,
        Err(_) => Ending::WriteFailed,
    }
}

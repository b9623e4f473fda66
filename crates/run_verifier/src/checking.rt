//! A report that is read with its trace, and verified against it.
ghost use Rattle.std.specs.Prelude.{◌≡◌, ◌⊎◌, IfOk};
ghost use Rattle.run_verifier.specs.declared.ending.Ending.TheVariants.{ReadFailed, Refused, WriteFailed};
ghost use Rattle.run_verifier.specs.Checking.{Checks, Finds, IsDivided, IsFirstLine, max_checked};
ghost use Rattle.run_verifier.specs.Fabrics.{slots_of};
ghost use Rattle.ex_io.specs.Inputs.{max_bytes_read};
ghost use Rattle.run_verifier.specs.Refusals.{invalid_line, line_of};
ghost use Rattle.ex_io.specs.Streams.{ConsumesAtMost, stream};

use crate::ending::Ending;
use crate::refusals::{refusal, say};
use crate::verdict::{Verdict, VerifyFault};
use crate::verifying::verify;
use ex_io::{ReadError, Sink, Source, read_all};
use itoa::Buffer;
use memchr::memchr;
use std::alloc::{AllocError, Global};
use std::thread::Threads;
use trace_text::Reason;

// The maximum number of bytes in a trace and a report together, with the line between them: 256 MiB (defined by this
// project). It is four times the longest trace, enough for all but the longest reports.
const MAX_CHECKED: usize = 268_435_456;

// The line that divides a trace from a report.
const DIVIDER: &[u8] = b"report";

/// Reads a trace and a report, and writes the verdict on the report, for the strict fabric or for the other. Returns
/// the ending: `Completed` for `valid`, `Invalid`, or `Refused` if there is no trace; or the ending of a failed read,
/// write or allocation.
pub fn check<S: Source, K: Sink, R: Threads + Sync>(
    rt: &R,
    alloc: Global,
    strict: bool,
    source: &mut S,
    sink: &mut K,
) -> Ending
    ensures ends { Checks strict
        (stream S.left S.faults source.old source.new) (stream K.written K.faults sink.old sink.new) result }
    ensures stops { ConsumesAtMost (max_bytes_read max_checked) (S.left source.old) (S.left source.new) }
    ensures reads { (result ≡ ReadFailed) ⊎ (S.faults source.new ≡ S.faults source.old) }
    ensures writes { (result ≡ WriteFailed) ⊎ (K.faults sink.new ≡ K.faults sink.old) }
{
    let bytes = match read_all(alloc, source, MAX_CHECKED) {
        Ok(bytes) => bytes,
        Err(ReadError::Read) => return Ending::ReadFailed,
        Err(ReadError::Memory) => return Ending::OutOfMemory,
    };
    match found(rt, alloc, bytes.as_slice(), strict) {
        Ok((ending, line)) => say(sink, line.as_slice(), ending),
        Err(_) => Ending::OutOfMemory,
    }
}

// Returns the finding on an input, and the line that reports it. If the trace is refused, the report is not verified,
// because the refusal names the wrong line of the trace.
fn found<R: Threads + Sync>(
    rt: &R,
    alloc: Global,
    bytes: &[u8],
    strict: bool,
) -> Result<(Ending, Vec<u8>), AllocError>
    ensures { IfOk result (λ found. Finds strict bytes.now found.0 × (found.1.items ≡ line_of found.0)) }
{
    if bytes.len() > MAX_CHECKED {
        return refused(alloc, 0, Reason::Limit);
    }
    let (trace, report) = divided(bytes);
    match verify(rt, alloc, trace, report, slots_of(strict)) {
        Ok(Verdict::Valid) => Ok((Ending::Completed, Vec::from_slice(alloc, b"valid\n")?)),
        Ok(Verdict::Invalid(number)) => {
            Ok((Ending::Invalid { number }, invalid_line(alloc, number)?))
        }
        Err(VerifyFault::Trace { number, reason }) => refused(alloc, number, reason),
        Err(VerifyFault::Memory) => Err(AllocError),
    }
}

// Returns the refusal of an input at a line, and the line that reports it.
fn refused(alloc: Global, number: u32, reason: Reason) -> Result<(Ending, Vec<u8>), AllocError>
    ensures { IfOk result (λ found. (found.0 ≡ Refused number reason) × (found.1.items ≡ line_of found.0)) }
{
    let line = refusal(alloc, number, reason)?;
    Ok((Ending::Refused { number, reason }, line))
}

// Returns the number of internal slots of a strict fabric, and of the other.
fn slots_of(strict: bool) -> u8
    ensures is { result ≡ slots_of strict }
    ensures one { (result ≡ 30) ⊎ (result ≡ 59) }
{
    if strict { 59 } else { 30 }
}

// Returns the line with the first wrong or missing line of a report.
fn invalid_line(alloc: Global, number: u32) -> Result<Vec<u8>, AllocError>
    ensures { IfOk result (λ line. line.items ≡ invalid_line number) }
{
    let mut buffer = Buffer::new();
    let mut line = Vec::from_slice(alloc, b"invalid ")?;
    line.extend_from_slice(buffer.format(number).as_bytes())?;
    line.extend_from_slice(b"\n")?;
    Ok(line)
}

// Returns the trace and the report of an input.
fn divided(bytes: &[u8]) -> (&[u8], &[u8])
    ensures { IsDivided bytes.now result.0.now result.1.now }
{
    let mut rest = bytes;
    while !rest.is_empty() {
        let (line, others) = first_line(rest);
        if line == DIVIDER {
            return (&bytes[..bytes.len() - rest.len()], others);
        }
        rest = others;
    }
    (bytes, &[])
}

// Returns the first line, and the octets after it.
fn first_line(bytes: &[u8]) -> (&[u8], &[u8])
    ensures { IsFirstLine bytes.now result.0.now result.1.now }
{
    match memchr(b'\n', bytes) {
        Some(end) => (&bytes[..end], &bytes[end + 1..]),
        None => (bytes, &[]),
    }
}

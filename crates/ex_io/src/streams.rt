//! Whole inputs and outputs, over sources and sinks that move them in pieces.
ghost use Rattle.std.specs.Prelude.{◌≡◌, ◌+◌, ◌≤◌, length, IfOk, OnOk, OnErr, IsErrOf};
ghost use Rattle.std.specs.Io.KnownBytes.{Appends, Consumes, IsAtEnd};
ghost use Rattle.ex_io.specs.Ends.{Rose};
ghost use Rattle.ex_io.specs.Streams.{ConsumesAtMost, AppendsFront};
ghost use Rattle.ex_io.specs.declared.streams.ReadError.TheVariants.{Memory, Read};

use crate::ends::{Failed, Sink, Source};
use std::alloc::{AllocError, Global};

// The bytes of one read.
const PIECE: usize = 65_536;

/// The error of a failed input (defined by this project).
#[derive(Clone, Copy)]
pub enum ReadError {
    /// An allocation for the bytes failed.
    Memory,
    /// A read failed.
    Read,
}

impl From<AllocError> for ReadError {
    ghost from_gives = { λ _ fault. fault ≡ Memory };

    fn from(_: AllocError) -> ReadError {
        ReadError::Memory
    }
}

impl From<Failed> for ReadError {
    ghost from_gives = { λ _ fault. fault ≡ Read };

    fn from(_: Failed) -> ReadError {
        ReadError::Read
    }
}

/// Reads the source to its end, or until there are more than `limit` bytes. Each read is one piece, so at most one
/// piece more is read.
///
/// # Errors
///
/// [`ReadError::Read`] if a read failed and the error count of the source rose. [`ReadError::Memory`] if an allocation
/// failed and no read did. The bytes read so far are dropped, because the caller has no use for them.
pub fn read_all<S: Source>(
    alloc: Global,
    source: &mut S,
    limit: usize,
) -> Result<Vec<u8>, ReadError>
    ensures front { IfOk result (λ bytes. Consumes (S.left source.old) (S.left source.new) bytes.items) }
    ensures whole { IfOk result (λ bytes. length bytes.items ≤ limit → IsAtEnd (S.left source.new)) }
    ensures most { IfOk result (λ bytes. length bytes.items ≤ limit + 65536) }
    ensures steady { OnOk result (S.faults source.new ≡ S.faults source.old) }

    ensures lost { OnErr result (ConsumesAtMost (limit + 65536) (S.left source.old) (S.left source.new)) }
    ensures cause { IsErrOf result ReadError.Read → Rose (S.faults source.old) (S.faults source.new) }
    ensures no_fault { IsErrOf result ReadError.Memory → S.faults source.new ≡ S.faults source.old }
{
    let mut bytes = Vec::new(alloc);
    let mut piece = [0u8; PIECE];
    while bytes.len() <= limit {
        let count = source.read(&mut piece)?;
        if count == 0 {
            return Ok(bytes);
        }
        bytes.extend_from_slice(&piece[..count])?;
    }
    Ok(bytes)
}

/// Writes all of the bytes.
///
/// # Errors
///
/// [`Failed`] if a write failed and the error count of the sink rose. A prefix of the bytes was written, perhaps none
/// of them.
pub fn write_all<K: Sink>(sink: &mut K, bytes: &[u8]) -> Result<(), Failed>
    ensures whole { OnOk result (Appends (K.written sink.old) (K.written sink.new) bytes.now) }
    ensures steady { OnOk result (K.faults sink.new ≡ K.faults sink.old) }

    ensures front { OnErr result (AppendsFront (K.written sink.old) (K.written sink.new) bytes.now) }
    ensures cause { OnErr result (Rose (K.faults sink.old) (K.faults sink.new)) }
{
    let mut done = 0;
    while done < bytes.len() {
        done += sink.write(&bytes[done..])?;
    }
    Ok(())
}

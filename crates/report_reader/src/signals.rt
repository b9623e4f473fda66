// The messages of a report's line, each after the number of its external line.
ghost use Rattle.std.specs.Prelude.{◌≡◌, option_map, IfOk};
ghost use Rattle.report_reader.specs.Reading.{octets_at, signal_at, signals_at};

use crate::cut::{behind, octet_at, spaced_at};
use arrayvec::ArrayVec;
use exchange_events::{Encoded, Signal, SignalList};
use std::alloc::{AllocError, Global};

/// The maximum number of external lines.
const MAX_LINES: u32 = 32;

// Returns the octets of the pairs of digits at the start, if a message may have that number of octets, and the octets
// after them.
fn octets_at(octets: &[u8]) -> Option<(Encoded, &[u8])>
    ensures { option_map (λ cut. (cut.0, cut.1.now)) result ≡ octets_at octets.now }
{
    let mut read = ArrayVec::new();
    let mut rest = octets;
    while let Some((octet, others)) = octet_at(rest) {
        if read.is_full() {
            return None;
        }
        read.push(octet);
        rest = others;
    }
    if read.is_empty() {
        return None;
    }
    Some((Encoded::of(read), rest))
}

/// Returns the octets of a line after its number, and the octets after them.
pub(crate) fn signal_at(octets: &[u8]) -> Option<(Signal, &[u8])>
    ensures { option_map (λ cut. (cut.0, cut.1.now)) result ≡ signal_at octets.now }
{
    let (line, rest) = spaced_at(octets)?;
    if line >= MAX_LINES {
        return None;
    }
    let rest = behind(b":", rest)?;
    let (octets, rest) = octets_at(rest)?;
    let line = line as u8;
    Some((Signal { line, octets }, rest))
}

/// Returns the messages at the start, each after a word, and the octets after them.
pub(crate) fn signals_at<'a>(
    alloc: Global,
    word: &[u8],
    octets: &'a [u8],
) -> Result<Option<(SignalList, &'a [u8])>, AllocError>
    ensures { IfOk result (λ read. option_map (λ cut. (cut.0, cut.1.now)) read ≡ signals_at word.now octets.now) }
{
    let mut sends = Vec::new(alloc);
    let mut rest = octets;
    while let Some(front) = behind(word, rest) {
        if front.is_empty() {
            break;
        }
        let Some((signal, others)) = signal_at(front) else {
            return Ok(None);
        };
        sends.push(signal)?;
        rest = others;
    }
    Ok(Some((SignalList::of(sends), rest)))
}

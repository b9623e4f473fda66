// The fields of a line that are lines, slots and rooms of the exchange, and the sizes of a header.
ghost use Rattle.std.specs.Prelude.{◌≡◌, ◌<◌, IfSome};
ghost use Rattle.trace_text.specs.TraceWords.{words};
ghost use Rattle.trace_text.specs.TraceFields.{external_line, slot, room, numeral_in, header, exchange_sizes};

use crate::cut::{first_word, halves_at, numeral_of, three_words};
use crate::said::Sizes;
use circuit_model::{Slot, slot_of_channel};

/// Returns the external line of a field. `None` if the field is not one of the exchange.
pub fn line_of_word(external: u8, word: &[u8]) -> Option<u8>
    ensures named { result ≡ external_line external word.now }
    ensures below { IfSome result (λ line. line < external) }
{
    let line = numeral_of(word)?;
    if line < u32::from(external) {
        Some(line as u8)
    } else {
        None
    }
}

/// Returns the slot of a field. `None` if the field is not one of the exchange.
pub(crate) fn slot_of_word(external: u8, word: &[u8]) -> Option<Slot>
    ensures { result ≡ slot external word.now }
{
    let (line, channel) = halves_at(b'/', word)?;
    let line = line_of_word(external, line)?;
    let channel = numeral_of(channel)?;
    if channel > 31 {
        return None;
    }
    let place = slot_of_channel(channel as u8)?;
    Some(Slot { line, place })
}

// Returns the value of a field. `None` if it is not a decimal number from `low` to `high`.
fn numeral_within(low: u8, high: u8, word: &[u8]) -> Option<u8>
    ensures { result ≡ numeral_in low high word.now }
{
    let number = numeral_of(word)?;
    if u32::from(low) <= number && number <= u32::from(high) {
        Some(number as u8)
    } else {
        None
    }
}

/// Returns the conference room of a field, 0 to 63.
pub(crate) fn room_of_word(word: &[u8]) -> Option<u8>
    ensures { result ≡ room word.now }
{
    numeral_within(0, 63, word)
}

/// Returns the sizes of a header. `None` if the line is not a header.
pub(crate) fn header_of(line: &[u8]) -> Option<Sizes>
    ensures { result ≡ header (words line.now) }
{
    let (name, rest) = first_word(line)?;
    let (version, rest) = first_word(rest)?;
    if name != b"exchange".as_slice() || version != b"1".as_slice() {
        return None;
    }
    sizes_of(rest)
}

// Returns the sizes in the last three fields of a header.
fn sizes_of(line: &[u8]) -> Option<Sizes>
    ensures { result ≡ exchange_sizes (words line.now) }
{
    let (external, bridges, processors) = three_words(line)?;
    Some(Sizes {
        external: numeral_within(1, 32, external)?,
        bridges: numeral_within(0, 2, bridges)?,
        processors: numeral_within(1, 8, processors)?,
    })
}

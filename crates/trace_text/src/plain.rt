// Lines in the common form: single spaces, and decimal numbers of one or two digits. The functions of this module scan
// each octet once. Any other line is read field by field.
ghost use Rattle.std.specs.Prelude.{◌≡◌, ◌<◌, ◌+◌, ◌∷◌, codes, length, IfOk, IfSome};
ghost use Rattle.trace_text.specs.TraceWords.{words};
ghost use Rattle.trace_text.specs.TraceLines.{frame, nail, free, message};
ghost use Rattle.trace_text.specs.TracePlain.{ends_word, NumberAt, PartAt, SlotAt, TakesPart, GivesPlainly, IsPlain};

use crate::octets::{halves_of, message_octets, thirty_of};
use circuit_model::{Slot, slot_of_channel};
use exchange_events::{Event, Input};
use std::alloc::{AllocError, Global};

/// Returns whether a field ends before these octets.
pub(crate) fn ends_word(octets: &[u8]) -> bool
    ensures { result ≡ ends_word octets.now }
{
    match octets {
        [] => true,
        [first, ..] => *first == b' ',
    }
}

// Returns the decimal digit at the start, and the octets after it.
fn digit_at(octets: &[u8]) -> Option<(u8, &[u8])>
    ensures { IfSome result (λ found. (octets.now ≡ (48 + found.0) ∷ found.1.now) × (found.0 < 10)) }
{
    let (first, others) = octets.split_first()?;
    if !first.is_ascii_digit() {
        return None;
    }
    Some((*first - b'0', others))
}

// Returns the decimal number of one or two digits at the start, and the octets after it.
fn number_at(octets: &[u8]) -> Option<(u8, &[u8])>
    ensures { IfSome result (λ found. NumberAt octets.now found.0 found.1.now) }
{
    let (first, behind) = digit_at(octets)?;
    match digit_at(behind) {
        Some((ones, others)) if first > 0 => Some((10 * first + ones, others)),
        _ => Some((first, behind)),
    }
}

// Returns the line and the 60 digits of the next field of a frame, and the octets after them.
fn part_at(rest: &[u8]) -> Option<(u8, &[u8; 60], &[u8])>
    ensures { IfSome result (λ found. PartAt rest.now found.0 found.1.now found.2.now) }
{
    let [b' ', behind @ ..] = rest else {
        return None;
    };
    let (line, behind) = number_at(behind)?;
    let [b':', behind @ ..] = behind else {
        return None;
    };
    let (sixty, others) = behind.split_first_chunk::<60>()?;
    if !ends_word(others) {
        return None;
    }
    Some((line, sixty, others))
}

// Stores the next field of a frame and returns the octets after it.
fn plain_part<'a>(given: &mut [Option<[u8; 30]>], rest: &'a [u8]) -> Option<&'a [u8]>
    requires { length given.old < 256 }
    ensures { IfSome result (λ others. TakesPart given.old given.new rest.now others.now) }
{
    let (line, sixty, others) = part_at(rest)?;
    let place = usize::from(line);
    if place >= given.len() || given[place].is_some() {
        return None;
    }
    let (first, last) = halves_of(sixty)?;
    given[place] = Some(thirty_of(first, last));
    Some(others)
}

/// Returns the frame of a line in the common form. `None` for any other line. A frame without fields does not allocate.
pub(crate) fn plain_frame(
    alloc: Global,
    external: u8,
    line: &[u8],
) -> Result<Option<Event>, AllocError>
    ensures { IfOk result (λ found. IfSome found (λ event. GivesPlainly (frame external (words line.now)) line.now event)) }
{
    if line.is_empty() {
        return Ok(Some(Event::Frame(Input::idle(external))));
    }
    let mut input = vec![in alloc; None; usize::from(external)]?;
    let mut rest = line;
    while !rest.is_empty() {
        let Some(others) = plain_part(&mut input, rest) else {
            return Ok(None);
        };
        rest = others;
    }
    Ok(Some(Event::Frame(Input::of(input))))
}

// Returns the slot at the start, if the exchange has it, and the octets after it.
fn slot_at(external: u8, octets: &[u8]) -> Option<(Slot, &[u8])>
    ensures { IfSome result (λ found. SlotAt external octets.now found.0 found.1.now) }
{
    let (line, behind) = number_at(octets)?;
    let [b'/', behind @ ..] = behind else {
        return None;
    };
    let (channel, others) = number_at(behind)?;
    if line >= external {
        return None;
    }
    let place = slot_of_channel(channel)?;
    Some((Slot { line, place }, others))
}

/// Returns the nailed connection of a line in the common form. `None` for any other line.
pub(crate) fn plain_nail(external: u8, line: &[u8]) -> Option<Event>
    ensures { IfSome result (λ event. IsPlain (codes "nail") (nail external) line.now event) }
{
    let [b'n', b'a', b'i', b'l', b' ', behind @ ..] = line else {
        return None;
    };
    let (one, behind) = slot_at(external, behind)?;
    let [b' ', behind @ ..] = behind else {
        return None;
    };
    let (other, others) = slot_at(external, behind)?;
    if !others.is_empty() || one == other {
        return None;
    }
    Some(Event::Nail(one, other))
}

/// Returns the release of a line in the common form. `None` for any other line.
pub(crate) fn plain_free(external: u8, line: &[u8]) -> Option<Event>
    ensures { IfSome result (λ event. IsPlain (codes "free") (free external) line.now event) }
{
    let [b'f', b'r', b'e', b'e', b' ', behind @ ..] = line else {
        return None;
    };
    let (slot, others) = slot_at(external, behind)?;
    if !others.is_empty() {
        return None;
    }
    Some(Event::Free(slot))
}

/// Returns the message of a line in the common form. `None` for any other line.
#[inline(always)]
pub(crate) fn plain_message(alloc: Global, external: u8, line: &[u8]) -> Option<Event>
    ensures { IfSome result (λ event. IsPlain (codes "M") (message external) line.now event) }
{
    let [b'M', b' ', behind @ ..] = line else {
        return None;
    };
    let (number, behind) = number_at(behind)?;
    let [b' ', digits @ ..] = behind else {
        return None;
    };
    if number >= external || digits.is_empty() {
        return None;
    }
    let octets = message_octets(alloc, digits).ok()?;
    Some(Event::Message(number, octets))
}

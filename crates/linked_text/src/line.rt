// The fields of each kind of line that concerns a data link, with their checks.
ghost use Rattle.std.specs.Prelude.{◌≡◌};
ghost use Rattle.trace_text.specs.TraceWords.{words};
ghost use Rattle.trace_text.specs.TraceLines.{Gives};
ghost use Rattle.linked_text.specs.LinkTimers.{link_timer_named};
ghost use Rattle.linked_text.specs.LinkLines.{is_link_octet, link_kind_of, link, link_timer, names_link_timer, names_linked, received};

use crate::said::{LinkKind, LinkSaid};
use crate::timing::{GivenLinkTimer, GivenLinkTimers, LinkTimerName};
use number_plan::LineList;
use std::alloc::Global;
use trace_text::{
    LineError, Reason, first_word, line_of_word, numeral_of, octets_at_most, one_or_two_words,
    only_line, two_words,
};

/// The maximum number of octets of a received frame. A longer one is not a frame of a link.
const MAX_RECEIVED_LEN: usize = 265;

/// Returns the line of the field, if it is not among the lines with a data link.
pub(crate) fn link_of(external: u8, linked: &LineList, line: &[u8]) -> Result<u8, Reason>
    ensures { result ≡ link external linked.now (words line.now) }
{
    let line = only_line(external, line)?;
    if linked.contains(line) {
        return Err(Reason::Slot);
    }
    Ok(line)
}

/// Returns the line and the octets of a received frame, if the line is among the lines with a data link.
pub(crate) fn received_of(
    alloc: Global,
    external: u8,
    linked: &LineList,
    line: &[u8],
) -> Result<LinkSaid, LineError>
    ensures { Gives result (received external linked.now (words line.now)) }
{
    let (line, digits) = one_or_two_words(line).ok_or(Reason::Word)?;
    let line = line_of_word(external, line).ok_or(Reason::Slot)?;
    if !linked.contains(line) {
        return Err(LineError::Refused(Reason::Slot));
    }
    let octets = octets_at_most(alloc, MAX_RECEIVED_LEN, digits)?;
    Ok(LinkSaid::Received(line, octets))
}

// Returns the timer with this name.
fn link_timer_named(word: &[u8]) -> Option<LinkTimerName>
    ensures { result ≡ link_timer_named word.now }
{
    if word == b"T200".as_slice() {
        Some(LinkTimerName::T200)
    } else if word == b"T203".as_slice() {
        Some(LinkTimerName::T203)
    } else {
        None
    }
}

/// Returns whether the first field is the name of a timer of the data links.
pub(crate) fn names_link_timer(line: &[u8]) -> bool
    ensures { result ≡ names_link_timer (words line.now) }
{
    match first_word(line) {
        Some((name, _)) => link_timer_named(name).is_some(),
        None => false,
    }
}

/// Returns the timer of the fields, if it is not among the given ones.
pub(crate) fn link_timer_of(given: &GivenLinkTimers, line: &[u8]) -> Result<GivenLinkTimer, Reason>
    ensures { result ≡ link_timer given.now (words line.now) }
{
    let (name, frames) = two_words(line).ok_or(Reason::Word)?;
    let name = link_timer_named(name).ok_or(Reason::Word)?;
    if given.frames(name).is_some() {
        return Err(Reason::Word);
    }
    let frames = numeral_of(frames).ok_or(Reason::Number)?;
    if frames == 0 {
        return Err(Reason::Number);
    }
    Ok(GivenLinkTimer { name, frames })
}

/// Returns whether the first field is a line with a data link.
pub(crate) fn names_linked(external: u8, linked: &LineList, line: &[u8]) -> bool
    ensures { result ≡ names_linked external linked.now (words line.now) }
{
    let Some((word, _)) = first_word(line) else {
        return false;
    };
    match line_of_word(external, word) {
        Some(line) => linked.contains(line),
        None => false,
    }
}

/// Returns whether a line with this first octet may concern a data link.
#[inline(always)]
pub(crate) fn is_link_octet(octet: u8) -> bool
    ensures { result ≡ is_link_octet octet }
{
    octet == b' '
        || octet == b'L'
        || octet == b'M'
        || octet == b'd'
        || octet == b'l'
        || octet == b't'
        || octet == b'u'
}

/// Returns the kind of a line with this first field.
pub(crate) fn link_kind_of(word: &[u8]) -> LinkKind
    ensures { result ≡ link_kind_of word.now }
{
    if word == b"L".as_slice() {
        LinkKind::Received
    } else if word == b"link".as_slice() {
        LinkKind::Link
    } else if word == b"timer".as_slice() {
        LinkKind::Timer
    } else if word == b"M".as_slice() {
        LinkKind::Direct
    } else if word == b"up".as_slice() {
        LinkKind::Direct
    } else if word == b"down".as_slice() {
        LinkKind::Direct
    } else {
        LinkKind::Other
    }
}

// The fields of each kind of line, with their checks.
ghost use Rattle.std.specs.Prelude.{◌≡◌, ◌<◌, ◌∷◌, [], IsTrue, length, MatchResult, IfOk, Ok, Err};
ghost use Rattle.number_plan.specs.Plan.{is_number};
ghost use Rattle.trace_text.specs.TraceWords.{words};
ghost use Rattle.trace_text.specs.TraceLines.{with_part, with_line, with_lines, frame, message, nail, seat, free, only_line, link_up, link_down, restart, target, number, tone, tone_named, timer, alone, kind_of, Gives};
ghost use Rattle.trace_text.specs.TraceTimers.{timer_named};

use crate::cut::{
    digits_and_target, first_word, halves_at, numeral_of, one_or_two_words, two_words,
};
use crate::fault::{LineError, Reason};
use crate::fields::{line_of_word, room_of_word, slot_of_word};
use crate::octets::{message_octets, thirty_octets, tone_octets};
use crate::said::{GivenTone, LineKind, Said};
use crate::timing::{GivenTimer, GivenTimers, TimerName};
use circuit_model::Kind as Tone;
use exchange_events::{Event, Input};
use number_plan::{Digits, LineList, Number, Target, is_number};
use std::alloc::Global;
use tone_rules::Tones;

// Stores the octets of one line of a frame.
fn put_part(given: &mut [Option<[u8; 30]>], word: &[u8]) -> Result<(), Reason>
    requires { length given.old < 256 }
    ensures { MatchResult result (λ _. with_part (length given.old) given.old word.now ≡ Ok given.new)
        (λ why. with_part (length given.old) given.old word.now ≡ Err why) }
{
    let (line, digits) = halves_at(b':', word).ok_or(Reason::Slot)?;
    let line = line_of_word(given.len() as u8, line).ok_or(Reason::Slot)?;
    let place = usize::from(line);
    if given[place].is_some() {
        return Err(Reason::Slot);
    }
    given[place] = Some(thirty_octets(digits)?);
    Ok(())
}

/// Returns the frame of the fields.
pub(crate) fn frame_of(alloc: Global, external: u8, line: &[u8]) -> Result<Event, LineError>
    ensures { Gives result (frame external (words line.now)) }
{
    let mut input = vec![in alloc; None; usize::from(external)]?;
    let mut rest = line;
    while let Some((word, others)) = first_word(rest) {
        put_part(&mut input, word)?;
        rest = others;
    }
    Ok(Event::Frame(Input::of(input)))
}

/// Returns the nailed connection of the fields.
pub(crate) fn nail_of(external: u8, line: &[u8]) -> Result<Event, Reason>
    ensures { result ≡ nail external (words line.now) }
{
    let (one, other) = two_words(line).ok_or(Reason::Word)?;
    let one = slot_of_word(external, one).ok_or(Reason::Slot)?;
    let other = slot_of_word(external, other).ok_or(Reason::Slot)?;
    if one == other {
        return Err(Reason::Slot);
    }
    Ok(Event::Nail(one, other))
}

/// Returns the seat of the fields.
pub(crate) fn seat_of(external: u8, line: &[u8]) -> Result<Event, Reason>
    ensures { result ≡ seat external (words line.now) }
{
    let (one, other) = two_words(line).ok_or(Reason::Word)?;
    let slot = slot_of_word(external, one).ok_or(Reason::Slot)?;
    let room = room_of_word(other).ok_or(Reason::Number)?;
    Ok(Event::Seat(slot, room))
}

/// Returns the release of the field.
pub(crate) fn free_of(external: u8, line: &[u8]) -> Result<Event, Reason>
    ensures { result ≡ free external (words line.now) }
{
    let (word, rest) = first_word(line).ok_or(Reason::Word)?;
    if first_word(rest).is_some() {
        return Err(Reason::Word);
    }
    let slot = slot_of_word(external, word).ok_or(Reason::Slot)?;
    Ok(Event::Free(slot))
}

/// Returns the message of the fields.
pub(crate) fn message_of(alloc: Global, external: u8, line: &[u8]) -> Result<Event, LineError>
    ensures { Gives result (message external (words line.now)) }
{
    let (line, digits) = one_or_two_words(line).ok_or(Reason::Word)?;
    let line = line_of_word(external, line).ok_or(Reason::Slot)?;
    let octets = message_octets(alloc, digits)?;
    Ok(Event::Message(line, octets))
}

/// Returns the line of the only field.
///
/// # Errors
///
/// [`Reason::Word`] if there is not exactly one field, and [`Reason::Slot`] if it is not a line of the exchange.
pub fn only_line(external: u8, line: &[u8]) -> Result<u8, Reason>
    ensures { result ≡ only_line external (words line.now) }
{
    let (word, others) = first_word(line).ok_or(Reason::Word)?;
    if first_word(others).is_some() {
        return Err(Reason::Word);
    }
    line_of_word(external, word).ok_or(Reason::Slot)
}

/// Returns the establishment of the data link of the field's line.
pub(crate) fn link_up_of(external: u8, line: &[u8]) -> Result<Event, Reason>
    ensures { result ≡ link_up external (words line.now) }
{
    Ok(Event::LinkUp(only_line(external, line)?))
}

/// Returns the failure of the data link of the field's line.
pub(crate) fn link_down_of(external: u8, line: &[u8]) -> Result<Event, Reason>
    ensures { result ≡ link_down external (words line.now) }
{
    Ok(Event::LinkDown(only_line(external, line)?))
}

/// Returns the restart of the field's line.
pub(crate) fn restart_of(external: u8, line: &[u8]) -> Result<Event, Reason>
    ensures { result ≡ restart external (words line.now) }
{
    Ok(Event::RestartLine(only_line(external, line)?))
}

// Appends the line of a field to a list.
fn put_line(external: u8, lines: &mut LineList, word: &[u8]) -> Result<(), Reason>
    ensures { MatchResult result (λ _. with_line external lines.old word.now ≡ Ok lines.new)
        (λ why. with_line external lines.old word.now ≡ Err why) }
{
    let line = line_of_word(external, word).ok_or(Reason::Slot)?;
    if lines.contains(line) || lines.is_full() {
        return Err(Reason::Slot);
    }
    lines.push(line);
    Ok(())
}

// Returns the list of the lines of `word` and `others`.
fn lines_of(external: u8, word: &[u8], others: &[u8]) -> Result<LineList, Reason>
    ensures { result ≡ with_lines external [] (word.now ∷ words others.now) }
{
    let mut lines = LineList::new();
    put_line(external, &mut lines, word)?;
    let mut rest = others;
    while let Some((word, others)) = first_word(rest) {
        put_line(external, &mut lines, word)?;
        rest = others;
    }
    Ok(lines)
}

// Returns the target that a number routes to.
fn target_of(external: u8, name: &[u8], word: &[u8], others: &[u8]) -> Result<Target, Reason>
    ensures { result ≡ target external name.now word.now (words others.now) }
{
    if name == b"line".as_slice() {
        let line = line_of_word(external, word).ok_or(Reason::Slot)?;
        Ok(Target::Line(line))
    } else if name == b"room".as_slice() {
        let room = room_of_word(word).ok_or(Reason::Number)?;
        Ok(Target::Room(room))
    } else if name == b"lines".as_slice() {
        Ok(Target::Lines(lines_of(external, word, others)?))
    } else {
        Err(Reason::Word)
    }
}

/// Returns the number of the fields.
pub(crate) fn number_of(external: u8, line: &[u8]) -> Result<Number, Reason>
    ensures gives { result ≡ number external (words line.now) }
    ensures digits { IfOk result (λ n. IsTrue (is_number n.digits)) }
{
    let (digits, name, word, others) = digits_and_target(line).ok_or(Reason::Word)?;
    if !is_number(digits) {
        return Err(Reason::Number);
    }
    let target = target_of(external, name, word, others)?;
    let digits = Digits::from_slice(digits);
    Ok(Number { digits, target })
}

// Returns the tone with this name.
fn tone_named(word: &[u8]) -> Option<Tone>
    ensures { result ≡ tone_named word.now }
{
    if word == b"ringback".as_slice() {
        Some(Tone::Ringback)
    } else if word == b"busy".as_slice() {
        Some(Tone::Busy)
    } else {
        None
    }
}

/// Returns the tone of the fields, if it is not among `tones`.
pub(crate) fn tone_of(alloc: Global, tones: &Tones, line: &[u8]) -> Result<GivenTone, LineError>
    ensures { Gives result (tone tones.now (words line.now)) }
{
    let (name, digits) = two_words(line).ok_or(Reason::Word)?;
    let kind = tone_named(name).ok_or(Reason::Word)?;
    if tones.is_given(kind) {
        return Err(LineError::Refused(Reason::Word));
    }
    let octets = tone_octets(alloc, digits)?;
    Ok(GivenTone { kind, octets })
}

// Returns the timer with this name.
fn timer_named(word: &[u8]) -> Option<TimerName>
    ensures { result ≡ timer_named word.now }
{
    if word == b"T301".as_slice() {
        Some(TimerName::T301)
    } else if word == b"T302".as_slice() {
        Some(TimerName::T302)
    } else if word == b"T303".as_slice() {
        Some(TimerName::T303)
    } else if word == b"T305".as_slice() {
        Some(TimerName::T305)
    } else if word == b"T308".as_slice() {
        Some(TimerName::T308)
    } else if word == b"T309".as_slice() {
        Some(TimerName::T309)
    } else if word == b"T310".as_slice() {
        Some(TimerName::T310)
    } else {
        None
    }
}

/// Returns the timer of the fields, if it is not among the given ones.
pub(crate) fn timer_of(given: &GivenTimers, line: &[u8]) -> Result<GivenTimer, Reason>
    ensures { result ≡ timer given.now (words line.now) }
{
    let (name, frames) = two_words(line).ok_or(Reason::Word)?;
    let name = timer_named(name).ok_or(Reason::Word)?;
    if given.frames(name).is_some() {
        return Err(Reason::Word);
    }
    let frames = numeral_of(frames).ok_or(Reason::Number)?;
    if frames == 0 {
        return Err(Reason::Number);
    }
    Ok(GivenTimer { name, frames })
}

/// Returns `said` for a line without further fields.
pub(crate) fn alone(said: Said, line: &[u8]) -> Result<Said, Reason>
    ensures says { result ≡ alone said (words line.now) }
    ensures suits { IfOk result (λ s. s ≡ said) }
{
    if first_word(line).is_some() {
        return Err(Reason::Word);
    }
    Ok(said)
}

/// Returns the kind of a line with this first field.
pub(crate) fn kind_of(word: &[u8]) -> LineKind
    ensures { result ≡ kind_of word.now }
{
    if word == b"F".as_slice() {
        LineKind::Frame
    } else if word == b"M".as_slice() {
        LineKind::Message
    } else if word == b"sync".as_slice() {
        LineKind::Sync
    } else if word == b"nail".as_slice() {
        LineKind::Nail
    } else if word == b"seat".as_slice() {
        LineKind::Seat
    } else if word == b"free".as_slice() {
        LineKind::Free
    } else if word == b"number".as_slice() {
        LineKind::Number
    } else if word == b"tone".as_slice() {
        LineKind::Tone
    } else if word == b"timer".as_slice() {
        LineKind::Timer
    } else if word == b"up".as_slice() {
        LineKind::LinkUp
    } else if word == b"down".as_slice() {
        LineKind::LinkDown
    } else if word == b"restart".as_slice() {
        LineKind::RestartLine
    } else if word == b"change".as_slice() {
        LineKind::Change
    } else {
        LineKind::Unknown
    }
}

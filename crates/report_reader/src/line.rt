// The parser of a report's line.
ghost use Rattle.std.specs.Prelude.{◌≡◌, ◌≢◌, ◌<◌, ◌++◌, option_map, IfOk, MatchOption};
ghost use Rattle.exchange_events.specs.declared.answer.Answer.{Answer};
ghost use Rattle.report_reader.specs.Reading.{frame_of, is_empty, message_of, moves_at, passing, reading, reply_of, told_of};
ghost use Rattle.report_reader.specs.Spelling.{Spells};

use crate::cut::{behind, pair_at, pair_of, parse_number, spaced_at};
use crate::rows::rows_of;
use crate::signals::signals_at;
use crate::word::{Word, word_at};
use exchange_events::{Answer, Kept, RecordList, Rows};
use std::alloc::{AllocError, Global};

/// The maximum number of events of a trace.
const MAX_EVENTS: u32 = 65_535;

// Returns the numbers of moved live paths, if the line has them, and the octets after them.
fn moves_at(octets: &[u8]) -> Option<(Option<(u32, u32)>, &[u8])>
    ensures { option_map (λ cut. (cut.0, cut.1.now)) result ≡ moves_at octets.now }
{
    let Some(rest) = behind(b" moved", octets) else {
        return Some((None, octets));
    };
    let (both, rest) = pair_at(rest)?;
    Some((Some(both), rest))
}

// Returns the reply after `message`.
fn message_of(alloc: Global, octets: &[u8]) -> Result<Option<Kept>, AllocError>
    ensures { IfOk result (λ reply. reply ≡ message_of octets.now) }
{
    let Some((moved, rest)) = moves_at(octets) else {
        return Ok(None);
    };
    let Some((sends, rest)) = signals_at(alloc, b"", rest)? else {
        return Ok(None);
    };
    if !rest.is_empty() {
        return Ok(None);
    }
    Ok(Some(Kept::Sent {
        sends,
        moved,
        records: RecordList::of(Vec::new(alloc)),
    }))
}

// Returns the reply and the rows after `frame`.
fn frame_of(alloc: Global, octets: &[u8]) -> Result<Option<(Kept, Rows)>, AllocError>
    ensures { IfOk result (λ told. told ≡ frame_of octets.now) }
{
    let Some((number, rest)) = spaced_at(octets) else {
        return Ok(None);
    };
    let Some((sends, rest)) = signals_at(alloc, b" send", rest)? else {
        return Ok(None);
    };
    let Some(rows) = rows_of(alloc, rest)? else {
        return Ok(None);
    };
    let frame = Kept::Frame {
        number,
        sends,
        records: RecordList::of(Vec::new(alloc)),
    };
    Ok(Some((frame, rows)))
}

// Returns a reply without numbers and lists, at the end of a line.
fn at_end(reply: Kept, octets: &[u8]) -> Option<Kept>
    ensures { result ≡ passing (is_empty octets.now) reply }
{
    if octets.is_empty() { Some(reply) } else { None }
}

// Returns the reply after its word, if it is not a frame's.
fn reply_of(alloc: Global, word: Word, octets: &[u8]) -> Result<Option<Kept>, AllocError>
    ensures { IfOk result (λ reply. reply ≡ reply_of word octets.now) }
{
    Ok(match word {
        Word::Granted => pair_of(octets).map(|(a, b)| Kept::Granted(a, b)),
        Word::Busy => at_end(Kept::Busy, octets),
        Word::Seated => pair_of(octets).map(|(a, b)| Kept::Seated(a, b)),
        Word::NoPort => at_end(Kept::NoPort, octets),
        Word::Freed => at_end(Kept::Freed, octets),
        Word::NotNailed => at_end(Kept::NotNailed, octets),
        Word::Message => message_of(alloc, octets)?,
        Word::Frame => None,
    })
}

// Returns a reply, and its rows of octets.
fn told_of(alloc: Global, word: Word, octets: &[u8]) -> Result<Option<(Kept, Rows)>, AllocError>
    ensures { IfOk result (λ told. told ≡ told_of word octets.now) }
{
    if let Word::Frame = word {
        return frame_of(alloc, octets);
    }
    let Some(reply) = reply_of(alloc, word, octets)? else {
        return Ok(None);
    };
    Ok(Some((reply, Rows::of(Vec::new(alloc)))))
}

// Returns the answer that a line encodes.
fn answer_of(alloc: Global, line: &[u8]) -> Result<Option<Answer>, AllocError>
    ensures { IfOk result (λ answer. answer ≡ reading line.now) }
{
    let Some((event, rest)) = parse_number(line) else {
        return Ok(None);
    };
    if event == 0 || event > MAX_EVENTS {
        return Ok(None);
    }
    let Some((word, rest)) = word_at(rest) else {
        return Ok(None);
    };
    let Some((reply, octets)) = told_of(alloc, word, rest)? else {
        return Ok(None);
    };
    Ok(Some(Answer {
        event,
        reply,
        octets,
    }))
}

/// Returns the answer that a report line encodes, given without its line feed. Returns `None` if and only if the line
/// encodes none. The answer is in normal form: it has no records, and only a frame's has octets, up to the last line
/// that is not idle.
///
/// # Errors
///
/// [`AllocError`] if an allocation fails.
pub fn read_report_line(alloc: Global, line: &[u8]) -> Result<Option<Answer>, AllocError>
    ensures spelled { IfOk result (λ found. MatchOption found ((answer : Answer) → Spells line.now answer → ⊥) (λ answer. Spells line.now answer)) }
{
    answer_of(alloc, line)
}

//! The parser of a report, line by line.
ghost use Rattle.std.specs.Prelude.{◌≡◌, ◌<◌, ◌^◌, ◌++◌, ◌∷◌, ◌⊎◌, ℕ, List, codes, length, true, IfOk, IfErr, MatchOption, Err};
ghost use Rattle.exchange_events.specs.declared.answer.Answer.{Answer};
ghost use Rattle.report_reader.specs.declared.report.ReportFault.TheVariants.{Memory, Line};
ghost use Rattle.report_reader.specs.Spelling.{is_unbroken, IsFault, IsFaultyAt, IsReport};

use crate::line::read_report_line;
use exchange_events::Answer;
use memchr::memchr;
use std::alloc::{AllocError, AllocFailed, Global};
use thiserror::Error;

/// The octet that ends a line.
const LINE_FEED: u8 = b'\n';

/// The error for bytes that are not a report.
#[derive(Clone, Copy, Debug, PartialEq, Eq, Error)]
pub enum ReportFault {
    /// An allocation failed.
    #[error("out of memory")]
    Memory,
    /// The line with this number, counted from 1, is the first that encodes no answer or has no line feed.
    #[error("line {0} is not a line of a report")]
    Line(u32),
}

impl From<AllocError> for ReportFault {
    ghost use Rattle.std.specs.Prelude.{◌≡◌};
    ghost use Rattle.report_reader.specs.declared.report.ReportFault.TheVariants.{Memory};

    ghost from_gives = { λ _ e. e ≡ Memory };

    fn from(_error: AllocError) -> ReportFault {
        ReportFault::Memory
    }
}

impl<T: Drop> From<AllocFailed<T>> for ReportFault {
    ghost use Rattle.std.specs.Prelude.{◌≡◌};
    ghost use Rattle.report_reader.specs.declared.report.ReportFault.TheVariants.{Memory};

    ghost from_gives = { λ _ e. e ≡ Memory };

    fn from(_error: AllocFailed<T>) -> ReportFault {
        ReportFault::Memory
    }
}

// Returns the first line, and the octets after its line feed, or `None` without a line feed.
fn first_line(bytes: &[u8]) -> Option<(&[u8], &[u8])>
    ensures { MatchOption result (is_unbroken bytes.now ≡ true)
        (λ cut. (bytes.now ≡ cut.0.now ++ 10 ∷ cut.1.now) × (is_unbroken cut.0.now ≡ true)) }
{
    let end = memchr(LINE_FEED, bytes)?;
    Some((&bytes[..end], &bytes[end + 1..]))
}

// Parses a report line by line.
fn read_lines(alloc: Global, bytes: &[u8]) -> Result<Vec<Answer>, ReportFault>
    requires { length bytes.now < 2 ^ 32 }
    ensures read { IfOk result (λ answers. IsReport bytes.now answers.items) }
    ensures refused { IfErr result (λ e. IsFault bytes.now e) }
{
    let mut answers = Vec::new(alloc);
    let mut rest = bytes;
    while !rest.is_empty() {
        let number = answers.len() as u32 + 1;
        let Some((line, others)) = first_line(rest) else {
            return Err(ReportFault::Line(number));
        };
        let Some(answer) = read_report_line(alloc, line)? else {
            return Err(ReportFault::Line(number));
        };
        answers.push(answer)?;
        rest = others;
    }
    Ok(answers)
}

/// Returns the answers that the lines of a report encode, in order.
///
/// # Errors
///
/// [`ReportFault::Line`] with the number of the first line that encodes no answer or has no line feed, and
/// [`ReportFault::Memory`] if an allocation fails.
pub fn read_report(alloc: Global, bytes: &[u8]) -> Result<Vec<Answer>, ReportFault>
    requires { length bytes.now < 2 ^ 32 }
    // The lines encode these answers.
    ensures read { IfOk result (λ answers. IsReport bytes.now answers.items) }
    // The refused line is the first wrong one.
    ensures refused { (n : ℕ) → result ≡ Err (Line n) → IsFaultyAt bytes.now n }
    // Every report is accepted, unless an allocation fails.
    ensures reads_each { (answers : List Answer) → IsReport bytes.now answers
        → IfOk result (λ read. read.items ≡ answers) × IfErr result (λ e. e ≡ Memory) }
    // All other bytes are refused, unless an allocation fails.
    ensures refuses_each { (n : ℕ) → IsFaultyAt bytes.now n
        → (result ≡ Err (Line n)) ⊎ (result ≡ Err Memory) }
{
    read_lines(alloc, bytes)
}

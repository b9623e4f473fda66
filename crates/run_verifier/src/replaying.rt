//! Verification of a report line by line.
ghost use Rattle.std.specs.Prelude.{[], ℕ, List, IfOk, MatchOption};
ghost use Rattle.exchange_events.specs.Sound.{IsSound};
ghost use Rattle.run_verifier.specs.Replaying.{HasDone};
ghost use Rattle.run_verifier.specs.Verifying.{HasGoneOn, IsBegun, IsRight, IsStuck, IsUnderway};

use crate::replay::line_of;
use crate::turns::Turns;
use crate::verdict::Verdict;
use control_memory::PathMap;
use exchange_events::Trace;
use frame_engine::Engine;
use lone_exchange::LoneExchange;
use report_reader::parse_number;
use std::alloc::AllocError;
use std::thread::Threads;

// Processes the event of the next line of a text, if that event may come next, and returns the text after the line.
// Returns `None` if the line does not belong to such an event. `line` is a buffer for one line.
fn next_line<'r, P: PathMap, R: Threads + Sync>(
    rt: &R,
    trace: &Trace,
    turns: &mut Turns,
    exchange: &mut LoneExchange<P, Engine>,
    line: &mut Vec<u8>,
    text: &'r [u8],
) -> Result<Option<&'r [u8]>, AllocError>
    requires sound { IsSound trace.now }
    requires begun { IsBegun trace.now turns.old exchange.old }
    ensures next { (slots : ℕ) (order : List ℕ) → IsUnderway slots trace.now order turns.old exchange.old
        → IfOk result (λ found. MatchOption found (IsStuck slots trace.now order text.now)
        (λ behind. HasGoneOn slots trace.now order text.now behind.now turns.new exchange.new)) }
{
    let Some((event, _)) = parse_number(text) else {
        return Ok(None);
    };
    if !turns.may_come(trace, event) {
        return Ok(None);
    }
    line_of(rt, trace, exchange, event, line)?;
    let Some(behind) = text.strip_prefix(line.as_slice()) else {
        return Ok(None);
    };
    turns.pass(trace, event);
    Ok(Some(behind))
}

/// Returns the verdict on a report. It processes the events of the trace in the order that the report gives, with an
/// exchange that has processed none. `line` is a buffer for one line.
///
/// # Errors
///
/// [`AllocError`] if the allocation of a line fails.
pub(crate) fn verdict_on<P: PathMap, R: Threads + Sync>(
    rt: &R,
    trace: &Trace,
    exchange: &mut LoneExchange<P, Engine>,
    line: &mut Vec<u8>,
    report: &[u8],
) -> Result<Verdict, AllocError>
    requires sound { IsSound trace.now }
    requires fresh { (slots : ℕ) × HasDone slots trace.now [] exchange.old }
    ensures right { (slots : ℕ) → HasDone slots trace.now [] exchange.old
        → IfOk result (λ verdict. IsRight slots trace.now report.now verdict) }
{
    let mut turns = Turns::new(trace);
    let mut text = report;
    for number in 0..trace.events.as_slice().len() as u32 {
        let Some(behind) = next_line(rt, trace, &mut turns, exchange, line, text)? else {
            return Ok(Verdict::Invalid(number + 1));
        };
        text = behind;
    }
    if text.is_empty() {
        return Ok(Verdict::Valid);
    }
    Ok(Verdict::Invalid(trace.events.as_slice().len() as u32 + 1))
}

//! The verification of a report against the bytes of its trace.
ghost use Rattle.std.specs.Prelude.{◌≡◌, ◌+◌, ◌⊎◌, ℕ, Ok, Err, IfOk};
ghost use Rattle.exchange_events.specs.declared.trace.Trace.{Trace};
ghost use Rattle.exchange_events.specs.Sound.{IsSound};
ghost use Rattle.trace_text.specs.declared.fault.Reason.{Reason};
ghost use Rattle.trace_text.specs.TraceGrammar.{IsTrace, IsRefused};
ghost use Rattle.control_memory.specs.Unused.{IsUnused};
ghost use Rattle.run_verifier.specs.Verdicts.{IsInvalidAt, IsValid};
ghost use Rattle.run_verifier.specs.Verifying.{IsAnswer, IsRight};

use crate::replaying::verdict_on;
use crate::verdict::{Verdict, VerifyFault};
use control_memory::PathMap;
use exchange_events::Trace;
use fabric_map::FabricMap;
use frame_engine::Engine;
use lone_exchange::LoneExchange;
use std::alloc::{AllocError, Global};
use std::thread::Threads;
use strict_map::{STRICT_SLOTS, StrictMap};
use trace_text::read_trace;

/// Verifies a report against its trace, on a fabric of 30 internal slots, or of 59, on which no path ever moves.
///
/// The report is valid if it is the report of a run of all events in some lawful order. Otherwise the verdict gives the
/// first line that is wrong or missing. The lines before it are the report of a lawful prefix of an order, and no such
/// report continues with it. Lines of meters are not part of a report.
///
/// # Errors
///
/// - [`VerifyFault::Trace`] if the bytes are not a trace.
/// - [`VerifyFault::Memory`] if an allocation fails.
pub fn verify<R: Threads + Sync>(
    rt: &R,
    alloc: Global,
    trace: &[u8],
    report: &[u8],
    slots: u8,
) -> Result<Verdict, VerifyFault>
    requires slots { (slots ≡ 30) ⊎ (slots ≡ 59) }
    // The result is correct.
    ensures valid { result ≡ Ok Verdict.Valid
        → (t : Trace) × IsTrace trace.now t × IsValid slots t report.now }
    ensures invalid { (n : ℕ) → result ≡ Ok (Verdict.Invalid n)
        → (t : Trace) × IsTrace trace.now t × IsInvalidAt slots t report.now n }
    ensures refused { (number : ℕ) (why : Reason) →
        result ≡ Err (VerifyFault.Trace number why) → IsRefused trace.now number why }
    // Each correct result is returned, unless an allocation fails.
    ensures finds_valid { (t : Trace) → IsTrace trace.now t → IsValid slots t report.now
        → (result ≡ Ok Verdict.Valid) ⊎ (result ≡ Err VerifyFault.Memory) }
    ensures finds_invalid { (t : Trace) (n : ℕ) → IsTrace trace.now t → IsInvalidAt slots t report.now n
        → (result ≡ Ok (Verdict.Invalid n)) ⊎ (result ≡ Err VerifyFault.Memory) }
    ensures refuses_each { (number : ℕ) (why : Reason) → IsRefused trace.now number why
        → (result ≡ Err (VerifyFault.Trace number why)) ⊎ (result ≡ Err VerifyFault.Memory) }
{
    answer(rt, alloc, trace, report, slots)
}

// The function [`verify`] with one clause.
fn answer<R: Threads + Sync>(
    rt: &R,
    alloc: Global,
    trace: &[u8],
    report: &[u8],
    slots: u8,
) -> Result<Verdict, VerifyFault>
    requires slots { (slots ≡ 30) ⊎ (slots ≡ 59) }
    ensures { IsAnswer slots trace.now report.now result }
{
    let trace = read_trace(alloc, trace)?;
    let verdict = on_fabric(rt, alloc, &trace, report, slots)?;
    Ok(verdict)
}

// Returns the verdict on the report of a trace, on the fabric with this number of internal slots.
fn on_fabric<R: Threads + Sync>(
    rt: &R,
    alloc: Global,
    trace: &Trace,
    report: &[u8],
    slots: u8,
) -> Result<Verdict, AllocError>
    requires sound { IsSound trace.now }
    requires slots { (slots ≡ 30) ⊎ (slots ≡ 59) }
    ensures right { IfOk result (λ verdict. IsRight slots trace.now report.now verdict) }
{
    let lines = trace.external + trace.bridges;
    if slots == STRICT_SLOTS {
        let paths = StrictMap::new(alloc, lines)?;
        on_map(rt, alloc, trace, paths, report)
    } else {
        let paths = FabricMap::new(alloc, lines)?;
        on_map(rt, alloc, trace, paths, report)
    }
}

// Returns the verdict on the report of a trace, with an empty path map.
fn on_map<P: PathMap + Drop, R: Threads + Sync>(
    rt: &R,
    alloc: Global,
    trace: &Trace,
    paths: P,
    report: &[u8],
) -> Result<Verdict, AllocError>
    requires sound { IsSound trace.now }
    requires paths { IsUnused (trace.now.external + trace.now.bridges) (P.width paths) (P.depth paths) (P.layout paths) }
    ensures right { IfOk result (λ verdict. IsRight (P.depth paths) trace.now report.now verdict) }
{
    let mut exchange: LoneExchange<P, Engine> = LoneExchange::new(
        alloc,
        trace.external,
        trace.bridges,
        trace.timers,
        paths,
    )?;
    let mut line = Vec::new(alloc);
    verdict_on(rt, trace, &mut exchange, &mut line, report)
}

// The trace of a seed, parsed from the generated octets.
ghost use Rattle.std.specs.Prelude.{◌≤◌, IfOk};
ghost use Rattle.exchange_events.specs.declared.trace.Trace.{Trace};
ghost use Rattle.trace_text.specs.TraceGrammar.{IsTrace};
ghost use Rattle.generated_trace.specs.Generated.{IsTrafficOf};

use exchange_events::Trace;
use std::alloc::{AllocError, Global};
use trace_text::{TraceFault, read_trace};
use traffic_gen::generate;

/// Returns the trace of a seed with n calls, 1 to 2000. It is parsed from the generated octets, which are never
/// refused.
///
/// # Errors
///
/// [`AllocError`] if an allocation fails.
pub fn generate_trace(alloc: Global, seed: u64, calls: u32) -> Result<Trace, AllocError>
    requires some { 1 ≤ calls }
    requires most { calls ≤ 2000 }
    ensures { IfOk result (λ t. IsTrafficOf seed calls t) }
{
    let octets = generate(alloc, seed, calls)?;
    read_back(alloc, octets.as_slice())
}

// Parses octets that are a trace.
fn read_back(alloc: Global, octets: &[u8]) -> Result<Trace, AllocError>
    requires { (t : Trace) × IsTrace octets.now t }
    ensures { IfOk result (λ t. IsTrace octets.now t) }
{
    match read_trace(alloc, octets) {
        Ok(trace) => Ok(trace),
        Err(TraceFault::Memory) => Err(AllocError),
        Err(TraceFault::Line { .. }) => unreachable!(),
    }
}

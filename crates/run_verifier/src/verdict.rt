//! The verdict on a report.

use std::alloc::AllocError;
use thiserror::Error;
use trace_text::{Reason, TraceFault};

/// The verdict on the report of a trace.
#[derive(Clone, Copy, PartialEq, Eq)]
pub enum Verdict {
    /// The report of all events in a lawful order.
    Valid,
    /// Not such a report. The line with this number, counted from 1, is the first that is wrong or missing.
    Invalid(u32),
}

/// The error of a verification.
#[derive(Clone, Copy, Debug, PartialEq, Eq, Error)]
pub enum VerifyFault {
    /// An allocation failed.
    #[error("out of memory")]
    Memory,
    /// The bytes of the trace are not a trace: the first line that fails, with its first failing check.
    #[error("line {number} of the trace: {reason}")]
    Trace { number: u32, reason: Reason },
}

impl From<TraceFault> for VerifyFault {
    ghost use Rattle.std.specs.Prelude.{◌≡◌};
    ghost use Rattle.run_verifier.specs.Faults.{fault_of};

    ghost from_gives = { λ fault e. e ≡ fault_of fault };

    fn from(fault: TraceFault) -> VerifyFault {
        match fault {
            TraceFault::Memory => VerifyFault::Memory,
            TraceFault::Line { number, reason } => VerifyFault::Trace { number, reason },
        }
    }
}

impl From<AllocError> for VerifyFault {
    ghost use Rattle.std.specs.Prelude.{◌≡◌};
    ghost use Rattle.run_verifier.specs.declared.verdict.VerifyFault.TheVariants.{Memory};

    ghost from_gives = { λ _ e. e ≡ Memory };

    fn from(_error: AllocError) -> VerifyFault {
        VerifyFault::Memory
    }
}

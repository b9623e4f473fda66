//! The errors of reading a trace.
ghost use Rattle.std.specs.Prelude.{◌≡◌};
ghost use Rattle.trace_text.specs.declared.fault.LineError.TheVariants.{Memory, Refused};

use number_plan::PlanFault;
use std::alloc::{AllocError, AllocFailed};
use thiserror::Error;

/// The first check that a line of a trace fails. The checks and their order are defined by this project.
#[derive(Clone, Copy, Debug, PartialEq, Eq, Error)]
pub enum Reason {
    /// The first line that is neither blank nor a comment is not a header, or there is no such line.
    #[error("no header")]
    Header,
    /// A line has an octet that is not printable, an unknown first field, or a wrong number of fields. A number, a tone
    /// or a timer comes after an event. A number has a target other than `line`, `lines` and `room`. A tone or a timer
    /// is unknown or repeated.
    #[error("unknown field, or wrong number of fields")]
    Word,
    /// A field is not a line or slot of the exchange, a frame or a list has a line twice, or a slot is nailed to
    /// itself.
    #[error("not a line or slot of the exchange, or used twice")]
    Slot,
    /// The octets have a digit that is not hexadecimal, or an odd number of digits.
    #[error("octets are not hexadecimal")]
    Hex,
    /// The octets are too few or too many.
    #[error("too few or too many octets")]
    Length,
    /// A subscriber number, a room or a number of frames is not valid.
    #[error("number out of range")]
    Number,
    /// A subscriber number equals an earlier one, is a prefix of it, or has it as a prefix.
    #[error("number equals, begins or continues another")]
    Prefix,
    /// There are too many events, changes of meters, numbers or bytes.
    #[error("too many lines or bytes")]
    Limit,
}

/// The error of reading a trace.
#[derive(Clone, Copy, Debug, PartialEq, Eq, Error)]
pub enum TraceFault {
    /// An allocation failed.
    #[error("out of memory")]
    Memory,
    /// The first line that fails a check, counted from 1, with its first failing check. The number is 0 if there are
    /// too many bytes, and one more than the number of lines if there is no header.
    #[error("line {number}: {reason}")]
    Line { number: u32, reason: Reason },
}

/// The error of reading a line.
#[derive(Clone, Copy, Debug, PartialEq, Eq, Error)]
pub enum LineError {
    /// An allocation failed.
    #[error("out of memory")]
    Memory,
    /// The line fails a check. This is the first one.
    #[error("{0}")]
    Refused(Reason),
}

impl LineError {
    ghost use Rattle.std.specs.Prelude.{◌≡◌};
    ghost use Rattle.trace_text.specs.TraceDraft.{at_line};

    /// Returns the error of a trace with this error at line `number`.
    pub fn at_line(self, number: u32) -> TraceFault
        ensures { result ≡ at_line self number }
    {
        match self {
            LineError::Memory => TraceFault::Memory,
            LineError::Refused(reason) => TraceFault::Line { number, reason },
        }
    }
}

impl From<AllocError> for LineError {
    ghost from_gives = { λ _ e. e ≡ Memory };

    fn from(_error: AllocError) -> LineError {
        LineError::Memory
    }
}

impl<T: Drop> From<AllocFailed<T>> for LineError {
    ghost from_gives = { λ _ e. e ≡ Memory };

    fn from(_error: AllocFailed<T>) -> LineError {
        LineError::Memory
    }
}

impl From<Reason> for LineError {
    ghost from_gives = { λ reason e. e ≡ Refused reason };

    fn from(reason: Reason) -> LineError {
        LineError::Refused(reason)
    }
}

impl From<PlanFault> for LineError {
    ghost use Rattle.trace_text.specs.TraceDraft.{of_plan};

    ghost from_gives = { λ fault e. e ≡ of_plan fault };

    fn from(fault: PlanFault) -> LineError {
        match fault {
            PlanFault::Prefix => LineError::Refused(Reason::Prefix),
            PlanFault::TooMany => LineError::Refused(Reason::Limit),
            PlanFault::Memory => LineError::Memory,
        }
    }
}

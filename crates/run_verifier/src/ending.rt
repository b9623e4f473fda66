//! The endings of a call.
ghost use Rattle.std.specs.Prelude.{◌≡◌};
ghost use Rattle.run_verifier.specs.Statuses.{status_of};

use trace_text::Reason;

/// The cause for which a call of the exchange ended.
#[derive(Clone, Copy)]
pub enum Ending {
    /// The trace was run and its report or its summary was written, or the report that was read is correct for its
    /// trace.
    Completed,
    /// The input is not a trace, or has none.
    Refused {
        /// The number of its first line that fails.
        number: u32,
        /// The first check that fails there.
        reason: Reason,
    },
    /// The arguments are not a command.
    WrongArguments,
    /// A read failed.
    ReadFailed,
    /// A write failed.
    WriteFailed,
    /// An allocation failed.
    OutOfMemory,
    /// The report that was read is not correct for its trace.
    Invalid {
        /// The number of its first line that is wrong or missing.
        number: u32,
    },
}

impl Ending {
    /// Returns the exit status of the ending.
    pub fn status(self) -> u8
        ensures { result ≡ status_of self }
    {
        match self {
            Ending::Completed => 0,
            Ending::Refused { .. } => 1,
            Ending::WrongArguments => 2,
            Ending::ReadFailed => 3,
            Ending::WriteFailed => 4,
            Ending::OutOfMemory => 5,
            Ending::Invalid { .. } => 6,
        }
    }
}

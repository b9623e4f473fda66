//! The endings of a followed input.
ghost use Rattle.std.specs.Prelude.{◌≡◌};
ghost use Rattle.line_wire.specs.Following.{status_of};

/// The cause for which a call ended that processes the lines of an input.
#[derive(Clone, Copy, PartialEq, Eq)]
pub enum Following {
    /// All lines were processed.
    Completed,
    /// A line, or the end of the input, was refused.
    Refused,
    /// A read failed.
    ReadFailed,
    /// A write failed.
    WriteFailed,
    /// An allocation failed.
    OutOfMemory,
}

impl Following {
    /// Returns the exit status of the ending: 0, or 1, 3, 4 and 5 for a refusal, a failed read, a failed write and a
    /// failed allocation.
    pub fn status(self) -> u8
        ensures { result ≡ status_of self }
    {
        match self {
            Following::Completed => 0,
            Following::Refused => 1,
            Following::ReadFailed => 3,
            Following::WriteFailed => 4,
            Following::OutOfMemory => 5,
        }
    }
}

//! The result of a handler that stops.

/// The cause for which a handler of lines stops before the end of its input.
#[derive(Clone, Copy, PartialEq, Eq)]
pub enum Stop {
    /// The line, or the end of the input, is refused.
    Refused,
    /// An allocation failed.
    OutOfMemory,
}

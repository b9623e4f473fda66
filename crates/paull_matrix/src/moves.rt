//! Moves of paths.

/// The move of a path of a row and a column from one slot to another.
#[derive(Clone, Copy, Debug, Default, PartialEq, Eq)]
pub struct Move {
    /// The row of the path.
    pub row: u8,
    /// Its column.
    pub column: u8,
    /// The slot before the move.
    pub old: u8,
    /// The slot after the move.
    pub new: u8,
}

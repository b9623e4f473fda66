//! The knowledge of a lock seat. No value of these types is made: a clause reads an array in them as a list, of any
//! length.

/// The entries of a seat that was joined, under its number.
pub struct JoinedSeat {
    /// The number that the seat had.
    pub number: u64,
    /// Its own entries: its number, and an event.
    pub own: [(u32, u32); 0],
}

/// A lock seat between two calls: a right to process n events, each an entry of one history.
pub struct SeatKnowledge {
    /// 0 for the first seat.
    pub number: u64,
    /// The turns left.
    pub left: u64,
    /// Whether it holds the baton.
    pub baton: bool,
    /// The history that it has seen: the processed events in order, each with the seat that processed it.
    pub seen: [(u32, u32); 0],
    /// Its own entries of that history.
    pub own: [(u32, u32); 0],
    /// The number of seats that seat 0 has made.
    pub made: u64,
    /// The entries of each seat that seat 0 has joined.
    pub kept: [JoinedSeat; 0],
}

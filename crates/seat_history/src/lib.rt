//! The definitions of lock seats: a history of the events that seats processed, and the knowledge of each seat about
//! it.
//!
//! The crate has only definitions, in `specs/`. The turn lock and every switchboard use them, so that a guarantee of
//! the one is a guarantee of the other: a seat that makes another, a step, a seat that is joined ([`SeatKnowledge`]),
//! and the knowledge of seat 0, which adds up (`Settled`).
//!
//! - The knowledge of the seat with which a history begins adds up ([`law_of_first_seat`]).
#![tactic(auto)]

mod laws;
mod seat_knowledge;

pub use laws::law_of_first_seat;
pub use seat_knowledge::{JoinedSeat, SeatKnowledge};

//! Counts in frames the timers of calls at the network side of an interface (ITU-T Q.931 (05/98), 9.1, table 9-1).
//!
//! - [`due`] returns the act of a leg's timer, if and only if the timer of its state has expired, for all frame
//!   numbers.
//! - [`next_due_frame`] returns a frame before which nothing is due.
//! - [`Timers::usual`] returns the values for a trace that gives none.
//! - In the states without a timer nothing is ever due ([`law_of_untimed_states`]).
//!
//! Nothing here allocates.
#![tactic(auto)]

mod expiry;
mod laws;
mod timers;

pub use expiry::{Expiry, due, next_due_frame};
pub use laws::{law_of_untimed_states, worked_expiries, worked_waits};
pub use timers::Timers;

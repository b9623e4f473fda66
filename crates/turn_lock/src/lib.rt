//! A ticket lock over a state that many threads step in turn. The state keeps a journal of all steps. A lock seat, here
//! only seat, is a thread's right to steps.
//!
//! - The reply of each step is the reply of the state at the whole history before it, whichever seats made that history
//!   (`reply`, `begins`, `place` of [`TurnLock::step`]).
//! - A seat can keep its turn for several steps. No other seat steps in between (`kept`).
//! - The own entries of a seat are those with its number (`own`), and the holder of the baton had seen every reserved
//!   entry (`reserved`).
//! - The view of seat 0 accounts for the whole history (`settled` of [`TurnLock::step`] and [`Seat::join`]).
//! - The journal of the state that [`TurnLock::close`] returns is the whole history (`journal`).
//! - Some seat can always go, in the order of the tickets ([`law_of_waiting`]). No clause guarantees that it does.
//!
//! The module [`moves`] lists the moves of each call, and `specs/Rule.antt` the rule that holds between any two.
#![tactic(auto)]

pub mod board;
mod laws;
mod lock;
pub mod moves;
mod plays;
mod stepper;

pub use laws::law_of_waiting;
pub use lock::{Seat, TurnLock};
pub use stepper::Stepper;

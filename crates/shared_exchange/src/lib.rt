//! The exchange without its octets, shared by many callers.
//!
//! A core processes the events of a trace in sequence. Here it is in a turn lock, so the call processors and the frame
//! worker process their events in threads. The worker that has the turn processes one or more events. The others wait.
//!
//! - [`SharedExchange`] is a `Switchboard`, whose clause `done` is `HasTakenTurn`. The reply of `handle` is the
//!   exchange's after the whole history before it, whichever seats made that history (`reply`). The control memory of a
//!   frame shows that state (`shows`). The seat with the baton had seen every frame of the history (`frames`).
//! - A seat can keep its turn, and then no other seat processes an event in between (`kept`).
//! - If all other seats are joined, seat 0 knows after each step that no other seat stepped in between (`settled`,
//!   `alone`).
//! - `close` returns the core, with the whole history as its journal (`journal`).
//!
//! No contract guarantees that a waiting caller gets its turn.
#![tactic(auto)]

mod shared;
mod stepper;

pub use shared::{Seat, SharedExchange};

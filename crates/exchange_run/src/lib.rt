//! The side of the whole exchange that runs a trace, from arguments and trace bytes to report bytes. `exchange_top` has
//! its guarantees in words.
//!
//! - [`exchange`] executes the command of the arguments: `run`, `gen` or `check`. Its clause `ends` has one definition
//!   for each ending (`HasEnded`).
//! - On a strict fabric no path ever moves ([`strict_runs_move_nothing`]).
//! - A run without changes of meters has one report, and each meter recorded every call ([`law_of_unchanged_meters`]).
//!
//! The functions that lend boxed meters, to record calls and to change meters, are in this crate and in
//! `exchange_follow`, because no crate lends them to another.
#![tactic(auto)]

mod call;
mod call_context;
mod changing;
mod laws;
mod run;
mod segments;
mod summaries;
mod telling;

pub use call::{Outcome, exchange};
pub use laws::{law_of_unchanged_meters, strict_runs_move_nothing};

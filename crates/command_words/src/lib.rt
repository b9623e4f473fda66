//! The arguments of the command line: the command that they request.
//!
//! - [`parse_command`] returns the command of the arguments (`command`), whose number of calls is in range (`calls`).
//!   It returns the error of wrong arguments if and only if they are not a command (`no_command`), unless an allocation
//!   fails. The arguments are read as clap reads three short grammars: `run` and `check` with at most one flag
//!   `--strict`, and `gen SEED CALLS` ([`laws::worked_runs`], [`laws::worked_checks`], [`laws::worked_generations`]).
//! - [`read_follow`] returns whether the arguments of `follow` have the same flag (`follow`, `no_follow`,
//!   [`laws::worked_follows`]).
//! - The text of a number is its decimal digits and no other ([`laws::law_of_numerals`]), and every seed and number of
//!   calls has a command ([`laws::law_of_asking`]).
#![tactic(auto)]

mod command;
pub mod laws;
mod numerals;
mod readings;

pub use command::{Command, CommandError, parse_command, read_follow};

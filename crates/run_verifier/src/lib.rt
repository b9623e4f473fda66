//! Verifies a report against its trace: whether it is the report of the trace in some lawful order.
//!
//! `specs/Verdicts.antt` defines this. A report is valid if it is the report of all events in a lawful order. Otherwise
//! exactly one of its lines is the first that is wrong or missing.
//!
//! - [`verify`] returns the correct verdict: the report is valid, or a line is the first that is wrong or missing. It
//!   refuses the bytes of the trace if and only if they are not a trace. Any other result is a failed allocation
//!   (`valid`, `invalid`, `refused`, `finds_valid`, `finds_invalid`, `refuses_each`).
//! - The numbers at the start of its lines give the order in which the events of a report were processed: two orders
//!   with one report are equal ([`law_of_orders`]).
//! - Exactly one verdict is correct ([`law_of_verdicts`]). For a trace of n events it names line n + 1 at most
//!   ([`law_of_correct_lines`]).
//! - An event can come next if and only if it has not been processed, and all events that must come before it have been
//!   ([`law_of_turns`]).
//!
//! A lone exchange (`lone_exchange`) with the engine of three stages processes the events again, one by one, in the
//! thread of the caller.
//!
//! - [`check`] reads a trace and a report, divided by a line `report`. It writes `valid`, or the first line of the report
//!   that is wrong or missing, or the refusal of an input without a trace (`ends`). No more of the input is read than the
//!   limit and one piece (`stops`), and no ending hides an error of the source or of the sink (`reads`, `writes`).
//! - An input is divided into a trace and a report in only one way ([`law_of_divisions`]).
//! - An [`Ending`] is the cause for which a call ended, and has an exit status. [`refusal`] returns the line that refuses
//!   an input, and [`say`] writes the line that ends a call.
#![tactic(auto)]

mod checking;
mod ending;
mod laws;
mod refusals;
mod replay;
mod replaying;
mod turns;
mod verdict;
mod verifying;

pub use checking::check;
pub use ending::Ending;
pub use laws::{
    law_of_correct_lines, law_of_divisions, law_of_orders, law_of_turns, law_of_verdicts,
};
pub use refusals::{refusal, say};
pub use verdict::{Verdict, VerifyFault};
pub use verifying::verify;

//! Meters: summaries of the calls of a run.
//!
//! - A [`Meter`] records one call after another. It then represents its list with that call added (`stands`, `text`),
//!   or an allocation failed and it is unchanged (`kept`). `summary` appends its text.
//! - The texts of [`CallDetail`], [`PegCount`] and [`HoldingTime`] are the ones that `specs/` defines for the list
//!   ([`law_of_texts`]). None of them allocates for a call, so none fails (`done`).
//! - [`append_summaries`] appends the texts of several meters in order (`texts`), or leaves the text unchanged
//!   (`kept`). [`append_first_summaries`] does so for the first few of them.
//! - [`replace_first`] removes the first active meter, and activates the first spare one.
//!
//! Meters can be changed during a run. The active meters after each change, the calls that each records and the text
//! that is written are defined here (`specs/Changing.antt`, [`law_of_changes`], [`worked_changes`]).
//!
//! A program can have its own meter: a type that implements [`Meter`], in a box next to these. `calls_to_line` of
//! `text_tests` counts the calls to one line. It has these parts:
//!
//! - An `impl Model` gives the value that contracts see. A meter that allocates omits its memory there, so that a
//!   failed `push` leaves it equal: `keeper` of `text_tests` is seen as the list of its records. A failed `note` leaves
//!   a meter equal, not only with an equal text.
//! - `ghost stands = { λ count calls. IsCountOf calls count };` states the lists of calls that a meter represents.
//! - `ghost text = { to_text_with };` states its text after further calls. The contracts of the two calls below use
//!   `stands` and `text`.
//! - `note` records one more call: `if is_to(self.line, told.called) { self.calls = self.calls.saturating_add(1); }`,
//!   and then `Ok(())`.
//! - `summary` appends the text: `out.extend_from_slice(line.as_bytes())`, where `line` is formatted with the allocator
//!   of `out`.
//!
//! A program passes its meters to `exchange_top::exchange` in `meters`, or in `spare` for a change.
//! `meters.push(Box::new(alloc, CallsToLine::new(12))?)?` adds one after the others. After the call,
//! `append_summaries(&meters, &mut out)` writes the summaries of the active meters. `library_example` is a library with
//! its own meter, and `gated_tests` a program that uses it.
#![tactic(auto)]

mod call_detail;
mod changing;
mod holding_time;
mod laws;
mod meter;
mod peg_count;
mod summaries;
mod texts;

pub use call_detail::CallDetail;
pub use changing::{append_first_summaries, replace_first};
pub use holding_time::HoldingTime;
pub use laws::{law_of_changes, law_of_texts, worked_changes, worked_texts};
pub use meter::Meter;
pub use peg_count::PegCount;
pub use summaries::append_summaries;

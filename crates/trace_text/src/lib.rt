//! The parser of a trace: its lines, their fields, and the values of the fields.
//!
//! The grammar is a relation in `specs/`, separate from the parser.
//!
//! - [`read_trace`] returns a trace if and only if the bytes are one (`read`, `reads_each`). Otherwise it returns the
//!   first line that fails, with its first failing check (`refused`, `refuses_each`).
//! - [`Heading::read_line`] reads one line after the lines before it, within [`Limits`], and returns its [`Happening`]
//!   (`read`, `refused`). If it fails, the heading is unchanged (`kept`). It is the parser of a trace that arrives line
//!   by line, and [`read_trace`] calls it.
//! - A reader of further lines reads their fields by the same functions ([`first_word`], [`line_of_word`],
//!   [`octets_at_most`]), and counts their events in the heading ([`Heading::count_event`]).
//! - All bytes have exactly one reading, a trace or a refusal ([`one_trace_reading`], [`some_trace_reading`]).
//! - Every trace that is read is sound: its lines exist, and its sizes are the sizes of an exchange
//!   ([`traces_are_sound`]).
#![tactic(auto)]

mod cut;
mod draft;
mod fault;
mod fields;
mod heading;
mod laws;
mod limits;
mod line;
mod octets;
mod plain;
mod reader;
mod said;
mod timing;

pub use cut::{first_word, is_text, numeral_of, one_or_two_words, two_words};
pub use fault::{LineError, Reason, TraceFault};
pub use fields::line_of_word;
pub use heading::{Happening, Heading};
pub use laws::{one_trace_reading, some_trace_reading, traces_are_sound};
pub use limits::Limits;
pub use line::only_line;
pub use octets::octets_at_most;
pub use reader::{MAX_BYTES, read_trace};
pub use said::{GivenTone, Said, Sizes};
pub use timing::{GivenTimer, GivenTimers, TimerName};

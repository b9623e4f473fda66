//! The parser of a report: the answers that its lines encode.
//!
//! The printer defines the encoding (`Spells` of `specs/Spelling.antt`): a line encodes the answer in normal form for
//! which it is printed.
//!
//! - [`read_report_line`] returns the answer that a line encodes, and `None` if and only if it encodes none
//!   (`spelled`).
//! - [`read_report`] returns the answers of a report, or the first line that encodes none or has no line feed (`read`,
//!   `refused`, `reads_each`, `refuses_each`).
//! - A line encodes at most one answer ([`one_spelling`]), and has no line feed in it ([`no_line_feed`]). All bytes
//!   have one reading ([`one_report_reading`], [`some_report_reading`]).
#![tactic(auto)]

mod cut;
mod laws;
mod line;
mod report;
mod rows;
mod signals;
mod word;

pub use cut::parse_number;
pub use laws::{no_line_feed, one_report_reading, one_spelling, some_report_reading};
pub use line::read_report_line;
pub use report::{ReportFault, read_report};

//! A list of report lines and call records, one for each processed event.
//!
//! A [`LineSink`] is an `AnswerSink` (of `call_processor`). It formats the line of an event directly from the response
//! and the outbox of the step, and appends it to one text. It copies nothing into an answer, and it allocates only when
//! a buffer grows. It stores the position, the line and the records of each answer (`line_of`). A run of lines moves to
//! another list with one copy of its text, of its records and of its entries.
//!
//! Its type states the contents that it lists ([`ListingKind`]): with [`ReportLines`] it has lines, and with
//! [`NoLines`] it has only records. [`LineSink::text`] returns the text of its lines and [`LineSink::records`] their
//! records (`text`, `records`).
#![tactic(auto)]

mod lines;
mod listing;
mod sink;

pub use lines::{Buffers, Extent, LineEntry, Lines};
pub use listing::{Listing, ListingKind, NoLines, ReportLines};
pub use sink::LineSink;

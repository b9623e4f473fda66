//! The text of a report: a line for each event.
//!
//! [`append_answer`] appends the line of a stored answer (`line`), as `specs/Report.antt` defines it. [`append_line`]
//! appends it from the response and the outbox of a step (`line`). If an allocation fails, the text is unchanged
//! (`kept`).
//!
//! The functions `put_..` append a part of a line. If an allocation fails, the text may have a prefix of the part.
//!
//! `specs/RunReport.antt` defines the report of a whole run: the line of each event of an order, in the exchange state
//! right before it.
#![tactic(auto)]

mod digits;
mod message;
mod report;
mod text;

pub use message::{put_moves, put_on_line};
pub use report::{append_answer, append_line, put_pair, put_parts, put_word};

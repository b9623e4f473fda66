//! Routes digits to a line, a list of lines or a conference room, by a number plan.
//!
//! No number of a plan begins another one. Digits are therefore routed to one number at most, and each digit shows
//! whether the number is complete. The plan is in the order of its digits, so no result depends on the order in which
//! numbers were added, and a lookup is one binary search.
//!
//! - `add` of [`Plan`] refuses a number if and only if it equals, begins or continues a number of the plan (`prefix`),
//!   or the plan has 256 (`too_many`). The plan is then unchanged (`refused`).
//! - `look` returns the line, the list of lines or the room to which the digits are routed (`line`, `lines`, `room`),
//!   `More` if and only if they begin a number of the plan (`more`), and otherwise `Nothing` (`nothing`).
#![tactic(auto)]

mod digits;
mod laws;
mod line_list;
mod plan;
mod target;

pub use digits::{Digits, MAX_DIGITS, is_number};
pub use laws::{law_of_order, law_of_targets};
pub use line_list::{LineList, MAX_LINES};
pub use plan::{MAX_NUMBERS, Number, Plan, PlanFault};
pub use target::{Found, Target};

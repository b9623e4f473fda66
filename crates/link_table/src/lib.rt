//! The data links of the lines of an exchange: a table of the links of `link_procedures`, with the frames of a step.
//!
//! A [`LinkTable`] has a link for each line that has layer 2. A step of it begins with a frame of a line
//! ([`receive`](LinkTable::receive)), with the turn of a link ([`turn`](LinkTable::turn)), or without either
//! ([`begin`](LinkTable::begin)). Then call control submits at most 64 messages ([`submit`](LinkTable::submit)). After
//! the end of the step ([`finish`](LinkTable::finish)), [`frames`](LinkTable::frames) and [`lines`](LinkTable::lines)
//! have the frames to be sent, in the order of transmission.
//!
//! - The table after each call is the table of the definition in `specs/Steps.antt` (`table`), and so is the result.
//!   These are the definitions of `link_procedures`, for the link of one line. The links of all other lines are
//!   unchanged ([`law_of_other_lines`]).
//! - A line without a link speaks no layer 2. A message to it is sent as it is. A frame from it is an error, and no link
//!   changes.
//! - Each link has all facts of a link for any peer (`IsLink`): at most seven messages are sent and not acknowledged, and
//!   at most 64 wait. Each link but the receiving one has sent all that it may (`IsAtRest`), so the end of a step
//!   concerns only that link ([`law_of_rest`]).
//! - A step sends at most ten frames, and one for each submitted message (`few`).
//!
//! The table allocates only when it is made. The work of each call is bounded by a constant.
#![tactic(auto)]

mod laws;
mod links;
mod notice;
mod stepping;
mod table;

pub use laws::{law_of_other_lines, law_of_rest};
pub use notice::{Change, NoLinkError, Notice};
pub use table::{LINES, LinkTable};

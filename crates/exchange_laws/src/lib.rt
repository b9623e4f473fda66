//! Theorems on a whole exchange: its data links, the layout of its paths, and the text of its reports.
//!
//! - [`layers_agree`]: a line is down for call control if and only if its link is not up, unless the link has lost messages
//!   of which call control is not informed yet (`down`). Such a link is not up (`owing`). The release of it comes before an
//!   establishment (`first`).
//! - [`calls_last`]: while the data links of the lines of a call are up, no frame ends the call.
//! - [`in_order_on_a_line`]: the theorem [`in_order_or_told`](link_laws::in_order_or_told) holds of each line of a running
//!   exchange and its user. The messages of call control and of the user are delivered at most once and in order, and only
//!   the last ones before an indication can be lost.
//! - [`sides_are_alike`]: the frames of the two sides of an interface differ in the C/R bit only. So the theorems of
//!   `link_laws`, in which both links are the network side, hold of a network side and a user side.
//! - The layout of the paths is legal, and joins exactly the existing circuits. This holds after every list of events of a
//!   sound trace ([`law_of_layouts`]), and after every list of events that fit an exchange, of whatever length
//!   ([`law_of_reached_layouts`]). It holds after any number of lines that are followed, with or without data links
//!   ([`law_of_followed_layouts`]). A run of `tst follow` never has to end, and has no limit of events.
//! - In a step, the link of a line that the step is not on takes the messages that call control sends to this line, and
//!   nothing else changes it ([`law_of_other_links`]). The events that the frames of the users deliver are a run, so each
//!   theorem on runs holds for them ([`law_of_linked_runs`]).
//! - The octets of a line change only the items of octets in a report. Let two traces differ only in the octets of their
//!   frames. In any one order of their events, their reports differ at most in these items. The item of a line is equal if
//!   the runs agree on the sources of its slots ([`law_of_printed_reports`]).
//! - The text of the story of a run, or of lines that are processed when they arrive, has these lines
//!   ([`law_of_stories`]).
#![tactic(auto)]

mod layout_laws;
mod linked_laws;
mod privacy_laws;
mod report_laws;
mod story_laws;
mod worked;

pub use layout_laws::{law_of_followed_layouts, law_of_layouts, law_of_reached_layouts};
pub use linked_laws::{calls_last, in_order_on_a_line, layers_agree, sides_are_alike};
pub use privacy_laws::{law_of_linked_runs, law_of_other_links};
pub use report_laws::law_of_printed_reports;
pub use story_laws::law_of_stories;
pub use worked::{worked_delivery, worked_items};

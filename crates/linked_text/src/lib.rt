//! The lines of a trace with data links, and their report lines.
//!
//! - [`LinkHeading::read_line`] reads one line after the lines before it, within the limits, and returns its
//!   [`LinkHappening`] (`read`, `refused`). If it fails, the heading is unchanged (`kept`). Lines that concern a data link
//!   are read here: `link`, `L`, and `timer` with T200 or T203. A line with a data link refuses `M`, `up` and `down`.
//!   `trace_text` reads all other lines, among them `restart` of any line.
//! - A trace without data links is read as such ([`law_of_plain_lines`]).
//! - [`append_link_line`] and [`append_message_line`] append the line of a frame that a link received, and the line of a
//!   message or of a restarted line (`line`). If an allocation fails, the text is unchanged (`kept`).
//! - [`put_frame_start`], [`put_turn`] and [`put_frame_end`] append the parts of the line of a frame of the exchange. If
//!   an allocation fails, the text may have a prefix of the part (`front`).
#![tactic(auto)]

mod heading;
mod laws;
mod line;
mod report;
mod said;
mod timing;

pub use heading::LinkHeading;
pub use laws::law_of_plain_lines;
pub use report::{append_link_line, append_message_line, put_frame_end, put_frame_start, put_turn};
pub use said::{LinkHappening, LinkSaid};
pub use timing::{GivenLinkTimer, GivenLinkTimers, LinkTimerName};

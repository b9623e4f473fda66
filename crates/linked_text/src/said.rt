//! The content of a line that concerns a data link, and the effect of a line.
use crate::timing::GivenLinkTimer;
use exchange_events::Octets;
use trace_text::Happening;

/// The kinds of line that concern a data link.
#[derive(Clone, Copy)]
pub enum LinkKind {
    /// A line receives a frame on its data link.
    Received,
    /// A line has a data link.
    Link,
    /// The number of frames of a timer.
    Timer,
    /// A message, or a change of the data link, of a line whose data link is not in this exchange.
    Direct,
    /// Any other line.
    Other,
}

/// The content of a line that concerns a data link.
#[derive(Drop)]
pub enum LinkSaid {
    /// This line has a data link.
    Linked(u8),
    /// This line receives a frame with these octets.
    Received(u8, Octets),
    /// The number of frames of a timer.
    Timed(GivenLinkTimer),
}

/// The effect of a line.
#[derive(Drop)]
pub enum LinkHappening {
    /// The effect of a line of a trace without data links. A line that only sets a link or a timer has none.
    Plain(Happening),
    /// An event: this line receives a frame with these octets on its data link.
    Received(u8, Octets),
}

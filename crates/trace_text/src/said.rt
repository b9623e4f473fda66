//! The content of a line of a trace.
use crate::timing::GivenTimer;
use circuit_model::Kind as Tone;
use exchange_events::Event;
use number_plan::Number;
use tone_rules::ToneOctets;

/// The sizes in the header of a trace.
#[derive(Clone, Copy, Debug)]
pub struct Sizes {
    /// The number of external lines, 1 to 32.
    pub external: u8,
    /// The number of conference bridge lines, 0 to 2.
    pub bridges: u8,
    /// The number of call processors, 1 to 8.
    pub processors: u8,
}

/// The kinds of line after the header.
#[derive(Clone, Copy, Debug)]
pub enum LineKind {
    /// A frame arrives.
    Frame,
    /// A message arrives.
    Message,
    /// The segment ends.
    Sync,
    /// The segment ends, and the meters change.
    Change,
    /// Two slots are connected.
    Nail,
    /// A slot joins a conference room.
    Seat,
    /// The connection or seat of a slot is released.
    Free,
    /// The data link of a line is up.
    LinkUp,
    /// The data link of a line is down.
    LinkDown,
    /// The exchange restarts the interface of a line.
    RestartLine,
    /// A number routes to a line, a list of lines or a conference room.
    Number,
    /// The octets of a tone.
    Tone,
    /// The number of frames of a timer.
    Timer,
    /// The first field is not a kind of line.
    Unknown,
}

/// The content of a line `tone`.
#[derive(Debug, Drop)]
pub struct GivenTone {
    /// The tone.
    pub kind: Tone,
    /// The octets of the tone.
    pub octets: ToneOctets,
}

/// The content of a line of a trace.
#[derive(Debug, Drop)]
pub enum Said {
    /// A blank line or a comment.
    Nothing,
    /// The header.
    Header(Sizes),
    /// A number and its target.
    Numbered(Number),
    /// The octets of a tone.
    Toned(GivenTone),
    /// The number of frames of a timer.
    Timed(GivenTimer),
    /// An event.
    Happens(Event),
    /// The end of the segment.
    Sync,
    /// The end of the segment and a change of meters.
    Change,
}

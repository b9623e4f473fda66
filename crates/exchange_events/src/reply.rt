//! The reply to an event, by value.
use crate::record::Records;
use crate::signal::Signals;

/// The reply of the exchange to an event.
#[derive(Debug, Drop)]
pub enum Reply {
    /// The slots of a nail are connected. The numbers are the live paths of the fabric that moved for each of the two
    /// directions.
    Granted(u32, u32),
    /// A slot of a nail or of a seat is not idle, and nothing has changed.
    Busy,
    /// The slot of a seat is in its room. The numbers are the live paths of the fabric that moved for the path to its
    /// conference port, and for the one back.
    Seated(u32, u32),
    /// The slot of a seat is idle, but every conference port is taken, and nothing has changed.
    NoPort,
    /// The slot is free, and so is the one it was connected to.
    Freed,
    /// The slot has no nail and no seat, or the leg of a call holds it, and nothing has changed.
    NotNailed,
    /// The effects of a message, or of a data link's change.
    Sent {
        /// The messages that were sent, in order.
        sends: Signals,
        /// The numbers of live paths that moved for the path there and for the one back, if the message made a
        /// connection or joined a room.
        moved: Option<(u32, u32)>,
        /// The records of the calls that the event began to clear, in order.
        records: Records,
    },
    /// The boundary of a frame.
    Frame {
        /// The number of the frame.
        number: u32,
        /// The messages that were sent, in order.
        sends: Signals,
        /// The records of the calls that ended, in order.
        records: Records,
    },
}

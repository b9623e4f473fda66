//! Circuits: the slots that they connect, their first frames, and the kinds of tones.

use crate::channel::Slot;

/// The octet that an idle bearer channel sends: the A-law character of the value +1, with its even
/// bits inverted (ITU-T G.711, table 1a: the lowest positive interval).
pub const IDLE: u8 = 0xD5;

/// The tones that a call puts on a bearer channel (ITU-T Q.35 names them; their octets are given
/// with each trace).
#[derive(Clone, Copy, Debug, PartialEq, Eq)]
pub enum Kind {
    /// Ringing tone: the called party is being alerted.
    Ringback,
    /// Busy tone: the called party cannot be reached.
    Busy,
}

/// A circuit of the exchange: one direction of a connection, a conference member, or a tone.
///
/// `since` is the number of the first frame that the circuit exists in.
#[derive(Clone, Copy, Debug, PartialEq, Eq)]
pub enum Circuit {
    /// `to` receives the octets of `from`. A two-way connection is two of these.
    Pair { from: Slot, to: Slot, since: u32 },
    /// `at` is a member of the conference room `room`.
    Member { room: u8, at: Slot, since: u32 },
    /// `to` receives a tone.
    Tone { kind: Kind, to: Slot, since: u32 },
}

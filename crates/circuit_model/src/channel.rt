//! Bearer channels: a slot of the exchange, and the channel numbers of a primary rate line.

ghost use Rattle.std.specs.Prelude.{◌≡◌, ◌<◌, ◌+◌, ◌*◌};
ghost use Rattle.circuit_model.specs.Channels.{place_of, channel_at};

/// The number of bearer channels of a primary rate line: time slots 1 to 15 and 17 to 31 of its 32. Slot 0 carries
/// framing and slot 16 the D channel (ITU-T G.704, section 2.3; Q.931 numbers the channels by their time slot).
pub const CHANNELS_PER_LINE: u8 = 30;

/// A bearer channel of the exchange: a line, and the place of the channel among the 30 of the line.
///
/// Places count from 0 to 29, so that a frame of a line is a row of 30 octets.
#[derive(Clone, Copy, Debug, PartialEq, Eq)]
pub struct Slot {
    /// The line, counted from 0. External lines come first, bridge lines after them.
    pub line: u8,
    /// The place of the bearer channel on its line, 0 to 29.
    pub place: u8,
}

impl Slot {
    /// Returns the index of the slot among the slots of all lines: 30 places to a line, line after line.
    pub fn to_index(self) -> usize
        ensures { result ≡ 30 * self.line + self.place }
    {
        usize::from(CHANNELS_PER_LINE) * usize::from(self.line) + usize::from(self.place)
    }
}

/// Returns the place of the bearer channel with the given time slot number.
///
/// Returns `None` if and only if the number carries no bearer: 0 (framing), 16 (D channel), and from 32 on.
pub fn slot_of_channel(channel: u8) -> Option<u8>
    ensures { result ≡ place_of channel }
{
    match channel {
        1..=15 => Some(channel - 1),
        17..=31 => Some(channel - 2),
        _ => None,
    }
}

/// Returns the time slot number of the bearer channel at a place of a line.
pub fn channel_of(place: u8) -> u8
    requires { place < 30 }
    ensures { result ≡ channel_at place }
{
    if place < 15 { place + 1 } else { place + 2 }
}

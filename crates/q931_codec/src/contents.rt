//! The causes, call states, channels and restarts of a received message. Their meaning is here because several crates
//! use it.

use crate::codes::{CALL_STATE, CAUSE, CHANNEL_IDENTIFICATION, RESTART_INDICATOR};
use crate::message::Message;

/// The channel that a channel identification (Q.931, 4.5.13) of a primary rate interface requests. Its channels are 1
/// to 15 and 17 to 31.
#[derive(Clone, Copy, Debug, PartialEq, Eq)]
pub enum ChannelIdentification {
    /// Any channel.
    Any,
    /// This channel if it is idle, otherwise another.
    Preferred(u8),
    /// This channel and no other.
    Exclusive(u8),
    /// A form that this exchange does not read.
    Invalid,
}

impl<'a> Message<'a> {
    ghost use Rattle.std.specs.Prelude.{◌≡◌};
    ghost use Rattle.q931_codec.specs.Contents.{cause_in, call_state_in, channel_in, restart_in};

    /// Returns the cause value (Q.931, 4.5.12) of the first cause. `None` if there is no cause or it has no value.
    /// Octet 3 has the location, octet 3a is there only if the extension bit of octet 3 is 0, and octet 4 has the value
    /// in its low seven bits.
    pub fn cause(&self) -> Option<u8>
        ensures { result ≡ cause_in self.now.elements }
    {
        match self.elements.first(CAUSE)? {
            [0x80..=0xFF, value, ..] => Some(*value % 0x80),
            [0x00..=0x7F, _, value, ..] => Some(*value % 0x80),
            _ => None,
        }
    }

    /// Returns the call state value (4.5.7) of the first call state, the low six bits of its first octet. `None` if
    /// there is no such octet.
    pub fn call_state(&self) -> Option<u8>
        ensures { result ≡ call_state_in self.now.elements }
    {
        match self.elements.first(CALL_STATE)? {
            [state, ..] => Some(*state % 0x40),
            [] => None,
        }
    }

    /// Returns the channel that the first channel identification requests. `None` if there is none.
    pub fn channel(&self) -> Option<ChannelIdentification>
        ensures { result ≡ channel_in self.now.elements }
    {
        Some(channel_of(self.elements.first(CHANNEL_IDENTIFICATION)?))
    }

    /// Returns the first octet of the first restart indicator (4.5.25). `None` if there is none.
    pub fn restart_indicator(&self) -> Option<u8>
        ensures { result ≡ restart_in self.now.elements }
    {
        self.elements.first(RESTART_INDICATOR)?.first().copied()
    }
}

ghost use Rattle.std.specs.Prelude.{◌≡◌};
ghost use Rattle.q931_codec.specs.Contents.{channel_of, is_bearer_channel};

// Returns the channel that the contents request. Octet 3 requests any channel, or one channel of a primary rate
// interface by its number. Octet 3.2 then states that the number is a B-channel's.
fn channel_of(contents: &[u8]) -> ChannelIdentification
    ensures { result ≡ channel_of contents.now }
{
    match contents {
        [0xA3, ..] => ChannelIdentification::Any,
        [octet, 0x83, channel] => one_channel(*octet, *channel % 0x80),
        _ => ChannelIdentification::Invalid,
    }
}

ghost use Rattle.q931_codec.specs.Contents.{one_channel};

fn one_channel(octet: u8, channel: u8) -> ChannelIdentification
    ensures { result ≡ one_channel octet channel }
{
    match octet {
        0xA9 if is_bearer_channel(channel) => ChannelIdentification::Exclusive(channel),
        0xA1 if is_bearer_channel(channel) => ChannelIdentification::Preferred(channel),
        _ => ChannelIdentification::Invalid,
    }
}

fn is_bearer_channel(channel: u8) -> bool
    ensures { result ≡ is_bearer_channel channel }
{
    0 < channel && channel < 32 && channel != 16
}

//! The classes of restart: the octets of a restart indicator (Q.931, 4.5.25), each with the top bit set and the class
//! in the low three.

/// The channels in the channel identification of the message.
pub const INDICATED_CHANNELS: u8 = 0x80;

/// All channels of the interface whose D-channel carries the message.
pub const SINGLE_INTERFACE: u8 = 0x86;

/// All channels of all interfaces that the D-channel controls.
pub const ALL_INTERFACES: u8 = 0x87;

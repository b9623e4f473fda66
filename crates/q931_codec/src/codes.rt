//! Octets that Q.931 gives a meaning: the first two of a message, and the identifiers of information
//! elements (table 4-3).

/// Octet 1 of a message: the protocol discriminator of user-network call control (4.2).
pub const PROTOCOL_DISCRIMINATOR: u8 = 0x08;

/// Octet 2 of a message: the length of a call reference of two octets (4.3).
pub const REFERENCE_LENGTH: u8 = 0x02;

/// Bearer capability (4.5.5).
pub const BEARER_CAPABILITY: u8 = 0x04;

/// Cause (4.5.12).
pub const CAUSE: u8 = 0x08;

/// Call state (4.5.7).
pub const CALL_STATE: u8 = 0x14;

/// Channel identification (4.5.13).
pub const CHANNEL_IDENTIFICATION: u8 = 0x18;

/// Progress indicator (4.5.23).
pub const PROGRESS_INDICATOR: u8 = 0x1E;

/// Calling party number (4.5.10).
pub const CALLING_PARTY_NUMBER: u8 = 0x6C;

/// Called party number (4.5.8).
pub const CALLED_PARTY_NUMBER: u8 = 0x70;

/// Restart indicator (4.5.25).
pub const RESTART_INDICATOR: u8 = 0x79;

/// Low layer compatibility (4.5.19).
pub const LOW_LAYER_COMPATIBILITY: u8 = 0x7C;

/// High layer compatibility (4.5.17).
pub const HIGH_LAYER_COMPATIBILITY: u8 = 0x7D;

/// Sending complete (4.5.27), a single octet information element.
pub const SENDING_COMPLETE: u8 = 0xA1;

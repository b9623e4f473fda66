//! The states of a call at the network side of an interface (Q.931, 2.1.2), by their call state values (4.5.7): the
//! states of this exchange's legs, and the null state. They are octets, because a STATUS can carry any octet.

/// Null: there is no call.
pub const NULL: u8 = 0;

/// Overlap sending: the caller has not sent the whole number yet.
pub const OVERLAP_SENDING: u8 = 2;

/// Outgoing call proceeding: the caller was informed that the number is complete.
pub const OUTGOING_CALL_PROCEEDING: u8 = 3;

/// Call delivered: the caller was informed that the called user is being alerted.
pub const CALL_DELIVERED: u8 = 4;

/// Call present: the called user was sent a SETUP, and has not replied to it.
pub const CALL_PRESENT: u8 = 6;

/// Call received: the called user is being alerted.
pub const CALL_RECEIVED: u8 = 7;

/// Incoming call proceeding: the called user has all the information to set up the call.
pub const INCOMING_CALL_PROCEEDING: u8 = 9;

/// Active: the call is answered.
pub const ACTIVE: u8 = 10;

/// Disconnect indication: the user was asked to clear the call.
pub const DISCONNECT_INDICATION: u8 = 12;

/// Release request: the user was asked to release the channel and the call reference.
pub const RELEASE_REQUEST: u8 = 19;

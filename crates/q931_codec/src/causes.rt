//! The cause values (Q.931, 4.5.12) that this exchange gives or knows, named as in ITU-T Q.850.

/// Unallocated (unassigned) number.
pub const UNALLOCATED_NUMBER: u8 = 1;

/// Normal call clearing.
pub const NORMAL_CALL_CLEARING: u8 = 16;

/// User busy. The exchange only passes it on from a user, and the other user hears busy tone.
pub const USER_BUSY: u8 = 17;

/// No user responding.
pub const NO_USER_RESPONDING: u8 = 18;

/// No answer from user (user alerted).
pub const NO_ANSWER_FROM_USER: u8 = 19;

/// Destination out of order.
pub const DESTINATION_OUT_OF_ORDER: u8 = 27;

/// Invalid number format (address incomplete).
pub const INVALID_NUMBER_FORMAT: u8 = 28;

/// Response to STATUS ENQUIRY.
pub const RESPONSE_TO_STATUS_ENQUIRY: u8 = 30;

/// Normal, unspecified.
pub const NORMAL_UNSPECIFIED: u8 = 31;

/// No circuit or channel available.
pub const NO_CHANNEL_AVAILABLE: u8 = 34;

/// Temporary failure.
pub const TEMPORARY_FAILURE: u8 = 41;

/// Switching equipment congestion.
pub const SWITCHING_EQUIPMENT_CONGESTION: u8 = 42;

/// Requested circuit or channel not available.
pub const REQUESTED_CHANNEL_NOT_AVAILABLE: u8 = 44;

/// Bearer capability not implemented.
pub const BEARER_CAPABILITY_NOT_IMPLEMENTED: u8 = 65;

/// Invalid call reference value.
pub const INVALID_CALL_REFERENCE: u8 = 81;

/// Mandatory information element is missing.
pub const MANDATORY_ELEMENT_MISSING: u8 = 96;

/// Message type non-existent or not implemented.
pub const MESSAGE_TYPE_NOT_IMPLEMENTED: u8 = 97;

/// Invalid information element contents.
pub const INVALID_ELEMENT_CONTENTS: u8 = 100;

/// Message not compatible with call state.
pub const MESSAGE_NOT_COMPATIBLE_WITH_CALL_STATE: u8 = 101;

/// Recovery on timer expiry.
pub const RECOVERY_ON_TIMER_EXPIRY: u8 = 102;

//! The octets of the address and control fields (Q.921, 3.3 and table 5).

/// TEI 0 with its EA bit, 1.
pub const TEI: u8 = 0x01;

/// RR, receive ready.
pub const RR: u8 = 0x01;

/// RNR, receive not ready.
pub const RNR: u8 = 0x05;

/// REJ, reject.
pub const REJ: u8 = 0x09;

/// SABME, set asynchronous balanced mode extended.
pub const SABME: u8 = 0x6F;

/// DISC, disconnect.
pub const DISC: u8 = 0x43;

/// UA, unnumbered acknowledgement.
pub const UA: u8 = 0x63;

/// DM, disconnected mode.
pub const DM: u8 = 0x0F;

/// FRMR, frame reject.
pub const FRMR: u8 = 0x87;

/// UI, unnumbered information.
pub const UI: u8 = 0x03;

/// XID, exchange identification.
pub const XID: u8 = 0xAF;

//! The frames of a data link.

use crate::information::Information;

/// The side of the interface that sends a frame. It determines the C/R bit (Q.921, 3.3.2).
#[derive(Clone, Copy, Debug, PartialEq, Eq)]
pub enum Sender {
    /// The user.
    User,
    /// The network: this exchange.
    Network,
}

impl Sender {
    ghost use Rattle.std.specs.Prelude.{◌≡◌};
    ghost use Rattle.link_frames.specs.Fields.{address_octet};

    /// Returns the first octet of the address field of a command or a response: SAPI 0, the C/R bit, and the EA bit 0.
    pub fn address(self, command: bool) -> u8
        ensures { result ≡ address_octet self command }
    {
        match (self, command) {
            (Sender::User, true) | (Sender::Network, false) => 0x00,
            (Sender::User, false) | (Sender::Network, true) => 0x02,
        }
    }
}

/// The S frames (Q.921, table 5).
#[derive(Clone, Copy, Debug, PartialEq, Eq)]
pub enum Supervisory {
    /// RR, receive ready (3.6.6).
    Rr,
    /// RNR, receive not ready (3.6.8).
    Rnr,
    /// REJ, reject (3.6.7).
    Rej,
}

/// The control field of a frame (Q.921, 3.4 and table 5), with the information field of an I frame.
#[derive(Clone, Debug, Drop)]
pub enum Control<'a> {
    /// I, information (3.6.2).
    Information {
        /// P, the poll bit (3.5.1).
        poll: bool,
        /// N(S), the send sequence number (3.5.2.4).
        send: u8,
        /// N(R), the receive sequence number (3.5.2.6).
        receive: u8,
        /// The information field: a message of layer 3, at most 260 octets.
        information: Information<'a>,
    },
    /// RR, RNR or REJ.
    Supervisory {
        /// The frame.
        kind: Supervisory,
        /// P/F: the poll bit of a command, the final bit of a response (3.5.1).
        poll_final: bool,
        /// N(R), the receive sequence number (3.5.2.6).
        receive: u8,
    },
    /// SABME, set asynchronous balanced mode extended (3.6.3), with its P bit.
    Sabme(bool),
    /// DISC, disconnect (3.6.4), with its P bit.
    Disc(bool),
    /// UA, unnumbered acknowledgement (3.6.9), with its F bit.
    Ua(bool),
    /// DM, disconnected mode (3.6.10), with its F bit.
    Dm(bool),
    /// FRMR, frame reject (3.6.11). Its information field is not read.
    Frmr,
    /// UI, unnumbered information (3.6.5). Its information field is not read.
    Ui,
    /// XID, exchange identification (3.6.12). Its information field is not read.
    Xid,
    /// A frame with the frame rejection condition (5.8.5): an undefined control field, a wrong length, a command sent
    /// as a response, or a response sent as a command.
    Invalid,
}

/// A frame of a link with SAPI 0 and TEI 0.
#[derive(Clone, Debug, Drop)]
pub struct Frame<'a> {
    /// Whether the frame is a command: the C/R bit, read for its sender (Q.921, 3.3.2).
    pub command: bool,
    /// The control field.
    pub control: Control<'a>,
}

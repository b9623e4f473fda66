//! The message types and their octets.

/// A message type (Q.931, 4.4), named as in table 4-2. Each variant names the section that describes
/// the message.
#[derive(Clone, Copy, Debug, PartialEq, Eq)]
pub enum MessageKind {
    /// ALERTING (3.1.1): the called user is being alerted.
    Alerting,
    /// CALL PROCEEDING (3.1.2): call establishment has begun.
    CallProceeding,
    /// PROGRESS (3.1.8).
    Progress,
    /// SETUP (3.1.14): requests a call.
    Setup,
    /// CONNECT (3.1.3): the called user has accepted the call.
    Connect,
    /// SETUP ACKNOWLEDGE (3.1.15).
    SetupAcknowledge,
    /// CONNECT ACKNOWLEDGE (3.1.4).
    ConnectAcknowledge,
    /// USER INFORMATION (3.3.13).
    UserInformation,
    /// DISCONNECT (3.1.5): requests that the call be cleared.
    Disconnect,
    /// RESTART (3.4.1): requests that a channel or an interface be made idle.
    Restart,
    /// RELEASE (3.1.9): the sender has released the channel and is to release the call reference.
    Release,
    /// RESTART ACKNOWLEDGE (3.4.2).
    RestartAcknowledge,
    /// RELEASE COMPLETE (3.1.10): the sender has released the channel and the call reference.
    ReleaseComplete,
    /// FACILITY, which Q.932 describes.
    Facility,
    /// NOTIFY (3.1.7).
    Notify,
    /// STATUS ENQUIRY (3.1.17): requests a STATUS.
    StatusEnquiry,
    /// INFORMATION (3.1.6).
    Information,
    /// STATUS (3.1.16): reports the sender's call state.
    Status,
    /// Any other octet. A kind from [`read`](crate::read) is `Unknown` only if it has no name above.
    Unknown(u8),
}

impl From<u8> for MessageKind {
    ghost use Rattle.std.specs.Prelude.{◌≡◌};
    ghost use Rattle.q931_codec.specs.MessageType.{kind_of};

    ghost from_gives = { λ octet kind. kind ≡ kind_of octet };

    fn from(octet: u8) -> MessageKind {
        match octet {
            0x01 => MessageKind::Alerting,
            0x02 => MessageKind::CallProceeding,
            0x03 => MessageKind::Progress,
            0x05 => MessageKind::Setup,
            0x07 => MessageKind::Connect,
            0x0D => MessageKind::SetupAcknowledge,
            0x0F => MessageKind::ConnectAcknowledge,
            0x20 => MessageKind::UserInformation,
            0x45 => MessageKind::Disconnect,
            0x46 => MessageKind::Restart,
            0x4D => MessageKind::Release,
            0x4E => MessageKind::RestartAcknowledge,
            0x5A => MessageKind::ReleaseComplete,
            0x62 => MessageKind::Facility,
            0x6E => MessageKind::Notify,
            0x75 => MessageKind::StatusEnquiry,
            0x7B => MessageKind::Information,
            0x7D => MessageKind::Status,
            other => MessageKind::Unknown(other),
        }
    }
}

impl From<MessageKind> for u8 {
    ghost use Rattle.std.specs.Prelude.{◌≡◌};
    ghost use Rattle.q931_codec.specs.MessageType.{type_of};

    ghost from_gives = { λ kind octet. octet ≡ type_of kind };

    fn from(kind: MessageKind) -> u8 {
        match kind {
            MessageKind::Alerting => 0x01,
            MessageKind::CallProceeding => 0x02,
            MessageKind::Progress => 0x03,
            MessageKind::Setup => 0x05,
            MessageKind::Connect => 0x07,
            MessageKind::SetupAcknowledge => 0x0D,
            MessageKind::ConnectAcknowledge => 0x0F,
            MessageKind::UserInformation => 0x20,
            MessageKind::Disconnect => 0x45,
            MessageKind::Restart => 0x46,
            MessageKind::Release => 0x4D,
            MessageKind::RestartAcknowledge => 0x4E,
            MessageKind::ReleaseComplete => 0x5A,
            MessageKind::Facility => 0x62,
            MessageKind::Notify => 0x6E,
            MessageKind::StatusEnquiry => 0x75,
            MessageKind::Information => 0x7B,
            MessageKind::Status => 0x7D,
            MessageKind::Unknown(octet) => octet,
        }
    }
}

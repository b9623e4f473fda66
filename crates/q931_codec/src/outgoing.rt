//! A message to be sent.

use crate::kind::MessageKind;

/// A message to be sent. An element is written if its field has a value: an empty slice, `None` and `false` leave it
/// out.
#[derive(Clone, Copy, Debug)]
pub struct Outgoing<'a> {
    /// The call reference flag (Q.931, 4.3): true towards the side that chose the value.
    pub flag: bool,
    /// The call reference value (4.3), below 32,768.
    pub reference: u16,
    /// The message type (4.4), not `Unknown`.
    pub kind: MessageKind,
    /// Sending complete (4.5.27).
    pub complete: bool,
    /// The contents of the bearer capability (4.5.5), at most 10 octets.
    pub bearer: &'a [u8],
    /// The cause value (4.5.12), below 128.
    pub cause: Option<u8>,
    /// The call state value (4.5.7), below 64.
    pub state: Option<u8>,
    /// The bearer channel, 1 to 15 or 17 to 31: a channel identification (4.5.13) of that channel only.
    pub channel: Option<u8>,
    /// A progress indicator (4.5.23): in-band information is now available.
    pub progress: bool,
    /// The contents of the calling party number (4.5.10), at most 22 octets.
    pub calling: &'a [u8],
    /// The contents of the called party number (4.5.8), at most 21 octets.
    pub called: &'a [u8],
    /// The octet of the restart indicator (4.5.25).
    pub restart: Option<u8>,
    /// The contents of the low layer compatibility (4.5.19), at most 16 octets.
    pub low: &'a [u8],
    /// The contents of the high layer compatibility (4.5.17), at most 3 octets.
    pub high: &'a [u8],
}

impl<'a> Outgoing<'a> {
    ghost use Rattle.std.specs.Prelude.{◌≡◌};
    ghost use Rattle.q931_codec.specs.Outgoing.{outgoing_of, bare};

    /// Returns a message without elements, to which fields are added, as in `Outgoing { cause: Some(16),
    /// ..Outgoing::new(flag, reference, MessageKind::Release) }`.
    pub fn new(flag: bool, reference: u16, kind: MessageKind) -> Outgoing<'a>
        ensures { outgoing_of result ≡ bare flag reference kind }
    {
        Outgoing {
            flag,
            reference,
            kind,
            complete: false,
            bearer: &[],
            cause: None,
            state: None,
            channel: None,
            progress: false,
            calling: &[],
            called: &[],
            restart: None,
            low: &[],
            high: &[],
        }
    }
}

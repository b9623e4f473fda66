//! A message unit that waits in a link.
ghost use Rattle.std.specs.Prelude.{◌≡◌, ◌≤◌, length};

use arrayvec::ArrayVec;
use link_frames::MAX_MESSAGE_UNIT_LEN;
use std::marker::Model;

/// The message unit of a DL-DATA request (Q.921, section 4): the octets of a message of layer 3, at most 112. A contract
/// views them as a list.
#[derive(Clone, Default, Drop)]
pub struct MessageUnit {
    octets: ArrayVec<u8, MAX_MESSAGE_UNIT_LEN>,
}

impl Model for MessageUnit {
    ghost use Rattle.std.specs.Prelude.{List, ℕ};

    ghost Value = { List ℕ };

    ghost view = { λ m. m.octets.items };
}

impl MessageUnit {
    /// Returns a message unit with a copy of these octets.
    pub fn of(octets: &[u8]) -> MessageUnit
        requires { length octets.now ≤ 112 }
        ensures { result ≡ octets.now }
    {
        let mut copied = MessageUnit {
            octets: ArrayVec::new(),
        };
        if copied.octets.try_extend_from_slice(octets).is_err() {
            unreachable!();
        }
        copied
    }

    /// Returns the octets in order.
    pub fn as_slice(&self) -> &[u8]
        ensures octets { result.now ≡ self.now }
        ensures few { length result.now ≤ 112 }
    {
        self.octets.as_slice()
    }
}

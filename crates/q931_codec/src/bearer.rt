//! The bearer service that a received message requests, and its compatibilities.

use crate::codes::{BEARER_CAPABILITY, HIGH_LAYER_COMPATIBILITY, LOW_LAYER_COMPATIBILITY};
use crate::message::Message;

/// The bearer service that a bearer capability (Q.931, 4.5.5) requests.
#[derive(Clone, Copy, Debug, PartialEq, Eq)]
pub enum BearerCapability {
    /// Speech, 3.1 kHz audio or unrestricted digital information, in circuit mode at 64 kbit/s: a
    /// bearer channel carries it.
    Carried,
    /// Another bearer service.
    NotCarried,
    /// Contents of fewer than 2 octets, or of more than 10.
    Invalid,
}

impl BearerCapability {
    ghost use Rattle.std.specs.Prelude.{◌≡◌};
    ghost use Rattle.q931_codec.specs.Contents.{bearer_of};

    /// Returns the bearer service that the contents of a bearer capability request.
    pub fn from_contents(contents: &[u8]) -> BearerCapability
        ensures { result ≡ bearer_of contents.now }
    {
        if contents.len() < 2 || contents.len() > 10 {
            return BearerCapability::Invalid;
        }
        match contents {
            [0x80 | 0x90 | 0x88, 0x90, ..] => BearerCapability::Carried,
            _ => BearerCapability::NotCarried,
        }
    }
}

impl<'a> Message<'a> {
    ghost use Rattle.std.specs.Prelude.{◌≡◌};
    ghost use Rattle.std.specs.Option.{option_copied};
    ghost use Rattle.q931_codec.specs.Contents.{bearer_in, low_layer_in, high_layer_in};

    /// Returns the contents of the first bearer capability (4.5.5). `None` if there is none.
    pub fn bearer(&self) -> Option<&'a [u8]>
        ensures { option_copied result ≡ bearer_in self.now.elements }
    {
        self.elements.first(BEARER_CAPABILITY)
    }

    /// Returns the contents of the first low layer compatibility (4.5.19) if they have at most 16 octets, otherwise
    /// none.
    pub fn low_layer(&self) -> &'a [u8]
        ensures { result.now ≡ low_layer_in self.now.elements }
    {
        match self.elements.first(LOW_LAYER_COMPATIBILITY) {
            Some(contents) => contents_passed_on(contents, 16),
            None => &[],
        }
    }

    /// Returns the contents of the first high layer compatibility (4.5.17) if they have at most 3 octets, otherwise
    /// none.
    pub fn high_layer(&self) -> &'a [u8]
        ensures { result.now ≡ high_layer_in self.now.elements }
    {
        match self.elements.first(HIGH_LAYER_COMPATIBILITY) {
            Some(contents) => contents_passed_on(contents, 3),
            None => &[],
        }
    }
}

ghost use Rattle.std.specs.Prelude.{◌≡◌};
ghost use Rattle.q931_codec.specs.Contents.{contents_passed_on};

// Returns the contents that pass unchanged to the called user, if they are not too long.
pub(crate) fn contents_passed_on(contents: &[u8], most: usize) -> &[u8]
    ensures { result.now ≡ contents_passed_on most contents.now }
{
    if contents.len() <= most {
        contents
    } else {
        &[]
    }
}

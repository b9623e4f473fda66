//! The information field of a frame.

use std::marker::Model;

/// The information field of an I frame (Q.921, 2.5). A contract views it as the list of its octets.
#[derive(Clone, Debug, Drop)]
pub struct Information<'a> {
    octets: &'a [u8],
}

impl<'a> Model for Information<'a> {
    ghost use Rattle.std.specs.Prelude.{ℕ, List};

    ghost Value = { List ℕ };

    ghost view = { λ i. i.octets.now };
}

impl<'a> Information<'a> {
    ghost use Rattle.std.specs.Prelude.{◌≡◌};

    /// Returns an information field of these octets, without a copy.
    pub fn of(octets: &'a [u8]) -> Information<'a>
        ensures { result ≡ octets.entry.now }
    {
        Information { octets }
    }

    /// Returns the octets.
    pub fn octets(&self) -> &'a [u8]
        ensures { result.now ≡ self.now }
    {
        self.octets
    }
}

//! The stored contents of a call in overlap sending, until the number is complete.
ghost use Rattle.std.specs.Prelude.{◌≡◌, ◌+◌, ◌++◌, ◌≤◌, [], length};

use arrayvec::ArrayVec;
use std::marker::Model;

/// The contents of an information element, of n octets at most. Contracts see their list.
#[derive(Clone, Debug, Default, Drop)]
pub struct Contents<const MAX: usize> {
    octets: ArrayVec<u8, MAX>,
}

impl<const MAX: usize> Model for Contents<MAX> {
    ghost use Rattle.std.specs.Prelude.{List, ℕ};

    ghost Value = { List ℕ };

    ghost view = { λ c. c.octets.items };
}

impl<const MAX: usize> Contents<MAX> {
    /// Copies these octets.
    pub fn of(octets: &[u8]) -> Contents<MAX>
        requires { length octets.now ≤ MAX }
        ensures { result ≡ octets.now }
    {
        let mut contents = Contents {
            octets: ArrayVec::new(),
        };
        contents.extend_from_slice(octets);
        contents
    }

    /// Appends these octets.
    pub fn extend_from_slice(&mut self, octets: &[u8])
        requires { length self.old + length octets.now ≤ MAX }
        ensures { self.new ≡ self.old ++ octets.now }
    {
        match self.octets.try_extend_from_slice(octets) {
            Ok(()) => {}
            Err(_) => unreachable!(),
        }
    }

    /// Returns the octets in the order in which they were received.
    pub fn as_slice(&self) -> &[u8]
        ensures octets { result.now ≡ self.now }
        ensures few { length result.now ≤ MAX }
    {
        self.octets.as_slice()
    }
}

/// The stored contents of a call in overlap sending (Q.931, 5.1.3): the elements of the SETUP that are passed on to the
/// called user, with the number so far. No octets mean no element.
#[derive(Clone, Debug, Default, Drop)]
pub struct Pending {
    /// The bearer capability (4.5.5).
    pub bearer: Contents<10>,
    /// The calling party number (4.5.10).
    pub calling: Contents<22>,
    /// The called party number so far (4.5.8): the octet with the type of number, and the digits.
    pub called: Contents<21>,
    /// The low layer compatibility (4.5.19).
    pub low: Contents<16>,
    /// The high layer compatibility (4.5.17).
    pub high: Contents<3>,
}

//! The octets of a message.
ghost use Rattle.std.specs.Prelude.{◌≡◌, ◌≤◌, length};
ghost use Rattle.std.specs.Slice.Iter.{iter_rest};

use arrayvec::ArrayVec;
use std::marker::Model;
use std::slice;

/// The maximum number of octets of a message that is stored without an allocation. Most messages that clear a call or
/// reply to one are shorter. Source: this project.
pub const INLINE_OCTETS: usize = 16;

/// The octets of a message from the user of a line. Contracts see their list.
#[derive(Debug, Drop)]
pub struct Octets {
    held: OctetStorage,
}

/// The storage of a message's octets: a short message is in the value itself.
#[derive(Debug, Drop)]
pub enum OctetStorage {
    Inline(ArrayVec<u8, INLINE_OCTETS>),
    Heap(Vec<u8>),
}

impl Model for Octets {
    ghost use Rattle.std.specs.Prelude.{List, ℕ};
    ghost use Rattle.exchange_events.specs.OctetStorage.{octets_in};

    ghost Value = { List ℕ };

    ghost view = { λ o. octets_in o.held };
}

impl Octets {
    /// Takes these octets.
    pub fn of(items: Vec<u8>) -> Octets
        ensures { result ≡ items.items }
    {
        Octets {
            held: OctetStorage::Heap(items),
        }
    }

    /// Copies these octets, at most [`INLINE_OCTETS`], without an allocation.
    pub fn from_short_slice(octets: &[u8]) -> Octets
        requires { length octets.now ≤ 16 }
        ensures { result ≡ octets.now }
    {
        let mut items = ArrayVec::new();
        if items.try_extend_from_slice(octets).is_err() {
            unreachable!()
        }
        Octets {
            held: OctetStorage::Inline(items),
        }
    }

    /// Returns the octets in order.
    pub fn as_slice(&self) -> &[u8]
        ensures { result.now ≡ self.now }
    {
        match &self.held {
            OctetStorage::Inline(octets) => octets.as_slice(),
            OctetStorage::Heap(octets) => octets.as_slice(),
        }
    }
}

impl<'a> IntoIterator for &'a Octets {
    type Item = &'a u8;

    type IntoIter = slice::Iter<'a, u8>;

    ghost into_iter_gives = { λ list it. iter_rest it ≡ list.now };

    fn into_iter(self) -> Self::IntoIter {
        self.as_slice().iter()
    }
}

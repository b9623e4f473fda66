//! The information elements of a message, found in sequence.

use crate::front::{Element, Front, look, past};
use std::alloc::AllocError;
use std::marker::Model;

/// The information elements of a message, in the order in which they were received.
///
/// Only codeset 0 is read (Q.931, 4.5.2). A non-locking shift hides the next item, an element or another shift octet
/// (4.5.4). A locking shift hides all that follows (4.5.3). A variable length element is dropped if its length exceeds
/// the remaining octets. Every string of octets has a list, and reading it takes one pass.
///
/// Contracts see an `Elements` as the list of its remaining elements, so that it can be cloned.
#[derive(Debug, Drop)]
pub struct Elements<'a> {
    rest: &'a [u8],
}

impl<'a> Model for Elements<'a> {
    ghost use Rattle.std.specs.Prelude.{List};
    ghost use Rattle.q931_elements.specs.InformationElement.{InformationElement};
    ghost use Rattle.q931_elements.specs.Reading.{elements_of};

    ghost Value = { List InformationElement };

    ghost view = { λ e. elements_of e.rest.now };
}

impl<'a> Elements<'a> {
    ghost use Rattle.std.specs.Prelude.{◌≡◌, ◌≢◌, ◌≤◌, ◌↔◌, All, IsNone, length};
    ghost use Rattle.std.specs.Option.{option_copied};
    ghost use Rattle.q931_elements.specs.Grammar.{IsElementList};
    ghost use Rattle.q931_elements.specs.InformationElement.{first_of};
    ghost use Rattle.q931_elements.specs.Reading.{elements_of};

    /// Returns the elements of the octets after a message's header.
    pub fn new(octets: &'a [u8]) -> Elements<'a>
        ensures grammar { IsElementList octets.entry.now result }
        ensures computed { result ≡ elements_of octets.entry.now }
        ensures few { length result ≤ length octets.entry.now }
    {
        Elements { rest: octets }
    }

    /// Returns the contents of the first remaining element with this identifier. `None` if no element has it. A
    /// repeated element is ignored (5.8.5.2).
    pub fn first(&self, code: u8) -> Option<&'a [u8]>
        ensures first { option_copied result ≡ first_of code self.now }
        ensures none { IsNone result ↔ All (λ e. e.code ≢ code) self.now }
    {
        for element in (Elements { rest: self.rest }) {
            if element.code == code {
                return Some(element.contents);
            }
        }
        None
    }
}

impl<'a> Clone for Elements<'a> {
    ghost use Rattle.std.specs.Prelude.{◌≡◌, ⊤};

    ghost is_clone = { λ s r. r ≡ s };

    ghost is_infallible = { λ _. ⊤ };

    fn clone(&self) -> Result<Elements<'a>, AllocError> {
        Ok(Elements { rest: self.rest })
    }
}

impl<'a> Iterator for Elements<'a> {
    ghost use Rattle.std.specs.Prelude.{length};
    ghost use Rattle.std.specs.Iterator.{YieldsFirstBy, at_most};
    ghost use Rattle.q931_elements.specs.Front.{element_of};

    type Item = Element<'a>;

    ghost next_gives = { YieldsFirstBy element_of (λ e. e) };

    ghost remaining = { λ e. at_most (length e) };

    fn next(&mut self) -> Option<Element<'a>> {
        match next_of(self.rest) {
            Some((element, rest)) => {
                self.rest = rest;
                Some(element)
            }
            None => {
                self.rest = &[];
                None
            }
        }
    }
}

ghost use Rattle.std.specs.Prelude.{◌≡◌, [], ◌∷◌, MatchOption};
ghost use Rattle.q931_elements.specs.Front.{element_of};
ghost use Rattle.q931_elements.specs.Reading.{elements_of};

// Returns the first element, and the octets after it.
fn next_of(octets: &[u8]) -> Option<(Element<'_>, &[u8])>
    ensures { MatchOption result (elements_of octets.now ≡ []) (λ found. elements_of octets.now ≡ element_of found.0 ∷ elements_of found.1.now) }
{
    let mut rest = octets;
    loop {
        match look(rest) {
            Front::Whole(element, after) => return Some((element, after)),
            Front::NonLockingShift(after) => rest = past(after),
            Front::LockingShift => return None,
            Front::Unfinished => return None,
        }
    }
}

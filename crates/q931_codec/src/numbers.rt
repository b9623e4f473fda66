//! The numbers of a received message, and the dialled digits.

use crate::bearer::contents_passed_on;
use crate::codes::{CALLED_PARTY_NUMBER, CALLING_PARTY_NUMBER, SENDING_COMPLETE};
use crate::message::Message;
use arrayvec::ArrayVec;

/// The maximum number of digits of a called party number: it has at most 21 octets, and the first of them is the type
/// of number. Source: this project.
pub const MAX_DIGITS: usize = 20;

impl<'a> Message<'a> {
    ghost use Rattle.std.specs.Prelude.{◌≡◌, ◌≤◌, length};
    ghost use Rattle.std.specs.Option.{option_copied};
    ghost use Rattle.q931_codec.specs.Contents.{called_in, called_received, calling_in, complete_in};

    /// Returns whether the message has a Sending complete (Q.931, 4.5.27): the called number is complete.
    pub fn is_sending_complete(&self) -> bool
        ensures { result ≡ complete_in self.now.elements }
    {
        self.elements.first(SENDING_COMPLETE).is_some()
    }

    /// Returns the contents of the first called party number (4.5.8) as received. `None` if there is none.
    pub fn called_contents(&self) -> Option<&'a [u8]>
        ensures { option_copied result ≡ called_received self.now.elements }
    {
        self.elements.first(CALLED_PARTY_NUMBER)
    }

    /// Returns the contents of the first called party number if they have at most 21 octets, otherwise none.
    pub fn called_number(&self) -> &'a [u8]
        ensures called { result.now ≡ called_in self.now.elements }
        ensures short { length result.now ≤ 21 }
    {
        match self.elements.first(CALLED_PARTY_NUMBER) {
            Some(contents) => contents_passed_on(contents, 21),
            None => &[],
        }
    }

    /// Returns the contents of the first calling party number (4.5.10) if they have at most 22 octets, otherwise none.
    pub fn calling_number(&self) -> &'a [u8]
        ensures { result.now ≡ calling_in self.now.elements }
    {
        match self.elements.first(CALLING_PARTY_NUMBER) {
            Some(contents) => contents_passed_on(contents, 22),
            None => &[],
        }
    }
}

ghost use Rattle.std.specs.Prelude.{◌≡◌, ◌≤◌, length, option_map};
ghost use Rattle.q931_codec.specs.Contents.{dialled_digits, is_called_number};

/// Returns whether a called party number (4.5.8) can have these contents: 1 to 21 octets.
pub fn is_called_number(contents: &[u8]) -> bool
    ensures { result ≡ is_called_number contents.now }
{
    !contents.is_empty() && contents.len() <= 21
}

/// Returns the digits of the contents of a called party number (4.5.8) as IA5 characters: the low seven bits of the
/// octets after the first. `None` if one of them is not a digit 0 to 9.
///
/// The contents have at most 21 octets.
pub fn dialled_digits(contents: &[u8]) -> Option<ArrayVec<u8, MAX_DIGITS>>
    requires { length contents.now ≤ 21 }
    ensures { option_map (λ digits. digits.items) result ≡ dialled_digits contents.now }
{
    match contents {
        [] => Some(ArrayVec::new()),
        [_, octets @ ..] => decimal_digits(octets),
    }
}

ghost use Rattle.q931_codec.specs.Contents.{decimal_digits};

// Returns these IA5 characters without their top bits, if all of them are digits 0 to 9.
fn decimal_digits(octets: &[u8]) -> Option<ArrayVec<u8, MAX_DIGITS>>
    requires { length octets.now ≤ 20 }
    ensures { option_map (λ digits. digits.items) result ≡ decimal_digits octets.now }
{
    let mut digits = ArrayVec::new();
    for octet in octets {
        let digit = *octet % 0x80;
        if !digit.is_ascii_digit() {
            return None;
        }
        digits.push(digit);
    }
    Some(digits)
}

//! The digits of a number, and the comparison of two numbers digit by digit.

use arrayvec::ArrayVec;
use std::cmp::Ordering;
use std::marker::Model;
use std::slice;

/// The maximum number of digits of a number. Source: this project.
pub const MAX_DIGITS: usize = 20;

/// The digits of a number, as IA5 characters (ITU-T Q.931, 4.5.8), the form of a called party number and of a trace. A
/// contract views them as a list.
#[derive(Debug, Drop)]
pub struct Digits {
    octets: ArrayVec<u8, MAX_DIGITS>,
    bounds: Bounds,
}

impl Model for Digits {
    ghost use Rattle.std.specs.Prelude.{ℕ, List};
    ghost use Rattle.number_plan.specs.Bounds.{AreBounds};

    ghost Value = { List ℕ };

    ghost view = { λ d. d.octets.items };

    ghost invariant = { λ d. AreBounds d.octets.items d.bounds };
}

impl Digits {
    ghost use Rattle.std.specs.Prelude.{◌≡◌, ◌≤◌, length};

    /// Returns a copy of these digits.
    pub fn from_slice(digits: &[u8]) -> Digits
        requires { length digits.now ≤ 20 }
        ensures { result ≡ digits.now }
    {
        let mut octets = ArrayVec::new();
        if octets.try_extend_from_slice(digits).is_err() {
            unreachable!();
        }
        let bounds = bounds_of(octets.as_slice());
        Digits { octets, bounds }
    }

    /// Returns the digits in order.
    pub fn as_slice(&self) -> &[u8]
        ensures { result.now ≡ self.now }
    {
        self.octets.as_slice()
    }
}

impl<'a> IntoIterator for &'a Digits {
    ghost use Rattle.std.specs.Prelude.{◌≡◌};
    ghost use Rattle.std.specs.Slice.Iter.{iter_rest};

    type Item = &'a u8;

    type IntoIter = slice::Iter<'a, u8>;

    ghost into_iter_gives = { λ list it. iter_rest it ≡ list.now };

    fn into_iter(self) -> Self::IntoIter {
        self.as_slice().iter()
    }
}

ghost use Rattle.std.specs.Prelude.{◌≡◌, ◌+◌, ◌*◌, ◌^◌, ◌<◌, ◌≤◌, get_or};
ghost use Rattle.std.specs.List.{list_all};
ghost use Rattle.std.specs.Char.{is_ascii_digit};
ghost use Rattle.number_plan.specs.Bounds.{AreBounds, leading};
ghost use Rattle.number_plan.specs.Plan.{is_number, side_by_side};

/// Returns whether these are 1 to 20 digits `0` to `9`, which a number of a plan has.
pub fn is_number(digits: &[u8]) -> bool
    ensures { result ≡ is_number digits.now }
{
    !digits.is_empty() && digits.len() <= MAX_DIGITS && are_decimal(digits)
}

fn are_decimal(digits: &[u8]) -> bool
    ensures { result ≡ list_all is_ascii_digit digits.now }
{
    digits.iter().all(|digit| digit.is_ascii_digit())
}

// The number of octets that are compared as one word.
const LEADING_OCTETS: usize = 8;

// The least and the greatest word of the first octets of the strings that begin with some octets.
#[derive(Clone, Copy, Debug)]
pub(crate) struct Bounds {
    least: u64,
    greatest: u64,
}

// Returns the bounds of the strings that begin with these octets.
pub(crate) fn bounds_of(octets: &[u8]) -> Bounds
    ensures { AreBounds octets.now result }
{
    let mut bounds = Bounds {
        least: 0,
        greatest: 0,
    };
    for place in 0..LEADING_OCTETS {
        bounds = with_octet(bounds, octets, place);
    }
    bounds
}

// Returns the bounds of one octet more than those before this place.
#[inline(always)]
fn with_octet(bounds: Bounds, octets: &[u8], place: usize) -> Bounds
    requires place { place < 8 }
    requires least { bounds.least ≡ leading 0 place octets.now }
    requires greatest { bounds.greatest ≡ leading 255 place octets.now }
    ensures least { result.least ≡ leading 0 (place + 1) octets.now }
    ensures greatest { result.greatest ≡ leading 255 (place + 1) octets.now }
{
    let low = octet_at(octets, place, 0);
    let least = followed_by(bounds.least, low);
    let high = octet_at(octets, place, 255);
    let greatest = followed_by(bounds.greatest, high);
    Bounds { least, greatest }
}

// Returns the number that has one octet more at its end.
#[inline(always)]
fn followed_by(number: u64, octet: u8) -> u64
    requires { number * 256 + 256 ≤ 2 ^ 64 }
    ensures { result ≡ number * 256 + octet }
{
    number * 256 + u64::from(octet)
}

// Returns the octet at a place, or another octet if there is none.
#[inline(always)]
fn octet_at(octets: &[u8], place: usize, other: u8) -> u8
    ensures { result ≡ get_or octets.now place other }
{
    if place < octets.len() {
        octets[place]
    } else {
        other
    }
}

// Compares a number with digits by the first place in which they differ, as `side_by_side` does. Most numbers differ
// from the digits in the first eight octets, so that their words decide.
#[inline(always)]
pub(crate) fn compare(number: &Digits, digits: &[u8], bounds: Bounds) -> Ordering
    requires { AreBounds digits.now bounds }
    ensures { result ≡ side_by_side number.now digits.now }
{
    if number.bounds.greatest < bounds.least {
        return Ordering::Less;
    }
    if bounds.greatest < number.bounds.least {
        return Ordering::Greater;
    }
    let common = number.octets.len().min(digits.len());
    if common <= LEADING_OCTETS {
        return Ordering::Equal;
    }
    side_by_side(number.as_slice(), digits)
}

// Compares two strings of digits by the first place in which they differ. The result is `Equal` if one is a prefix of
// the other.
#[inline(never)]
fn side_by_side(one: &[u8], other: &[u8]) -> Ordering
    ensures { result ≡ side_by_side one.now other.now }
{
    let common = one.len().min(other.len());
    (&one[..common]).cmp(&&other[..common])
}

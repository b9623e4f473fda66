// Octets in hexadecimal digits.
//
// The functions read 32 digits at a time, by vectors. Fewer digits are padded to 32.
ghost use Rattle.std.specs.Prelude.{◌≡◌, ◌++◌, ◌+◌, ◌-◌, ◌%◌, ◌<◌, ◌≤◌, ◌^◌, not, nat_le, ℕ, List, length, take, drop, Some, is_some, option_map, map, replicate, ok_or, IfOk, IfErr, IfSome, OnOk, Ok};
ghost use Rattle.std.specs.List.{list_all};
ghost use Rattle.trace_text.specs.TraceFields.{digit_value, below_sixteen, is_digit, octets_written, thirty, at_most, max_message_len, of_tone};
ghost use Rattle.trace_text.specs.TraceLines.{Fails, Gives};

use crate::fault::{LineError, Reason};
use exchange_events::{INLINE_OCTETS, Octets};
use std::alloc::Global;
use std::simd::prelude::*;
use tone_rules::ToneOctets;

/// The maximum number of octets of a message.
const MAX_MESSAGE_LEN: usize = 260;

/// The maximum number of octets of a tone: 1 second of speech.
const MAX_TONE_LEN: usize = 8000;

// Returns whether an octet is a hexadecimal digit of either case.
fn is_digit(octet: u8) -> bool
    ensures { result ≡ is_digit octet }
{
    // `| 0x20` makes a letter lower-case.
    octet.wrapping_sub(b'0') < 10 || (octet | 0x20).wrapping_sub(b'a') < 6
}

// Returns whether the octets are pairs of hexadecimal digits.
fn are_pairs(digits: &[u8]) -> bool
    ensures { result ≡ is_some (octets_written digits.now) }
{
    digits.len() % 2 == 0 && digits.iter().all(|octet| is_digit(*octet))
}

// Pads at most 32 digits with `0` to 32.
#[inline(always)]
fn wide(digits: &[u8]) -> [u8; 32]
    requires { length digits.now ≤ 32 }
    ensures { result ≡ digits.now ++ replicate (32 - length digits.now) 48 }
{
    let mut text = [b'0'; 32];
    text[..digits.len()].copy_from_slice(digits);
    text
}

// Returns the values of 16 digits. The value for an octet that is not a digit is at least 16.
//
// One sum is the value of `0` to `9`, and wraps at `:`. The other sum is the value of a letter, and stops at 255. Each is
// at least 16 for all other octets, so the lesser sum is the value.
#[inline(always)]
fn digit_values(digits: u8x16) -> u8x16
    ensures { map digit_value digits ≡ map below_sixteen result }
{
    let wrapped = (digits + u8x16::splat(198)).simd_max(u8x16::splat(6));
    let numerals = wrapped + u8x16::splat(10);
    // `& 0xDF` makes a letter upper-case.
    let upper = (digits & u8x16::splat(0xDF)) + u8x16::splat(191);
    let letters = upper.simd_min(u8x16::splat(245)) + u8x16::splat(10);
    numerals.simd_min(letters)
}

// Returns whether all values are below 16, as the value of a digit is.
#[inline(always)]
fn are_values(first: u8x16, second: u8x16) -> bool
    ensures { result ≡ list_all (λ v. not (nat_le 16 v)) (first ++ second) }
{
    let sixteen = u8x16::splat(16);
    (first.simd_ge(sixteen) | second.simd_ge(sixteen)).to_bitmask() == 0
}

// Returns the octets of 32 digits with these values.
#[inline(always)]
fn joined(first: u8x16, second: u8x16) -> u8x16
    ensures { (digits : List ℕ) → map digit_value digits ≡ map Some (first ++ second) → octets_written digits ≡ Some result }
{
    let (high, low) = first.deinterleave(second);
    (high << u8x16::splat(4)) | low
}

// Returns the octets of the 32 digits from one on. `None` if an octet is not a digit.
#[inline(always)]
fn octets_from(digits: &[u8], start: usize) -> Option<[u8; 16]>
    requires { start + 32 ≤ length digits.now }
    ensures { result ≡ octets_written (take 32 (drop start digits.now)) }
{
    let first = digit_values(u8x16::from_slice(&digits[start..]));
    let second = digit_values(u8x16::from_slice(&digits[start + 16..]));
    if !are_values(first, second) {
        return None;
    }
    Some(joined(first, second).to_array())
}

/// Returns the 30 octets of a line of one frame, from 60 hexadecimal digits.
pub(crate) fn thirty_octets(digits: &[u8]) -> Result<[u8; 30], Reason>
    ensures { result ≡ thirty (octets_written digits.now) }
{
    if digits.len() != 60 {
        return Err(if are_pairs(digits) {
            Reason::Length
        } else {
            Reason::Hex
        });
    }
    let Some(first) = octets_from(digits, 0) else {
        return Err(Reason::Hex);
    };
    let Some(last) = octets_from(digits, 28) else {
        return Err(Reason::Hex);
    };
    Ok(thirty_of(u8x16::from_array(first), u8x16::from_array(last)))
}

// Returns the values of the 16 digits from one on, as [`digit_values`] does.
#[inline(always)]
fn values_from(digits: &[u8], start: usize) -> u8x16
    requires { start + 16 ≤ length digits.now }
    ensures { map digit_value (take 16 (drop start digits.now)) ≡ map below_sixteen result }
{
    digit_values(u8x16::from_slice(&digits[start..]))
}

/// Returns the octets of the first 32 and of the last 32 of 60 digits. `None` if an octet is not a digit.
#[inline(always)]
pub(crate) fn halves_of(digits: &[u8; 60]) -> Option<(u8x16, u8x16)>
    ensures { IfSome result (λ halves. thirty (octets_written digits.now) ≡ Ok (take 14 halves.0 ++ halves.1)) }
{
    let one = values_from(digits, 0);
    let two = values_from(digits, 16);
    let three = values_from(digits, 28);
    let four = values_from(digits, 44);
    // One test covers all digits: a lane is below 16 if both of its values are.
    if !are_values(one | two, three | four) {
        return None;
    }
    Some((joined(one, two), joined(three, four)))
}

/// Returns the first 14 octets of `first` and the octets of `last`.
#[inline(always)]
pub(crate) fn thirty_of(first: u8x16, last: u8x16) -> [u8; 30]
    ensures { result ≡ take 14 first ++ last }
{
    let mut octets = [0; 30];
    first.copy_to_slice(&mut octets[..16]);
    last.copy_to_slice(&mut octets[14..]);
    octets
}

// Appends the octets of 32 digits.
#[inline(always)]
fn push_sixteen(octets: &mut Vec<u8>, digits: &[u8]) -> Result<(), LineError>
    requires { length digits.now ≡ 32 }
    ensures read { OnOk result (option_map (λ written. octets.old.items ++ written) (octets_written digits.now) ≡ Some octets.new.items) }
    ensures refused { IfErr result (λ e. Fails e (ok_or (octets_written digits.now) Reason.Hex)) }
{
    let Some(read) = octets_from(digits, 0) else {
        return Err(LineError::Refused(Reason::Hex));
    };
    octets.extend_from_slice(&read)?;
    Ok(())
}

// Appends the octets of at most 32 digits.
#[inline(always)]
fn push_octets(octets: &mut Vec<u8>, digits: &[u8]) -> Result<(), LineError>
    requires { (length digits.now ≤ 32) × (length digits.now % 2 ≡ 0) }
    ensures read { OnOk result (option_map (λ written. octets.old.items ++ written) (octets_written digits.now) ≡ Some octets.new.items) }
    ensures refused { IfErr result (λ e. Fails e (ok_or (octets_written digits.now) Reason.Hex)) }
{
    let text = wide(digits);
    let Some(read) = octets_from(&text, 0) else {
        return Err(LineError::Refused(Reason::Hex));
    };
    octets.extend_from_slice(&read[..digits.len() / 2])?;
    Ok(())
}

// Returns the octets of the digits.
fn octets_read(alloc: Global, digits: &[u8]) -> Result<Vec<u8>, LineError>
    ensures read { IfOk result (λ octets. octets_written digits.now ≡ Some octets.items) }
    ensures refused { IfErr result (λ e. Fails e (ok_or (octets_written digits.now) Reason.Hex)) }
{
    if digits.len() % 2 != 0 {
        return Err(LineError::Refused(Reason::Hex));
    }
    let mut octets = Vec::with_capacity(alloc, digits.len() / 2)?;
    let mut rest = digits;
    while rest.len() > 32 {
        let (front, others) = rest.split_at(32);
        push_sixteen(&mut octets, front)?;
        rest = others;
    }
    push_octets(&mut octets, rest)?;
    Ok(octets)
}

// Returns the octets of the digits, at most `most`.
fn octets_up_to(alloc: Global, most: usize, digits: &[u8]) -> Result<Vec<u8>, LineError>
    requires { most < 2 ^ 32 }
    ensures read { IfOk result (λ octets. at_most most (octets_written digits.now) ≡ Ok octets.items) }
    ensures refused { IfErr result (λ e. Fails e (at_most most (octets_written digits.now))) }
{
    if digits.len() <= 2 * most {
        octets_read(alloc, digits)
    } else if are_pairs(digits) {
        Err(LineError::Refused(Reason::Length))
    } else {
        Err(LineError::Refused(Reason::Hex))
    }
}

// Returns the octets of at most 32 digits. It does not allocate.
#[inline(always)]
fn few_octets(digits: &[u8]) -> Result<Octets, LineError>
    requires { (length digits.now ≤ 32) × (length digits.now % 2 ≡ 0) }
    ensures read { IfOk result (λ octets. octets_written digits.now ≡ Some octets) }
    ensures refused { IfErr result (λ e. Fails e (ok_or (octets_written digits.now) Reason.Hex)) }
{
    let text = wide(digits);
    let Some(read) = octets_from(&text, 0) else {
        return Err(LineError::Refused(Reason::Hex));
    };
    Ok(Octets::from_short_slice(&read[..digits.len() / 2]))
}

/// Returns the octets of hexadecimal digits, at most `most`. Up to 16 octets do not allocate.
///
/// # Errors
///
/// - [`LineError::Refused`] with [`Reason::Hex`] if these are not pairs of hexadecimal digits, and otherwise with
///   [`Reason::Length`] if they are too many.
/// - [`LineError::Memory`] if the allocation fails.
#[inline(always)]
pub fn octets_at_most(alloc: Global, most: usize, digits: &[u8]) -> Result<Octets, LineError>
    requires { (16 ≤ most) × (most < 2 ^ 32) }
    ensures { Gives result (at_most most (octets_written digits.now)) }
{
    if digits.len() <= 2 * INLINE_OCTETS && digits.len() % 2 == 0 {
        return few_octets(digits);
    }
    Ok(Octets::of(octets_up_to(alloc, most, digits)?))
}

/// Returns the octets of a message, at most 260. Up to 16 octets do not allocate.
#[inline(always)]
pub(crate) fn message_octets(alloc: Global, digits: &[u8]) -> Result<Octets, LineError>
    ensures { Gives result (at_most max_message_len (octets_written digits.now)) }
{
    octets_at_most(alloc, MAX_MESSAGE_LEN, digits)
}

/// Returns the octets of a tone, 1 to 8000.
pub(crate) fn tone_octets(alloc: Global, digits: &[u8]) -> Result<ToneOctets, LineError>
    ensures { Gives result (of_tone (octets_written digits.now)) }
{
    let octets = octets_up_to(alloc, MAX_TONE_LEN, digits)?;
    if octets.is_empty() {
        return Err(LineError::Refused(Reason::Length));
    }
    Ok(ToneOctets::of(octets))
}

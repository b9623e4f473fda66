// Lines, fields and decimal numbers, as slices of borrowed octets.
ghost use Rattle.std.specs.Prelude.{◌≡◌, ◌≢◌, ◌<◌, ◌≤◌, ◌∷◌, [], length, slice_index, codes, MatchOption, IfSome, Some, option_map};
ghost use Rattle.std.specs.List.{list_all};
ghost use Rattle.memchr.specs.Find.{IsFirstByte, is_byte};
ghost use Rattle.trace_text.specs.TraceWords.{lines, words, two, one_or_two, three, digits_and_target, cut_at, numeral, is_printable};

use memchr::memchr;
use std::simd::prelude::*;

/// The octet that ends a line.
const LINE_FEED: u8 = b'\n';

/// The octet between fields.
const SPACE: u8 = b' ';

// The octets of `sync`, the first one in the lowest bits.
const SYNC: u32 = 0x636E_7973;

// Returns the place of the first line feed, if it is one of the first 32 octets.
#[inline(always)]
fn near_line_end(bytes: &[u8]) -> Option<usize>
    ensures { IfSome result (λ end. IsFirstByte (is_byte 10) bytes.now (Some end)) }
{
    if bytes.len() < 32 {
        return None;
    }
    let ends = u8x32::from_slice(bytes)
        .simd_eq(u8x32::splat(LINE_FEED))
        .to_bitmask();
    let end = ends.trailing_zeros();
    if end >= 32 {
        return None;
    }
    Some(end as usize)
}

/// Returns the octets after the first line, if that line is `sync` in the common form.
#[inline(always)]
pub(crate) fn behind_sync(bytes: &[u8]) -> Option<&[u8]>
    ensures first { IfSome result (λ others. lines bytes.now ≡ codes "sync" ∷ lines others.now) }
    ensures shorter { IfSome result (λ others. length others.now < length bytes.now) }
{
    let [s, y, n, c, LINE_FEED, others @ ..] = bytes else {
        return None;
    };
    // One comparison tests all four octets.
    if u32::from_le_bytes([*s, *y, *n, *c]) != SYNC {
        return None;
    }
    Some(others)
}

/// Returns the octets after the first line, if that line is a frame without fields in the common form.
#[inline(always)]
pub(crate) fn behind_idle_frame(bytes: &[u8]) -> Option<&[u8]>
    ensures first { IfSome result (λ others. lines bytes.now ≡ codes "F" ∷ lines others.now) }
    ensures shorter { IfSome result (λ others. length others.now < length bytes.now) }
{
    match bytes {
        [b'F', LINE_FEED, others @ ..] => Some(others),
        _ => None,
    }
}

/// Returns the first line without its line feed, and the octets after it.
pub(crate) fn first_line(bytes: &[u8]) -> (&[u8], &[u8])
    requires { 0 < length bytes.now }
    ensures first { lines bytes.now ≡ result.0.now ∷ lines result.1.now }
    ensures shorter { length result.1.now < length bytes.now }
{
    // Most lines are short.
    if let Some(end) = near_line_end(bytes) {
        return (&bytes[..end], &bytes[end + 1..]);
    }
    match memchr(LINE_FEED, bytes) {
        Some(end) => (&bytes[..end], &bytes[end + 1..]),
        None => (bytes, &[]),
    }
}

// Returns a line without the spaces at its start.
fn behind_spaces(line: &[u8]) -> &[u8]
    ensures same { words result.now ≡ words line.now }
    ensures shorter { length result.now ≤ length line.now }
    ensures begins { slice_index result.now 0 ≢ 32 }
{
    let mut rest = line;
    while let [SPACE, others @ ..] = rest {
        rest = others;
    }
    rest
}

/// Returns the first field and the octets after it. `None` if there is no field.
pub fn first_word(line: &[u8]) -> Option<(&[u8], &[u8])>
    ensures { MatchOption result (words line.now ≡ [])
        (λ cut. (words line.now ≡ cut.0.now ∷ words cut.1.now) × (length cut.1.now < length line.now)) }
{
    let rest = behind_spaces(line);
    if rest.is_empty() {
        return None;
    }
    let end = memchr(SPACE, rest).unwrap_or(rest.len());
    Some(rest.split_at(end))
}

/// Returns the two fields. `None` if their number is not 2.
pub fn two_words(line: &[u8]) -> Option<(&[u8], &[u8])>
    ensures { option_map (λ both. (both.0.now, both.1.now)) result ≡ two (words line.now) }
{
    let (one, rest) = first_word(line)?;
    let (other, rest) = first_word(rest)?;
    if first_word(rest).is_some() {
        return None;
    }
    Some((one, other))
}

/// Returns the one or two fields, with an empty second field if there is one. `None` if their number is neither.
pub fn one_or_two_words(line: &[u8]) -> Option<(&[u8], &[u8])>
    ensures { option_map (λ both. (both.0.now, both.1.now)) result ≡ one_or_two (words line.now) }
{
    let (one, rest) = first_word(line)?;
    let Some((other, rest)) = first_word(rest) else {
        return Some((one, &[]));
    };
    if first_word(rest).is_some() {
        return None;
    }
    Some((one, other))
}

/// Returns the three fields. `None` if their number is not 3.
pub(crate) fn three_words(line: &[u8]) -> Option<(&[u8], &[u8], &[u8])>
    ensures { option_map (λ all. (all.0.now, all.1.now, all.2.now)) result ≡ three (words line.now) }
{
    let (one, rest) = first_word(line)?;
    let (other, rest) = first_word(rest)?;
    let (last, rest) = first_word(rest)?;
    if first_word(rest).is_some() {
        return None;
    }
    Some((one, other, last))
}

/// Returns the digits, the kind of target, its first field, and the octets after it. `None` if fields follow and the
/// kind is not `lines`.
pub(crate) fn digits_and_target(line: &[u8]) -> Option<(&[u8], &[u8], &[u8], &[u8])>
    ensures { option_map (λ all. (all.0.now, all.1.now, all.2.now, words all.3.now)) result ≡ digits_and_target (words line.now) }
{
    let (digits, rest) = first_word(line)?;
    let (name, rest) = first_word(rest)?;
    let (word, others) = first_word(rest)?;
    if first_word(others).is_some() && name != b"lines".as_slice() {
        return None;
    }
    Some((digits, name, word, others))
}

/// Returns the octets before and after the first `mark` of a field. `None` if the field has no `mark`.
pub(crate) fn halves_at(mark: u8, word: &[u8]) -> Option<(&[u8], &[u8])>
    ensures { option_map (λ halves. (halves.0.now, halves.1.now)) result ≡ cut_at mark word.now }
{
    let at = word.iter().position(|octet| *octet == mark)?;
    Some((&word[..at], &word[at + 1..]))
}

/// Returns whether all octets of a line are printable.
pub fn is_text(line: &[u8]) -> bool
    ensures { result ≡ list_all is_printable line.now }
{
    // The loop has no early exit, so that it tests several octets at once.
    let mut all = true;
    for octet in line {
        all &= (0x20..=0x7E).contains(octet);
    }
    all
}

/// Returns the value of a field. `None` if the field is not a decimal number of at most 9 digits without a leading
/// zero.
pub fn numeral_of(word: &[u8]) -> Option<u32>
    ensures { result ≡ numeral word.now }
{
    if word.is_empty() || word.len() > 9 || (word.len() > 1 && word[0] == b'0') {
        return None;
    }
    let mut number = 0;
    for digit in word {
        if !digit.is_ascii_digit() {
            return None;
        }
        number = number * 10 + u32::from(*digit - b'0');
    }
    Some(number)
}

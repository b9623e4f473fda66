// Rows of octets, and their hexadecimal digits.
//
// The octets of a line are processed as a row of 32, so that loops of fixed length become vector code.
ghost use Rattle.std.specs.Prelude.{◌≡◌, true, ◌==◌, ◌++◌, ◌-◌, ◌/◌, ◌%◌, ◌<◌, ◌≤◌, ◌+◌, ◌*◌, length, take, drop, map, slice_index, replicate};
ghost use Rattle.std.specs.List.{flat_map, list_all};
ghost use Rattle.std.specs.Simd.Lanes.{Each1};
ghost use Rattle.hex.specs.Hex.{encode_upper, upper_digits};
ghost use Rattle.circuit_model.specs.FrameInput.{idle_octet};

use circuit_model::IDLE;
use std::simd::prelude::*;

// At most 32 octets, and idle octets after them.
fn wide_row(octets: &[u8]) -> [u8; 32]
    requires { length octets.now ≤ 32 }
    ensures { result ≡ octets.now ++ replicate (32 - length octets.now) idle_octet }
{
    let mut row = [IDLE; 32];
    row[..octets.len()].copy_from_slice(octets);
    row
}

// Returns whether all octets of a line are idle. Every octet is tested, sixteen at once, and two of them twice.
#[inline(always)]
pub(crate) fn is_idle(octets: &[u8; 30]) -> bool
    ensures { result ≡ list_all (λ octet. octet == idle_octet) octets.now }
{
    let first = u8x16::from_slice(&octets[..16]).to_array();
    let last = u8x16::from_slice(&octets[14..]).to_array();
    are_sixteen_idle(&first) & are_sixteen_idle(&last)
}

// Returns whether sixteen octets are idle.
#[inline(always)]
fn are_sixteen_idle(octets: &[u8; 16]) -> bool
    ensures { result ≡ list_all (λ octet. octet == idle_octet) octets.now }
{
    let mut all = true;
    for octet in octets {
        all &= *octet == IDLE;
    }
    all
}

// The number of octets that are tested at once: a multiple of 64, and a fifth of the octets of 32 lines. With larger
// pieces, a frame with octets takes longer. With smaller pieces, an idle frame takes longer.
const PIECE: usize = 192;

// Returns whether all octets of all lines are idle. The octets are tested in pieces, up to the first piece that is not
// idle.
fn are_idle(lines: &[[u8; 30]]) -> bool
    ensures { result ≡ list_all (λ octet. octet == idle_octet) (flat_map (λ line. line) lines.now) }
{
    let octets = lines.as_flattened();
    for piece in octets.chunks(PIECE) {
        if !is_piece_idle(piece) {
            return false;
        }
    }
    true
}

// Up to this number of lines, a test of each line takes less time than one of all lines before it.
const FEW_LINES: usize = 8;

// Returns true only if all octets of all lines are idle. The result can be false for a few lines.
pub(crate) fn are_known_idle(lines: &[[u8; 30]]) -> bool
    ensures { result ≡ true → list_all (λ octet. octet == idle_octet) (flat_map (λ line. line) lines.now) ≡ true }
{
    lines.len() > FEW_LINES && are_idle(lines)
}

// Returns whether all octets of a piece are idle. Every octet is tested, many at once.
fn is_piece_idle(octets: &[u8]) -> bool
    ensures { result ≡ list_all (λ octet. octet == idle_octet) octets.now }
{
    let mut all = true;
    for one in octets {
        all &= *one == IDLE;
    }
    all
}

// Writes the digits of a row into a text, two for each octet, after space for the number of a line.
#[inline(always)]
pub(crate) fn put_row_digits(text: &mut [u8; 64], row: &[u8; 30])
    ensures { drop 4 text.new ≡ encode_upper row.now }
{
    put_sixteen(text, 4, &row[..16]);
    put_sixteen(text, 32, &row[14..]);
}

// Writes the digits of 4 to 16 octets into a text. The first octets and the last octets are read at once, and some
// of them in both.
#[inline(always)]
pub(crate) fn put_few_digits(text: &mut [u8], at: usize, octets: &[u8])
    requires octets { (4 ≤ length octets.now) × (length octets.now ≤ 16) }
    requires room { at + 32 ≤ length text.old }
    ensures size { length text.new ≡ length text.old }
    ensures digits { take (at + 2 * length octets.now) text.new ≡ take at text.old ++ encode_upper octets.now }
{
    if octets.len() < 8 {
        let back = octets.len() - 4;
        let digits = digits_of(two_fours(octets)).0;
        digits
            .extract::<0, 8>()
            .copy_to_slice(&mut text[at..at + 8]);
        digits
            .extract::<8, 8>()
            .copy_to_slice(&mut text[at + 2 * back..at + 2 * back + 8]);
    } else {
        let back = octets.len() - 8;
        let (first, last) = digits_of(two_eights(octets));
        first.copy_to_slice(&mut text[at..at + 16]);
        last.copy_to_slice(&mut text[at + 2 * back..at + 2 * back + 16]);
    }
}

// Returns the first 4 octets and the last 4 octets, and 8 unspecified octets.
#[inline(always)]
fn two_fours(octets: &[u8]) -> u8x16
    requires { 4 ≤ length octets.now }
    ensures { take 8 result ≡ take 4 octets.now ++ drop (length octets.now - 4) octets.now }
{
    let first = u8x4::from_slice(octets);
    let last = u8x4::from_slice(&octets[octets.len() - 4..]);
    first.shuffle::<16>(last, [0, 1, 2, 3, 4, 5, 6, 7, 0, 1, 2, 3, 4, 5, 6, 7])
}

// Returns the first 8 octets and the last 8 octets.
#[inline(always)]
fn two_eights(octets: &[u8]) -> u8x16
    requires { 8 ≤ length octets.now }
    ensures { result ≡ take 8 octets.now ++ drop (length octets.now - 8) octets.now }
{
    let first = u8x8::from_slice(octets);
    let last = u8x8::from_slice(&octets[octets.len() - 8..]);
    first.shuffle::<16>(last, [0, 1, 2, 3, 4, 5, 6, 7, 8, 9, 10, 11, 12, 13, 14, 15])
}

// Writes the digits of at most 32 octets into a text. If there are sixteen or more, the first sixteen and the last
// sixteen are read, and some of them in both.
pub(crate) fn put_digits(text: &mut [u8; 86], octets: &[u8])
    requires { length octets.now ≤ 32 }
    ensures { take (2 * length octets.now) (drop 22 text.new) ≡ encode_upper octets.now }
{
    if octets.len() < 16 {
        put_padded_digits(text, octets);
    } else {
        let back = octets.len() - 16;
        put_sixteen(text, 22, &octets[..16]);
        put_sixteen(text, 22 + 2 * back, &octets[back..]);
    }
}

// Writes the digits of at most 32 octets into a text, and digits of idle octets after them.
fn put_padded_digits(text: &mut [u8; 86], octets: &[u8])
    requires { length octets.now ≤ 32 }
    ensures { take (2 * length octets.now) (drop 22 text.new) ≡ encode_upper octets.now }
{
    let row = wide_row(octets);
    put_sixteen(text, 22, &row[..16]);
    put_sixteen(text, 54, &row[16..]);
}

// Writes the digits of sixteen octets into a text.
#[inline(always)]
fn put_sixteen(text: &mut [u8], at: usize, octets: &[u8])
    requires octets { length octets.now ≡ 16 }
    requires room { at + 32 ≤ length text.old }
    ensures size { length text.new ≡ length text.old }
    ensures digits { take (at + 32) text.new ≡ take at text.old ++ encode_upper octets.now }
{
    let (first, second) = digits_of(u8x16::from_slice(octets));
    first.copy_to_slice(&mut text[at..at + 16]);
    second.copy_to_slice(&mut text[at + 16..at + 32]);
}

// Returns the digits of sixteen octets, in two halves.
#[inline(always)]
fn digits_of(octets: u8x16) -> (u8x16, u8x16)
    ensures halves { (length result.0 ≡ 16) × (length result.1 ≡ 16) }
    ensures digits { result.0 ++ result.1 ≡ encode_upper octets }
{
    high_digits(octets).interleave(low_digits(octets))
}

// Returns the first digit of each octet.
#[inline(always)]
fn high_digits(octets: u8x16) -> u8x16
    ensures { result ≡ map (λ octet. slice_index upper_digits (octet / 16)) octets }
{
    byte_shuffle(u8x16::from_array(DIGITS), octets >> u8x16::splat(4))
}

// Returns the second digit of each octet.
#[inline(always)]
fn low_digits(octets: u8x16) -> u8x16
    ensures { result ≡ map (λ octet. slice_index upper_digits (octet % 16)) octets }
{
    byte_shuffle(u8x16::from_array(DIGITS), octets & u8x16::splat(15))
}

// The hexadecimal digits, in upper case.
const DIGITS: [u8; 16] = *b"0123456789ABCDEF";

// Looks sixteen places up in a table at once. A compiler makes one instruction of it.
#[inline(always)]
fn byte_shuffle(table: u8x16, places: u8x16) -> u8x16
    requires { Each1 (λ place. place < 16) places }
    ensures { result ≡ map (λ place. slice_index table place) places }
{
    table.swizzle_dyn_within::<16>(places)
}

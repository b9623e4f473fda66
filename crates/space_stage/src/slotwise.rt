//! The crossing of a frame slot by slot: the octets of all lines in a slot are looked up at once.

ghost use Rattle.std.specs.Prelude.{◌≡◌, ℕ, ◌+◌, ◌*◌, ◌<◌, ◌≤◌, ◌++◌, length, slice_index, take};
ghost use Rattle.frame_buffer.specs.Highways.{IsPart, RowsHold, octet_on};
ghost use Rattle.control_memory.specs.Tables.{HasSize, entry, number_in};
ghost use Rattle.space_stage.specs.Crossing.{gets_by};
ghost use Rattle.space_stage.specs.Turning.{square, octet_at, octet_by, joined, AreNumbers, AreTurnedNumbers, IsSquare};

use crate::turning::{looked_up, turned};
use control_memory::ControlTable;
use frame_buffer::Highway;
use std::simd::prelude::*;

/// The maximum number of lines that are crossed slot by slot: the octets of a slot are in two vectors.
pub(crate) const MAX_TURNED: u8 = 32;

/// From this number of rows that may have a number, crossing slot by slot takes less time than gathering.
pub(crate) const MIN_TURNED: u8 = 16;

// Crosses one frame to all outgoing lines, slot by slot.
pub(crate) fn cross_turned(highway: &Highway, table: &ControlTable, part: &mut [u8])
    requires slots { highway.now.slots ≡ 30 }
    requires lines { highway.now.lines ≤ 32 }
    requires some { 1 ≤ highway.now.lines }
    requires table { HasSize table.now highway.now.lines 30 highway.now.lines }
    requires part { length part.old ≡ highway.now.lines * 30 }
    ensures size { length part.new ≡ length part.old }
    ensures octets { RowsHold 30 (gets_by table.now highway.now) 0 part.new }
{
    let mut octets = [0; 960];
    let mut numbers = [255; 960];
    copy_octets(highway, &mut octets);
    copy_numbers(table, &mut numbers);
    let front_low = slots_from(&octets, 0);
    let front_high = slots_from(&octets, 480);
    let first_front = lines_from(&front_low, &front_high, &numbers, 0);
    let second_front = lines_from(&front_low, &front_high, &numbers, 480);
    let back_low = slots_from(&octets, 14);
    let back_high = slots_from(&octets, 494);
    let first_back = lines_from(&back_low, &back_high, &numbers, 14);
    let second_back = lines_from(&back_low, &back_high, &numbers, 494);
    let (first, second) = part.split_at_mut(first_octets(highway.lines()));
    put_lines(&first_front, &first_back, first);
    put_lines(&second_front, &second_back, second);
}

// Returns the number of octets of the first sixteen lines, or of all lines if they are fewer.
fn first_octets(lines: u8) -> usize
    ensures few { lines ≤ 16 → result ≡ lines * 30 }
    ensures many { 16 ≤ lines → result ≡ 480 }
{
    if lines < 16 {
        usize::from(lines) * 30
    } else {
        480
    }
}

// Copies the octets of up to 32 lines into rows.
fn copy_octets(highway: &Highway, octets: &mut [u8; 960])
    requires slots { highway.now.slots ≡ 30 }
    requires lines { highway.now.lines ≤ 32 }
    ensures { (line slot : ℕ) → line < highway.now.lines → slot < 30 → slice_index octets.new (line * 30 + slot) ≡ octet_on highway.now line slot }
{
    copy_front(&highway.rows_with_idle_first()[30..], octets);
}

// Copies bytes into the first bytes of rows.
fn copy_front(bytes: &[u8], rows: &mut [u8; 960])
    requires { length bytes.now ≤ 960 }
    ensures { (at : ℕ) → at < length bytes.now → slice_index rows.new at ≡ slice_index bytes.now at }
{
    rows[..bytes.len()].copy_from_slice(bytes);
}

// Copies the bytes of a table with up to 32 rows into rows. A byte without a row is 255.
fn copy_numbers(table: &ControlTable, numbers: &mut [u8; 960])
    requires rows { table.now.rows ≤ 32 }
    requires columns { table.now.columns ≡ 30 }
    requires limit { table.now.limit ≤ 32 }
    requires some { 1 ≤ table.now.limit }
    requires empty { (k : ℕ) → k < 960 → slice_index numbers.old k ≡ 255 }
    ensures entries { (line slot : ℕ) → line < table.now.rows → slot < 30 → number_in (slice_index numbers.new (line * 30 + slot)) ≡ entry table.now line slot }
    ensures numbers { AreNumbers table.now.limit numbers.new }
    ensures small { AreNumbers 32 numbers.new }
{
    for line in 0..table.used_rows() {
        let start = usize::from(line) * 30;
        let bytes = table.row(line);
        let row = &mut numbers[start..start + 30];
        copy_row(bytes, row);
    }
}

// Copies a row of 30 bytes.
#[inline(always)]
fn copy_row(row: &[u8], to: &mut [u8])
    requires row { length row.now ≡ 30 }
    requires to { length to.old ≡ 30 }
    ensures size { length to.new ≡ length to.old }
    ensures bytes { (at : ℕ) → at < 30 → slice_index to.new at ≡ slice_index row.now at }
{
    put_line(
        u8x16::from_slice(&row[..16]),
        u8x16::from_slice(&row[14..]),
        to,
    );
}

// Returns the octets of sixteen lines in sixteen slots, slot after slot, from one octet of the first line on.
#[inline(always)]
fn slots_from(octets: &[u8; 960], from: usize) -> [u8x16; 16]
    requires { from + 466 ≤ 960 }
    ensures { result ≡ square (λ slot line. slice_index octets.now (from + line * 30 + slot)) }
{
    turned(block(octets, from))
}

// Returns the octets that sixteen lines get in sixteen slots, line after line, from one number of the first line on.
// The octets of lines 0 to 15 and of lines 16 to 31 are given slot after slot.
fn lines_from(
    low: &[u8x16; 16],
    high: &[u8x16; 16],
    numbers: &[u8; 960],
    from: usize,
) -> [u8x16; 16]
    requires from { from + 466 ≤ 960 }
    requires numbers { AreNumbers 32 numbers.now }
    ensures { result ≡ square (λ line slot. octet_by low.now high.now slot (slice_index numbers.now (from + line * 30 + slot))) }
{
    turned(crossed(low, high, &slots_from(numbers, from)))
}

// Returns the octets that sixteen lines get in sixteen slots, slot after slot. The octets of lines 0 to 15 and 16 to 31
// are given, and the numbers of the lines that are got.
#[inline(always)]
fn crossed(low: &[u8x16; 16], high: &[u8x16; 16], numbers: &[u8x16; 16]) -> [u8x16; 16]
    requires square { IsSquare numbers.now }
    requires numbers { AreTurnedNumbers numbers.now }
    ensures { result ≡ square (λ slot line. octet_by low.now high.now slot (octet_at numbers.now slot line)) }
{
    let mut octets = [u8x16::splat(0); 16];
    for k in 0..16 {
        octets[k] = looked_up(low[k], high[k], numbers[k]);
    }
    octets
}

// Returns sixteen bytes of each of sixteen rows, from one byte of the first row on.
#[inline(always)]
fn block(rows: &[u8], from: usize) -> [u8x16; 16]
    requires { from + 466 ≤ length rows.now }
    ensures { result ≡ square (λ row at. slice_index rows.now (from + row * 30 + at)) }
{
    let mut bytes = [u8x16::splat(0); 16];
    for k in 0..16 {
        bytes[k] = u8x16::from_slice(&rows[from + k * 30..]);
    }
    bytes
}

// Writes the rows of up to sixteen lines: fourteen octets of one row, and sixteen of another.
#[inline(always)]
fn put_lines(front: &[u8x16; 16], back: &[u8x16; 16], part: &mut [u8])
    requires { IsPart 16 30 0 (length part.old) }
    ensures size { length part.new ≡ length part.old }
    ensures octets { RowsHold 30 (joined front.now back.now) 0 part.new }
{
    for k in 0..16 {
        let start = k * 30;
        if start < part.len() {
            let row = &mut part[start..start + 30];
            put_line(front[k], back[k], row);
        }
    }
}

// Writes the row of one line: fourteen octets of one row, and sixteen of another.
#[inline(always)]
fn put_line(front: u8x16, back: u8x16, row: &mut [u8])
    requires { length row.old ≡ 30 }
    ensures size { length row.new ≡ length row.old }
    ensures octets { (at : ℕ) → at < 30 → slice_index row.new at ≡ slice_index (take 14 front ++ back) at }
{
    front.copy_to_slice(&mut row[..16]);
    back.copy_to_slice(&mut row[14..]);
}

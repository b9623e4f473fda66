//! The octets of one line, which a time stage fetches in another order.

ghost use Rattle.std.specs.Prelude.{◌≡◌, ℕ, ◌<◌, ◌≤◌, length, map, slice_index, slice_index_or};
ghost use Rattle.std.specs.Simd.Lanes.{Each1};
ghost use Rattle.circuit_model.specs.FrameInput.{idle_octet};

use circuit_model::IDLE;
use std::marker::Model;
use std::simd::prelude::*;

// The octets of one line, which a time stage reads in the order that a control table gives.
//
// It has an octet for each value of a byte, and the last one is idle. Each byte of a table is therefore the number of
// an octet, with no test, no mask and no bound on the slots. A byte without a place or slot is 255.
#[derive(Drop)]
pub(crate) struct Store {
    octets: [u8; 256],
}

impl Model for Store {
    ghost use Rattle.std.specs.Prelude.{◌≡◌, ℕ, List, length, slice_index};
    ghost use Rattle.circuit_model.specs.FrameInput.{idle_octet};

    ghost Value = { List ℕ };

    ghost view = { λ s. s.octets };

    ghost invariant = { λ s. (length s.octets ≡ 256) × (slice_index s.octets 255 ≡ idle_octet) };
}

impl Store {
    pub(crate) fn new() -> Store {
        Store {
            octets: [IDLE; 256],
        }
    }

    // Copies the octets of a line.
    pub(crate) fn load(&mut self, row: &[u8])
        requires { length row.now ≤ 255 }
        ensures row { (at : ℕ) → at < length row.now → slice_index self.new at ≡ slice_index row.now at }
        ensures idle { slice_index self.new 255 ≡ idle_octet }
    {
        self.octets[..row.len()].copy_from_slice(row);
    }

    // Writes into each entry of a row the octet with the number in the table's byte there.
    pub(crate) fn fetch(&self, table: &[u8], row: &mut [u8])
        requires { length table.now ≡ length row.old }
        ensures size { length row.new ≡ length row.old }
        ensures octets { (at : ℕ) → at < length row.new → slice_index row.new at ≡ slice_index self.now (slice_index table.now at) }
    {
        for (at, octet) in row.iter_mut().enumerate() {
            *octet = self.octets[usize::from(table[at])];
        }
    }
}

// Fetches 30 octets out of 30 by the bytes of a table. A byte without a place or slot is 255, and gives an idle
// octet.
#[inline(always)]
pub(crate) fn fetch_thirty(octets: &[u8], table: &[u8], row: &mut [u8])
    requires octets { length octets.now ≡ 30 }
    requires table { length table.now ≡ 30 }
    requires bytes { (at : ℕ) → at < 30 → 30 ≤ slice_index table.now at → slice_index table.now at ≡ 255 }
    requires row { length row.old ≡ 30 }
    ensures size { length row.new ≡ length row.old }
    ensures octets { (at : ℕ) → at < 30 → slice_index row.new at ≡ slice_index_or octets.now (slice_index table.now at) idle_octet }
{
    let front = fetch_sixteen(octets, u8x16::from_slice(&table[..16]));
    let back = fetch_sixteen(octets, u8x16::from_slice(&table[14..]));
    front.copy_to_slice(&mut row[..16]);
    back.copy_to_slice(&mut row[14..]);
}

// Fetches 16 octets out of 30. The octets are looked up as their difference from an idle octet, in the first
// 16 and in the last 16, and a place that is in neither gives no difference.
#[inline(always)]
fn fetch_sixteen(octets: &[u8], places: u8x16) -> u8x16
    requires octets { length octets.now ≡ 30 }
    requires places { Each1 (λ place. 30 ≤ place → place ≡ 255) places }
    ensures { result ≡ map (λ place. slice_index_or octets.now place idle_octet) places }
{
    let idle = u8x16::splat(IDLE);
    let front = u8x16::from_slice(&octets[..16]) - idle;
    let back = u8x16::from_slice(&octets[14..]) - idle;
    let in_front = ((places + u8x16::splat(112)) | places) & u8x16::splat(0x8F);
    let in_back = places - u8x16::splat(14);
    (byte_shuffle(front, in_front) | byte_shuffle(back, in_back)) + idle
}

// Looks 16 places up in a table at once. A place from 128 on gives 0.
#[inline(always)]
fn byte_shuffle(table: u8x16, places: u8x16) -> u8x16
    requires { Each1 (λ place. 16 ≤ place → 128 ≤ place) places }
    ensures { result ≡ map (λ place. slice_index table place) places }
{
    table.swizzle_dyn_within::<16>(places)
}

//! Blocks of sixteen rows of sixteen octets, which are turned, and octets that are looked up sixteen at once.

ghost use Rattle.std.specs.Prelude.{◌≡◌, ℕ, ◌<◌, ◌≤◌, ◌++◌, length, map, slice_index, slice_index_or};
ghost use Rattle.std.specs.Simd.Lanes.{Each1};
ghost use Rattle.circuit_model.specs.FrameInput.{idle_octet};
ghost use Rattle.space_stage.specs.Turning.{woven, square, octet_at, IsSquare};

use circuit_model::IDLE;
use std::simd::prelude::*;

// Turns sixteen rows of sixteen octets: the octets at a place of all rows become a row.
#[inline(always)]
pub(crate) fn turned(rows: [u8x16; 16]) -> [u8x16; 16]
    requires { IsSquare rows }
    ensures { result ≡ square (λ row at. octet_at rows at row) }
{
    round(round(round(round(rows))))
}

// Interleaves each of the first eight rows with the row eight after it.
#[inline(always)]
fn round(rows: [u8x16; 16]) -> [u8x16; 16]
    ensures { result ≡ woven rows }
{
    let (r0, r1) = rows[0].interleave(rows[8]);
    let (r2, r3) = rows[1].interleave(rows[9]);
    let (r4, r5) = rows[2].interleave(rows[10]);
    let (r6, r7) = rows[3].interleave(rows[11]);
    let (r8, r9) = rows[4].interleave(rows[12]);
    let (r10, r11) = rows[5].interleave(rows[13]);
    let (r12, r13) = rows[6].interleave(rows[14]);
    let (r14, r15) = rows[7].interleave(rows[15]);
    [
        r0, r1, r2, r3, r4, r5, r6, r7, r8, r9, r10, r11, r12, r13, r14, r15,
    ]
}

// Looks up in 32 octets, which are the lanes of two vectors. The number 255 gives an idle octet.
#[inline(always)]
pub(crate) fn looked_up(low: u8x16, high: u8x16, numbers: u8x16) -> u8x16
    requires { Each1 (λ number. 32 ≤ number → number ≡ 255) numbers }
    ensures { result ≡ map (λ number. slice_index_or (low ++ high) number idle_octet) numbers }
{
    let idle = u8x16::splat(IDLE);
    let in_low = ((numbers + u8x16::splat(112)) | numbers) & u8x16::splat(0x8F);
    let in_high = numbers - u8x16::splat(16);
    (byte_shuffle(low - idle, in_low) | byte_shuffle(high - idle, in_high)) + idle
}

// Looks sixteen places up in a table at once. A place from 128 on gives 0.
#[inline(always)]
fn byte_shuffle(table: u8x16, places: u8x16) -> u8x16
    requires { Each1 (λ place. 16 ≤ place → 128 ≤ place) places }
    ensures { result ≡ map (λ place. slice_index table place) places }
{
    table.swizzle_dyn_within::<16>(places)
}

//! The idle octet over a whole row.

ghost use Rattle.std.specs.Prelude.{◌≡◌, ℕ, ◌+◌, ◌<◌, ◌≤◌, IsTrue, length, slice_index};
ghost use Rattle.circuit_model.specs.FrameInput.{idle_octet};

use circuit_model::IDLE;
use std::simd::prelude::*;

/// Writes the idle octet over a row.
pub fn fill_idle(row: &mut [u8])
    ensures size { length row.new ≡ length row.old }
    ensures octets { (at : ℕ) → at < length row.new → slice_index row.new at ≡ idle_octet }
{
    row.fill(IDLE);
}

/// Returns whether all 30 octets of a row are idle.
#[inline(always)]
pub fn is_idle(row: &[u8]) -> bool
    requires { length row.now ≡ 30 }
    ensures octets { IsTrue result → (at : ℕ) → at < 30 → slice_index row.now at ≡ idle_octet }
    ensures exact { ((at : ℕ) → at < 30 → slice_index row.now at ≡ idle_octet) → IsTrue result }
{
    are_idle(row, 0) && are_idle(row, 14)
}

// Returns whether 16 octets of a row, from one on, are idle. They are compared at once.
#[inline(always)]
fn are_idle(row: &[u8], from: usize) -> bool
    requires { from + 16 ≤ length row.now }
    ensures octets { IsTrue result → (at : ℕ) → from ≤ at → at < from + 16 → slice_index row.now at ≡ idle_octet }
    ensures exact { ((at : ℕ) → from ≤ at → at < from + 16 → slice_index row.now at ≡ idle_octet) → IsTrue result }
{
    let differs = u8x16::from_slice(&row[from..]).simd_ne(u8x16::splat(IDLE));
    differs.to_bitmask() == 0
}

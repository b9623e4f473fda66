//! The keys by which the legs of a line are found, and scans of a row of them.
ghost use Rattle.std.specs.Prelude.{◌≡◌, ℕ, ◌+◌, ◌^◌, ◌<◌, length, None, IfSome};
ghost use Rattle.std.specs.Int.{bit_at};
ghost use Rattle.leg_table.specs.LegKeys.{key_by, key_named, Hits, HasKey, IsFirstKey, LacksKey};

use call_states::{Leg, Side};

/// The number of keys in the row of a line: one a slot, and two more, so that a loop over them becomes vector code.
pub(crate) const ROW: usize = 32;

/// The key of no leg.
pub(crate) const NO_KEY: u32 = 1 << 17;

// The key of the call reference value 0 with the flag of a called leg.
const CALLED: u32 = 1 << 16;

/// Returns the key of a call reference with the flag that the user of a line sends with it.
pub(crate) fn key_named(flag: bool, reference: u16) -> u32
    ensures { result ≡ key_named flag reference }
{
    let value = u32::from(reference);
    if flag { CALLED + value } else { value }
}

/// Returns the key of a leg, which the messages for it have too.
pub(crate) fn key_of(leg: Leg) -> u32
    ensures { result ≡ key_by leg.side leg.reference }
{
    match leg.side {
        Side::Caller => key_named(false, leg.reference),
        Side::Called => key_named(true, leg.reference),
    }
}

/// Returns the first place of a row that has a key, or `None` if no place has it. Examines the second half of the row
/// only if the first half lacks the key.
#[inline(always)]
pub(crate) fn first_place_with(row: &[u32], key: u32) -> Option<u8>
    requires row { length row.now ≡ 32 }
    ensures found { IfSome result (IsFirstKey row.now key) }
    ensures none { result ≡ None → LacksKey row.now key }
{
    let lower = lower_places(row, key);
    if lower != 0 {
        return Some(lower.trailing_zeros() as u8 - 16);
    }
    let upper = upper_places(row, key);
    if upper == 0 {
        return None;
    }
    Some(upper.trailing_zeros() as u8)
}

// Returns the places of the first half of a row that have a key, each a bit of a word, from bit 16 on. No place has bit
// 0, because a loop that sets it does not become vector code as a whole.
#[inline(always)]
fn lower_places(row: &[u32], key: u32) -> u32
    requires row { length row.now ≡ 32 }
    ensures { Hits row.now key 16 0 16 result }
{
    let mut places = 0;
    for place in 0..16 {
        if row[place] == key {
            places |= 1 << (16 + place);
        }
    }
    places
}

// Returns the places of the second half of a row that have a key, each a bit of a word.
#[inline(always)]
fn upper_places(row: &[u32], key: u32) -> u32
    requires row { length row.now ≡ 32 }
    ensures { Hits row.now key 0 16 32 result }
{
    let mut places = 0;
    for place in 16..32 {
        if row[place] == key {
            places |= 1 << place;
        }
    }
    places
}

/// Returns the call reference values below 32 that called legs have, each a bit of a word.
pub(crate) fn references_in(row: &[u32]) -> u32
    requires row { length row.now ≡ 32 }
    ensures used { (reference : ℕ) → reference < 32 → bit_at result reference ≡ 1 → HasKey row.now (2 ^ 16 + reference) }
    ensures unused { (reference : ℕ) → reference < 32 → bit_at result reference ≡ 0 → LacksKey row.now (2 ^ 16 + reference) }
{
    let mut references = 0;
    for place in 0..32 {
        let key = row[place];
        if key / 32 == CALLED / 32 {
            references |= 1 << (key % 32);
        }
    }
    references
}

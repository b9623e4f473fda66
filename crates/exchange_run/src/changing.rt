//! Meters that are changed in the middle of a run.
ghost use Rattle.std.specs.Prelude.{◌≡◌, ◌+◌, ◌<◌, ◌≤◌, ◌++◌, [], List, ℕ, AllPairs, length, map, vec_capacity, vec_len, IfOk, OnOk, OnErr};
ghost use Rattle.std.specs.List.{concat};
ghost use Rattle.meters.specs.Changing.{IsAt};
ghost use Rattle.exchange_run.specs.Changes.{AreChangesDone, AreMoved, IsRow, leaving};

use meters::{Meter, append_first_summaries, replace_first};
use std::alloc::AllocError;
use std::collections::VecDeque;

/// Makes the changes of a place, whose first has the index `start`, and returns the number of changes made up to there.
/// Appends the summaries of the removed meters to `said`.
///
/// # Errors
///
/// [`AllocError`] if an allocation fails. Then no change of the place was made.
pub fn change_at(
    changes: &[u32],
    start: usize,
    place: u32,
    meters: &mut Vec<Box<dyn Meter>>,
    spare: &mut VecDeque<Box<dyn Meter>>,
    said: &mut Vec<u8>,
) -> Result<usize, AllocError>
    requires at { IsAt changes.now start place }
    requires rising { AllPairs (λ m n. m ≤ n) changes.now }
    ensures done { IfOk result (AreChangesDone (λ m. stands m) (λ m. text m) changes.now place
        meters.old.items spare.old.items said.old.items meters.new.items spare.new.items said.new.items) }
    ensures kept { OnErr result ((meters.new.items ≡ meters.old.items) × (spare.new.items ≡ spare.old.items)) }
{
    let end = end_of(changes, start, place);
    if start < end {
        say_at(end - start, meters, spare, said)?;
        move_at(end - start, meters, spare);
    }
    Ok(end)
}

// Returns the number of changes up to the last of a place, whose first has the index `start`.
pub fn end_of(changes: &[u32], start: usize, place: u32) -> usize
    requires { start ≤ length changes.now }
    ensures { IsRow changes.now start place result }
{
    let mut end = start;
    while end < changes.len() && changes[end] == place {
        end += 1;
    }
    end
}

// Appends the summaries of the meters that some changes remove, and reserves memory for one more meter. Only this part
// of the changes can fail.
#[inline(never)]
pub fn say_at(
    count: usize,
    meters: &mut Vec<Box<dyn Meter>>,
    spare: &VecDeque<Box<dyn Meter>>,
    said: &mut Vec<u8>,
) -> Result<(), AllocError>
    requires { 1 ≤ count }
    ensures says { OnOk result (said.new.items ≡ said.old.items ++ concat (map (λ m. text m []) (leaving count meters.old.items spare.now.items))) }
    ensures room { OnOk result (vec_len meters.new + 1 ≤ vec_capacity meters.new) }
    ensures kept { meters.new.items ≡ meters.old.items }
{
    meters.reserve(1)?;
    let out = if meters.is_empty() { count - 1 } else { count };
    let (front, back) = spare.as_slices();
    let left = append_first_summaries(out, meters.as_slice(), said)?;
    let left = append_first_summaries(left, front, said)?;
    append_first_summaries(left, back, said)?;
    Ok(())
}

// Makes some changes, for which there is capacity.
#[inline(never)]
pub fn move_at(count: usize, meters: &mut Vec<Box<dyn Meter>>, spare: &mut VecDeque<Box<dyn Meter>>)
    requires room { vec_len meters.old + 1 ≤ vec_capacity meters.old }
    ensures { AreMoved (λ m. stands m) (λ m. text m) count meters.old.items spare.old.items meters.new.items spare.new.items }
{
    for _ in 0..count {
        replace_first(meters, spare);
    }
}

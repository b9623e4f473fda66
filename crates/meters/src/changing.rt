//! The parts of a change of meters.
ghost use Rattle.std.specs.Prelude.{◌≡◌, ◌≤◌, ◌++◌, ◌-◌, [], drop, length, map, take, vec_capacity, vec_len, IfOk, OnOk, OnErr};
ghost use Rattle.std.specs.List.{concat};

use crate::meter::Meter;
use crate::summaries::append_summaries;
use std::alloc::AllocError;
use std::collections::VecDeque;

/// Appends the texts of the first meters, up to `count` or of all of them, and returns the rest of the count.
///
/// # Errors
///
/// [`AllocError`] if an allocation fails. Then `out` is unchanged.
pub fn append_first_summaries(
    count: usize,
    meters: &[Box<dyn Meter>],
    out: &mut Vec<u8>,
) -> Result<usize, AllocError>
    ensures texts { OnOk result (out.new.items ≡ out.old.items ++ concat (map (λ m. text m []) (take count meters.now))) }
    ensures left { IfOk result (λ left. left ≡ count - length meters.now) }
    ensures kept { OnErr result (out.new.items ≡ out.old.items) }
{
    let now = count.min(meters.len());
    append_summaries(&meters[..now], out)?;
    Ok(count - now)
}

/// Removes the first meter and drops it, and then activates the first spare one after the others. The list of active
/// meters must have capacity for one more.
pub fn replace_first<M: Drop>(meters: &mut Vec<M>, spare: &mut VecDeque<M>)
    requires some { 1 ≤ vec_capacity meters.old }
    requires room { vec_len meters.old ≤ vec_capacity meters.old }
    ensures meters { meters.new.items ≡ drop 1 meters.old.items ++ take 1 spare.old.items }
    ensures spares { spare.new.items ≡ drop 1 spare.old.items }
    ensures capacity { vec_capacity meters.new ≡ vec_capacity meters.old }
    ensures room { vec_len meters.new ≤ vec_capacity meters.new }
{
    if !meters.is_empty() {
        drop(meters.remove(0));
    }
    if let Some(next) = spare.pop_front() {
        meters.push_reserved(next);
    }
}

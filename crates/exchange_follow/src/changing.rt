//! Meters that are changed at a line of a trace that is followed.
ghost use Rattle.std.specs.Prelude.{◌≡◌, OnOk, OnErr};
ghost use Rattle.meters.specs.Changing.{AreChangedBy};

use meters::{Meter, append_first_summaries, replace_first};
use std::alloc::AllocError;
use std::collections::VecDeque;

/// Makes one change, and appends the summary of the removed meter to a text.
///
/// # Errors
///
/// [`AllocError`] if an allocation fails. Then nothing is changed.
pub fn change_once(
    meters: &mut Vec<Box<dyn Meter>>,
    spare: &mut VecDeque<Box<dyn Meter>>,
    out: &mut Vec<u8>,
) -> Result<(), AllocError>
    ensures done { OnOk result (AreChangedBy (λ m. stands m) (λ m. text m) 1
        meters.old.items spare.old.items out.old.items meters.new.items spare.new.items out.new.items) }
    ensures kept { OnErr result ((meters.new.items ≡ meters.old.items) × (spare.new.items ≡ spare.old.items) × (out.new.items ≡ out.old.items)) }
{
    meters.reserve(1)?;
    append_first_summaries(1, meters.as_slice(), out)?;
    replace_first(meters, spare);
    Ok(())
}

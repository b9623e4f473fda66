//! The meters record the calls that ended.
ghost use Rattle.std.specs.Prelude.{[], ◌∷◌, OnOk, OnErr};
ghost use Rattle.meters.specs.Telling.{IsTold};
ghost use Rattle.linked_exchange.specs.Telling.{AreTold, AreToldFront};

use exchange_events::CallRecord;
use meters::Meter;
use std::alloc::AllocError;

/// Records some calls on each meter, call by call.
///
/// # Errors
///
/// [`AllocError`] if an allocation fails. Then each meter recorded a prefix of the calls.
pub fn tell(meters: &mut Vec<Box<dyn Meter>>, calls: &[CallRecord]) -> Result<(), AllocError>
    ensures told { OnOk result (AreTold (λ m. stands m) (λ m. text m) meters.old.items meters.new.items calls.now) }
    ensures front { OnErr result (AreToldFront (λ m. stands m) (λ m. text m) meters.old.items meters.new.items calls.now) }
{
    tell_calls(meters.as_mut_slice(), calls)
}

// Records some calls on each meter of a slice, call by call.
fn tell_calls(meters: &mut [Box<dyn Meter>], calls: &[CallRecord]) -> Result<(), AllocError>
    ensures told { OnOk result (AreTold (λ m. stands m) (λ m. text m) meters.old meters.new calls.now) }
    ensures front { OnErr result (AreToldFront (λ m. stands m) (λ m. text m) meters.old meters.new calls.now) }
{
    for told in calls {
        tell_call(meters, told)?;
    }
    Ok(())
}

// Records a call on each meter.
fn tell_call(meters: &mut [Box<dyn Meter>], told: &CallRecord) -> Result<(), AllocError>
    ensures told { OnOk result (AreTold (λ m. stands m) (λ m. text m) meters.old meters.new (told.now ∷ [])) }
    ensures front { OnErr result (AreToldFront (λ m. stands m) (λ m. text m) meters.old meters.new (told.now ∷ [])) }
{
    for meter in meters.iter_mut() {
        tell_one(meter, told)?;
    }
    Ok(())
}

// Records a call on a meter.
fn tell_one(meter: &mut Box<dyn Meter>, told: &CallRecord) -> Result<(), AllocError>
    ensures told { OnOk result (IsTold (told.now ∷ []) (stands meter.old) (stands meter.new) (text meter.old) (text meter.new)) }
    ensures kept { OnErr result (IsTold [] (stands meter.old) (stands meter.new) (text meter.old) (text meter.new)) }
{
    meter.note(told)
}

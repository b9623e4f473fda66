//! The texts of several meters, in order.
ghost use Rattle.std.specs.Prelude.{◌≡◌, ◌++◌, [], length, map, take, OnOk, OnErr};
ghost use Rattle.std.specs.List.{concat};

use crate::meter::Meter;
use std::alloc::AllocError;

/// Appends each meter's text, in order.
///
/// # Errors
///
/// [`AllocError`] if an allocation fails. Then `out` is unchanged.
pub fn append_summaries(meters: &[Box<dyn Meter>], out: &mut Vec<u8>) -> Result<(), AllocError>
    ensures texts { OnOk result (out.new.items ≡ out.old.items ++ concat (map (λ meter. text meter []) meters.now)) }
    ensures kept { OnErr result (out.new.items ≡ out.old.items) }
{
    let start = out.len();
    let done = put_summaries(meters, out);
    if done.is_err() {
        out.truncate(start);
    }
    done
}

// Appends each meter's text, in order. An error leaves a prefix of the texts.
fn put_summaries(meters: &[Box<dyn Meter>], out: &mut Vec<u8>) -> Result<(), AllocError>
    ensures texts { OnOk result (out.new.items ≡ out.old.items ++ concat (map (λ meter. text meter []) meters.now)) }
    ensures front { take (length out.old.items) out.new.items ≡ out.old.items }
{
    for meter in meters {
        put_summary(meter, out)?;
    }
    Ok(())
}

// One meter's text.
fn put_summary(meter: &Box<dyn Meter>, out: &mut Vec<u8>) -> Result<(), AllocError>
    ensures text { OnOk result (out.new.items ≡ out.old.items ++ text meter.now []) }
    ensures kept { OnErr result (out.new.items ≡ out.old.items) }
{
    meter.summary(out)
}

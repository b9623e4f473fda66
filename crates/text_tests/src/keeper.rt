// A program's own meter: it stores all calls, and allocates for them.
ghost use Rattle.std.specs.Prelude.{◌≡◌, ◌++◌, List, length, map, take, if◌then◌else◌, OnOk};
ghost use Rattle.exchange_events.specs.declared.record.CallRecord.{CallRecord};

use exchange_events::CallRecord;
use meters::Meter;
use std::alloc::{AllocError, Global};
use std::marker::Model;

/// Stores every record. Its text has a letter for each: A for a call that was answered, N for another.
#[derive(Drop)]
pub(crate) struct Keeper {
    calls: Vec<CallRecord>,
}

impl Model for Keeper {
    ghost use Rattle.std.specs.Prelude.{List};
    ghost use Rattle.exchange_events.specs.declared.record.CallRecord.{CallRecord};

    ghost Value = { List CallRecord };

    ghost view = { λ k. k.calls.items };
}

impl Keeper {
    pub(crate) fn new(alloc: Global) -> Keeper {
        Keeper {
            calls: Vec::new(alloc),
        }
    }
}

impl Meter for Keeper {
    ghost stands = { λ kept calls. kept ≡ calls };

    ghost text = { λ kept more. map (λ call. if call.answered then 65 else 78) (kept ++ more) };

    fn note(&mut self, told: &CallRecord) -> Result<(), AllocError> {
        self.calls.push(*told)?;
        Ok(())
    }

    fn summary(&self, out: &mut Vec<u8>) -> Result<(), AllocError> {
        let start = out.len();
        let done = put_letters(out, &self.calls);
        if done.is_err() {
            out.truncate(start);
        }
        done
    }
}

// Appends a letter for each call. An error leaves a prefix of them.
fn put_letters(out: &mut Vec<u8>, calls: &[CallRecord]) -> Result<(), AllocError>
    ensures letters { OnOk result (out.new.items ≡ out.old.items ++ map (λ call. if call.answered then 65 else 78) calls.now) }
    ensures front { take (length out.old.items) out.new.items ≡ out.old.items }
{
    for call in calls {
        out.push(if call.answered { b'A' } else { b'N' })?;
    }
    Ok(())
}

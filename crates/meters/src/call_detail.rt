//! The details of the last calls.
ghost use Rattle.std.specs.Prelude.{◌≡◌, ◌-◌, ◌++◌, ◌<◌, ◌≤◌, [], ◌∷◌, List, length, take, OnOk, OnErr, IfOk, IsOk};
ghost use Rattle.std.specs.VecDeque.{deque_len, deque_capacity};
ghost use Rattle.exchange_events.specs.declared.record.CallRecord.{CallRecord};
ghost use Rattle.meters.specs.Details.{IsRingOf, call_lines, detail_text, detail_text_with, last_of};

use crate::meter::Meter;
use crate::texts::put_call;
use exchange_events::CallRecord;
use std::alloc::{AllocError, Global};
use std::collections::VecDeque;
use std::marker::Model;

/// Stores the records of the last `keep` calls.
///
/// Its text has a line for each of them, the oldest first: `call CALLER CALLED FROM TO CAUSE`. A slot is `L/C`, its
/// line and the number of its channel, and a room is `room R`.
#[derive(Debug, Drop)]
pub struct CallDetail {
    keep: u32,
    calls: VecDeque<CallRecord>,
}

impl Model for CallDetail {
    ghost use Rattle.std.specs.Prelude.{◌<◌, ◌≤◌, length};
    ghost use Rattle.std.specs.VecDeque.{deque_len, deque_capacity};
    ghost use Rattle.meters.specs.Details.{Ring};

    ghost Value = { Ring };

    ghost view = { λ d. record { keep = d.keep; calls = d.calls.items } };

    ghost invariant = { λ d. (0 < d.keep) × (deque_len d.calls ≤ d.keep) × (d.keep ≤ deque_capacity d.calls) };
}

impl CallDetail {
    /// Makes a ring that stores the last `keep` records, 1 to 65,535, and has recorded no call. It has capacity for all
    /// of them from the start, so no record allocates or moves another.
    ///
    /// # Errors
    ///
    /// [`AllocError`] if an allocation fails.
    pub fn new(alloc: Global, keep: u32) -> Result<CallDetail, AllocError>
        requires { (1 ≤ keep) × (keep ≤ 65535) }
        ensures keep { IfOk result (λ ring. ring.keep ≡ keep) }
        ensures stands { IfOk result (IsRingOf []) }
        ensures text { IfOk result (λ ring. (calls : List CallRecord) → detail_text_with ring calls ≡ detail_text keep calls) }
    {
        let calls = VecDeque::with_capacity(alloc, keep as usize)?;
        Ok(CallDetail { keep, calls })
    }
}

impl Meter for CallDetail {
    ghost stands = { λ ring calls. IsRingOf calls ring };

    ghost text = { detail_text_with };

    /// Records one more call. If the ring is full, its oldest record is removed first. It does not allocate and never
    /// fails.
    fn note(&mut self, told: &CallRecord) -> Result<(), AllocError>
        ensures done { IsOk result }
        ensures keep { self.new.keep ≡ self.old.keep }
        ensures stands { (calls : List CallRecord) → IsRingOf calls self.old → IsRingOf (calls ++ told.now ∷ []) self.new }
        ensures text { (calls : List CallRecord) → detail_text_with self.new calls ≡ detail_text_with self.old (told.now ∷ calls) }
    {
        make_room(&mut self.calls, self.keep);
        self.calls.push_back_reserved(*told);
        Ok(())
    }

    /// Appends the text of the calls that the meter represents.
    fn summary(&self, out: &mut Vec<u8>) -> Result<(), AllocError>
        ensures text { OnOk result (out.new.items ≡ out.old.items ++ detail_text_with self.now []) }
        ensures calls { OnOk result ((told : _) → IsRingOf told self.now → out.new.items ≡ out.old.items ++ detail_text self.now.keep told) }
        ensures kept { OnErr result (out.new.items ≡ out.old.items) }
    {
        let start = out.len();
        let done = put_ring(out, &self.calls);
        if done.is_err() {
            out.truncate(start);
        }
        done
    }
}

// Removes the oldest record if the ring is full.
fn make_room(calls: &mut VecDeque<CallRecord>, keep: u32)
    requires { (0 < keep) × (deque_len calls.old ≤ keep) }
    ensures last { calls.new.items ≡ last_of (keep - 1) calls.old.items }
    ensures room { deque_len calls.new < keep }
    ensures capacity { deque_capacity calls.new ≡ deque_capacity calls.old }
{
    if calls.len() == keep as usize {
        let _oldest = calls.pop_front();
    }
}

// Appends the lines of a ring's records. An error leaves a prefix of them.
fn put_ring(out: &mut Vec<u8>, calls: &VecDeque<CallRecord>) -> Result<(), AllocError>
    ensures lines { OnOk result (out.new.items ≡ out.old.items ++ call_lines calls.now.items) }
    ensures front { take (length out.old.items) out.new.items ≡ out.old.items }
{
    let (older, newer) = calls.as_slices();
    put_calls(out, older)?;
    put_calls(out, newer)
}

// Appends the lines of some records. An error leaves a prefix of them.
fn put_calls(out: &mut Vec<u8>, calls: &[CallRecord]) -> Result<(), AllocError>
    ensures lines { OnOk result (out.new.items ≡ out.old.items ++ call_lines calls.now) }
    ensures front { take (length out.old.items) out.new.items ≡ out.old.items }
{
    for call in calls {
        put_call(out, call)?;
    }
    Ok(())
}

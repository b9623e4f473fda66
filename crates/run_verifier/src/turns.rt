//! The events that may come next.
ghost use Rattle.std.specs.Prelude.{◌≡◌, ◌≢◌, ◌+◌, ◌<◌, ◌≤◌, ◌++◌, ℕ, List, [], ◌∷◌, length, slice_index, true, false};
ghost use Rattle.exchange_events.specs.Orders.{IsEvent};
ghost use Rattle.exchange_events.specs.Sound.{IsSound};
ghost use Rattle.run_verifier.specs.Turns.{AreOwn, AreTurns, EndsAt, IsIn, IsLeft, IsNext, IsUntouched, place_at};
ghost use Rattle.run_verifier.specs.Verdicts.{MayFollow};

use call_processor::{event_range, processor_of};
use exchange_events::Trace;

// The maximum number of workers of an exchange: 8 call processors and the frame worker.
const WORKERS: usize = 9;

// The index of the frame worker.
const FRAME_WORKER: usize = 8;

/// The events of a trace that have been processed: the current segment, its end, and the next event of each worker in
/// it. The next event of a worker without events left is at or after the end.
#[derive(Clone, Copy)]
pub(crate) struct Turns {
    segment: u32,
    end: u32,
    next: [u32; WORKERS],
}

// Returns the index of the worker that processes an event.
fn place(trace: &Trace, number: u32) -> usize
    requires sound { IsSound trace.now }
    requires known { IsEvent trace.now number }
    ensures place { result ≡ place_at trace.now number }
    ensures within { result < 9 }
{
    match processor_of(trace.processors, trace.event(number)) {
        Some(processor) => processor as usize,
        None => FRAME_WORKER,
    }
}

// Returns the first event of a worker from `from` to before `end`, or `end` if it has none.
fn next_of(trace: &Trace, worker: usize, from: u32, end: u32) -> u32
    requires sound { IsSound trace.now }
    requires order { from ≤ end }
    requires known { (n : ℕ) → from ≤ n → n < end → IsEvent trace.now n }
    ensures low { from ≤ result }
    ensures high { result ≤ end }
    ensures passed { (n : ℕ) → from ≤ n → n < result → place_at trace.now n ≢ worker }
    ensures own { result < end → place_at trace.now result ≡ worker }
{
    for number in from..end {
        if place(trace, number) == worker {
            return number;
        }
    }
    end
}

// Returns the first event of each worker in a segment with these numbers.
fn first_events(trace: &Trace, first: u32, end: u32) -> [u32; WORKERS]
    requires sound { IsSound trace.now }
    requires order { first ≤ end }
    requires known { (n : ℕ) → first ≤ n → n < end → IsEvent trace.now n }
    ensures low { (w : ℕ) → w < 9 → first ≤ slice_index result w }
    ensures passed { (w n : ℕ) → w < 9 → first ≤ n → n < slice_index result w → place_at trace.now n ≢ w }
    ensures own { (w : ℕ) → w < 9 → slice_index result w < end → place_at trace.now (slice_index result w) ≡ w }
{
    let mut next = [end; WORKERS];
    for worker in 0..WORKERS {
        next[worker] = next_of(trace, worker, first, end);
    }
    next
}

// Returns whether no worker has an event left.
fn are_over(next: &[u32; WORKERS], end: u32) -> bool
    ensures over { result ≡ true → (w : ℕ) → w < 9 → end ≤ slice_index next.now w }
    ensures left { result ≡ false → (w : ℕ) × (w < 9) × (slice_index next.now w < end) }
{
    for number in next {
        if *number < end {
            return false;
        }
    }
    true
}

// Returns the turns at the start of a segment. After the last segment no worker has an event.
fn begin(trace: &Trace, segment: u32) -> Turns
    requires sound { IsSound trace.now }
    requires within { segment ≤ length trace.now.segments }
    ensures segment { result.segment ≡ segment }
    ensures ends { EndsAt trace.now segment result.end }
    ensures own { AreOwn trace.now segment result.end result.next }
    ensures untouched { IsUntouched trace.now segment result.next }
{
    if segment as usize == trace.segments.as_slice().len() {
        return Turns {
            segment,
            end: 0,
            next: [0; WORKERS],
        };
    }
    let (first, end) = event_range(trace, segment);
    let next = first_events(trace, first, end);
    Turns { segment, end, next }
}

// Advances to the first segment, from this one on, that has events left.
fn settled(trace: &Trace, turns: Turns) -> Turns
    requires sound { IsSound trace.now }
    requires within { turns.segment ≤ length trace.now.segments }
    ensures within { result.segment ≤ length trace.now.segments }
    ensures turns { (order : List ℕ) → AreTurns trace.now turns.segment turns.end turns.next order
        → AreTurns trace.now result.segment result.end result.next order }
    ensures left { IsLeft trace.now result.segment result.end result.next }
{
    let mut turns = turns;
    while (turns.segment as usize) < trace.segments.as_slice().len()
        && are_over(&turns.next, turns.end)
    {
        turns = begin(trace, turns.segment + 1);
    }
    turns
}

// Returns whether the trace has an event with this number.
fn is_event(trace: &Trace, number: u32) -> bool
    ensures is { result ≡ true → IsEvent trace.now number }
    ensures each { IsEvent trace.now number → result ≡ true }
{
    1 <= number && number as usize <= trace.events.as_slice().len()
}

impl Turns {
    /// Returns the turns before the first event of a trace.
    pub(crate) fn new(trace: &Trace) -> Turns
        requires sound { IsSound trace.now }
        ensures within { result.segment ≤ length trace.now.segments }
        ensures turns { AreTurns trace.now result.segment result.end result.next [] }
        ensures left { IsLeft trace.now result.segment result.end result.next }
    {
        settled(trace, begin(trace, 0))
    }

    /// Returns whether an event may come next.
    pub(crate) fn may_come(&self, trace: &Trace, number: u32) -> bool
        requires sound { IsSound trace.now }
        requires left { IsLeft trace.now self.now.segment self.now.end self.now.next }
        ensures next { result ≡ true → IsNext trace.now self.now.end self.now.next number }
        ensures may { (order : List ℕ) → AreTurns trace.now self.now.segment self.now.end self.now.next order
            → result ≡ true → MayFollow trace.now order number }
        ensures may_not { (order : List ℕ) → AreTurns trace.now self.now.segment self.now.end self.now.next order
            → MayFollow trace.now order number → result ≡ true }
    {
        if !is_event(trace, number) {
            return false;
        }
        if number >= self.end {
            return false;
        }
        self.next[place(trace, number)] == number
    }

    /// Records that an event came.
    pub(crate) fn pass(&mut self, trace: &Trace, number: u32)
        requires sound { IsSound trace.now }
        requires within { self.old.segment ≤ length trace.now.segments }
        requires ends { EndsAt trace.now self.old.segment self.old.end }
        requires own { AreOwn trace.now self.old.segment self.old.end self.old.next }
        requires next { IsNext trace.now self.old.end self.old.next number }
        ensures within { self.new.segment ≤ length trace.now.segments }
        ensures turns { (order : List ℕ) → AreTurns trace.now self.old.segment self.old.end self.old.next order
            → AreTurns trace.now self.new.segment self.new.end self.new.next (order ++ number ∷ []) }
        ensures left { IsLeft trace.now self.new.segment self.new.end self.new.next }
    {
        let worker = place(trace, number);
        let mut next = self.next;
        next[worker] = next_of(trace, worker, number + 1, self.end);
        *self = settled(
            trace,
            Turns {
                segment: self.segment,
                end: self.end,
                next,
            },
        );
    }
}

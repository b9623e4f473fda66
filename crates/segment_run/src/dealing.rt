//! The number of events of each worker of a segment, and a seat and buffers for each worker that has events.
ghost use Rattle.std.specs.Prelude.{◌≡◌, ◌≢◌, ℕ, ◌+◌, ◌<◌, ◌≤◌, ◌||◌, ◌^◌, [], IsTrue, length, map, slice_index, All, vec_capacity};
ghost use Rattle.exchange_events.specs.Sound.{IsSound};
ghost use Rattle.segment_run.specs.Jobs.{seats_of};
ghost use Rattle.segment_run.specs.Pools.{HasRoom};
ghost use Rattle.segment_run.specs.Workers.{AreDealt, HasDealt, any_baton, load, loads_below, turns_left};

use call_processor::{AnswerSink, WorkerBuffers, event_range, processor_of};
use exchange_core::Switchboard;
use exchange_events::Trace;

/// A worker with its seat and its buffers. The numbers of the call processors begin at 0. The number of the frame
/// worker follows theirs.
#[derive(Debug, Drop)]
pub struct Job<T, K> {
    /// The number of the worker.
    pub worker: u32,
    /// Its seat.
    pub seat: T,
    /// Its buffers.
    pub buffers: WorkerBuffers<K>,
}

/// Returns the number of events of each worker in a segment, by the number of the worker, counted in one pass over its
/// events.
pub fn loads_of(trace: &Trace, segment: u32) -> [u32; 9]
    requires sound { IsSound trace.now }
    requires segment { segment < length trace.now.segments }
    ensures { (i : ℕ) → i ≤ trace.now.processors → slice_index result i ≡ load trace.now segment i }
{
    let mut loads = [0; 9];
    let (first, end) = event_range(trace, segment);
    let events = trace.events.as_slice();
    for event in first..end {
        let done = &events[event as usize - 1];
        let worker = processor_of(trace.processors, done).unwrap_or(u32::from(trace.processors));
        loads[worker as usize] += 1;
    }
    loads
}

/// Makes a seat for each worker that has events, with a turn for each of them, and assigns it buffers. The seat of
/// the frame worker gets the baton. No two seats of a run have the same number, so the entries of a seat are those with
/// its number.
pub fn deal<B: Switchboard, K: AnswerSink>(
    board: &B,
    seat: &mut B::Seat,
    trace: &Trace,
    segment: u32,
    loads: &[u32; 9],
    mut jobs: Vec<Job<B::Seat, K>>,
    unused: &mut Vec<WorkerBuffers<K>>,
) -> Vec<Job<B::Seat, K>>
    requires seated { B.seated board.now seat.old }
    requires few { trace.now.processors ≤ 8 }
    requires chief { ((B.known seat.old).number ≡ 0) × IsTrue (B.known seat.old).baton }
    requires numbers { (B.known seat.old).made + 10 < 2 ^ 32 }
    requires loads { (i : ℕ) → i ≤ trace.now.processors → slice_index loads.now i ≡ load trace.now segment i }
    requires turns { loads_below trace.now segment (trace.now.processors + 1) ≤ (B.known seat.old).left }
    requires room { HasRoom jobs }
    requires unused { length unused.old.items ≡ 9 }
    ensures seated { B.seated board.now seat.new × All (λ j. B.seated board.now j.seat) result.items }
    ensures few { length result.items ≤ 9 }
    ensures room { 9 ≤ vec_capacity result }
    ensures lent { length unused.new.items + length result.items ≡ 9 }
    ensures kept { vec_capacity unused.new ≡ vec_capacity unused.old }
    ensures dealt { AreDealt trace.now segment (B.known seat.old) ((B.known seat.old).made + 1) 0 (seats_of B.known result.items) }
    ensures idle { (i : ℕ) → i ≤ trace.now.processors → All (λ j. j.worker ≢ i) result.items → load trace.now segment i ≡ 0 }
    ensures chief { HasDealt (B.known seat.old) (length result.items) (B.known seat.new) }
    ensures baton { IsTrue ((B.known seat.new).baton || any_baton (seats_of B.known result.items)) }
    ensures frames { All (λ j. j.worker ≡ trace.now.processors → IsTrue (B.known j.seat).baton) result.items }
    ensures turns { (B.known seat.new).left + turns_left (seats_of B.known result.items) ≡ (B.known seat.old).left }
    ensures all { turns_left (seats_of B.known result.items) ≡ loads_below trace.now segment (trace.now.processors + 1) }
{
    let processors = u32::from(trace.processors);
    for worker in 0..processors + 1 {
        let turns = loads[worker as usize];
        if turns > 0 {
            let buffers = pop_unused(unused);
            let mine = board.split(seat, turns, worker == processors);
            jobs.push_reserved(Job {
                worker,
                seat: mine,
                buffers,
            });
        }
    }
    jobs
}

// Takes the buffers of one worker.
fn pop_unused<K>(unused: &mut Vec<WorkerBuffers<K>>) -> WorkerBuffers<K>
    requires some { 0 < length unused.old.items }
    ensures one { length unused.new.items + 1 ≡ length unused.old.items }
    ensures kept { vec_capacity unused.new ≡ vec_capacity unused.old }
{
    let Some(buffers) = unused.pop() else {
        unreachable!()
    };
    buffers
}

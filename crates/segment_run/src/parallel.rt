//! The frame worker and the call processors, in threads.
ghost use Rattle.std.specs.Prelude.{◌≡◌, ℕ, ◌<◌, ◌≤◌, ◌++◌, ◌∷◌, [], IsTrue, length, All, vec_len, vec_capacity};
ghost use Rattle.std.specs.Thread.{IsSync};
ghost use Rattle.seat_history.specs.declared.seat_knowledge.SeatKnowledge.{SeatKnowledge};
ghost use Rattle.call_processor.specs.WorkerOutputs.{HasRunFrames, MayDoFrames};
ghost use Rattle.segment_run.specs.Jobs.{AreReady, AreThrough, IsThrough, MayBegin, MayStart, StayReady, HaveDone, seats_of};
ghost use Rattle.segment_run.specs.Workers.{AreDealt};

use crate::batch::{JobBatch, call_processors};
use crate::dealing::Job;
use call_processor::{
    AllocFailureFlag, AnswerSink, FrameWorkerOutput, Machine, RunContext, run_frames_with,
};
use exchange_core::Switchboard;
use frame_engine::Carrier;
use gate::Gate;
use std::sync::Wait;
use std::thread::{Threads, join};

/// The results of the workers of a segment.
#[derive(Debug, Drop)]
pub struct BatchOutput<T, C, K> {
    /// The result of each, in the order of the jobs. No job is left.
    pub batch: JobBatch<T, K>,
    /// The machine, which has carried the frames of the segment.
    pub machine: Box<Machine<C>>,
}

// Runs the frame worker with this job in parallel with the call processors of the batch. If there are none, it runs in
// the calling thread.
fn with_frames<B: Switchboard, G: Gate, C: Carrier, K: AnswerSink, R: Threads + Wait + Sync>(
    cx: &RunContext<B, G, R>,
    segment: u32,
    frames: Job<B::Seat, K>,
    mut batch: JobBatch<B::Seat, K>,
    machine: Box<Machine<C>>,
    failure: &AllocFailureFlag,
) -> (FrameWorkerOutput<B::Seat, C, K>, JobBatch<B::Seat, K>)
    requires seated { B.seated cx.now.board.now frames.seat }
    requires frames { MayDoFrames C.carries C.next C.sizes (B.board cx.now.board.now) cx.now.trace.now segment (B.known frames.seat) machine.value }
    requires batch { MayBegin (B.seated cx.now.board.now) B.known (B.board cx.now.board.now) cx.now.trace.now segment 0 batch }
    ensures seated { B.seated cx.now.board.now result.0.output.seat }
    ensures frames { HasRunFrames K.holds C.plays C.carries C.next C.sizes B.known (B.board cx.now.board.now)
        cx.now.trace.now segment (B.known frames.seat) result.0 }
    ensures done { AreThrough K.holds (B.seated cx.now.board.now) B.known (B.board cx.now.board.now)
        cx.now.trace.now segment batch.jobs.items batch result.1 }
{
    let Job {
        worker: _,
        seat,
        buffers,
    } = frames;
    let Some(next) = batch.jobs.pop() else {
        let framed = run_frames_with(cx, seat, segment, machine, buffers, failure);
        return (framed, batch);
    };
    join(
        cx.rt,
        move || -> FrameWorkerOutput<B::Seat, C, K>
            requires threads { IsSync R.row }
            requires seated { B.seated cx.now.board.now seat }
            requires frames { MayDoFrames C.carries C.next C.sizes (B.board cx.now.board.now) cx.now.trace.now segment (B.known seat) machine.value }
            ensures seated { B.seated cx.entry.now.board.now result.output.seat }
            ensures frames { HasRunFrames K.holds C.plays C.carries C.next C.sizes B.known (B.board cx.entry.now.board.now)
                cx.entry.now.trace.now segment (B.known seat) result }
        { run_frames_with(cx, seat, segment, machine, buffers, failure) },
        move || -> JobBatch<B::Seat, K>
            requires threads { IsSync R.row }
            requires job { MayStart (B.seated cx.now.board.now) B.known (B.board cx.now.board.now) cx.now.trace.now segment next }
            requires batch { MayBegin (B.seated cx.now.board.now) B.known (B.board cx.now.board.now) cx.now.trace.now segment 1 batch }
            ensures done { AreThrough K.holds (B.seated cx.entry.now.board.now) B.known (B.board cx.entry.now.board.now)
                cx.entry.now.trace.now segment (batch.jobs.items ++ next ∷ []) batch result }
        { call_processors(cx, segment, next, batch, failure) },
    )
}

/// Runs the workers of a batch in parallel, one of them in the calling thread. If the frame worker has a job, it is the
/// last one.
pub fn side_by_side<B: Switchboard, G: Gate, C: Carrier, K: AnswerSink, R: Threads + Wait + Sync>(
    cx: &RunContext<B, G, R>,
    segment: u32,
    mut batch: JobBatch<B::Seat, K>,
    machine: Box<Machine<C>>,
    failure: &AllocFailureFlag,
) -> BatchOutput<B::Seat, C, K>
    requires trace { cx.now.trace.now ≡ (B.board cx.now.board.now).trace }
    requires segment { segment < length cx.now.trace.now.segments }
    requires seated { All (λ j. B.seated cx.now.board.now j.seat) batch.jobs.items }
    requires dealt { (v : SeatKnowledge) × (n : ℕ) × AreDealt cx.now.trace.now segment v n 0 (seats_of B.known batch.jobs.items) }
    requires baton { All (λ j. j.worker ≡ cx.now.trace.now.processors → IsTrue (B.known j.seat).baton) batch.jobs.items }
    requires ready { AreReady C.carries C.next C.sizes B.known (B.board cx.now.board.now) machine.value batch.jobs.items }
    requires room { vec_len batch.jobs ≤ vec_capacity batch.done }
    requires empty { batch.done.items ≡ [] }
    ensures through { IsThrough (length batch.jobs.items) batch result.batch }
    ensures seated { All (λ f. B.seated cx.now.board.now f.seat) result.batch.done.items }
    ensures works { HaveDone K.holds C.plays B.known (B.board cx.now.board.now) cx.now.trace.now segment batch.jobs.items result.batch.done.items }
    ensures ready { StayReady C.carries C.next C.sizes B.known (B.board cx.now.board.now) cx.now.trace.now batch.jobs.items result }
    ensures idle { All (λ j. j.worker < cx.now.trace.now.processors) batch.jobs.items → result.machine ≡ machine }
{
    let Some(last) = batch.jobs.pop() else {
        return BatchOutput { batch, machine };
    };
    if last.worker < u32::from(cx.trace.processors) {
        let batch = call_processors(cx, segment, last, batch, failure);
        return BatchOutput { batch, machine };
    }
    let (framed, mut batch) = with_frames(cx, segment, last, batch, machine, failure);
    let FrameWorkerOutput { output, machine } = framed;
    batch.done.push_reserved(output);
    BatchOutput { batch, machine }
}

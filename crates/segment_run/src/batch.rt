//! The call processors of a segment, each in its own thread.
ghost use Rattle.std.specs.Prelude.{◌++◌, ◌∷◌, []};
ghost use Rattle.std.specs.Thread.{IsSync};
ghost use Rattle.segment_run.specs.Jobs.{AreThrough, HasProcessed, MayBegin, MayStart};

use crate::dealing::Job;
use call_processor::{AllocFailureFlag, AnswerSink, RunContext, WorkerOutput, process_with};
use exchange_core::Switchboard;
use gate::Gate;
use std::sync::Wait;
use std::thread::{Threads, join};

/// The workers of a segment.
#[derive(Debug, Drop)]
pub struct JobBatch<T, K> {
    /// The jobs that no worker has begun.
    pub jobs: Vec<Job<T, K>>,
    /// The results of the others.
    pub done: Vec<WorkerOutput<T, K>>,
}

// Runs the call processor with this job.
fn process_job<B: Switchboard, G: Gate, K: AnswerSink, R: Wait>(
    cx: &RunContext<B, G, R>,
    segment: u32,
    job: Job<B::Seat, K>,
    failure: &AllocFailureFlag,
) -> WorkerOutput<B::Seat, K>
    requires job { MayStart (B.seated cx.now.board.now) B.known (B.board cx.now.board.now) cx.now.trace.now segment job }
    ensures seated { B.seated cx.now.board.now result.seat }
    ensures works { HasProcessed K.holds B.known (B.board cx.now.board.now) cx.now.trace.now segment job result }
{
    process_with(cx, job.seat, segment, job.worker, job.buffers, failure)
}

/// Runs the call processors of this job and of the batch in parallel. The last of them runs in the calling thread.
/// Returns their results in the order of the jobs, and the result of this job last.
pub fn call_processors<B: Switchboard, G: Gate, K: AnswerSink, R: Threads + Wait + Sync>(
    cx: &RunContext<B, G, R>,
    segment: u32,
    job: Job<B::Seat, K>,
    mut batch: JobBatch<B::Seat, K>,
    failure: &AllocFailureFlag,
) -> JobBatch<B::Seat, K>
    requires job { MayStart (B.seated cx.now.board.now) B.known (B.board cx.now.board.now) cx.now.trace.now segment job }
    requires batch { MayBegin (B.seated cx.now.board.now) B.known (B.board cx.now.board.now) cx.now.trace.now segment 1 batch }
    ensures done { AreThrough K.holds (B.seated cx.now.board.now) B.known (B.board cx.now.board.now)
        cx.now.trace.now segment (batch.jobs.items ++ job ∷ []) batch result }
{
    let Some(next) = batch.jobs.pop() else {
        let mine = process_job(cx, segment, job, failure);
        batch.done.push_reserved(mine);
        return batch;
    };
    let (mine, mut rest) = join(
        cx.rt,
        move || -> WorkerOutput<B::Seat, K>
            requires job { MayStart (B.seated cx.now.board.now) B.known (B.board cx.now.board.now) cx.now.trace.now segment job }
            ensures seated { B.seated cx.entry.now.board.now result.seat }
            ensures works { HasProcessed K.holds B.known (B.board cx.entry.now.board.now) cx.entry.now.trace.now segment job result }
        { process_job(cx, segment, job, failure) },
        move || -> JobBatch<B::Seat, K>
            requires threads { IsSync R.row }
            requires job { MayStart (B.seated cx.now.board.now) B.known (B.board cx.now.board.now) cx.now.trace.now segment next }
            requires batch { MayBegin (B.seated cx.now.board.now) B.known (B.board cx.now.board.now) cx.now.trace.now segment 1 batch }
            ensures done { AreThrough K.holds (B.seated cx.entry.now.board.now) B.known (B.board cx.entry.now.board.now)
                cx.entry.now.trace.now segment (batch.jobs.items ++ next ∷ []) batch result }
        { call_processors(cx, segment, next, batch, failure) },
    );
    rest.done.push_reserved(mine);
    rest
}

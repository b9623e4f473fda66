//! All workers of a segment, from their seats to their results.
ghost use Rattle.std.specs.Prelude.{◌≡◌, ◌≤◌, ℕ, slice_index};
ghost use Rattle.call_processor.specs.Frames.{IsReadyAt};
ghost use Rattle.segment_run.specs.WorkerResults.{HasWorked, IsComplete};
ghost use Rattle.segment_run.specs.Segment.{MayRun};
ghost use Rattle.segment_run.specs.Workers.{load};

use crate::batch::JobBatch;
use crate::buffer_pool::BufferPool;
use crate::dealing::deal;
use crate::gathering::{all_whole, gather};
use crate::parallel::{BatchOutput, side_by_side};
use call_processor::{AllocFailureFlag, AnswerSink, Machine, RunContext, WorkerBuffers};
use exchange_core::Switchboard;
use frame_engine::Carrier;
use gate::Gate;
use std::sync::Wait;
use std::thread::Threads;

/// The results of all workers of a segment, whose seats are joined.
#[derive(Debug, Drop)]
pub struct WorkerResults<T, C, K> {
    /// The buffers that no worker used.
    pub unused: Vec<WorkerBuffers<K>>,
    /// The buffers whose sinks have the answers.
    pub used: Vec<WorkerBuffers<K>>,
    /// The empty lists of jobs and results.
    pub batch: JobBatch<T, K>,
    /// The machine, which has carried the frames of the segment.
    pub machine: Box<Machine<C>>,
    /// Whether all parts are complete. False only if an allocation failed.
    pub whole: bool,
}

/// Runs the workers of one segment in parallel and joins their seats.
pub fn work_all<B: Switchboard, G: Gate, C: Carrier, K: AnswerSink, R: Threads + Wait + Sync>(
    cx: &RunContext<B, G, R>,
    seat: &mut B::Seat,
    segment: u32,
    machine: Box<Machine<C>>,
    buffer_pool: BufferPool<B::Seat, K>,
    loads: &[u32; 9],
) -> WorkerResults<B::Seat, C, K>
    requires seated { B.seated cx.now.board.now seat.old }
    requires may { MayRun (B.board cx.now.board.now) cx.now.trace.now segment (B.known seat.old) }
    requires loads { (i : ℕ) → i ≤ cx.now.trace.now.processors → slice_index loads.now i ≡ load cx.now.trace.now segment i }
    requires ready { IsReadyAt C.carries C.next C.sizes (B.board cx.now.board.now) (B.known seat.old) machine.value }
    ensures seated { B.seated cx.now.board.now seat.new }
    ensures complete { IsComplete result }
    ensures works { HasWorked K.holds C.plays C.carries C.next C.sizes (B.board cx.now.board.now)
        cx.now.trace.now segment (B.known seat.old) (B.known seat.new) result }
{
    let BufferPool {
        mut unused,
        mut used,
        batch,
    } = buffer_pool;
    let JobBatch { jobs, done } = batch;
    let jobs = deal(cx.board, seat, cx.trace, segment, loads, jobs, &mut unused);
    let BatchOutput { mut batch, machine } = side_by_side(
        cx,
        segment,
        JobBatch { jobs, done },
        machine,
        &AllocFailureFlag::new(),
    );
    let whole = all_whole(batch.done.as_slice());
    gather(cx.board, seat, &mut batch.done, &mut used);
    WorkerResults {
        unused,
        used,
        batch,
        machine,
        whole,
    }
}

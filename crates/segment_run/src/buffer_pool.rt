//! The buffers of the workers, which serve one segment after another.
ghost use Rattle.std.specs.Prelude.{◌≡◌, ◌≤◌, [], IfOk, length, vec_capacity};

use crate::batch::JobBatch;
use call_processor::{AnswerSink, WorkerBuffers};
use std::alloc::{AllocError, Global};
use std::marker::Model;

// Eight call processors and the frame worker.
const WORKERS: usize = 9;

/// The buffers of the workers of a segment, which also serve the next segment's: the buffers of nine workers, the most
/// that a segment needs, and the lists of jobs and results. `T` is the type of the seats and `K` the type of the sinks.
///
/// Its model is the number of workers for which it has capacity.
#[derive(Debug, Drop)]
pub struct BufferPool<T, K> {
    // The buffers that no worker uses.
    pub(crate) unused: Vec<WorkerBuffers<K>>,
    // The buffers whose sinks have the answers of a segment. There are none between two segments.
    pub(crate) used: Vec<WorkerBuffers<K>>,
    pub(crate) batch: JobBatch<T, K>,
}

impl<T, K> Model for BufferPool<T, K> {
    ghost use Rattle.std.specs.Prelude.{◌≡◌, ℕ, length};
    ghost use Rattle.segment_run.specs.Pools.{HasRoom};

    ghost Value = { ℕ };

    ghost view = { λ r. length r.unused.items };

    ghost invariant = { λ r. (length r.unused.items ≡ 9) × HasRoom r.used × HasRoom r.batch.jobs × HasRoom r.batch.done };
}

impl<T: Drop, K: AnswerSink> BufferPool<T, K> {
    /// Returns a new buffer pool, with sinks of this kind. [`AllocError`] if an allocation fails.
    pub fn new(alloc: Global, sink: &K) -> Result<BufferPool<T, K>, AllocError>
        ensures { IfOk result (λ r. r ≡ 9) }
    {
        let mut unused = Vec::with_capacity(alloc, WORKERS)?;
        for _ in 0..WORKERS {
            unused.push_reserved(WorkerBuffers::new(alloc, sink.new_empty(alloc))?);
        }
        Ok(BufferPool {
            unused,
            used: Vec::with_capacity(alloc, WORKERS)?,
            batch: JobBatch {
                jobs: Vec::with_capacity(alloc, WORKERS)?,
                done: Vec::with_capacity(alloc, WORKERS)?,
            },
        })
    }
}

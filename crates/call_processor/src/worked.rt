use crate::answer_sink::AnswerSink;
use crate::machine::Machine;
use exchange_core::{StepContext, Tool};
use exchange_events::Answer;
use std::alloc::{AllocError, Global};

/// An answer, and the position of its entry in the history, counted from 0.
#[derive(Drop)]
pub struct Placed {
    /// The position of its entry in the history.
    pub place: u32,
    /// The answer to the event.
    pub answer: Answer,
}

/// The result of one worker's part of a segment.
#[derive(Drop)]
pub struct Worked<T> {
    /// The worker's seat.
    pub seat: T,
    /// The answers, in the order of the worker's part.
    pub answers: Vec<Placed>,
    /// Whether the whole part was processed and answered. False only if an allocation failed.
    pub whole: bool,
}

/// The result of the frame worker's part of a segment, with the engine and the control memory.
#[derive(Drop)]
pub struct Framed<T, C> {
    /// The result of its part.
    pub worked: Worked<T>,
    /// The engine, which carries the frames of the history.
    pub engine: C,
    /// The control memory for the next frame.
    pub tool: Tool,
}

/// The buffers of a worker, which serve consecutive parts of segments. Each worker clears the data of the one before.
/// `K` is the type of the sink.
#[derive(Debug, Drop)]
pub struct WorkerBuffers<K> {
    /// The context of commands and messages.
    pub context: Box<StepContext>,
    /// The sink of the answers.
    pub sink: K,
}

/// The result of one worker's part of a segment, with its buffers.
#[derive(Debug, Drop)]
pub struct WorkerOutput<T, K> {
    /// The worker's seat.
    pub seat: T,
    /// The buffers. Their sink has the worker's events, in the order of its part.
    pub buffers: WorkerBuffers<K>,
    /// Whether the whole part was processed and its answers stored. False only if an allocation failed, of this worker
    /// or of another one.
    pub whole: bool,
}

/// The result of the frame worker's part of a segment, with its buffers and its machine.
#[derive(Drop)]
pub struct FrameWorkerOutput<T, C, K> {
    /// The result of its part.
    pub output: WorkerOutput<T, K>,
    /// The machine, ready for the next frame.
    pub machine: Box<Machine<C>>,
}

impl<K: AnswerSink> WorkerBuffers<K> {
    /// Returns new buffers with this sink. [`AllocError`] if an allocation fails.
    pub fn new(alloc: Global, sink: K) -> Result<WorkerBuffers<K>, AllocError> {
        Ok(WorkerBuffers {
            context: Box::new(alloc, StepContext::new(Tool::Nothing))?,
            sink,
        })
    }
}

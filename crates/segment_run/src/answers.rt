//! The results of a run of a segment.
use crate::buffer_pool::BufferPool;
use call_processor::Machine;
use exchange_core::Tool;
use exchange_events::Answer;

/// The result of a segment with complete answers.
#[derive(Debug, Drop)]
pub struct SegmentAnswer<C> {
    /// The answers, in the order of the history.
    pub answers: Vec<Answer>,
    /// The engine, which carries the frames of the history.
    pub engine: C,
    /// The control memory for the next frame.
    pub tool: Tool,
}

/// The result of a segment whose answers an answer sink stores. `T` is the type of the workers' seats and `K` the type
/// of the sinks.
#[derive(Debug, Drop)]
pub struct SegmentOutput<T, C, K> {
    /// The machine, ready for the next frame.
    pub machine: Box<Machine<C>>,
    /// The buffer pool, for the next segment.
    pub buffer_pool: BufferPool<T, K>,
}

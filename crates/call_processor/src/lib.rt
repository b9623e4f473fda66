//! The workers of a segment: call processors for commands and messages, and the frame worker. Each has its own seat at
//! a switchboard.
//!
//! - [`process`] and [`run_frames`] process the events of their part of the segment in file order, each once and for
//!   one turn. They stop early only if an allocation fails. Each answer is the exchange's after the whole history
//!   before it (`works`).
//! - An answer to a frame has the octets that the engine outputs (`octets` of [`run_frames`]). The engine is returned
//!   and carries the frames of the history (`ready`).
//! - [`process_with`] and [`run_frames_with`] do the same with the buffers of a worker and any [`AnswerSink`], which
//!   receives each event that was processed (`works`). [`AnswerList`] stores complete answers.
//! - [`run_sequential`] processes all events of a segment in one thread, in file order (`in_order`).
//! - A [`RunContext`] has the values that all events of a run share, and a [`Machine`] the equipment of the frames.
//! - An [`AllocFailureFlag`] notifies the other workers that an allocation failed. [`processor_of`] and [`event_range`]
//!   assign the events to the workers.
#![tactic(auto)]

mod alloc_failure;
mod answer_list;
mod answer_sink;
mod context;
mod framing;
mod machine;
mod processing;
mod segment;
mod sequential;
mod worked;

pub use alloc_failure::AllocFailureFlag;
pub use answer_list::AnswerList;
pub use answer_sink::AnswerSink;
pub use context::RunContext;
pub use framing::{run_frames, run_frames_with};
pub use machine::Machine;
pub use processing::{MAX_TURN_EVENTS, process, process_with};
pub use segment::{event_range, processor_of};
pub use sequential::run_sequential;
pub use worked::{FrameWorkerOutput, Framed, Placed, Worked, WorkerBuffers, WorkerOutput};

//! A segment of a trace: its workers, in threads or in sequence, and their answers in the order of the history.
//!
//! If threads pay, or if the gate requests them, [`run_segment_with`] runs the workers that have events in parallel,
//! one of them in the calling thread. Otherwise the calling thread processes all events in file order
//! ([`MIN_PARALLEL_EVENTS`]). Its contract is the same in both cases:
//!
//! - The history grows only by events of the segment (`ran`), and on success by all of them (`whole`).
//! - An answer sink has their answers after its earlier answers. Each is the exchange's at its position of the history,
//!   with the octets that the engine outputs (`answered`).
//! - The machine is ready for the next frame (`whole`).
//!
//! A [`BufferPool`] has the buffers of the workers, which serve one segment after another. [`run_by_caller`] runs a
//! segment with a machine and a pool that stay where they are, which suits a short one ([`is_short`]). [`run_segment`]
//! runs one segment and returns complete answers. Segments that run in sequence have a lawful order
//! ([`segments_make_lawful_orders`]).
#![tactic(auto)]

mod answers;
mod apart;
mod batch;
mod buffer_pool;
mod by_caller;
mod choice;
mod dealing;
mod gathering;
mod laws;
mod merge;
mod parallel;
mod run;
mod working;

pub use answers::{SegmentAnswer, SegmentOutput};
pub use buffer_pool::BufferPool;
pub use by_caller::run_by_caller;
pub use choice::{MIN_PARALLEL_EVENTS, is_short};
pub use laws::{first_seat_is_chief, segments_leave_room, segments_make_lawful_orders};
pub use run::{run_segment, run_segment_with};

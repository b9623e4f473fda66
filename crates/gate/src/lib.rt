//! The places at which a caller can hold the threads of a segment.
//!
//! The threads call a [`Gate`] before and after the step of an event, and before and after the crossing of a frame.
//! [`OpenGate`] holds no thread. A [`TestGate`] makes two threads wait for each other, so a test sees that they ran at
//! once. The contracts of a gate guarantee nothing, so no reply can depend on it.
#![tactic(auto)]

mod gate;
mod test_gate;

pub use gate::{Gate, OpenGate};
pub use test_gate::TestGate;

//! Carries the octets of each frame, and defines the interface that every engine implements.
//!
//! - [`Carrier`] is that interface: `frame` outputs the octets that the engine's definition gives at the boundary
//!   (`plays`), and has carried one more frame afterwards (`carries`). The rows from `sounding` on are idle (`idle`).
//! - [`Engine`] is the engine of three stages and bridges. It outputs the octets that the definitions give each slot,
//!   for all layouts of two consecutive frames: octet invariance. Each internal slot of an outgoing line has the octet
//!   of the layout's path there (`carries`). A boxed engine is one too, and moves as one word.
//! - [`Marker`] outputs the number of the frame on every slot, for tests.
#![tactic(auto)]

mod age;
mod carrier;
mod engine;
mod in_a_box;
mod intake;
mod marker;
mod play;
mod ports;
mod resting;

pub use carrier::Carrier;
pub use engine::Engine;
pub use marker::Marker;

//! Stores the circuits with the paths and conference ports that carry them, and writes the control memory at each
//! frame's boundary, over any live map of paths (`PathMap`).
//!
//! - After `pair`, `seat`, `tone` and `clear` of [`CircuitMap`] the holding is the one that the definitions give
//!   (`holds`). Each states the circuit by which every slot receives afterwards (`hears`).
//! - `pair` and `seat` return the number of live paths that moved each way (`moves`, `few`). A seat is refused if and
//!   only if every port is taken (`full`), and then nothing changes (`refused`).
//! - `boundary` writes a control memory that shows the circuits, by a legal layout (`shows`).
#![tactic(auto)]

mod both_ways;
mod circuit_map;
mod next_memory;

pub use circuit_map::{CircuitMap, NoPort};

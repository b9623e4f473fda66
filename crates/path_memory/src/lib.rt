//! Stores the paths through a fabric of any number of internal slots up to 59, with Paull's matrix of them: the common
//! part of the maps of all fabrics.
//!
//! [`PathMemory`] stores the layout with its control tables, and the matrix, which has the internal slots of each line.
//! Its invariant states that the layout is legal and the matrix is the layout's.
//!
//! - `connect_in_common_slot` connects two free ends in the lowest internal slot that is free in both lines, and moves
//!   no path (`slot`, `connected`). If there is none, it changes nothing (`unchanged`).
//! - `disconnect` removes a path (`layout`). After each call the layout is legal (`legal`).
#![tactic(auto)]

mod memory;

pub use memory::PathMemory;

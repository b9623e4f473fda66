//! Connects and releases the live paths through a fabric of 30 internal slots, as a `PathMap`.
//!
//! [`FabricMap`] is a path memory of 30 slots. If no slot is free in both lines, it moves live paths along a chain of
//! Paull's matrix. `PathMap` has the clauses of its calls:
//!
//! - `connect` never refuses: the new path joins by the rule of rearrangement (`layout`), and at most r-1 live paths of
//!   r lines move (`few`). It returns the number of moved paths (`moves`).
//! - `disconnect` removes a path and moves no other (`layout`).
//! - `write_tables` writes the tables of the layout (`tables`). After each call the layout is legal
//!   (`legal`).
#![tactic(auto)]

mod fabric;

pub use fabric::{FabricMap, INTERNAL_SLOTS};

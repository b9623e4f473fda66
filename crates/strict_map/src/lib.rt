//! Connects and releases the live paths through a strict-sense non-blocking fabric, as a `PathMap`: with 59 internal
//! slots no path ever moves.
//!
//! - `connect` of [`StrictMap`] never refuses: the new path gets the lowest internal slot that is
//!   free in both lines (`layout`), and no live path moves (`moves`, `few`).
//! - `disconnect` removes a path and moves no other (`layout`). After each call the layout is legal (`legal`).
//!   `PathMap` has the clauses of these calls.
//! - [`nothing_moves`] states the same of layouts: by the rule of every fabric a new path moves no other (`unmoved`),
//!   and gets its own slot (`slot`).
//!
//! Source: C. Clos, "A study of non-blocking switching networks", Bell System Technical Journal 32
//! (1953): with n places on each of two lines, 2n-1 slots are enough.
#![tactic(auto)]

mod laws;
mod strict;

pub use laws::nothing_moves;
pub use strict::{STRICT_SLOTS, StrictMap};

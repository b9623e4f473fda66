//! Moves octets from incoming to outgoing highways in each internal slot: the space stage of the fabric.
//!
//! - [`cross`] gives each outgoing line, in each internal slot, the octet of the incoming line in the control table, or
//!   the idle octet if the table has no entry (`octets`).
//! - [`cross_part`] crosses to some outgoing lines, and writes their rows (`octets`).
//! - [`cross_shared`] and [`cross_split`] have the clauses of [`cross`]. They divide the lines by halves, and a
//!   half of enough octets gets a thread. The caller of [`cross_split`] sets that number. No clause states that the
//!   halves ran in parallel.
#![tactic(auto)]

mod crossbar;
mod overlay;
mod shared;
mod slotwise;
mod turning;

pub use crossbar::{cross, cross_part};
pub use shared::{cross_shared, cross_split};

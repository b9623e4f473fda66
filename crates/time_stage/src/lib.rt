//! Fetches the octets of each line in the order that the control memory gives: the time stages on both sides of the
//! space stage.
//!
//! - [`incoming`] fills each internal slot with the octet of the place in its table. [`outgoing`] fills each place with
//!   the octet of its internal slot. Both write the idle octet if the table has no entry (`octets`).
//! - [`incoming_shared`], [`outgoing_shared`], [`incoming_split`] and [`outgoing_split`] have the same clauses.
//!   They divide the lines by halves, and a half of enough octets gets a thread. The caller of the last two sets that
//!   number. No clause states that the halves ran in parallel.
//! - [`carry`] is all three stages in sequence: under any legal layout each path's outlet gets the octet of its inlet,
//!   and every other place the idle octet (`octets`).
#![tactic(auto)]

mod fabric;
mod interchange;
mod shared;
mod store;

pub use fabric::carry;
pub use interchange::{incoming, outgoing};
pub use shared::{incoming_shared, incoming_split, outgoing_shared, outgoing_split};

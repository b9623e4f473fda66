//! The side of the whole exchange that follows a trace: it processes the lines when they arrive. `exchange_top` has its
//! guarantees in words.
//!
//! - Before each read [`follow`] has written exactly the text of the lines read so far (`promise`). Its clause `ends` has
//!   a case for each ending (`FollowsTo`).
//! - The octets written do not depend on the pieces that are read ([`law_of_pieces`]).
#![tactic(auto)]

mod changing;
mod follow_loop;
mod follower;
mod following;
mod laws;
mod linked_stepping;
mod stepping;
mod telling;

pub use following::{FollowOutcome, follow};
pub use laws::law_of_pieces;

//! The tests of the maps of paths and of circuits: worked examples of the matrix, chains of moves, both maps, the
//! control memory that they write, the ports of rooms, and the map of circuits over both fabrics.
//!
//! They are separate from the crates that they test, so that each of those is proved once. The crate guarantees
//! nothing.
#![tactic(auto)]

#[cfg(test)]
mod tests;

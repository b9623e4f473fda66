//! The tests of the crates that switch octets: A-law octets and sums as other programs compute them, speech memories, the
//! stages of a fabric, and the engine.
//!
//! They are separate from the crates that they test, so that each of those is proved once. The crate guarantees
//! nothing.
#![tactic(auto)]

#[cfg(test)]
mod tests;

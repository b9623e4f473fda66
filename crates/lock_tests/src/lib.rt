//! Worked examples of the turn lock and of the gates, each on one thread and on several, and of the reads and writes of a
//! wire.
//!
//! They are separate from the crates that they test, so that each of those is proved once. The crate guarantees
//! nothing.
#![tactic(auto)]

#[cfg(test)]
mod tests;

//! Worked examples of the exchange below its texts: its core, and the shared exchange on one thread and on several. Others
//! are of the segments that its workers process.
//!
//! They are separate from the crates that they test, so that each of those is proved once. The crate guarantees
//! nothing.
#![tactic(auto)]

#[cfg(test)]
mod tests;

//! The tests of the signalling crates: messages from untrusted senders, the call table row by row, the number plan step
//! by step.
//!
//! They are separate from the crates that they test, so that each of those is proved once. The crate guarantees
//! nothing.
#![tactic(auto)]

#[cfg(test)]
mod tests;

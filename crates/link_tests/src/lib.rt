//! The tests of the data link: the table of states and frames, worked sequences, random loss over two links, frames of
//! untrusted senders, several lines, and the lines of traces and reports.
//!
//! They are separate from the crates that they test, so that each of those is proved once. The crate guarantees
//! nothing.
#![tactic(auto)]

#[cfg(test)]
mod tests;

//! Traces that are generated from a seed: a switch of eight lines with nailed connections, and calls in sequence. The
//! same seed and number of calls give the same octets everywhere.
//!
//! - The octets of [`generate`] are exactly the definition's in `specs/Traffic.antt`.
//! - Every line fits the exchange that the header describes (`fits` of [`laws::law_of_generated_lines`]), and the lengths are
//!   bounded ([`laws::law_of_lengths`]).
#![tactic(auto)]

mod call;
mod callee;
mod draws;
pub mod laws;
mod lines;
mod traffic;

pub use traffic::generate;

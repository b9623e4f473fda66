//! The traces that are generated from a seed: each is a trace of the grammar, for every seed.
//!
//! - [`generate_trace`] returns the trace that `traffic_gen` generates from a seed.
//! - [`law_of_generated_traces`]: each seed and number of calls has exactly one trace (`some`, `one`). It has the
//!   contents of the drawn lines (`told`). The definition states its exchange and its number of events (`sizes`,
//!   `events`), and no meter is changed in it (`changes`).
#![tactic(auto)]

mod laws;
mod reading;

pub use laws::law_of_generated_traces;
pub use reading::generate_trace;

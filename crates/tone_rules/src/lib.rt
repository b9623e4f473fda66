//! Gives the tone that a leg hears in its state, and the octets of the tones.
//!
//! - [`tone_for`] returns the tone of a state and a cause: ringing tone in call delivered, busy tone if a leg was
//!   cleared with user busy. [`tone_given`] returns it if its octets are given (`tone`, `octets`).
//! - [`tone_octet`] returns the octets of a tone in order, again and again.
//!
//! Nothing here allocates.
#![tactic(auto)]

mod call_tones;
mod laws;
mod table;
mod tones;

pub use call_tones::{tone_for, tone_given};
pub use laws::{law_of_given_tones, worked_tones};
pub use table::tone_octet;
pub use tones::{ToneOctets, Tones};

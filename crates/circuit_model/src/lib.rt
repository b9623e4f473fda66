//! Defines slots, circuits, and the octet that a slot receives in each frame.
//!
//! The types here are plain data. `specs/` defines the octet that a slot receives in a frame, and the crates above cite
//! those definitions in their contracts.
//!
//! - A circuit that exists in a frame since an earlier one existed in the frame before ([`law_of_age`]).
//! - Holdings stay valid under allowed commands ([`law_of_validity`]). Each slot receives by one circuit at most
//!   ([`law_of_one_circuit`]). [`law_of_commands`] gives the circuit by which it receives after each command.
//! - Each member of a room has its own port ([`law_of_ports`]).
#![tactic(auto)]

mod channel;
mod circuit;
mod holding_laws;
mod laws;
mod port_laws;

pub use channel::{CHANNELS_PER_LINE, Slot, channel_of, slot_of_channel};
pub use circuit::{Circuit, IDLE, Kind};
pub use holding_laws::{
    law_of_commands, law_of_frames, law_of_idle_slots, law_of_one_circuit, law_of_seats,
    law_of_validity, worked_holdings,
};
pub use laws::{law_of_age, worked_edges, worked_frames, worked_values};
pub use port_laws::{law_of_extent, law_of_ports};

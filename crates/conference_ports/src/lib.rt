//! Gives the ports of the conference bridges to members: 30 ports to a bridge line, one to a member.
//!
//! - `take` of [`Ports`] gives a member the lowest free port, and returns `None` if and only if there is none
//!   (`lowest`). `give` frees a member's port. Each has one result (`owners`, `members`).
//! - Each member has one port and each port one member: the members are a map from ports, as in
//!   `circuit_model/specs/Ports.antt`.
#![tactic(auto)]

mod occupant;
mod ports;

pub use occupant::Occupant;
pub use ports::Ports;

//! Replies to messages of ITU-T Q.931 (05/98) that are for no call, and reads and writes RESTART.
//!
//! The rules are definitions in `specs/`, this project's profile of sections 5.5 and 5.8.3.
//!
//! - [`unknown_reference`] returns the reply to a message on a call reference without a leg.
//! - [`restart`] returns the restart that a message requests, and `None` if and only if it is not an accepted RESTART
//!   (`asked`). [`restart_acknowledge`] returns the RESTART ACKNOWLEDGE, and [`restart_request`] a RESTART.
//!   [`acknowledged_restart`] returns the restart that a RESTART ACKNOWLEDGE confirms (`acknowledged`).
//! - Every such reply can be written ([`law_of_answers`]).
//!
//! Nothing here allocates.
#![tactic(auto)]

mod cause;
mod laws;
mod restart_message;
mod scope;
mod unknown_reference_message;

pub use cause::cause_in;
pub use laws::{law_of_answers, law_of_global_reference, worked_answers, worked_restarts};
pub use restart_message::{
    GLOBAL_CALL_REFERENCE, acknowledged_restart, restart, restart_acknowledge, restart_request,
};
pub use scope::Restart;
pub use unknown_reference_message::unknown_reference;

//! The code of calls: the rules of `call_profile`, carried out on the map of circuits and the table of legs.
//!
//! - [`CallControl`] holds the circuits, with their paths and ports, and the legs of the calls, with the numbers in
//!   overlap sending. The two represent an exchange state (`Holds`), and each operation changes it as its definition
//!   states.
//! - `handle_message` sends the replies of the rules and replaces the exchange state by the next one (`makes`,
//!   `records`), for any octets. It moves few paths (`few`), and does not allocate.
//! - `handle_timers` processes the legs of a frame whose timers have expired (`makes`, `records`).
//! - `link_down` and `link_up` process a failure and the establishment of a line's data link (`makes`, `records`).
//!   `restart_interface` restarts a line (`makes`, `records`).
//! - [`preparse`] parses a message before its turn: the result depends only on the octets and the number plan
//!   (`read`).
#![tactic(auto)]

mod acts;
mod asked;
mod digits;
mod ended_calls;
mod expiring;
mod line_restarts;
mod link_changes;
mod messages;
mod new_call;
mod operations;
mod preparsing;
mod restarting;
mod sending;
mod setup;
mod setup_checks;

pub use operations::CallControl;
pub use preparsing::{DialledNumber, PreparsedMessage, Received, preparse};

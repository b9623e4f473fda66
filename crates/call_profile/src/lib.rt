//! Defines the rules of calls, in specifications that are read from top to bottom. `Step` gives the reply to each event
//! and the exchange state after it. `Calls` gives the request of a message, and `ActCourse`, `Digits`, `Setup` and
//! `Restarts` its list of operations (`Operations`). `LinkChanges` gives the operations of a data link that goes down or
//! comes up, and of the restart of a line. `Expiring` gives the turn of a frame. A few functions read a leg or a circuit
//! ([`is_addressed_to`], [`waiting_from`], [`retransmitted_from`], [`is_calling`], [`party_of`], [`first_frame_of`]).
//! The definitions are evaluated on small exchanges ([`worked_calls`]). The crate `call_laws` has the theorems on them.
#![tactic(auto)]

mod legs;
mod records;
mod worked;

pub use legs::{is_addressed_to, retransmitted_from, waiting_from};
pub use records::{first_frame_of, is_calling, party_of};
pub use worked::{
    worked_acknowledgements, worked_calls, worked_digits, worked_expiries, worked_line_restarts,
    worked_links, worked_messages, worked_outages, worked_overlap,
};

//! Theorems on the rules of calls, which `call_profile` defines:
//!
//! - Every event keeps the legs consistent ([`law_of_legs`]). A number is pending at exactly those legs that wait for
//!   further digits. The state of a leg determines the circuit by which its slot receives. In release request, the
//!   stored RELEASE determines it. A refused command changes nothing ([`law_of_refusals`]), and neither does a refused
//!   SETUP ([`law_of_refused_calls`]).
//! - The turn of a frame, in which timers expire (`Expiring`), sends at most two messages and records at most one call
//!   for each external line. It changes only legs of calls with an expired timer, and no connection unless T309 expires
//!   ([`law_of_expiries`]).
//! - T309 of a leg in state 10 runs if and only if the data link of its line is down ([`law_of_outages`]). In a trace in
//!   which no link fails it never expires ([`law_of_unfailing_links`]). If it expires, the call is cleared and recorded
//!   ([`law_of_lost_legs`]).
//! - After an outage each channel of the line is accounted for ([`law_of_reconciliation`]). When the data link is up, the
//!   user is sent RESTART for each channel whose leg the outage removed, STATUS ENQUIRY for each leg in state 10, and the
//!   stored RELEASE for each leg in state 19. T305 of each leg in state 12 runs, and its expiry sends RELEASE. After a
//!   failure no other leg of the line is left ([`law_of_link_failures`]). If the link fails again before it delivers
//!   these messages, the next establishment repeats them. T316 does not run, but RESTART is repeated at each establishment
//!   until it is acknowledged ([`law_of_unconfirmed_channels`]). Theorems state which RESTARTs are owed
//!   ([`law_of_owed_restarts`]) and the effect of a reply to an enquiry ([`law_of_enquiry_replies`]).
//! - A number of several lines gets the lowest idle slot of the first line that has one ([`law_of_hunting`]).
//! - Further digits are refused with cause 34 only if each called line is down or has no idle slot, and with cause 42
//!   only if no port is free. They end no call, so nothing is recorded ([`law_of_digits`]).
//! - The layout of the paths and the number of internal slots decide only how many paths move
//!   ([`law_of_paths`], [`law_of_fabrics`]). An answered call and a granted nail get both paths
//!   ([`law_of_answered_calls`], [`law_of_granted_nails`]).
//! - Theorems state the calls that a message and a frame record ([`law_of_records`], [`law_of_frame_records`]) and the
//!   call reference of a new leg ([`law_of_references`]). They also state the legs after a RESTART
//!   ([`law_of_restarts`]), after the failure of a data link ([`law_of_link_failures`]) and after its establishment
//!   ([`law_of_link_establishments`]), and the messages that inform a user of a tone ([`law_of_progress`]). The exchange
//!   restarts a line, and records the calls that this ends ([`law_of_line_restarts`]).
//! - Allowed commands made the circuits of each frame ([`worlds_are_made`]), and later events do not change its octets
//!   ([`later_frames_change_nothing`]).
#![tactic(auto)]

mod calls;
mod commands;
mod legs;
mod outages;
mod runs;

pub use calls::{
    law_of_answered_calls, law_of_digits, law_of_expiries, law_of_hunting, law_of_legs,
    law_of_paths, law_of_refused_calls,
};
pub use commands::{law_of_granted_nails, law_of_refusals};
pub use legs::{
    law_of_frame_records, law_of_line_restarts, law_of_link_establishments, law_of_link_failures,
    law_of_progress, law_of_records, law_of_references, law_of_restarts,
};
pub use outages::{
    law_of_enquiry_replies, law_of_lost_legs, law_of_outages, law_of_owed_restarts,
    law_of_reconciliation, law_of_unconfirmed_channels, law_of_unfailing_links,
};
pub use runs::{later_frames_change_nothing, law_of_fabrics, worlds_are_made};

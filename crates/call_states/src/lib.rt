//! Maps each message of ITU-T Q.931 (05/98) and the state of a leg to the act of the exchange: the call table.
//!
//! The table is a definition in `specs/`, one line for each message type. It is this project's profile of the
//! recommendation's basic call control.
//!
//! - [`on_message`] returns the act of the table, for every message and leg, and [`Act::cause`] its cause.
//! - [`status_message`] and [`unexpected`] return the STATUS that reports a leg's state, with its cause.
//!
//! [`Condition`] states whether the user of a channel without a leg has confirmed that it is idle.
//! [`Pending`] stores the contents of a call in overlap sending. Nothing here allocates.
#![tactic(auto)]

mod act;
mod condition;
mod laws;
mod leg;
mod pending;
mod status;
mod table;

pub use act::Act;
pub use condition::Condition;
pub use laws::{law_of_channels, law_of_passed_causes, law_of_status};
pub use leg::{HeldLeg, Leg, Peer, Side};
pub use pending::{Contents, Pending};
pub use status::{status_message, unexpected};
pub use table::on_message;

//! The exchange without its octets: the state after each event of a trace, and the reply to it.
//!
//! - [`Core`]'s `step` and `step_into` return the reply that the rules give in the exchange state of the journal
//!   (`reply`). They replace that state by the next one (`world`), and add an entry to the journal (`journal`). The
//!   control memory of a frame shows the state before the frame (`shows`). A step moves at most the number of live
//!   paths that the fabric guarantees (`few`). After each step the paths join exactly the existing circuits (`laid`,
//!   `joins`).
//! - [`Switchboard`] is the interface of an exchange that many callers share. A caller can pass a [`StepContext`],
//!   which stores a message that is parsed before its turn (`preparse`). `shared_exchange` implements the interface.
//!
//! `exchange_events` defines the events, and `call_profile` the rules of calls. The code of the rules is in
//! `call_control`.
#![tactic(auto)]

mod commands;
mod step;
mod step_context;
mod switchboard;
mod tool;

pub use call_control::{DialledNumber, PreparsedMessage};
pub use exchange_events::{
    Answer, CallRecord, Encoded, Event, Events, Input, Kept, Octets, Outbox, Party, RecordList,
    Records, Reply, Response, Rows, Segments, Signal, SignalList, Signals, Trace,
};
pub use step::{Core, happen};
pub use step_context::StepContext;
pub use switchboard::Switchboard;
pub use tool::Tool;

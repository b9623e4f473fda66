//! Defines the events of an exchange and its replies: the types that its reader, its core, its printer and its meters
//! share.
//!
//! - A [`Trace`] is a list of events ([`Event`]). Every part of the exchange requires a sound one (`IsSound`).
//! - A [`Reply`] is the result of one event: the connection, the messages that were sent ([`Signal`]), and the records
//!   of the calls that ended ([`CallRecord`]). A step puts the lists into the [`Outbox`] that it gets, and returns a
//!   small [`Response`]. `reply_of` gives the reply of the two.
//! - [`Answer::keep`] and [`Answer::keep_response`] store exactly their arguments (`event`, `reply`, `octets`).
//! - The order of the file is a lawful one ([`file_order_is_lawful`]).
#![tactic(auto)]

mod answer;
mod input;
mod laws;
mod list;
mod octets;
mod outbox;
mod record;
mod reply;
mod signal;
mod trace;

pub use answer::{Answer, Kept, RecordList, Rows, SignalList};
pub use input::{Input, InputStorage};
pub use laws::file_order_is_lawful;
pub use list::ListOf;
pub use octets::{INLINE_OCTETS, OctetStorage, Octets};
pub use outbox::{Outbox, Response};
pub use record::{CallRecord, MAX_RECORDS, Party, Records};
pub use reply::Reply;
pub use signal::{Encoded, MAX_SENDS, Signal, Signals};
pub use trace::{Changes, Event, Events, Segments, Trace};

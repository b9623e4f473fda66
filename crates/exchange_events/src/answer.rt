//! Stored answers, with their lists.
ghost use Rattle.std.specs.Prelude.{◌≡◌, IfOk};
ghost use Rattle.exchange_events.specs.Kept.{kept_of};
ghost use Rattle.exchange_events.specs.Responses.{reply_of};

use crate::list::ListOf;
use crate::outbox::{Outbox, Response};
use crate::record::CallRecord;
use crate::reply::Reply;
use crate::signal::Signal;
use std::alloc::{AllocError, Global};

/// Messages that were sent, in order. Contracts see their list.
pub type SignalList = ListOf<Signal>;

/// Records of calls, in order. Contracts see their list.
pub type RecordList = ListOf<CallRecord>;

/// The octets of a frame: for each external line 30, in order of place. Contracts see their list.
pub type Rows = ListOf<[u8; 30]>;

/// A [`Reply`] with its lists on the heap, each of exactly its length, so that replies can be stored. Each variant is
/// the reply of that name.
#[derive(Debug, Drop)]
pub enum Kept {
    Granted(u32, u32),
    Busy,
    Seated(u32, u32),
    NoPort,
    Freed,
    NotNailed,
    Sent {
        /// The messages that were sent, in order.
        sends: SignalList,
        /// The numbers of live paths that moved for the path there and for the one back, if the message made a
        /// connection or joined a room.
        moved: Option<(u32, u32)>,
        /// The records of the calls that the message began to clear, in order.
        records: RecordList,
    },
    Frame {
        /// The number of the frame.
        number: u32,
        /// The messages that were sent, in order.
        sends: SignalList,
        /// The records of the calls that ended, in order.
        records: RecordList,
    },
}

/// The stored answer to an event, until it is reported.
#[derive(Debug, Drop)]
pub struct Answer {
    /// The number of the event, counted from 1.
    pub event: u32,
    /// The reply of the exchange.
    pub reply: Kept,
    /// The octets that each external line sends, if the event is a frame.
    pub octets: Rows,
}

impl Answer {
    /// Stores the answer to an event: its number, the reply, and the octets that each external line sends if it is a
    /// frame. A reply without messages and records, of an event without octets, allocates nothing.
    ///
    /// # Errors
    ///
    /// Returns [`AllocError`] if an allocation fails.
    pub fn keep(
        alloc: Global,
        event: u32,
        reply: &Reply,
        octets: &[[u8; 30]],
    ) -> Result<Answer, AllocError>
        ensures event { IfOk result (λ a. a.event ≡ event) }
        ensures reply { IfOk result (λ a. a.reply ≡ kept_of reply.now) }
        ensures octets { IfOk result (λ a. a.octets ≡ octets.now) }
    {
        answer_of(alloc, event, keep_reply(alloc, reply)?, octets)
    }
}

impl Answer {
    /// Stores the answer to an event, from a response and the outbox of its step.
    ///
    /// # Errors
    ///
    /// Returns [`AllocError`] if an allocation fails.
    pub fn keep_response(
        alloc: Global,
        event: u32,
        response: Response,
        out: &Outbox,
        octets: &[[u8; 30]],
    ) -> Result<Answer, AllocError>
        ensures event { IfOk result (λ a. a.event ≡ event) }
        ensures reply { IfOk result (λ a. a.reply ≡ kept_of (reply_of response out.now)) }
        ensures octets { IfOk result (λ a. a.octets ≡ octets.now) }
    {
        answer_of(alloc, event, keep_with(alloc, response, out)?, octets)
    }
}

// Returns the answer with a stored reply.
fn answer_of(
    alloc: Global,
    event: u32,
    reply: Kept,
    octets: &[[u8; 30]],
) -> Result<Answer, AllocError>
    ensures event { IfOk result (λ a. a.event ≡ event) }
    ensures reply { IfOk result (λ a. a.reply ≡ reply) }
    ensures octets { IfOk result (λ a. a.octets ≡ octets.now) }
{
    Ok(Answer {
        event,
        reply,
        octets: Rows::of(Vec::from_slice(alloc, octets)?),
    })
}

fn keep_with(alloc: Global, response: Response, out: &Outbox) -> Result<Kept, AllocError>
    ensures { IfOk result (λ k. k ≡ kept_of (reply_of response out.now)) }
{
    Ok(match response {
        Response::Granted(a, b) => Kept::Granted(a, b),
        Response::Busy => Kept::Busy,
        Response::Seated(a, b) => Kept::Seated(a, b),
        Response::NoPort => Kept::NoPort,
        Response::Freed => Kept::Freed,
        Response::NotNailed => Kept::NotNailed,
        Response::Sent => {
            let (sends, records) = keep_lists(alloc, out.sends.as_slice(), out.records.as_slice())?;
            Kept::Sent {
                sends,
                moved: out.moved,
                records,
            }
        }
        Response::Frame(number) => {
            let (sends, records) = keep_lists(alloc, out.sends.as_slice(), out.records.as_slice())?;
            Kept::Frame {
                number,
                sends,
                records,
            }
        }
    })
}

fn keep_reply(alloc: Global, reply: &Reply) -> Result<Kept, AllocError>
    ensures { IfOk result (λ k. k ≡ kept_of reply.now) }
{
    Ok(match reply {
        Reply::Granted(a, b) => Kept::Granted(*a, *b),
        Reply::Busy => Kept::Busy,
        Reply::Seated(a, b) => Kept::Seated(*a, *b),
        Reply::NoPort => Kept::NoPort,
        Reply::Freed => Kept::Freed,
        Reply::NotNailed => Kept::NotNailed,
        Reply::Sent {
            sends,
            moved,
            records,
        } => {
            let (sends, records) = keep_lists(alloc, sends.as_slice(), records.as_slice())?;
            Kept::Sent {
                sends,
                moved: *moved,
                records,
            }
        }
        Reply::Frame {
            number,
            sends,
            records,
        } => {
            let (sends, records) = keep_lists(alloc, sends.as_slice(), records.as_slice())?;
            Kept::Frame {
                number: *number,
                sends,
                records,
            }
        }
    })
}

fn keep_lists(
    alloc: Global,
    signals: &[Signal],
    records: &[CallRecord],
) -> Result<(SignalList, RecordList), AllocError>
    ensures { IfOk result (λ lists. (lists.0 ≡ signals.now) × (lists.1 ≡ records.now)) }
{
    let signals = keep_signals(alloc, signals)?;
    let records = keep_records(alloc, records)?;
    Ok((signals, records))
}

fn keep_signals(alloc: Global, signals: &[Signal]) -> Result<SignalList, AllocError>
    ensures { IfOk result (λ list. list ≡ signals.now) }
{
    Ok(SignalList::of(Vec::from_clones(alloc, signals)?))
}

fn keep_records(alloc: Global, records: &[CallRecord]) -> Result<RecordList, AllocError>
    ensures { IfOk result (λ list. list ≡ records.now) }
{
    Ok(RecordList::of(Vec::from_slice(alloc, records)?))
}

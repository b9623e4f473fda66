//! The messages and records of a step, and the small response that goes with them.
ghost use Rattle.std.specs.Prelude.{◌≡◌, [], None};
ghost use Rattle.exchange_events.specs.Responses.{reply_of};

use crate::record::Records;
use crate::reply::Reply;
use crate::signal::Signals;

/// The messages, moved paths and records of a step. Steps share one outbox, so that no step pays for its space.
#[derive(Debug, Drop)]
pub struct Outbox {
    /// The messages that were sent, in order.
    pub sends: Signals,
    /// The numbers of live paths that moved for a message's connection or membership.
    pub moved: Option<(u32, u32)>,
    /// The records of the calls that ended, in order.
    pub records: Records,
}

impl Outbox {
    /// Returns an empty outbox.
    pub fn new() -> Outbox
        ensures sends { result.sends ≡ [] }
        ensures moved { result.moved ≡ None }
        ensures records { result.records ≡ [] }
    {
        Outbox {
            sends: Signals::new(),
            moved: None,
            records: Records::new(),
        }
    }

    /// Makes the outbox empty.
    pub fn clear(&mut self)
        ensures sends { self.new.sends ≡ [] }
        ensures moved { self.new.moved ≡ None }
        ensures records { self.new.records ≡ [] }
    {
        self.sends.clear();
        self.moved = None;
        self.records.clear();
    }
}

/// A [`Reply`] without its lists, which are in the outbox that the step got. Each variant is the reply
/// of that name.
#[derive(Clone, Copy, Debug, PartialEq, Eq)]
pub enum Response {
    Granted(u32, u32),
    Busy,
    Seated(u32, u32),
    NoPort,
    Freed,
    NotNailed,
    Sent,
    /// The number of the frame.
    Frame(u32),
}

impl Response {
    /// Returns the reply, with the lists of the outbox.
    pub fn into_reply(self, out: Outbox) -> Reply
        ensures { result ≡ reply_of self out }
    {
        match self {
            Response::Granted(there, back) => Reply::Granted(there, back),
            Response::Busy => Reply::Busy,
            Response::Seated(there, back) => Reply::Seated(there, back),
            Response::NoPort => Reply::NoPort,
            Response::Freed => Reply::Freed,
            Response::NotNailed => Reply::NotNailed,
            Response::Sent => Reply::Sent {
                sends: out.sends,
                moved: out.moved,
                records: out.records,
            },
            Response::Frame(number) => Reply::Frame {
                number,
                sends: out.sends,
                records: out.records,
            },
        }
    }
}

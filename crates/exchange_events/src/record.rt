//! The records of calls that ended.
ghost use Rattle.std.specs.Prelude.{◌≡◌, ◌==◌, ◌<◌, [], ◌∷◌, ◌++◌, length};
ghost use Rattle.std.specs.Slice.Iter.{iter_rest};
ghost use Rattle.exchange_events.specs.Limits.{max_records};

use arrayvec::ArrayVec;
use circuit_model::Slot;
use std::marker::Model;
use std::slice;

/// The maximum number of calls that a step ends. Source: this project.
pub const MAX_RECORDS: usize = 64;

/// The party that a caller was, or was to be, connected with.
#[derive(Clone, Copy, Debug, PartialEq, Eq)]
pub enum Party {
    /// The slot of a called user.
    Line(Slot),
    /// A conference room, 0 to 63.
    Room(u8),
}

/// The record of a call whose clearing has begun.
#[derive(Clone, Copy, Debug, PartialEq, Eq)]
pub struct CallRecord {
    /// The slot of the caller.
    pub caller: Slot,
    /// The called party.
    pub called: Party,
    /// Whether the call was answered.
    pub answered: bool,
    /// The first frame of the conversation. For a call that was not answered it equals `to`.
    pub from: u32,
    /// The number of the next frame when the clearing began.
    pub to: u32,
    /// The cause value (ITU-T Q.931, 4.5.12) with which the clearing began.
    pub cause: u8,
}

impl Default for CallRecord {
    fn default() -> CallRecord {
        CallRecord {
            caller: Slot { line: 0, place: 0 },
            called: Party::Room(0),
            answered: false,
            from: 0,
            to: 0,
            cause: 0,
        }
    }
}

/// The records of the calls that a step ended, in order, at most 64. Contracts see their list.
#[derive(Debug, Drop)]
pub struct Records {
    items: ArrayVec<CallRecord, MAX_RECORDS>,
}

impl Model for Records {
    ghost use Rattle.std.specs.Prelude.{List};
    ghost use Rattle.exchange_events.specs.declared.record.CallRecord.{CallRecord};

    ghost Value = { List CallRecord };

    ghost view = { λ r. r.items.items };
}

impl Records {
    /// Returns no records.
    pub fn new() -> Records
        ensures { result ≡ [] }
    {
        Records {
            items: ArrayVec::new(),
        }
    }

    /// Takes these records.
    pub fn of(items: ArrayVec<CallRecord, MAX_RECORDS>) -> Records
        ensures { result ≡ items.items }
    {
        Records { items }
    }

    /// Returns the records in order.
    pub fn as_slice(&self) -> &[CallRecord]
        ensures { result.now ≡ self.now }
    {
        self.items.as_slice()
    }

    /// Returns the number of records.
    pub fn len(&self) -> usize
        ensures { result ≡ length self.now }
    {
        self.as_slice().len()
    }

    /// Returns whether there is no record.
    pub fn is_empty(&self) -> bool
        ensures { result ≡ (length self.now == 0) }
    {
        self.len() == 0
    }

    /// Removes all records.
    pub fn clear(&mut self)
        ensures { self.new ≡ [] }
    {
        self.items.clear();
    }

    /// Appends a record.
    pub fn push(&mut self, call: CallRecord)
        requires { length self.old < max_records }
        ensures { self.new ≡ self.old ++ call ∷ [] }
    {
        self.items.push(call);
    }
}

impl<'a> IntoIterator for &'a Records {
    type Item = &'a CallRecord;

    type IntoIter = slice::Iter<'a, CallRecord>;

    ghost into_iter_gives = { λ list it. iter_rest it ≡ list.now };

    fn into_iter(self) -> Self::IntoIter {
        self.as_slice().iter()
    }
}

//! Messages to the users of lines, as octets.
ghost use Rattle.std.specs.Prelude.{◌≡◌, ◌==◌, ◌<◌, ◌≤◌, ◌+◌, [], ◌∷◌, ◌++◌, length};
ghost use Rattle.std.specs.Slice.Iter.{iter_rest};
ghost use Rattle.exchange_events.specs.Limits.{max_sends};

use arrayvec::ArrayVec;
use q931_elements::MAX_MESSAGE_LEN;
use std::fmt::{self, Debug, Formatter, Write};
use std::marker::Model;
use std::slice;

/// The maximum number of messages that a step sends. Source: this project.
pub const MAX_SENDS: usize = 64;

/// The octets of a message that is sent. Contracts see their list.
#[derive(Clone, Debug, Default, Drop)]
pub struct Encoded {
    octets: ArrayVec<u8, MAX_MESSAGE_LEN>,
}

impl Model for Encoded {
    ghost use Rattle.std.specs.Prelude.{List, ℕ};

    ghost Value = { List ℕ };

    ghost view = { λ e. e.octets.items };
}

impl Encoded {
    /// Takes these octets.
    pub fn of(items: ArrayVec<u8, MAX_MESSAGE_LEN>) -> Encoded
        ensures { result ≡ items.items }
    {
        Encoded { octets: items }
    }

    /// Returns the octets in the order in which they are sent.
    pub fn as_slice(&self) -> &[u8]
        ensures octets { result.now ≡ self.now }
        ensures short { length result.now ≤ 112 }
    {
        self.octets.as_slice()
    }

    /// Returns a copy of the octets. It allocates nothing.
    pub fn copied(&self) -> Encoded
        ensures { result ≡ self.now }
    {
        let mut copied = Encoded {
            octets: ArrayVec::new(),
        };
        copied.copy_from(self);
        copied
    }

    /// Copies the octets of another message. It allocates nothing, clears the octets of the old message first, and
    /// touches no octet after the longer of the two. Most messages are far shorter than the capacity.
    pub fn copy_from(&mut self, other: &Encoded)
        ensures { self.new ≡ other.now }
    {
        self.octets.clear();
        match self.octets.try_extend_from_slice(other.octets.as_slice()) {
            Ok(()) => {}
            Err(_) => unreachable!(),
        }
    }
}

impl<'a> IntoIterator for &'a Encoded {
    type Item = &'a u8;

    type IntoIter = slice::Iter<'a, u8>;

    ghost into_iter_gives = { λ list it. iter_rest it ≡ list.now };

    fn into_iter(self) -> Self::IntoIter {
        self.as_slice().iter()
    }
}

/// A message that goes to the user of a line.
#[derive(Clone, Debug, Default, Drop)]
pub struct Signal {
    /// The line, from 0 up.
    pub line: u8,
    /// The message.
    pub octets: Encoded,
}

/// The messages that a step sends, in order, at most 64. Contracts see their list.
///
/// Clearing a list leaves its messages in place, and the next ones overwrite them. Clearing the octets of one would
/// cost as much as writing it.
#[derive(Drop)]
pub struct Signals {
    items: ArrayVec<Signal, MAX_SENDS>,
    // The number of messages that count.
    count: usize,
}

impl Model for Signals {
    ghost use Rattle.std.specs.Prelude.{◌≤◌, List, length, take};
    ghost use Rattle.exchange_events.specs.declared.signal.Signal.{Signal};

    ghost Value = { List Signal };

    ghost view = { λ s. take s.count s.items.items };

    ghost invariant = { λ s. s.count ≤ length s.items.items };
}

impl Signals {
    /// Returns no messages.
    pub fn new() -> Signals
        ensures { result ≡ [] }
    {
        Signals {
            items: ArrayVec::new(),
            count: 0,
        }
    }

    /// Takes these messages.
    pub fn of(items: ArrayVec<Signal, MAX_SENDS>) -> Signals
        ensures { result ≡ items.items }
    {
        let count = items.len();
        Signals { items, count }
    }

    /// Returns the messages in the order in which they are sent.
    pub fn as_slice(&self) -> &[Signal]
        ensures sends { result.now ≡ self.now }
        ensures few { length result.now ≤ max_sends }
    {
        &self.items.as_slice()[..self.count]
    }

    /// Returns the number of messages.
    pub fn len(&self) -> usize
        ensures { result ≡ length self.now }
    {
        self.as_slice().len()
    }

    /// Returns whether there is no message.
    pub fn is_empty(&self) -> bool
        ensures { result ≡ (length self.now == 0) }
    {
        self.len() == 0
    }

    /// Removes all messages.
    pub fn clear(&mut self)
        ensures { self.new ≡ [] }
    {
        self.count = 0;
    }

    /// Appends a message.
    pub fn push(&mut self, signal: Signal)
        requires { length self.old < max_sends }
        ensures { self.new ≡ self.old ++ signal ∷ [] }
    {
        if self.count < self.items.len() {
            self.items.as_mut_slice()[self.count] = signal;
        } else {
            self.items.push(signal);
        }
        self.count += 1;
    }
}

impl Debug for Signals {
    fn fmt<W: Write>(&self, f: &mut Formatter<W>) -> fmt::Result {
        self.as_slice().fmt(f)
    }
}

impl<'a> IntoIterator for &'a Signals {
    type Item = &'a Signal;

    type IntoIter = slice::Iter<'a, Signal>;

    ghost into_iter_gives = { λ list it. iter_rest it ≡ list.now };

    fn into_iter(self) -> Self::IntoIter {
        self.as_slice().iter()
    }
}

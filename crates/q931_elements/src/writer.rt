//! A message in writing, octet by octet and element by element.

use arrayvec::ArrayVec;
use std::marker::Model;

/// The greatest number of octets of a message that the exchange writes.
pub const MAX_MESSAGE_LEN: usize = 112;

/// Writes a message from its first octet on. Contracts see its octets so far.
#[derive(Debug, Drop)]
pub struct Writer {
    octets: ArrayVec<u8, MAX_MESSAGE_LEN>,
}

impl Model for Writer {
    ghost use Rattle.std.specs.Prelude.{ℕ, List};

    ghost Value = { List ℕ };

    ghost view = { λ w. w.octets.items };
}

impl Writer {
    ghost use Rattle.std.specs.Prelude.{◌≡◌, ◌+◌, ◌≤◌, List, [], ◌∷◌, ◌++◌, length};
    ghost use Rattle.q931_elements.specs.Limits.{max_message_len};

    /// Returns an empty writer, with capacity for the longest message.
    pub fn new() -> Writer
        ensures empty { result ≡ [] }
        ensures room { MAX_MESSAGE_LEN ≡ max_message_len }
    {
        Writer {
            octets: ArrayVec::new(),
        }
    }

    /// Writes one octet: one of the header, or a single octet information element (Q.931, 4.5.1). One call for both has
    /// one contract.
    pub fn single(&mut self, code: u8)
        requires { length self.old + 1 ≤ max_message_len }
        ensures { self.new ≡ self.old ++ code ∷ [] }
    {
        self.octets.push(code);
    }

    /// Writes a variable length information element: its identifier, the length of its contents, and
    /// the contents (Q.931, 4.5.1).
    pub fn element(&mut self, code: u8, contents: &[u8])
        requires { length self.old + 2 + length contents.now ≤ max_message_len }
        ensures { self.new ≡ self.old ++ code ∷ length contents.now ∷ contents.now }
    {
        self.octets.push(code);
        self.octets.push(contents.len() as u8);
        if self.octets.try_extend_from_slice(contents).is_err() {
            unreachable!();
        }
    }

    /// Returns the octets that were written.
    pub fn finish(self) -> ArrayVec<u8, MAX_MESSAGE_LEN>
        ensures { result.items ≡ self }
    {
        self.octets
    }
}

//! The input of one frame.
ghost use Rattle.std.specs.Prelude.{◌≡◌, replicate, None};
ghost use Rattle.std.specs.Slice.Iter.{iter_rest};

use std::marker::Model;
use std::slice;

/// The input of one frame: for each external line its 30 octets in order of place, or nothing if the line is idle.
/// Contracts see it as that list.
#[derive(Debug, Drop)]
pub struct Input {
    held: InputStorage,
}

/// The storage of a frame's input. A frame in which all lines are idle is stored as their number.
#[derive(Debug, Drop)]
pub enum InputStorage {
    Idle(u8),
    Rows(Vec<Option<[u8; 30]>>),
}

// The rows of the largest number of idle lines that a frame without an allocation has.
static IDLE_ROWS: [Option<[u8; 30]>; 255] = [None; 255];

impl Model for Input {
    ghost use Rattle.std.specs.Prelude.{List, ℕ, Option};
    ghost use Rattle.exchange_events.specs.InputStorage.{rows_in};

    ghost Value = { List (Option (List ℕ)) };

    ghost view = { λ i. rows_in i.held };
}

impl Input {
    /// Takes the octets of these lines.
    pub fn of(items: Vec<Option<[u8; 30]>>) -> Input
        ensures { result ≡ items.items }
    {
        Input {
            held: InputStorage::Rows(items),
        }
    }

    /// Returns the input of a frame in which this number of lines is idle. It does not allocate.
    pub fn idle(lines: u8) -> Input
        ensures { result ≡ replicate lines None }
    {
        Input {
            held: InputStorage::Idle(lines),
        }
    }

    /// Returns the octets of the lines, in order.
    pub fn as_slice(&self) -> &[Option<[u8; 30]>]
        ensures { result.now ≡ self.now }
    {
        match &self.held {
            InputStorage::Idle(lines) => &IDLE_ROWS[..usize::from(*lines)],
            InputStorage::Rows(rows) => rows.as_slice(),
        }
    }
}

impl<'a> IntoIterator for &'a Input {
    type Item = &'a Option<[u8; 30]>;

    type IntoIter = slice::Iter<'a, Option<[u8; 30]>>;

    ghost into_iter_gives = { λ list it. iter_rest it ≡ list.now };

    fn into_iter(self) -> Self::IntoIter {
        self.as_slice().iter()
    }
}

//! The source of a slot's octets, in one word.
ghost use Rattle.std.specs.Prelude.{◌≡◌, ⊤};
ghost use Rattle.control_memory.specs.HeardWords.{is_path_before};

use crate::heard::Heard;
use circuit_model::Kind;
use std::alloc::AllocError;
use std::marker::Model;

// The words of paths are below this one, and the words of ringing tones begin with it.
const RINGBACK: u64 = 1 << 32;

// The first word of busy tones.
const BUSY: u64 = 2 << 32;

// The word of a silent slot.
const SILENT: u64 = 3 << 32;

/// The source of a slot's octets, as a number. One comparison finds whether a path is received yet, so a row needs no
/// branch. Contracts see the [`Heard`].
#[derive(Debug, Drop)]
pub struct HeardWord {
    number: u64,
}

impl Model for HeardWord {
    ghost use Rattle.std.specs.Prelude.{◌<◌};
    ghost use Rattle.control_memory.specs.declared.heard.Heard.{Heard};
    ghost use Rattle.control_memory.specs.HeardWords.{heard_in};

    ghost Value = { Heard };

    ghost view = { λ w. heard_in w.number };

    // As a signed number it is the same, and two of those compare in one instruction of vector code.
    ghost invariant = { λ w. w.number < 9223372036854775808 };
}

impl Clone for HeardWord {
    ghost is_clone = { λ x y. y ≡ x };

    ghost is_infallible = { λ _. ⊤ };

    fn clone(&self) -> Result<HeardWord, AllocError> {
        Ok(self.copied())
    }
}

impl From<Heard> for HeardWord {
    ghost from_gives = { λ heard word. word ≡ heard };

    fn from(heard: Heard) -> HeardWord {
        let number = match heard {
            Heard::Silent => SILENT,
            Heard::Path { since } => u64::from(since),
            Heard::Tone {
                kind: Kind::Ringback,
                since,
            } => RINGBACK + u64::from(since),
            Heard::Tone {
                kind: Kind::Busy,
                since,
            } => BUSY + u64::from(since),
        };
        HeardWord { number }
    }
}

impl HeardWord {
    /// Returns the same word.
    pub(crate) fn copied(&self) -> HeardWord
        ensures { result ≡ self.now }
    {
        HeardWord {
            number: self.number,
        }
    }

    /// Returns the source.
    pub fn to_heard(&self) -> Heard
        ensures { result ≡ self.now }
    {
        if self.number < RINGBACK {
            Heard::Path {
                since: self.number as u32,
            }
        } else if self.number < BUSY {
            Heard::Tone {
                kind: Kind::Ringback,
                since: (self.number - RINGBACK) as u32,
            }
        } else if self.number < SILENT {
            Heard::Tone {
                kind: Kind::Busy,
                since: (self.number - BUSY) as u32,
            }
        } else {
            Heard::Silent
        }
    }

    /// Returns whether it is a path that has existed since before a frame.
    pub fn is_path_before(&self, frame: u32) -> bool
        ensures { result ≡ is_path_before frame self.now }
    {
        (self.number as i64) < i64::from(frame)
    }
}

//! The frames that a step sends.
ghost use Rattle.std.specs.Prelude.{◌≡◌, ◌+◌, ◌≤◌, ◌<◌, [], ◌∷◌, ◌++◌, length};
ghost use Rattle.link_frames.specs.declared.frame.Sender.TheVariants.{Network};
ghost use Rattle.link_frames.specs.Writing.{IsWritable, information_in, encoding};

use arrayvec::ArrayVec;
use link_frames::{Frame, FrameOctets, Sender, write_frame};
use std::marker::Model;

/// The maximum number of frames in an outbox. Source: this project.
pub const MAX_FRAMES: usize = 80;

/// The octets of the frames that a step sends, in order. A contract views them as a list of lists.
#[derive(Drop)]
pub struct FrameOutbox {
    frames: ArrayVec<FrameOctets, MAX_FRAMES>,
}

impl Model for FrameOutbox {
    ghost use Rattle.std.specs.Prelude.{List, ℕ};

    ghost Value = { List (List ℕ) };

    ghost view = { λ o. o.frames.items };
}

impl FrameOutbox {
    /// Returns an empty outbox.
    pub fn new() -> FrameOutbox
        ensures { result ≡ [] }
    {
        FrameOutbox {
            frames: ArrayVec::new(),
        }
    }

    /// Removes all frames.
    pub fn clear(&mut self)
        ensures { self.new ≡ [] }
    {
        self.frames.clear();
    }

    /// Appends the octets of a frame of this exchange.
    pub fn send(&mut self, frame: &Frame)
        requires room { length self.old < 80 }
        requires writable { IsWritable frame.now.command frame.now.control }
        requires short { length (information_in frame.now.control) ≤ 112 }
        ensures sent { self.new ≡ self.old ++ encoding Network frame.now ∷ [] }
        ensures one { length self.new ≡ length self.old + 1 }
    {
        self.frames.push(write_frame(Sender::Network, frame));
    }

    /// Appends octets that are sent as they are, at most 116.
    pub fn push(&mut self, octets: &[u8])
        requires room { length self.old < 80 }
        requires short { length octets.now ≤ 116 }
        ensures sent { self.new ≡ self.old ++ octets.now ∷ [] }
        ensures one { length self.new ≡ length self.old + 1 }
    {
        self.frames.push(FrameOctets::of(octets));
    }

    /// Returns the frames in the order of transmission.
    pub fn as_slice(&self) -> &[FrameOctets]
        ensures { result.now ≡ self.now }
    {
        self.frames.as_slice()
    }
}

// Theorems on the definitions.
ghost use Rattle.std.specs.Prelude.{◌≡◌, ℕ, List, Some};
ghost use Rattle.link_frames.specs.declared.frame.Sender.{Sender};
ghost use Rattle.link_frames.specs.declared.frame.Frame.{Frame};
ghost use Rattle.link_frames.specs.Reading.{reading};
ghost use Rattle.link_frames.specs.Writing.{IsWritable, encoding};

/// Reading the octets of a written frame returns the frame.
pub fn law_of_reading()
    ensures { (s : Sender) (f : Frame) → IsWritable f.command f.control → reading s (encoding s f) ≡ Some f }
{}

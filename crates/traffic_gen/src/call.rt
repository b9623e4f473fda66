//! One generated call, from its draws to its lines.
ghost use Rattle.std.specs.Prelude.{◌≡◌, [], ◌∷◌, ◌++◌, OnOk};
ghost use Rattle.traffic_gen.specs.Calls.{IsCallee, call_drawn, call_lines, clearing_of, far_line, frame_drawn, frames_of, segment, state_after_call, state_after_frame};
ghost use Rattle.traffic_gen.specs.Draws.{state_after};
ghost use Rattle.traffic_gen.specs.Lines.{text};

use crate::callee::Callee;
use crate::draws::Draws;
use crate::lines::{put_message, put_part, put_sync};
use std::alloc::AllocError;

/// A call of a line, and the number of its frames.
#[derive(Clone, Copy)]
pub struct Call {
    caller: u8,
    callee: Callee,
    frames: u8,
}

impl Call {
    /// Returns the next call.
    pub fn drawn(draws: &mut Draws) -> Call
        ensures call { result ≡ call_drawn draws.old.state }
        ensures state { draws.new.state ≡ state_after 3 draws.old.state }
        ensures within { IsCallee result.callee }
    {
        let caller = draws.draw(8) as u8;
        let callee = Callee::of(draws.draw(9) as u8);
        let frames = 1 + draws.draw(3) as u8;
        Call {
            caller,
            callee,
            frames,
        }
    }

    /// Appends the lines of the call, and draws the octets of its frames.
    pub fn put(&self, out: &mut Vec<u8>, draws: &mut Draws) -> Result<(), AllocError>
        requires { IsCallee self.now.callee }
        ensures lines { OnOk result (out.new.items ≡ out.old.items ++ text (call_lines self.now draws.old.state)) }
        ensures state { OnOk result (draws.new.state ≡ state_after_call self.now draws.old.state) }
    {
        put_message(out, self.caller, &self.callee.setup())?;
        self.callee.put_connect(out)?;
        self.put_frames(out, draws)?;
        self.put_clearing(out)?;
        self.callee.put_release(out)
    }

    // Appends the messages with which the caller clears the call.
    fn put_clearing(&self, out: &mut Vec<u8>) -> Result<(), AllocError>
        ensures { OnOk result (out.new.items ≡ out.old.items ++ text (clearing_of self.now.caller)) }
    {
        put_message(out, self.caller, b"080200014508028090")?;
        put_message(out, self.caller, b"080200015A")
    }

    // Returns the line that sends in addition to the caller's, if there is one. A line that calls itself sends once.
    fn far_line(&self) -> Option<u8>
        ensures { result ≡ far_line self.now.caller self.now.callee }
    {
        match self.callee {
            Callee::Line(line) if line != self.caller => Some(line),
            _ => None,
        }
    }

    // Appends the frames of the call as a segment.
    fn put_frames(&self, out: &mut Vec<u8>, draws: &mut Draws) -> Result<(), AllocError>
        ensures lines { OnOk result (out.new.items ≡ out.old.items ++ text (segment (frames_of self.now draws.old.state))) }
        ensures state { OnOk result (draws.new.state ≡ state_after_call self.now draws.old.state) }
    {
        let far = self.far_line();
        for _ in 0..self.frames {
            put_frame(out, self.caller, far, draws)?;
        }
        put_sync(out)
    }
}

// Appends a frame, in which the caller's line sends, and the far one if there is one.
#[tactic(auto, unfolding(crate::specs::Lines::text))]
fn put_frame(
    out: &mut Vec<u8>,
    caller: u8,
    far: Option<u8>,
    draws: &mut Draws,
) -> Result<(), AllocError>
    ensures line { OnOk result (out.new.items ≡ out.old.items ++ text (frame_drawn caller far draws.old.state ∷ [])) }
    ensures state { OnOk result (draws.new.state ≡ state_after_frame far draws.old.state) }
{
    out.extend_from_slice(b"F")?;
    put_part(out, caller, &draws.octets())?;
    if let Some(far) = far {
        put_part(out, far, &draws.octets())?;
    }
    out.extend_from_slice(b"\n")
}

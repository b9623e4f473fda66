//! An engine for tests, which outputs the number of the frame.

ghost use Rattle.std.specs.Prelude.{◌≡◌, ◌+◌, ◌%◌, ◌<◌, ℕ, [], IfOk, IsOk, length, slice_index_or, replicate};
ghost use Rattle.frame_engine.specs.Frames.{AreCounted};

use crate::carrier::Carrier;
use control_memory::Image;
use std::alloc::{AllocError, Global};
use std::thread::Threads;
use tone_rules::Tones;

/// An engine for tests: it outputs the number of the frame, modulo 256, on every slot.
#[derive(Debug, Drop)]
pub struct Marker {
    /// The number of external lines.
    pub external: u8,
    /// The number of bridge lines.
    pub bridges: u8,
    /// The number of internal slots.
    pub slots: u8,
    /// The number of its next frame.
    pub next: u32,
}

impl Carrier for Marker {
    ghost sizes = { λ m. record { external = m.external; bridges = m.bridges; slots = m.slots } };

    ghost next = { λ m. m.next };

    ghost carries = { λ m inputs held ports. AreCounted m.next inputs held ports };

    ghost plays = { λ tones inputs held f at. f % 256 };

    ghost counted = { λ e inputs held ports carried. carried };

    /// Returns a marker. It never fails, because a marker allocates nothing.
    fn new(_: Global, external: u8, bridges: u8, slots: u8) -> Result<Self, AllocError>
        ensures made { IsOk result }
        ensures external { IfOk result (λ e. e.external ≡ external) }
        ensures bridges { IfOk result (λ e. e.bridges ≡ bridges) }
        ensures slots { IfOk result (λ e. e.slots ≡ slots) }
        ensures next { IfOk result (λ e. e.next ≡ 0) }
        ensures carries { IfOk result (λ e. AreCounted e.next [] [] []) }
    {
        Ok(Marker {
            external,
            bridges,
            slots,
            next: 0,
        })
    }

    fn frame<R: Threads + Sync>(
        &mut self,
        _: &R,
        _: &mut Image,
        _: &Tones,
        _: &[Option<[u8; 30]>],
        out: &mut [[u8; 30]],
    ) {
        fill(out, (self.next % 256) as u8);
        self.next += 1;
    }
}

// Puts one octet everywhere.
fn fill(out: &mut [[u8; 30]], octet: u8)
    ensures { (i : ℕ) → i < length out.new → slice_index_or out.new i [] ≡ replicate 30 octet }
{
    for i in 0..out.len() {
        out[i] = [octet; 30];
    }
}

//! The interface that every engine of frames implements.

ghost use Rattle.std.specs.Prelude.{◌≡◌, ℕ, ◌+◌, ◌<◌, ◌≤◌, [], List, length, IfOk};
ghost use Rattle.std.specs.Thread.{IsSync};
ghost use Rattle.circuit_model.specs.declared.channel.Slot.{Slot};
ghost use Rattle.circuit_model.specs.declared.circuit.Kind.{Kind};
ghost use Rattle.circuit_model.specs.declared.circuit.Circuit.{Circuit};
ghost use Rattle.circuit_model.specs.FrameInput.{Input};
ghost use Rattle.circuit_model.specs.Ports.{Ports};
ghost use Rattle.circuit_model.specs.Dimensions.{Dimensions};
ghost use Rattle.control_memory.specs.Image.{IsOfSize, SameSizes};
ghost use Rattle.tone_rules.specs.Tables.{table_of};
ghost use Rattle.frame_engine.specs.Frames.{AreCounted, AreIdleFrom, Boundary, IsNext, PlaysFrame, TonesGiven, held_with, inputs_with, ports_with};

use control_memory::Image;
use std::alloc::{AllocError, Global};
use std::thread::Threads;
use tone_rules::Tones;

/// An engine: it stores the octets of each frame, and outputs the octet that each external slot receives.
pub trait Carrier: Sized + Send + Drop {
    /// The numbers of external lines, bridge lines and internal slots.
    ghost sizes: { Self → Dimensions };

    /// The number of its next frame.
    ghost next: { Self → ℕ };

    /// It carries the frames with these inputs, circuits and conference ports.
    ghost carries: { Self → List Input → List (List Circuit) → List Ports → Type 0 };

    /// The octet that it outputs on an external slot in a frame, given the tones and each frame's input and circuits.
    ghost plays: { (Kind → List ℕ) → List Input → List (List Circuit) → ℕ → Slot → ℕ };

    /// The number of external lines, from line 0 on, that may have been sent an octet other than idle in its last frame.
    ghost sounding: { Self → ℕ } = { λ _. 18446744073709551615 };

    /// Returns an engine for the given numbers of external lines, bridge lines and internal slots, which has carried no
    /// frame.
    fn new(alloc: Global, external: u8, bridges: u8, slots: u8) -> Result<Self, AllocError>
        requires external { 1 ≤ external × (external ≤ 32) }
        requires bridges { bridges ≤ 2 }
        requires slots { 1 ≤ slots × (slots ≤ 59) }
        ensures sizes { IfOk result (λ e. sizes e ≡ record { external = external; bridges = bridges; slots = slots }) }
        ensures next { IfOk result (λ e. next e ≡ 0) }
        ensures carries { IfOk result (λ e. carries e [] [] []) };

    /// Returns how many external lines, from line 0 on, may have been sent an octet other than idle in the last frame. It
    /// returns `usize::MAX` if that is unknown.
    fn sounding(&self) -> usize
        ensures { result < 18446744073709551615 → result ≡ sounding self.now }
    {
        usize::MAX
    }

    /// Carries one frame: it stores `input`, 30 octets for each external line or none for an idle one, and writes the
    /// octet that each external slot sends into `out`. The control memory is this frame's. The engine keeps it, and
    /// returns another of the same sizes. Threads of this runtime can share the work, and are joined again.
    fn frame<R: Threads + Sync>(
        &mut self,
        rt: &R,
        image: &mut Image,
        tones: &Tones,
        input: &[Option<[u8; 30]>],
        out: &mut [[u8; 30]],
    )
        // The bound states this too, but a proof about a thread's argument may not use a bound of a trait's method.
        requires threads { IsSync R.row }
        requires sizes { IsOfSize (sizes self.old) image.old }
        requires frame { image.old.frame ≡ next self.old }
        requires last { next self.old < 4294967295 }
        requires input { length input.now ≡ (sizes self.old).external }
        requires out { length out.old ≡ (sizes self.old).external }
        requires tones { TonesGiven tones.now image.old }
        ensures plays { (b : Boundary) → IsNext (carries self.old) image.old b → PlaysFrame (plays (table_of tones.now)) image.old b input.now out.new }
        ensures idle { AreIdleFrom (sounding self.new) out.new }
        ensures carries { (b : Boundary) → IsNext (carries self.old) image.old b → carries self.new (inputs_with b input.now) (held_with b) (ports_with b) }
        ensures next { next self.new ≡ next self.old + 1 }
        ensures sizes { sizes self.new ≡ sizes self.old }
        ensures image { SameSizes image.old image.new };

    /// An engine that carries frames is at the frame after them.
    ghost counted: { (e : Self) (inputs : List Input) (held : List (List Circuit)) (ports : List Ports) → carries e inputs held ports → AreCounted (next e) inputs held ports };
}

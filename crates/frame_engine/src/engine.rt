//! The engine of three stages and bridges, frame by frame.

ghost use Rattle.std.specs.Prelude.{◌≡◌, ℕ, ◌+◌, ◌<◌, ◌≤◌, IfOk, length};
ghost use Rattle.circuit_model.specs.FrameInput.{idle_octet};
ghost use Rattle.circuit_model.specs.Hears.{hears};
ghost use Rattle.frame_buffer.specs.Highways.{octet_on};
ghost use Rattle.frame_buffer.specs.Speech.{AllIdle};
ghost use Rattle.frame_engine.specs.Carries.{EngineCarries};

use crate::carrier::Carrier;
use crate::intake::take_in;
use crate::play::{play, play_at_rest};
use crate::ports::mix_ports;
use crate::resting::live_after;
use alaw_codec::CodeTable;
use control_memory::Image;
use frame_buffer::{Crossed, FrameBuffer, Highway};
use space_stage::cross_shared;
use std::alloc::{AllocError, Global};
use std::marker::Model;
use std::mem;
use std::thread::Threads;
use time_stage::{incoming_shared, outgoing_shared};
use tone_rules::Tones;

// The maximum number of halvings in a stage of a new engine, if the halves are large enough.
const LEVELS: u8 = 3;

/// The engine of a time-space-time exchange: two speech memories, the highways between the stages,
/// the control memory of the frame that crossed last, and the A-law codes for the bridges.
///
/// In each frame it reads out the octets that crossed in the frame before, by the control memory of that frame, and
/// mixes the conference ports. Then the octets that arrived in the frame before cross, by the control memory of this
/// frame, which it keeps. Last it stores the octets that arrive. An octet therefore leaves two frames after it arrived,
/// whether or not its path moved in between, and a mixed octet passes the stages twice. This project chose the order.
///
/// Without a member at a conference port it rests after three frames in which nothing arrived: all its octets are idle,
/// so none moves.
///
/// Only `new` allocates. A frame's work is the same for all circuits. It takes no lock, and waits only for the halves
/// of its stages, which return.
#[derive(Debug, Drop)]
pub struct Engine {
    external: u8,
    bridges: u8,
    slots: u8,
    levels: u8,
    next: u32,
    // The number of frames after which all octets are idle, if none arrives.
    live: u8,
    // The number of external lines, from line 0 on, that may have sent something in the last frame.
    sounding: u8,
    kept: Image,
    speech: FrameBuffer,
    highway: Highway,
    crossed: Crossed,
    read: FrameBuffer,
    codes: CodeTable,
}

impl Model for Engine {
    ghost use Rattle.std.specs.Prelude.{◌≡◌, ◌+◌, ◌≤◌};
    ghost use Rattle.frame_engine.specs.Carries.{Stages, IsBuilt};

    ghost Value = { Stages };

    ghost view = { λ e. record {
      external = e.external;
      bridges = e.bridges;
      slots = e.slots;
      next = e.next;
      kept = e.kept;
      taken = e.speech.readable;
      crossed = e.crossed;
      read = e.read.readable;
      live = e.live;
      sounding = e.sounding;
    } };

    ghost invariant = { λ e. IsBuilt e.external e.bridges e.slots e.levels e.kept e.speech e.highway e.crossed e.read };
}

// Returns the two speech memories. Each part of an engine can fail to allocate, so the parts are made two by two.
fn memories(alloc: Global, lines: u8) -> Result<(FrameBuffer, FrameBuffer), AllocError>
    ensures lines { IfOk result (λ m. (m.0.lines ≡ lines) × (m.1.lines ≡ lines)) }
    ensures idle { IfOk result (λ m. AllIdle lines m.0.readable) }
    ensures read { IfOk result (λ m. AllIdle lines m.1.readable) }
{
    let speech = FrameBuffer::new(alloc, lines)?;
    let read = FrameBuffer::new(alloc, lines)?;
    Ok((speech, read))
}

// Returns the highways before and after the space stage.
fn highways(alloc: Global, lines: u8, slots: u8) -> Result<(Highway, Crossed), AllocError>
    ensures lines { IfOk result (λ h. (h.0.lines ≡ lines) × (h.1.lines ≡ lines)) }
    ensures slots { IfOk result (λ h. (h.0.slots ≡ slots) × (h.1.slots ≡ slots)) }
    ensures idle { IfOk result (λ h. (line slot : ℕ) → line < lines → slot < slots → octet_on h.1 line slot ≡ idle_octet) }
{
    let highway = Highway::new(alloc, lines, slots)?;
    let crossed = Crossed::new(alloc, lines, slots)?;
    Ok((highway, crossed))
}

impl Engine {
    /// Sets the maximum number of halvings in each stage, if the halves are large enough. With 0 no stage is divided
    /// among threads. A new engine has three. The output does not depend on it.
    pub fn set_halving_levels(&mut self, levels: u8)
        requires levels { levels ≤ 3 }
        ensures same { self.new ≡ self.old }
    {
        self.levels = levels;
    }
}

impl Carrier for Engine {
    ghost sizes = { λ e. record { external = e.external; bridges = e.bridges; slots = e.slots } };

    ghost next = { λ e. e.next };

    ghost carries = { λ e inputs held ports. EngineCarries e inputs held ports };

    ghost plays = { hears };

    ghost sounding = { λ e. e.sounding };

    ghost counted = { λ e inputs held ports carried. carried.counted };

    fn new(alloc: Global, external: u8, bridges: u8, slots: u8) -> Result<Self, AllocError> {
        let lines = external + bridges;
        let codes = CodeTable::new(alloc)?;
        let (speech, read) = memories(alloc, lines)?;
        let (highway, crossed) = highways(alloc, lines, slots)?;
        Ok(Engine {
            external,
            bridges,
            slots,
            levels: LEVELS,
            next: 0,
            live: 0,
            sounding: 0,
            kept: Image::new(alloc, external, bridges, slots)?,
            speech,
            highway,
            crossed,
            read,
            codes,
        })
    }

    fn sounding(&self) -> usize {
        usize::from(self.sounding)
    }

    fn frame<R: Threads + Sync>(
        &mut self,
        rt: &R,
        image: &mut Image,
        tones: &Tones,
        input: &[Option<[u8; 30]>],
        out: &mut [[u8; 30]],
    ) {
        let Some(live) = live_after(self.live, image, input) else {
            self.sounding = play_at_rest(&self.read, image, tones, out);
            mem::swap(&mut self.kept, image);
            self.next += 1;
            return;
        };
        self.live = live;
        let levels = self.levels;
        outgoing_shared(rt, &self.crossed, &self.kept, &mut self.read, levels);
        self.read.swap();
        mix_ports(&self.read, image, &self.codes, &mut self.speech);
        incoming_shared(rt, &self.speech, image, &mut self.highway, levels);
        cross_shared(rt, &self.highway, image, &mut self.crossed, levels);
        take_in(input, self.external, &mut self.speech);
        self.speech.swap();
        self.sounding = play(&self.read, image, tones, out);
        mem::swap(&mut self.kept, image);
        self.next += 1;
    }
}

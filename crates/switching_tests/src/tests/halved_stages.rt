//! The stages of an engine of three external lines and a bridge line, with a thread for each half.
ghost use Rattle.std.specs.Prelude.{◌≡◌, IfOk};

use circuit_model::{IDLE, Slot};
use conference_mix::mix;
use control_memory::{Heard, Image};
use frame_buffer::{Crossed, FrameBuffer, Highway};
use space_stage::cross_split;
use std::alloc::{AllocError, Global};
use std::mem;
use std::thread::Threads;
use time_stage::{incoming_split, outgoing_split};

/// The number of times that the lines of a stage are halved: some parts have one line, and others have none.
const LEVELS: u8 = 3;

/// Each half has its own thread, however few octets it has.
const NO_OCTETS: usize = 0;

/// The memories of the stages, and the control memory of the frame that crossed last.
#[derive(Drop)]
pub(super) struct HalvedStages {
    pub(super) kept: Image,
    pub(super) speech: FrameBuffer,
    pub(super) read: FrameBuffer,
    pub(super) highway: Highway,
    pub(super) crossed: Crossed,
}

// Returns two speech memories of four lines.
fn memories(alloc: Global) -> Result<(FrameBuffer, FrameBuffer), AllocError>
    ensures lines { IfOk result (λ m. (m.0.lines ≡ 4) × (m.1.lines ≡ 4)) }
{
    let speech = FrameBuffer::new(alloc, 4)?;
    let read = FrameBuffer::new(alloc, 4)?;
    Ok((speech, read))
}

// Returns the highways of four lines before the space stage and after it.
fn highways(alloc: Global) -> Result<(Highway, Crossed), AllocError>
    ensures lines { IfOk result (λ h. (h.0.lines ≡ 4) × (h.1.lines ≡ 4)) }
    ensures slots { IfOk result (λ h. (h.0.slots ≡ 30) × (h.1.slots ≡ 30)) }
{
    let highway = Highway::new(alloc, 4, 30)?;
    let crossed = Crossed::new(alloc, 4, 30)?;
    Ok((highway, crossed))
}

/// Stages that have carried no frame.
pub(super) fn halved_stages(alloc: Global) -> Result<HalvedStages, AllocError>
    ensures lines { IfOk result (λ s. (s.kept.external ≡ 3) × (s.kept.bridges ≡ 1)) }
    ensures slots { IfOk result (λ s. s.kept.slots ≡ 30) }
    ensures memories { IfOk result (λ s. (s.speech.lines ≡ 4) × (s.read.lines ≡ 4)) }
    ensures highway { IfOk result (λ s. (s.highway.lines ≡ 4) × (s.highway.slots ≡ 30)) }
    ensures crossed { IfOk result (λ s. (s.crossed.lines ≡ 4) × (s.crossed.slots ≡ 30)) }
{
    let (speech, read) = memories(alloc)?;
    let (highway, crossed) = highways(alloc)?;
    Ok(HalvedStages {
        kept: Image::new(alloc, 3, 1, 30)?,
        speech,
        read,
        highway,
        crossed,
    })
}

/// Carries a frame as an engine does, and returns the octets that the external lines send in it.
pub(super) fn carry_halved(
    rt: &(impl Threads + Sync),
    stages: &mut HalvedStages,
    image: &mut Image,
    input: &[[u8; 30]; 3],
) -> [[u8; 30]; 3]
    requires image { (image.old.external ≡ 3) × (image.old.bridges ≡ 1) × (image.old.slots ≡ 30) }
    requires lines { (stages.old.kept.external ≡ 3) × (stages.old.kept.bridges ≡ 1) }
    requires slots { stages.old.kept.slots ≡ 30 }
    requires memories { (stages.old.speech.lines ≡ 4) × (stages.old.read.lines ≡ 4) }
    requires highway { (stages.old.highway.lines ≡ 4) × (stages.old.highway.slots ≡ 30) }
    requires crossed { (stages.old.crossed.lines ≡ 4) × (stages.old.crossed.slots ≡ 30) }
    ensures image { (image.new.external ≡ 3) × (image.new.bridges ≡ 1) × (image.new.slots ≡ 30) }
    ensures lines { (stages.new.kept.external ≡ 3) × (stages.new.kept.bridges ≡ 1) }
    ensures slots { stages.new.kept.slots ≡ 30 }
    ensures memories { (stages.new.speech.lines ≡ 4) × (stages.new.read.lines ≡ 4) }
    ensures highway { (stages.new.highway.lines ≡ 4) × (stages.new.highway.slots ≡ 30) }
    ensures crossed { (stages.new.crossed.lines ≡ 4) × (stages.new.crossed.slots ≡ 30) }
{
    outgoing_split(
        rt,
        &stages.crossed,
        &stages.kept,
        &mut stages.read,
        LEVELS,
        NO_OCTETS,
    );
    stages.read.swap();
    mix_room(&stages.read, image, &mut stages.speech);
    incoming_split(
        rt,
        &stages.speech,
        image,
        &mut stages.highway,
        LEVELS,
        NO_OCTETS,
    );
    cross_split(
        rt,
        &stages.highway,
        image,
        &mut stages.crossed,
        LEVELS,
        NO_OCTETS,
    );
    stages.speech.put_line(0, &input[0]);
    stages.speech.put_line(1, &input[1]);
    stages.speech.put_line(2, &input[2]);
    stages.speech.swap();
    let out = sent_by(&stages.read, image);
    mem::swap(&mut stages.kept, image);
    out
}

// Returns whether a path that exists since a frame carries octets in this one.
fn is_through(since: u32, frame: u32) -> bool {
    since < frame.saturating_sub(1)
}

// Writes for each port of the bridge line the mix of the other ports. All members are of one room.
fn mix_room(read: &FrameBuffer, image: &Image, speech: &mut FrameBuffer)
    requires read { read.now.lines ≡ 4 }
    requires image { (image.now.external ≡ 3) × (image.now.bridges ≡ 1) }
    requires speech { speech.old.lines ≡ 4 }
    ensures speech { speech.new.lines ≡ 4 }
{
    let mut members = [None; 30];
    for place in 0..30u8 {
        let port = Slot { line: 3, place };
        if let Some((_, since)) = image.room(port) {
            if is_through(since, image.frame()) {
                members[usize::from(place)] = Some(read.get(port));
            }
        }
    }
    let mut octets = [IDLE; 30];
    mix(&members, &mut octets);
    speech.put_line(3, &octets);
}

// Returns the octets that the external lines send, from those that were read.
fn sent_by(read: &FrameBuffer, image: &Image) -> [[u8; 30]; 3]
    requires read { read.now.lines ≡ 4 }
    requires image { (image.now.external ≡ 3) × (image.now.bridges ≡ 1) }
{
    let mut out = [[IDLE; 30]; 3];
    for line in 0..3u8 {
        for place in 0..30u8 {
            let at = Slot { line, place };
            if let Heard::Path { since } = image.heard(at) {
                if is_through(since, image.frame()) {
                    out[usize::from(line)][usize::from(place)] = read.get(at);
                }
            }
        }
    }
    out
}

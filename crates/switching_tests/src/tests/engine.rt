//! An engine over two lines: a path that moves from frame to frame, and a tone.
ghost use Rattle.std.specs.Prelude.{◌≡◌, ◌+◌, ◌<◌, ◌≤◌, IfOk};
ghost use Rattle.circuit_model.specs.declared.circuit.Kind.{Kind};
ghost use Rattle.tone_rules.specs.Tables.{IsGiven};

use circuit_model::{IDLE, Kind, Slot};
use control_memory::{Heard, Image};
use frame_engine::{Carrier, Engine};
use std::alloc::{AllocError, Global};
use std::test::Fail;
use std::thread::Threads;
use tone_rules::{ToneOctets, Tones};

const NEAR: Slot = Slot { line: 0, place: 0 };

const FAR: Slot = Slot { line: 1, place: 29 };

const RINGING: Slot = Slot { line: 1, place: 1 };

/// A frame over two external lines, and the octets that are received in it. There is a path from NEAR to FAR since
/// frame 0, and RINGING has a tone since frame 1.
#[derive(Clone, Copy)]
struct Turn {
    /// The internal slot of the path.
    slot: u8,
    /// The octet that the first line sends in each place.
    sent: u8,
    /// The octets that FAR and RINGING receive.
    heard: (u8, u8),
}

// Writes the control memory of a frame.
fn show(image: &mut Image, frame: u32, slot: u8)
    requires sizes { (image.old.external ≡ 2) × (image.old.bridges ≡ 0) × (image.old.slots ≡ 2) }
    requires slot { slot < 2 }
    ensures sizes { (image.new.external ≡ 2) × (image.new.bridges ≡ 0) × (image.new.slots ≡ 2) }
    ensures frame { image.new.frame ≡ frame }
{
    image.clear_all(frame);
    image.set_path(NEAR, FAR, slot);
    image.set_heard(FAR, Heard::Path { since: 0 });
    if frame > 0 {
        let kind = Kind::Ringback;
        image.set_heard(RINGING, Heard::Tone { kind, since: 1 });
    }
}

// Carries a frame, and returns the octets that FAR and RINGING receive in it.
fn carry(
    rt: &(impl Threads + Sync),
    engine: &mut Engine,
    image: &mut Image,
    tones: &Tones,
    frame: u32,
    slot: u8,
    sent: u8,
) -> (u8, u8)
    requires external { (engine.old.external ≡ 2) × (image.old.external ≡ 2) }
    requires bridges { (engine.old.bridges ≡ 0) × (image.old.bridges ≡ 0) }
    requires slots { (engine.old.slots ≡ 2) × (image.old.slots ≡ 2) }
    requires slot { slot < 2 }
    requires frame { (engine.old.next ≡ frame) × (frame < 100) }
    requires tones { (kind : Kind) → IsGiven tones.now kind }
    ensures external { (engine.new.external ≡ 2) × (image.new.external ≡ 2) }
    ensures bridges { (engine.new.bridges ≡ 0) × (image.new.bridges ≡ 0) }
    ensures slots { (engine.new.slots ≡ 2) × (image.new.slots ≡ 2) }
    ensures next { engine.new.next ≡ frame + 1 }
{
    show(image, frame, slot);
    let mut out = [[0; 30]; 2];
    engine.frame(rt, image, tones, &[Some([sent; 30]), None], &mut out);
    (out[1][29], out[1][1])
}

// Ringing tone of three octets, and busy tone of one.
fn tones(alloc: Global) -> Result<Tones, AllocError>
    ensures given { IfOk result (λ t. (kind : Kind) → IsGiven t kind) }
{
    Ok(Tones {
        ringback: ToneOctets::of(vec![in alloc; 20, 21, 22]?),
        busy: ToneOctets::of(vec![in alloc; 30]?),
    })
}

/// Tones, a control memory, and a new engine of its sizes.
#[derive(Drop)]
pub(super) struct Parts {
    pub(super) tones: Tones,
    pub(super) image: Image,
    pub(super) engine: Engine,
}

/// Makes the parts for these sizes. An allocation can fail at each, so they are made separately from their use.
pub(super) fn parts_for(
    alloc: Global,
    external: u8,
    bridges: u8,
    slots: u8,
) -> Result<Parts, AllocError>
    requires lines { (1 ≤ external) × (external ≤ 32) × (bridges ≤ 2) }
    requires slots { (1 ≤ slots) × (slots ≤ 59) }
    ensures external { IfOk result (λ p. (p.engine.external ≡ external) × (p.image.external ≡ external)) }
    ensures bridges { IfOk result (λ p. (p.engine.bridges ≡ bridges) × (p.image.bridges ≡ bridges)) }
    ensures slots { IfOk result (λ p. (p.engine.slots ≡ slots) × (p.image.slots ≡ slots)) }
    ensures next { IfOk result (λ p. p.engine.next ≡ 0) }
    ensures tones { IfOk result (λ p. (kind : Kind) → IsGiven p.tones kind) }
{
    Ok(Parts {
        tones: tones(alloc)?,
        image: Image::new(alloc, external, bridges, slots)?,
        engine: Engine::new(alloc, external, bridges, slots)?,
    })
}

// Tests that there is memory, which no contract states.
#[test]
fn a_full_engine_is_made(rt: HostRuntime) -> Result<(), Fail> {
    let full = Engine::new(rt.alloc(), 32, 2, 59)?;
    drop(full);
    let small = Engine::new(rt.alloc(), 1, 0, 1)?;
    drop(small);
    Ok(())
}

// The frames: the path is moved before frames 2, 4 and 5.
const TURNS: [Turn; 6] = [
    Turn {
        slot: 0,
        sent: 10,
        heard: (IDLE, IDLE),
    },
    Turn {
        slot: 0,
        sent: 11,
        heard: (IDLE, 20),
    },
    Turn {
        slot: 1,
        sent: 12,
        heard: (10, 21),
    },
    Turn {
        slot: 1,
        sent: 13,
        heard: (11, 22),
    },
    Turn {
        slot: 0,
        sent: 14,
        heard: (12, 20),
    },
    Turn {
        slot: 1,
        sent: 15,
        heard: (13, 21),
    },
];

// Returns whether the frames have the expected octets, with an engine that has carried none.
fn are_heard(
    rt: &(impl Threads + Sync),
    engine: &mut Engine,
    image: &mut Image,
    tones: &Tones,
    turns: &[Turn; 6],
) -> bool
    requires external { (engine.old.external ≡ 2) × (image.old.external ≡ 2) }
    requires bridges { (engine.old.bridges ≡ 0) × (image.old.bridges ≡ 0) }
    requires slots { (engine.old.slots ≡ 2) × (image.old.slots ≡ 2) }
    requires next { engine.old.next ≡ 0 }
    requires tones { (kind : Kind) → IsGiven tones.now kind }
{
    for frame in 0..6 {
        let turn = turns[frame as usize];
        if turn.slot > 1 {
            return false;
        }
        if carry(rt, engine, image, tones, frame, turn.slot, turn.sent) != turn.heard {
            return false;
        }
    }
    true
}

#[test]
fn a_path_that_moves_is_heard_two_frames_late_and_loses_no_octet(
    rt: HostRuntime,
) -> Result<(), Fail> {
    let Parts {
        tones,
        mut image,
        mut engine,
    } = parts_for(rt.alloc(), 2, 0, 2)?;
    assert!(rt; are_heard(&rt, &mut engine, &mut image, &tones, &TURNS));
    Ok(())
}

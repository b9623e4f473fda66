//! Two traces of `examples/` with control memories that are written by hand. An engine outputs the octets of their
//! reports, and so do stages whose lines are halved.
ghost use Rattle.std.specs.Prelude.{◌≡◌, ◌+◌, ◌≤◌, ◌<◌};
ghost use Rattle.circuit_model.specs.declared.circuit.Kind.{Kind};
ghost use Rattle.tone_rules.specs.Tables.{IsGiven};

use super::engine::{Parts, parts_for};
use super::halved_stages::{HalvedStages, carry_halved, halved_stages};
use circuit_model::{IDLE, Slot};
use control_memory::{Heard, Image};
use frame_engine::{Carrier, Engine};
use std::alloc::{AllocError, Global};
use std::test::Fail;
use std::thread::Threads;
use tone_rules::Tones;

/// A trace of six frames on three lines, each with 30 internal slots.
#[derive(Clone, Copy)]
enum Trace {
    /// `examples/rearrangement`: two paths move before frame 3.
    Rearrangement,
    /// `examples/loud_room`: three members of one room.
    LoudRoom,
}

/// The octets of the lines in a frame with an even number in `examples/rearrangement`.
const EVEN: [[u8; 30]; 3] = [
    [
        0x80, 0x82, 0x84, 0x86, 0x88, 0x8A, 0x8C, 0x8E, 0x90, 0x92, 0x94, 0x96, 0x98, 0x9A, 0x9C,
        IDLE, IDLE, IDLE, IDLE, IDLE, IDLE, IDLE, IDLE, IDLE, IDLE, IDLE, IDLE, IDLE, IDLE, IDLE,
    ],
    [
        0x9E, 0xA0, 0xA2, 0xA4, 0xA6, 0xA8, 0xAA, 0xAC, 0xAE, 0xB0, 0xB2, 0xB4, 0xB6, 0xB8, 0xBA,
        IDLE, IDLE, IDLE, IDLE, IDLE, IDLE, IDLE, IDLE, IDLE, IDLE, IDLE, IDLE, IDLE, IDLE, IDLE,
    ],
    [
        0x00, 0x02, 0x04, 0x06, 0x08, 0x0A, 0x0C, 0x0E, 0x10, 0x12, 0x14, 0x16, 0x18, 0x1A, 0x1C,
        0x40, 0x42, 0x44, 0x46, 0x48, 0x4A, 0x4C, 0x4E, 0x50, 0x52, 0x54, 0x56, 0x58, 0x5A, 0x5C,
    ],
];

/// The octets of the lines in a frame with an odd number.
const ODD: [[u8; 30]; 3] = [
    [
        0x81, 0x83, 0x85, 0x87, 0x89, 0x8B, 0x8D, 0x8F, 0x91, 0x93, 0x95, 0x97, 0x99, 0x9B, 0x9D,
        IDLE, IDLE, IDLE, IDLE, IDLE, IDLE, IDLE, IDLE, IDLE, IDLE, IDLE, IDLE, IDLE, IDLE, IDLE,
    ],
    [
        0x9F, 0xA1, 0xA3, 0xA5, 0xA7, 0xA9, 0xAB, 0xAD, 0xAF, 0xB1, 0xB3, 0xB5, 0xB7, 0xB9, 0xBB,
        IDLE, IDLE, IDLE, IDLE, IDLE, IDLE, IDLE, IDLE, IDLE, IDLE, IDLE, IDLE, IDLE, IDLE, IDLE,
    ],
    [
        0x01, 0x03, 0x05, 0x07, 0x09, 0x0B, 0x0D, 0x0F, 0x11, 0x13, 0x15, 0x17, 0x19, 0x1B, 0x1D,
        0x41, 0x43, 0x45, 0x47, 0x49, 0x4B, 0x4D, 0x4F, 0x51, 0x53, 0x55, 0x57, 0x59, 0x5B, 0x5D,
    ],
];

/// The octets of the lines in the last frame but two, in which the newest path carries too.
const LAST: [[u8; 30]; 3] = [
    [
        0x81, 0x83, 0x85, 0x87, 0x89, 0x8B, 0x8D, 0x8F, 0x91, 0x93, 0x95, 0x97, 0x99, 0x9B, 0x9D,
        0x5F, IDLE, IDLE, IDLE, IDLE, IDLE, IDLE, IDLE, IDLE, IDLE, IDLE, IDLE, IDLE, IDLE, IDLE,
    ],
    [
        0x9F, 0xA1, 0xA3, 0xA5, 0xA7, 0xA9, 0xAB, 0xAD, 0xAF, 0xB1, 0xB3, 0xB5, 0xB7, 0xB9, 0xBB,
        0x1F, IDLE, IDLE, IDLE, IDLE, IDLE, IDLE, IDLE, IDLE, IDLE, IDLE, IDLE, IDLE, IDLE, IDLE,
    ],
    [
        0x01, 0x03, 0x05, 0x07, 0x09, 0x0B, 0x0D, 0x0F, 0x11, 0x13, 0x15, 0x17, 0x19, 0x1B, 0x1D,
        0x41, 0x43, 0x45, 0x47, 0x49, 0x4B, 0x4D, 0x4F, 0x51, 0x53, 0x55, 0x57, 0x59, 0x5B, 0x5D,
    ],
];

/// The octets of a silent line.
const SILENT: [u8; 30] = [IDLE; 30];

/// The octets of a line that receives the loudest positive octet in the first place.
const LOUD: [u8; 30] = [
    0xAA, IDLE, IDLE, IDLE, IDLE, IDLE, IDLE, IDLE, IDLE, IDLE, IDLE, IDLE, IDLE, IDLE, IDLE, IDLE,
    IDLE, IDLE, IDLE, IDLE, IDLE, IDLE, IDLE, IDLE, IDLE, IDLE, IDLE, IDLE, IDLE, IDLE,
];

// Joins two slots in both directions by these internal slots.
fn join(image: &mut Image, near: Slot, far: Slot, there: u8, back: u8, since: u32)
    requires sizes { (image.old.external ≡ 3) × (image.old.bridges ≡ 1) × (image.old.slots ≡ 30) }
    requires near { (near.line < 3) × (near.place < 30) }
    requires far { (far.line < 3) × (far.place < 30) }
    requires slots { (there < 30) × (back < 30) }
    ensures sizes { (image.new.external ≡ 3) × (image.new.bridges ≡ 1) × (image.new.slots ≡ 30) }
    ensures frame { image.new.frame ≡ image.old.frame }
{
    image.set_path(near, far, there);
    image.set_path(far, near, back);
    image.set_heard(near, Heard::Path { since });
    image.set_heard(far, Heard::Path { since });
}

// Writes the paths of lines 0 and 1 to line 2 and back, 30 of each. After the move, two of those back are in other
// internal slots, and lines 0 and 1 are joined too.
fn lay_pairs(image: &mut Image, moved: bool)
    requires sizes { (image.old.external ≡ 3) × (image.old.bridges ≡ 1) × (image.old.slots ≡ 30) }
    ensures sizes { (image.new.external ≡ 3) × (image.new.bridges ≡ 1) × (image.new.slots ≡ 30) }
    ensures frame { image.new.frame ≡ image.old.frame }
{
    for place in 0..15u8 {
        let far = Slot { line: 2, place };
        let back = if moved && place == 0 { 15 } else { place };
        join(image, Slot { line: 0, place }, far, place, back, 0);
        let other = place + 15;
        let far = Slot {
            line: 2,
            place: other,
        };
        let back = if moved && place == 0 { 0 } else { other };
        join(image, Slot { line: 1, place }, far, other, back, 0);
    }
    if moved {
        let near = Slot { line: 0, place: 15 };
        let far = Slot { line: 1, place: 15 };
        join(image, near, far, 15, 0, 3);
    }
}

// Writes the paths of three members to the ports of a bridge line and back.
fn seat_three(image: &mut Image)
    requires sizes { (image.old.external ≡ 3) × (image.old.bridges ≡ 1) × (image.old.slots ≡ 30) }
    ensures sizes { (image.new.external ≡ 3) × (image.new.bridges ≡ 1) × (image.new.slots ≡ 30) }
    ensures frame { image.new.frame ≡ image.old.frame }
{
    for line in 0..3u8 {
        let member = Slot { line, place: 0 };
        let port = Slot {
            line: 3,
            place: line,
        };
        image.set_path(member, port, line);
        image.set_path(port, member, line);
        image.set_heard(member, Heard::Path { since: 0 });
        image.set_room(port, 0, 0);
    }
}

// Writes the control memory of a frame.
fn show(trace: Trace, image: &mut Image, frame: u32)
    requires sizes { (image.old.external ≡ 3) × (image.old.bridges ≡ 1) × (image.old.slots ≡ 30) }
    ensures sizes { (image.new.external ≡ 3) × (image.new.bridges ≡ 1) × (image.new.slots ≡ 30) }
    ensures frame { image.new.frame ≡ frame }
{
    image.clear_all(frame);
    match trace {
        Trace::Rearrangement => lay_pairs(image, frame >= 3),
        Trace::LoudRoom => seat_three(image),
    }
}

// Returns the octets that a line sends in a frame.
fn sent(trace: Trace, frame: u32, line: u8) -> [u8; 30] {
    let mut octets = SILENT;
    match trace {
        Trace::Rearrangement => {
            let first = u32::from(line) * 64 + frame % 2;
            for (place, octet) in octets.iter_mut().enumerate() {
                *octet = ((first as usize + 2 * place) % 256) as u8;
            }
        }
        Trace::LoudRoom => octets[0] = if line == 2 && frame > 0 { 0x2A } else { 0xAA },
    }
    octets
}

// Returns the octets that the lines receive in a frame of the trace's report.
fn reported(trace: Trace, frame: u32) -> [[u8; 30]; 3] {
    match (trace, frame) {
        (Trace::Rearrangement, 2 | 4) => EVEN,
        (Trace::Rearrangement, 3) => ODD,
        (Trace::Rearrangement, 5) => LAST,
        (Trace::LoudRoom, 4) => [LOUD, LOUD, LOUD],
        (Trace::LoudRoom, 5) => [SILENT, SILENT, LOUD],
        _ => [SILENT, SILENT, SILENT],
    }
}

// Returns the octets that the lines send in a frame.
fn sent_by_all(trace: Trace, frame: u32) -> [[u8; 30]; 3] {
    [
        sent(trace, frame, 0),
        sent(trace, frame, 1),
        sent(trace, frame, 2),
    ]
}

// Carries a frame, and returns whether the lines receive the octets of the report.
fn hears_as_reported(
    rt: &(impl Threads + Sync),
    engine: &mut Engine,
    image: &mut Image,
    tones: &Tones,
    trace: Trace,
    frame: u32,
) -> bool
    requires external { (engine.old.external ≡ 3) × (image.old.external ≡ 3) }
    requires bridges { (engine.old.bridges ≡ 1) × (image.old.bridges ≡ 1) }
    requires slots { (engine.old.slots ≡ 30) × (image.old.slots ≡ 30) }
    requires frame { (engine.old.next ≡ frame) × (frame < 100) }
    requires tones { (kind : Kind) → IsGiven tones.now kind }
    ensures external { (engine.new.external ≡ 3) × (image.new.external ≡ 3) }
    ensures bridges { (engine.new.bridges ≡ 1) × (image.new.bridges ≡ 1) }
    ensures slots { (engine.new.slots ≡ 30) × (image.new.slots ≡ 30) }
    ensures next { engine.new.next ≡ frame + 1 }
{
    show(trace, image, frame);
    let mut out = [SILENT, SILENT, SILENT];
    let [zero, one, two] = sent_by_all(trace, frame);
    engine.frame(
        rt,
        image,
        tones,
        &[Some(zero), Some(one), Some(two)],
        &mut out,
    );
    out == reported(trace, frame)
}

// Returns whether an engine that has carried no frame outputs the octets of a trace's report. (A bridge line without
// members sends nothing.)
fn are_heard_as_reported(
    rt: &(impl Threads + Sync),
    engine: &mut Engine,
    image: &mut Image,
    tones: &Tones,
    trace: Trace,
) -> bool
    requires external { (engine.old.external ≡ 3) × (image.old.external ≡ 3) }
    requires bridges { (engine.old.bridges ≡ 1) × (image.old.bridges ≡ 1) }
    requires slots { (engine.old.slots ≡ 30) × (image.old.slots ≡ 30) }
    requires next { engine.old.next ≡ 0 }
    requires tones { (kind : Kind) → IsGiven tones.now kind }
{
    for frame in 0..6u32 {
        if !hears_as_reported(rt, engine, image, tones, trace, frame) {
            return false;
        }
    }
    true
}

// Returns whether a new engine whose stages have n levels of halves outputs the octets of a trace's report.
fn sounds_with(
    rt: &(impl Threads + Sync),
    alloc: Global,
    trace: Trace,
    levels: u8,
) -> Result<bool, AllocError>
    requires levels { levels ≤ 3 }
{
    let Parts {
        tones,
        mut image,
        mut engine,
    } = parts_for(alloc, 3, 1, 30)?;
    engine.set_halving_levels(levels);
    Ok(are_heard_as_reported(rt, &mut engine, &mut image, &tones, trace))
}

#[test]
fn traces_sound_as_reported_whatever_the_levels(rt: HostRuntime) -> Result<(), Fail> {
    for trace in [Trace::Rearrangement, Trace::LoudRoom] {
        assert!(rt; sounds_with(&rt, rt.alloc(), trace, 0)?);
        assert!(rt; sounds_with(&rt, rt.alloc(), trace, 3)?);
    }
    Ok(())
}

// Returns whether halved stages that have carried no frame send the octets of a trace's report.
fn are_sent_as_reported(
    rt: &(impl Threads + Sync),
    stages: &mut HalvedStages,
    image: &mut Image,
    trace: Trace,
) -> bool
    requires image { (image.old.external ≡ 3) × (image.old.bridges ≡ 1) × (image.old.slots ≡ 30) }
    requires lines { (stages.old.kept.external ≡ 3) × (stages.old.kept.bridges ≡ 1) }
    requires slots { stages.old.kept.slots ≡ 30 }
    requires memories { (stages.old.speech.lines ≡ 4) × (stages.old.read.lines ≡ 4) }
    requires highway { (stages.old.highway.lines ≡ 4) × (stages.old.highway.slots ≡ 30) }
    requires crossed { (stages.old.crossed.lines ≡ 4) × (stages.old.crossed.slots ≡ 30) }
{
    for frame in 0..6u32 {
        show(trace, image, frame);
        let out = carry_halved(rt, stages, image, &sent_by_all(trace, frame));
        if out != reported(trace, frame) {
            return false;
        }
    }
    true
}

// Returns whether halved stages send a trace as its report states.
fn sounds_by_halves(
    rt: &(impl Threads + Sync),
    alloc: Global,
    trace: Trace,
) -> Result<bool, AllocError> {
    let mut stages = halved_stages(alloc)?;
    let mut image = Image::new(alloc, 3, 1, 30)?;
    Ok(are_sent_as_reported(rt, &mut stages, &mut image, trace))
}

#[test]
fn traces_sound_as_reported_by_halves(rt: HostRuntime) -> Result<(), Fail> {
    assert!(rt; sounds_by_halves(&rt, rt.alloc(), Trace::Rearrangement)?);
    assert!(rt; sounds_by_halves(&rt, rt.alloc(), Trace::LoudRoom)?);
    Ok(())
}

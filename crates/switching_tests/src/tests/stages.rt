//! Octets that pass through the three stages of a fabric of two lines, by one call each and by halves of them.
mod halves;

ghost use Rattle.std.specs.Prelude.{◌≡◌, ◌<◌, ◌≤◌, IfOk};

use circuit_model::{IDLE, Slot};
use control_memory::Image;
use frame_buffer::{Crossed, FrameBuffer, Highway};
use halves::{Way, carry_by};
use std::alloc::{AllocError, Global};
use std::test::Fail;
use std::thread::Threads;
use time_stage::carry;

/// One call for each stage, and halves with and without levels, with threads and without.
const WAYS: [(Way, u8); 5] = [
    (Way::Plain, 0),
    (Way::Shared, 0),
    (Way::Shared, 3),
    (Way::Halved, 0),
    (Way::Halved, 3),
];

// Joins two slots by a path.
fn join(image: &mut Image, from: Slot, to: Slot, slot: u8)
    requires sizes { (image.old.external ≡ 2) × (image.old.bridges ≡ 0) × (image.old.slots ≡ 2) }
    requires from { (from.line < 2) × (from.place < 30) }
    requires to { (to.line < 2) × (to.place < 30) }
    requires slot { slot < 2 }
    ensures sizes { (image.new.external ≡ 2) × (image.new.bridges ≡ 0) × (image.new.slots ≡ 2) }
{
    image.set_path(from, to, slot);
}

// Joins slots by three paths, two of which leave line 0.
fn join_three(image: &mut Image)
    requires sizes { (image.old.external ≡ 2) × (image.old.bridges ≡ 0) × (image.old.slots ≡ 2) }
    ensures sizes { (image.new.external ≡ 2) × (image.new.bridges ≡ 0) × (image.new.slots ≡ 2) }
{
    let first = Slot { line: 0, place: 0 };
    let second = Slot { line: 0, place: 1 };
    let other = Slot { line: 1, place: 0 };
    join(image, first, other, 1);
    join(image, other, first, 1);
    join(image, second, second, 0);
}

// The octets between the stages, and the tables of their paths.
#[derive(Drop)]
struct Parts {
    image: Image,
    buffer: FrameBuffer,
    highway: Highway,
    crossed: Crossed,
    out: FrameBuffer,
}

// Returns two speech memories.
fn memories(alloc: Global, lines: u8) -> Result<(FrameBuffer, FrameBuffer), AllocError>
    ensures lines { IfOk result (λ m. (m.0.lines ≡ lines) × (m.1.lines ≡ lines)) }
{
    let buffer = FrameBuffer::new(alloc, lines)?;
    let out = FrameBuffer::new(alloc, lines)?;
    Ok((buffer, out))
}

// Returns the highways before the space stage and after it.
fn highways(alloc: Global, lines: u8, slots: u8) -> Result<(Highway, Crossed), AllocError>
    ensures lines { IfOk result (λ h. (h.0.lines ≡ lines) × (h.1.lines ≡ lines)) }
    ensures slots { IfOk result (λ h. (h.0.slots ≡ slots) × (h.1.slots ≡ slots)) }
{
    let highway = Highway::new(alloc, lines, slots)?;
    let crossed = Crossed::new(alloc, lines, slots)?;
    Ok((highway, crossed))
}

// Returns the parts for n lines with their internal slots, without a path. An allocation can fail at each, so they are
// made separately from their use.
fn parts_for(alloc: Global, lines: u8, slots: u8) -> Result<Parts, AllocError>
    requires lines { (1 ≤ lines) × (lines ≤ 34) }
    requires slots { (1 ≤ slots) × (slots ≤ 59) }
    ensures image { IfOk result (λ p. (p.image.external ≡ lines) × (p.image.bridges ≡ 0) × (p.image.slots ≡ slots)) }
    ensures buffers { IfOk result (λ p. (p.buffer.lines ≡ lines) × (p.out.lines ≡ lines)) }
    ensures highway { IfOk result (λ p. (p.highway.lines ≡ lines) × (p.highway.slots ≡ slots)) }
    ensures crossed { IfOk result (λ p. (p.crossed.lines ≡ lines) × (p.crossed.slots ≡ slots)) }
{
    let (buffer, out) = memories(alloc, lines)?;
    let (highway, crossed) = highways(alloc, lines, slots)?;
    Ok(Parts {
        image: Image::new(alloc, lines, 0, slots)?,
        buffer,
        highway,
        crossed,
        out,
    })
}

// Writes the octets of two lines.
fn speak(buffer: &mut FrameBuffer)
    requires lines { buffer.old.lines ≡ 2 }
    ensures lines { buffer.new.lines ≡ 2 }
{
    let mut octets = [IDLE; 30];
    octets[0] = 0x11;
    octets[1] = 0x12;
    buffer.put_line(0, &octets);
    octets[0] = 0x21;
    octets[1] = IDLE;
    buffer.put_line(1, &octets);
    buffer.swap();
}

// Returns two lines that send, with two internal slots and three paths.
fn two_lines(alloc: Global) -> Result<Parts, AllocError>
    ensures image { IfOk result (λ p. (p.image.external ≡ 2) × (p.image.bridges ≡ 0) × (p.image.slots ≡ 2)) }
    ensures buffers { IfOk result (λ p. (p.buffer.lines ≡ 2) × (p.out.lines ≡ 2)) }
    ensures highway { IfOk result (λ p. (p.highway.lines ≡ 2) × (p.highway.slots ≡ 2)) }
    ensures crossed { IfOk result (λ p. (p.crossed.lines ≡ 2) × (p.crossed.slots ≡ 2)) }
{
    let mut parts = parts_for(alloc, 2, 2)?;
    join_three(&mut parts.image);
    speak(&mut parts.buffer);
    Ok(parts)
}

// Returns the number of slots of the lines that are not idle.
fn speaking(out: &FrameBuffer) -> usize {
    out.rows_from(0)
        .iter()
        .filter(|octet| **octet != IDLE)
        .count()
}

// Returns the octets that the two lines send in their two internal slots, and the octets that they get.
fn stage_by_stage(
    rt: &(impl Threads + Sync),
    alloc: Global,
    way: Way,
    levels: u8,
) -> Result<[[u8; 4]; 2], AllocError>
    requires levels { levels ≤ 3 }
{
    let mut parts = two_lines(alloc)?;
    carry_by(
        rt,
        way,
        levels,
        &parts.buffer,
        &parts.image,
        &mut parts.highway,
        &mut parts.crossed,
        &mut parts.out,
    );
    let (highway, crossed) = (&parts.highway, &parts.crossed);
    let sent = [
        highway.get(0, 0),
        highway.get(0, 1),
        highway.get(1, 0),
        highway.get(1, 1),
    ];
    let got = [
        crossed.get(0, 0),
        crossed.get(0, 1),
        crossed.get(1, 0),
        crossed.get(1, 1),
    ];
    Ok([sent, got])
}

// Returns whether the two lines send and get the octets of their paths.
fn pass_stage_by_stage(
    rt: &(impl Threads + Sync),
    alloc: Global,
    way: Way,
    levels: u8,
) -> Result<bool, AllocError>
    requires levels { levels ≤ 3 }
{
    let octets = stage_by_stage(rt, alloc, way, levels)?;
    Ok(octets == [[0x12, 0x11, IDLE, 0x21], [0x12, 0x21, IDLE, 0x11]])
}

#[test]
fn octets_pass_stage_by_stage(rt: HostRuntime) -> Result<(), Fail> {
    for (way, levels) in WAYS {
        assert!(rt; levels <= 3);
        assert!(rt; pass_stage_by_stage(&rt, rt.alloc(), way, levels)?);
    }
    Ok(())
}

// Returns whether the slots of the two lines receive the octets of their paths, and no other slot receives one of these
// octets.
fn have_reached(out: &FrameBuffer) -> bool
    requires lines { out.now.lines ≡ 2 }
{
    let first = [
        out.get(Slot { line: 0, place: 0 }),
        out.get(Slot { line: 0, place: 1 }),
    ];
    let second = out.get(Slot { line: 1, place: 0 });
    first == [0x21, 0x12] && second == 0x11 && speaking(out) == 3
}

#[test]
fn octets_reach_their_outlets(rt: HostRuntime) -> Result<(), AllocError> {
    let mut parts = two_lines(rt.alloc())?;
    carry(
        &parts.buffer,
        &parts.image,
        &mut parts.highway,
        &mut parts.crossed,
        &mut parts.out,
    );
    parts.out.swap();
    assert!(&rt; have_reached(&parts.out));
    Ok(())
}

//! Stages whose lines are divided by halves, compared with one call: halves in their own threads end, with the result
//! of one call.
ghost use Rattle.std.specs.Prelude.{◌≡◌, ◌≤◌, ◌<◌};
ghost use Rattle.frame_buffer.specs.Highways.{SameHighwaySize};
ghost use Rattle.control_memory.specs.Image.{lines_of};

use super::{Parts, parts_for};
use circuit_model::{CHANNELS_PER_LINE, IDLE, Slot};
use control_memory::Image;
use frame_buffer::{Crossed, FrameBuffer, Highway};
use space_stage::{cross, cross_part, cross_shared, cross_split};
use std::alloc::{AllocError, Global};
use std::test::Fail;
use std::thread::Threads;
use time_stage::{
    incoming, incoming_shared, incoming_split, outgoing, outgoing_shared, outgoing_split,
};

/// The way in which a stage is computed.
#[derive(Clone, Copy)]
pub(super) enum Way {
    /// By one call.
    Plain,
    /// By halves, if they are worth threads.
    Shared,
    /// By halves, each in its own thread.
    Halved,
}

// Sends a frame, crosses it, and reads it.
pub(super) fn carry_by(
    rt: &(impl Threads + Sync),
    way: Way,
    levels: u8,
    buffer: &FrameBuffer,
    image: &Image,
    highway: &mut Highway,
    crossed: &mut Crossed,
    out: &mut FrameBuffer,
)
    requires levels { levels ≤ 3 }
    requires buffer { buffer.now.lines ≡ lines_of image.now }
    requires lines { highway.old.lines ≡ lines_of image.now }
    requires slots { highway.old.slots ≡ image.now.slots }
    requires size { SameHighwaySize highway.old crossed.old }
    requires out { out.old.lines ≡ lines_of image.now }
    ensures highway_size { SameHighwaySize highway.old highway.new }
    ensures crossed_size { SameHighwaySize crossed.old crossed.new }
    ensures lines { out.new.lines ≡ out.old.lines }
{
    match way {
        Way::Plain => {
            incoming(buffer, image, highway);
            cross(highway, image, crossed);
            outgoing(crossed, image, out);
        }
        Way::Shared => {
            incoming_shared(rt, buffer, image, highway, levels);
            cross_shared(rt, highway, image, crossed, levels);
            outgoing_shared(rt, crossed, image, out, levels);
        }
        Way::Halved => {
            incoming_split(rt, buffer, image, highway, levels, 0);
            cross_split(rt, highway, image, crossed, levels, 0);
            outgoing_split(rt, crossed, image, out, levels, 0);
        }
    }
}

// Writes a path from each place to the same place of a line, by some internal slot: a layout that is not legal,
// in which some slots of a line have several paths.
fn connect_all(image: &mut Image, lines: u8)
    requires few { lines ≤ 34 }
    requires lines { (image.old.external ≡ lines) × (image.old.bridges ≡ 0) }
    requires slots { image.old.slots ≡ 59 }
    ensures lines { (image.new.external ≡ lines) × (image.new.bridges ≡ 0) }
    ensures slots { image.new.slots ≡ 59 }
{
    for line in 0..lines {
        for place in 0..CHANNELS_PER_LINE {
            let at = u32::from(line) * 30 + u32::from(place);
            let from = Slot { line, place };
            let to = Slot {
                line: (at * 7 % u32::from(lines)) as u8,
                place,
            };
            image.set_path(from, to, (at % 59) as u8);
        }
    }
}

fn fill(octets: &mut [u8]) {
    for (at, octet) in octets.iter_mut().enumerate() {
        *octet = (at % 251) as u8;
    }
}

// Returns the octets that the lines send, those that cross to them, and those that they read, in sequence.
fn carried(
    rt: &(impl Threads + Sync),
    alloc: Global,
    lines: u8,
    way: Way,
    levels: u8,
) -> Result<Vec<u8>, AllocError>
    requires lines { (1 ≤ lines) × (lines ≤ 34) }
    requires levels { levels ≤ 3 }
{
    let mut parts = parts_for(alloc, lines, 59)?;
    connect_all(&mut parts.image, lines);
    fill(parts.buffer.filling_half_mut());
    parts.buffer.swap();
    carry_by(
        rt,
        way,
        levels,
        &parts.buffer,
        &parts.image,
        &mut parts.highway,
        &mut parts.crossed,
        &mut parts.out,
    );
    octets_of(alloc, &mut parts)
}

// Returns the octets on both highways, and those that were read.
fn octets_of(alloc: Global, parts: &mut Parts) -> Result<Vec<u8>, AllocError> {
    let mut octets = Vec::new(alloc);
    octets.extend_from_slice(parts.highway.rows_mut())?;
    octets.extend_from_slice(parts.crossed.rows_mut())?;
    octets.extend_from_slice(parts.out.filling_half_mut())?;
    Ok(octets)
}

// Returns whether the lines carry the same by each of the ways as by one call for each stage.
fn carry_alike(rt: &(impl Threads + Sync), alloc: Global, lines: u8) -> Result<bool, AllocError>
    requires lines { (1 ≤ lines) × (lines ≤ 34) }
{
    let alone = carried(rt, alloc, lines, Way::Plain, 0)?;
    for (way, levels) in super::WAYS {
        if levels > 3 || !carry_these(rt, alloc, lines, way, levels, alone.as_slice())? {
            return Ok(false);
        }
    }
    Ok(true)
}

// Returns whether the lines carry these octets.
fn carry_these(
    rt: &(impl Threads + Sync),
    alloc: Global,
    lines: u8,
    way: Way,
    levels: u8,
    octets: &[u8],
) -> Result<bool, AllocError>
    requires lines { (1 ≤ lines) × (lines ≤ 34) }
    requires levels { levels ≤ 3 }
{
    Ok(carried(rt, alloc, lines, way, levels)?.as_slice() == octets)
}

#[test]
fn shared_stages_carry_what_plain_ones_do(rt: HostRuntime) -> Result<(), Fail> {
    // Fewer lines than parts, an odd number, and all.
    assert!(rt; carry_alike(&rt, rt.alloc(), 1)?);
    assert!(rt; carry_alike(&rt, rt.alloc(), 2)?);
    assert!(rt; carry_alike(&rt, rt.alloc(), 5)?);
    assert!(rt; carry_alike(&rt, rt.alloc(), 34)?);
    Ok(())
}

// Returns whether each line gets by itself the octets that it gets by one call for all lines.
fn gets_alike(highway: &Highway, image: &Image, crossed: &Crossed) -> bool
    requires lines { highway.now.lines ≡ lines_of image.now }
    requires slots { (highway.now.slots ≡ 59) × (image.now.slots ≡ 59) }
    requires size { SameHighwaySize highway.now crossed.now }
{
    for line in 0..highway.lines() {
        let mut row = [IDLE; 59];
        cross_part(highway, image, 59, line, &mut row);
        if crossed.row(line) != row.as_slice() {
            return false;
        }
    }
    true
}

// Returns whether each of n lines gets by itself the octets that it gets with the others.
fn cross_alike(alloc: Global, lines: u8) -> Result<bool, AllocError>
    requires lines { (1 ≤ lines) × (lines ≤ 34) }
{
    let mut parts = parts_for(alloc, lines, 59)?;
    connect_all(&mut parts.image, lines);
    fill(parts.buffer.filling_half_mut());
    parts.buffer.swap();
    incoming(&parts.buffer, &parts.image, &mut parts.highway);
    cross(&parts.highway, &parts.image, &mut parts.crossed);
    Ok(gets_alike(&parts.highway, &parts.image, &parts.crossed))
}

#[test]
fn a_line_crosses_alone_as_with_others(rt: HostRuntime) -> Result<(), Fail> {
    assert!(rt; cross_alike(rt.alloc(), 1)?);
    assert!(rt; cross_alike(rt.alloc(), 34)?);
    Ok(())
}

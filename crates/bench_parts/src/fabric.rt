//! A full fabric, through which frames are carried forward and back.

ghost use Rattle.std.specs.Prelude.{◌≡◌, ◌<◌};
ghost use Rattle.frame_buffer.specs.Highways.{SameHighwaySize};
ghost use Rattle.control_memory.specs.Image.{lines_of};

use circuit_model::{CHANNELS_PER_LINE, IDLE, Slot};
use control_memory::Image;
use frame_buffer::{Crossed, FrameBuffer, Highway};
use space_stage::{cross_shared, cross_split};
use std::alloc::{AllocError, Global};
use std::thread::Threads;
use time_stage::{incoming_shared, incoming_split, outgoing_shared, outgoing_split};

const EXTERNAL: u8 = 30;

const BRIDGES: u8 = 4;

const LINES: u8 = 34;

const SLOTS: u8 = 59;

/// The number of times that a stage halves its lines.
const LEVELS: u8 = 3;

/// The way in which the three stages are computed.
#[derive(Clone, Copy)]
pub enum Way {
    /// By one call each.
    Plain,
    /// By halves if they are worth threads, as an engine does.
    Shared,
    /// By halves, each in its own thread.
    Joins,
}

/// Carries n pairs of frames forward and back between two buffers, over a fabric in which every slot has a path, and
/// returns a sum over the octets of the last one.
pub fn run(
    rt: &(impl Threads + Sync),
    alloc: Global,
    pairs: u32,
    way: Way,
) -> Result<u32, AllocError> {
    let mut image = Image::new(alloc, EXTERNAL, BRIDGES, SLOTS)?;
    connect_all(&mut image);
    let mut near = FrameBuffer::new(alloc, LINES)?;
    fill(&mut near);
    carry_to_and_fro(rt, alloc, pairs, way, &image, &mut near)
}

// Carries n pairs of frames to another buffer and back, and returns a sum over the returned octets.
fn carry_to_and_fro(
    rt: &(impl Threads + Sync),
    alloc: Global,
    pairs: u32,
    way: Way,
    image: &Image,
    near: &mut FrameBuffer,
) -> Result<u32, AllocError>
    requires lines { (image.now.external ≡ 30) × (image.now.bridges ≡ 4) }
    requires slots { image.now.slots ≡ 59 }
    requires near { near.old.lines ≡ 34 }
{
    let mut far = FrameBuffer::new(alloc, LINES)?;
    let mut highway = Highway::new(alloc, LINES, SLOTS)?;
    let mut crossed = Crossed::new(alloc, LINES, SLOTS)?;
    for _ in 0..pairs {
        carry(rt, way, near, image, &mut highway, &mut crossed, &mut far);
        carry(rt, way, &far, image, &mut highway, &mut crossed, near);
    }
    Ok(sum_of(near))
}

// Carries one frame, and swaps the halves of the buffer that received it.
fn carry(
    rt: &(impl Threads + Sync),
    way: Way,
    from: &FrameBuffer,
    image: &Image,
    highway: &mut Highway,
    crossed: &mut Crossed,
    to: &mut FrameBuffer,
)
    requires from { from.now.lines ≡ lines_of image.now }
    requires lines { highway.old.lines ≡ lines_of image.now }
    requires slots { highway.old.slots ≡ image.now.slots }
    requires size { SameHighwaySize highway.old crossed.old }
    requires to { to.old.lines ≡ lines_of image.now }
    ensures highway_size { SameHighwaySize highway.old highway.new }
    ensures crossed_size { SameHighwaySize crossed.old crossed.new }
    ensures lines { to.new.lines ≡ to.old.lines }
{
    match way {
        Way::Plain => time_stage::carry(from, image, highway, crossed, to),
        Way::Shared => {
            incoming_shared(rt, from, image, highway, LEVELS);
            cross_shared(rt, highway, image, crossed, LEVELS);
            outgoing_shared(rt, crossed, image, to, LEVELS);
        }
        Way::Joins => {
            incoming_split(rt, from, image, highway, LEVELS, 0);
            cross_split(rt, highway, image, crossed, LEVELS, 0);
            outgoing_split(rt, crossed, image, to, LEVELS, 0);
        }
    }
    to.swap();
}

// From place p of line i to line i + p, in a slot that only p has on every line.
fn connect_all(image: &mut Image)
    requires lines { (image.old.external ≡ 30) × (image.old.bridges ≡ 4) }
    requires slots { image.old.slots ≡ 59 }
    ensures lines { (image.new.external ≡ 30) × (image.new.bridges ≡ 4) }
    ensures slots { image.new.slots ≡ 59 }
{
    for line in 0..LINES {
        connect_line(image, line);
    }
}

fn connect_line(image: &mut Image, line: u8)
    requires lines { (image.old.external ≡ 30) × (image.old.bridges ≡ 4) }
    requires slots { image.old.slots ≡ 59 }
    requires line { line < 34 }
    ensures lines { (image.new.external ≡ 30) × (image.new.bridges ≡ 4) }
    ensures slots { image.new.slots ≡ 59 }
{
    for place in 0..CHANNELS_PER_LINE {
        let to = (u32::from(line) + u32::from(place)) % 34;
        let other = (u32::from(place) * 7 + to) % 30;
        let slot = (u32::from(place) * 17 + 5) % 59;
        let outlet = Slot {
            line: to as u8,
            place: other as u8,
        };
        image.set_path(Slot { line, place }, outlet, slot as u8);
    }
}

fn fill(buffer: &mut FrameBuffer)
    requires { buffer.old.lines ≡ 34 }
    ensures { buffer.new.lines ≡ 34 }
{
    for line in 0..LINES {
        buffer.put_line(line, &octets_of(line));
    }
    buffer.swap();
}

fn octets_of(line: u8) -> [u8; 30] {
    let mut octets = [IDLE; 30];
    for (place, octet) in octets.iter_mut().enumerate() {
        *octet = ((usize::from(line) * 37 + place * 11) % 256) as u8;
    }
    octets
}

fn sum_of(buffer: &FrameBuffer) -> u32
    requires { buffer.now.lines ≡ 34 }
{
    let mut sum = 0u32;
    for line in 0..LINES {
        for place in 0..CHANNELS_PER_LINE {
            let octet = buffer.get(Slot { line, place });
            sum = sum.wrapping_mul(31).wrapping_add(u32::from(octet));
        }
    }
    sum
}

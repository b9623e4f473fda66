//! The crossing, divided among threads by halves of the lines.

ghost use Rattle.std.specs.Prelude.{◌≡◌, ◌≤◌, length};
ghost use Rattle.std.specs.Thread.{IsSync};
ghost use Rattle.frame_buffer.specs.Highways.{SameHighwaySize, AreRows};
ghost use Rattle.control_memory.specs.Image.{lines_of};
ghost use Rattle.space_stage.specs.Crossing.{AreCrossed, IsCrossedPart, IsCrossed};

use crate::crossbar::{cross, cross_part};
use control_memory::Image;
use frame_buffer::{Crossed, Highway, MIN_HALF_OCTETS};
use std::ops::Range;
use std::thread::{Threads, join_mut};

/// Crosses one frame as `cross` does, by halves of the lines: they are halved `levels` times, and the halves joined. A
/// half of at least [`MIN_HALF_OCTETS`] octets gets a thread. If the first half of all lines has fewer, this is
/// `cross`.
pub fn cross_shared<R: Threads + Sync>(
    rt: &R,
    highway: &Highway,
    image: &Image,
    crossed: &mut Crossed,
    levels: u8,
)
    requires lines { highway.now.lines ≡ lines_of image.now }
    requires slots { highway.now.slots ≡ image.now.slots }
    requires size { SameHighwaySize highway.now crossed.old }
    requires levels { levels ≤ 3 }
    ensures size { SameHighwaySize crossed.old crossed.new }
    ensures octets { IsCrossed image.now highway.now crossed.new }
{
    let half = usize::from(highway.lines() / 2) * usize::from(highway.slots());
    if half < MIN_HALF_OCTETS {
        cross(highway, image, crossed);
    } else {
        cross_split(rt, highway, image, crossed, levels, MIN_HALF_OCTETS);
    }
}

/// Crosses one frame as `cross_shared` does, with a thread for a half of at least n octets. With n = 0 each half has a
/// thread. For tests and measurements.
pub fn cross_split<R: Threads + Sync>(
    rt: &R,
    highway: &Highway,
    image: &Image,
    crossed: &mut Crossed,
    levels: u8,
    least: usize,
)
    requires lines { highway.now.lines ≡ lines_of image.now }
    requires slots { highway.now.slots ≡ image.now.slots }
    requires size { SameHighwaySize highway.now crossed.old }
    requires levels { levels ≤ 3 }
    ensures size { SameHighwaySize crossed.old crossed.new }
    ensures octets { IsCrossed image.now highway.now crossed.new }
{
    let lines = 0..highway.lines();
    let part = crossed.rows_mut();
    cross_halves(rt, highway, image, lines, part, levels, least);
}

// Crosses to these lines, by halves if they have at least n octets.
fn cross_halves<R: Threads + Sync>(
    rt: &R,
    highway: &Highway,
    image: &Image,
    lines: Range<u8>,
    part: &mut [u8],
    levels: u8,
    least: usize,
)
    requires lines { highway.now.lines ≡ lines_of image.now }
    requires slots { highway.now.slots ≡ image.now.slots }
    requires part { AreRows (lines_of image.now) image.now.slots lines.start lines.end (length part.old) }
    ensures size { length part.new ≡ length part.old }
    ensures octets { IsCrossedPart image.now highway.now lines.start part.new }
{
    let (first, end) = (lines.start, lines.end);
    let slots = highway.slots();
    let half = (end - first) / 2;
    let cut = usize::from(half) * usize::from(slots);
    if levels == 0 || cut < least {
        cross_part(highway, image, slots, first, part);
        return;
    }
    let next = levels - 1;
    let middle = first + half;
    let (front, back) = part.split_at_mut(cut);
    join_mut(
        rt,
        &mut ||
            requires threads { IsSync R.row }
            requires lines { highway.now.lines ≡ lines_of image.now }
            requires slots { highway.now.slots ≡ image.now.slots }
            requires part { AreRows (lines_of image.now) image.now.slots first middle (length front.now) }
            ensures { AreCrossed image.entry.now highway.entry.now first (length front.entry.now) front.exit.now }
        { cross_halves(rt, highway, image, first..middle, front, next, least) },
        &mut ||
            requires threads { IsSync R.row }
            requires lines { highway.now.lines ≡ lines_of image.now }
            requires slots { highway.now.slots ≡ image.now.slots }
            requires part { AreRows (lines_of image.now) image.now.slots middle end (length back.now) }
            ensures { AreCrossed image.entry.now highway.entry.now middle (length back.entry.now) back.exit.now }
        { cross_halves(rt, highway, image, middle..end, back, next, least) },
    );
}

//! The two time stages, divided among threads by halves of the lines.

ghost use Rattle.std.specs.Prelude.{◌≡◌, ◌≤◌, length};
ghost use Rattle.std.specs.Thread.{IsSync};
ghost use Rattle.frame_buffer.specs.Highways.{SameHighwaySize, AreRows, RowsHold};
ghost use Rattle.control_memory.specs.Image.{lines_of};
ghost use Rattle.time_stage.specs.Interchange.{AreRead, AreSent, IsRead, IsSent, reads, sends};

use crate::interchange::{incoming, outgoing, read_part, send_part};
use circuit_model::CHANNELS_PER_LINE;
use control_memory::Image;
use frame_buffer::{Crossed, FrameBuffer, Highway, MIN_HALF_OCTETS};
use std::ops::Range;
use std::thread::{Threads, join_mut};

/// Performs the incoming time stage of one frame, by halves of the lines: they are halved `levels` times, and the
/// halves joined. A half of at least [`MIN_HALF_OCTETS`] octets gets a thread. If the first half of all lines has
/// fewer, this is `incoming`.
pub fn incoming_shared<R: Threads + Sync>(
    rt: &R,
    buffer: &FrameBuffer,
    image: &Image,
    highway: &mut Highway,
    levels: u8,
)
    requires buffer { buffer.now.lines ≡ lines_of image.now }
    requires lines { highway.old.lines ≡ lines_of image.now }
    requires slots { highway.old.slots ≡ image.now.slots }
    requires levels { levels ≤ 3 }
    ensures size { SameHighwaySize highway.old highway.new }
    ensures octets { IsSent image.now buffer.now highway.new }
{
    let half = usize::from(highway.lines() / 2) * usize::from(highway.slots());
    if half < MIN_HALF_OCTETS {
        incoming(buffer, image, highway);
    } else {
        incoming_split(rt, buffer, image, highway, levels, MIN_HALF_OCTETS);
    }
}

/// Performs the incoming time stage of one frame, with a thread for a half of at least n octets. With n = 0 each half
/// has a thread. For tests and measurements.
pub fn incoming_split<R: Threads + Sync>(
    rt: &R,
    buffer: &FrameBuffer,
    image: &Image,
    highway: &mut Highway,
    levels: u8,
    least: usize,
)
    requires buffer { buffer.now.lines ≡ lines_of image.now }
    requires lines { highway.old.lines ≡ lines_of image.now }
    requires slots { highway.old.slots ≡ image.now.slots }
    requires levels { levels ≤ 3 }
    ensures size { SameHighwaySize highway.old highway.new }
    ensures octets { IsSent image.now buffer.now highway.new }
{
    let lines = 0..highway.lines();
    let part = highway.rows_mut();
    send_halves(rt, buffer, image, lines, part, levels, least);
}

// Writes the octets that these lines send, by halves if they have at least n octets.
fn send_halves<R: Threads + Sync>(
    rt: &R,
    buffer: &FrameBuffer,
    image: &Image,
    lines: Range<u8>,
    part: &mut [u8],
    levels: u8,
    least: usize,
)
    requires buffer { buffer.now.lines ≡ lines_of image.now }
    requires part { AreRows (lines_of image.now) image.now.slots lines.start lines.end (length part.old) }
    ensures size { length part.new ≡ length part.old }
    ensures octets { RowsHold image.now.slots (sends image.now buffer.now) lines.start part.new }
{
    let (first, end) = (lines.start, lines.end);
    let slots = image.slots();
    let half = (end - first) / 2;
    let cut = usize::from(half) * usize::from(slots);
    if levels == 0 || cut < least {
        send_part(buffer, image, slots, first, part);
        return;
    }
    let next = levels - 1;
    let middle = first + half;
    let (front, back) = part.split_at_mut(cut);
    join_mut(
        rt,
        &mut ||
            requires threads { IsSync R.row }
            requires buffer { buffer.now.lines ≡ lines_of image.now }
            requires part { AreRows (lines_of image.now) image.now.slots first middle (length front.now) }
            ensures { AreSent image.entry.now.slots image.entry.now buffer.entry.now first (length front.entry.now) front.exit.now }
        { send_halves(rt, buffer, image, first..middle, front, next, least) },
        &mut ||
            requires threads { IsSync R.row }
            requires buffer { buffer.now.lines ≡ lines_of image.now }
            requires part { AreRows (lines_of image.now) image.now.slots middle end (length back.now) }
            ensures { AreSent image.entry.now.slots image.entry.now buffer.entry.now middle (length back.entry.now) back.exit.now }
        { send_halves(rt, buffer, image, middle..end, back, next, least) },
    );
}

/// Performs the outgoing time stage of one frame, by halves of the lines: they are halved `levels` times, and the
/// halves joined. A half of at least [`MIN_HALF_OCTETS`] octets gets a thread. If the first half of all lines has
/// fewer, this is `outgoing`.
pub fn outgoing_shared<R: Threads + Sync>(
    rt: &R,
    crossed: &Crossed,
    table: &Image,
    out: &mut FrameBuffer,
    levels: u8,
)
    requires crossed { crossed.now.lines ≡ lines_of table.now }
    requires slots { crossed.now.slots ≡ table.now.slots }
    requires lines { out.old.lines ≡ lines_of table.now }
    requires levels { levels ≤ 3 }
    ensures lines { out.new.lines ≡ out.old.lines }
    ensures octets { IsRead table.now crossed.now out.new }
    ensures readable { out.new.readable ≡ out.old.readable }
{
    let half = usize::from(out.lines() / 2) * usize::from(CHANNELS_PER_LINE);
    if half < MIN_HALF_OCTETS {
        outgoing(crossed, table, out);
    } else {
        outgoing_split(rt, crossed, table, out, levels, MIN_HALF_OCTETS);
    }
}

/// Performs the outgoing time stage of one frame, with a thread for a half of at least n octets. With n = 0 each half
/// has a thread. For tests and measurements.
pub fn outgoing_split<R: Threads + Sync>(
    rt: &R,
    crossed: &Crossed,
    table: &Image,
    out: &mut FrameBuffer,
    levels: u8,
    least: usize,
)
    requires crossed { crossed.now.lines ≡ lines_of table.now }
    requires slots { crossed.now.slots ≡ table.now.slots }
    requires lines { out.old.lines ≡ lines_of table.now }
    requires levels { levels ≤ 3 }
    ensures lines { out.new.lines ≡ out.old.lines }
    ensures octets { IsRead table.now crossed.now out.new }
    ensures readable { out.new.readable ≡ out.old.readable }
{
    let lines = 0..out.lines();
    read_halves(
        rt,
        crossed,
        table,
        lines,
        out.filling_half_mut(),
        levels,
        least,
    );
}

// Writes the octets that these lines read, by halves if they have at least n octets.
fn read_halves<R: Threads + Sync>(
    rt: &R,
    crossed: &Crossed,
    table: &Image,
    lines: Range<u8>,
    part: &mut [u8],
    levels: u8,
    least: usize,
)
    requires crossed { crossed.now.lines ≡ lines_of table.now }
    requires slots { crossed.now.slots ≡ table.now.slots }
    requires part { AreRows (lines_of table.now) 30 lines.start lines.end (length part.old) }
    ensures size { length part.new ≡ length part.old }
    ensures octets { RowsHold 30 (reads table.now crossed.now) lines.start part.new }
{
    let (first, end) = (lines.start, lines.end);
    let half = (end - first) / 2;
    let cut = usize::from(half) * usize::from(CHANNELS_PER_LINE);
    if levels == 0 || cut < least {
        read_part(crossed, table, first, part);
        return;
    }
    let next = levels - 1;
    let middle = first + half;
    let (front, back) = part.split_at_mut(cut);
    join_mut(
        rt,
        &mut ||
            requires threads { IsSync R.row }
            requires crossed { crossed.now.lines ≡ lines_of table.now }
            requires slots { crossed.now.slots ≡ table.now.slots }
            requires part { AreRows (lines_of table.now) 30 first middle (length front.now) }
            ensures { AreRead table.entry.now crossed.entry.now first (length front.entry.now) front.exit.now }
        { read_halves(rt, crossed, table, first..middle, front, next, least) },
        &mut ||
            requires threads { IsSync R.row }
            requires crossed { crossed.now.lines ≡ lines_of table.now }
            requires slots { crossed.now.slots ≡ table.now.slots }
            requires part { AreRows (lines_of table.now) 30 middle end (length back.now) }
            ensures { AreRead table.entry.now crossed.entry.now middle (length back.entry.now) back.exit.now }
        { read_halves(rt, crossed, table, middle..end, back, next, least) },
    );
}

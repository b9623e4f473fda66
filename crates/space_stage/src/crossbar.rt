//! The crossbar of the space stage, one outgoing line after another.

ghost use Rattle.std.specs.Prelude.{◌≡◌, ℕ, ◌<◌, length, slice_index};
ghost use Rattle.circuit_model.specs.FrameInput.{idle_octet};
ghost use Rattle.frame_buffer.specs.Highways.{SameHighwaySize, IsPart, RowsHold};
ghost use Rattle.control_memory.specs.Tables.{HasSize};
ghost use Rattle.control_memory.specs.Image.{lines_of};
ghost use Rattle.space_stage.specs.Crossing.{gets_by, IsCrossedPart, IsCrossed, AreStarts};

use crate::overlay::{MAX_SENDERS, find_senders, lay_used};
use crate::slotwise::{MAX_TURNED, MIN_TURNED, cross_turned};
use control_memory::{ControlTable, Image};
use frame_buffer::{Crossed, Highway, fill_idle};

/// Crosses one frame: in each internal slot each outgoing line gets the octet of the incoming line in its control
/// table's entry, or the idle octet if there is no entry. Every octet is written, so nothing of an earlier frame
/// remains.
pub fn cross(highway: &Highway, image: &Image, crossed: &mut Crossed)
    requires lines { highway.now.lines ≡ lines_of image.now }
    requires slots { highway.now.slots ≡ image.now.slots }
    requires size { SameHighwaySize highway.now crossed.old }
    ensures size { SameHighwaySize crossed.old crossed.new }
    ensures octets { IsCrossed image.now highway.now crossed.new }
{
    let slots = crossed.slots();
    cross_part(highway, image, slots, 0, crossed.rows_mut());
}

/// Crosses one frame to some outgoing lines: `part` has their rows, of `slots` octets each, from the row of line
/// `first` on. They get the octets that [`cross`] gives these lines.
pub fn cross_part(highway: &Highway, image: &Image, slots: u8, first: u8, part: &mut [u8])
    requires lines { highway.now.lines ≡ lines_of image.now }
    requires highway { highway.now.slots ≡ slots }
    requires image { image.now.slots ≡ slots }
    requires part { IsPart (lines_of image.now) slots first (length part.old) }
    ensures size { length part.new ≡ length part.old }
    ensures octets { IsCrossedPart image.now highway.now first part.new }
{
    fill_idle(part);
    let table = image.space_table();
    if first < table.used_rows() {
        cross_used(highway, table, slots, first, part);
    }
}

// Crosses one frame to some outgoing lines whose rows are idle. It is called only if one of them may get an octet.
// Lines that send nothing do not cross, if few lines send.
fn cross_used(highway: &Highway, table: &ControlTable, slots: u8, first: u8, part: &mut [u8])
    requires highway { highway.now.slots ≡ slots }
    requires table { HasSize table.now highway.now.lines slots highway.now.lines }
    requires part { IsPart highway.now.lines slots first (length part.old) }
    requires idle { (at : ℕ) → at < length part.old → slice_index part.old at ≡ idle_octet }
    ensures size { length part.new ≡ length part.old }
    ensures octets { RowsHold slots (gets_by table.now highway.now) first part.new }
{
    if slots == 30 {
        let mut senders = [0; MAX_SENDERS];
        if let Some(count) = find_senders(highway, &mut senders) {
            lay_used(highway, &senders, count, table, slots, first, part);
            return;
        }
    }
    cross_many(highway, table, slots, first, part);
}

// Crosses one frame to some outgoing lines whose rows are idle. If many rows may have a number, and the part has the
// rows of all of up to 32 lines, they are crossed slot by slot.
fn cross_many(highway: &Highway, table: &ControlTable, slots: u8, first: u8, part: &mut [u8])
    requires highway { highway.now.slots ≡ slots }
    requires table { HasSize table.now highway.now.lines slots highway.now.lines }
    requires part { IsPart highway.now.lines slots first (length part.old) }
    requires idle { (at : ℕ) → at < length part.old → slice_index part.old at ≡ idle_octet }
    ensures size { length part.new ≡ length part.old }
    ensures octets { RowsHold slots (gets_by table.now highway.now) first part.new }
{
    let lines = highway.lines();
    let is_whole = first == 0 && part.len() == usize::from(lines) * 30;
    if slots == 30 && is_whole && lines <= MAX_TURNED && table.used_rows() >= MIN_TURNED {
        cross_turned(highway, table, part);
    } else {
        gather_used(highway, table, slots, first, part);
    }
}

// Crosses one frame to some outgoing lines whose rows are idle, octet by octet.
fn gather_used(highway: &Highway, table: &ControlTable, slots: u8, first: u8, part: &mut [u8])
    requires highway { highway.now.slots ≡ slots }
    requires table { HasSize table.now highway.now.lines slots highway.now.lines }
    requires part { IsPart highway.now.lines slots first (length part.old) }
    requires idle { (at : ℕ) → at < length part.old → slice_index part.old at ≡ idle_octet }
    ensures size { length part.new ≡ length part.old }
    ensures octets { RowsHold slots (gets_by table.now highway.now) first part.new }
{
    let mut starts = [0; 256];
    find_starts(highway, &mut starts);
    let slots = usize::from(slots);
    for line in first..table.used_rows() {
        if table.is_known_empty(line) {
            continue;
        }
        let start = usize::from(line - first) * slots;
        if start < part.len() {
            let row = &mut part[start..start + slots];
            gather_row(highway, &starts, table, line, row);
        }
    }
}

// Finds the start of each incoming line's row in a highway, by the line's byte in a control table. The byte 255 gives
// the start of the idle row. With this list, made once a frame, an octet costs one lookup and no test.
fn find_starts(highway: &Highway, starts: &mut [u16; 256])
    requires { slice_index starts.old 255 ≡ 0 }
    ensures { AreStarts highway.now.lines highway.now.slots starts.new }
{
    let slots = u16::from(highway.slots());
    let mut start = 0;
    for line in 0..highway.lines() {
        start += slots;
        starts[usize::from(line)] = start;
    }
}

// Gathers the octets of one outgoing line from the incoming ones, entry by entry. Runs of a fixed length take fewer
// instructions, but a sixth more time.
fn gather_row(
    highway: &Highway,
    starts: &[u16; 256],
    table: &ControlTable,
    line: u8,
    row: &mut [u8],
)
    requires starts { AreStarts highway.now.lines highway.now.slots starts.now }
    requires slots { highway.now.slots ≡ table.now.columns }
    requires limit { table.now.limit ≡ highway.now.lines }
    requires line { line < table.now.rows }
    requires row { length row.old ≡ table.now.columns }
    ensures size { length row.new ≡ length row.old }
    ensures octets { (slot : ℕ) → slot < length row.new → slice_index row.new slot ≡ gets_by table.now highway.now line slot }
{
    let rows = highway.rows_with_idle_first();
    let lines = table.row(line);
    for (slot, octet) in row.iter_mut().enumerate() {
        let start = usize::from(starts[usize::from(lines[slot])]);
        *octet = rows[start + slot];
    }
}

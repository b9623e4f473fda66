//! The time slot interchange on both sides of the space stage.

ghost use Rattle.std.specs.Prelude.{◌≡◌, ℕ, ◌<◌, IsTrue, length, slice_index};
ghost use Rattle.circuit_model.specs.FrameInput.{idle_octet};
ghost use Rattle.frame_buffer.specs.Highways.{SameHighwaySize, IsPart, RowsHold};
ghost use Rattle.control_memory.specs.Tables.{HasSize};
ghost use Rattle.control_memory.specs.Image.{lines_of};
ghost use Rattle.time_stage.specs.Interchange.{reads_by, sends_by, sends, reads, IsSent, IsRead};

use crate::store::{Store, fetch_thirty};
use circuit_model::CHANNELS_PER_LINE;
use control_memory::{ControlTable, Image};
use frame_buffer::{Crossed, FrameBuffer, Highway, fill_idle, is_idle};

/// Performs the incoming time stage of one frame: each line sends in each internal slot the octet of the place in its
/// control table's entry, out of the half of the buffer that is read. It sends the idle octet if there is no entry.
/// Every octet is written, so nothing of an earlier frame remains.
pub fn incoming(buffer: &FrameBuffer, image: &Image, highway: &mut Highway)
    requires buffer { buffer.now.lines ≡ lines_of image.now }
    requires lines { highway.old.lines ≡ lines_of image.now }
    requires slots { highway.old.slots ≡ image.now.slots }
    ensures size { SameHighwaySize highway.old highway.new }
    ensures octets { IsSent image.now buffer.now highway.new }
{
    let slots = highway.slots();
    send_part(buffer, image, slots, 0, highway.rows_mut());
}

// Writes the octets that some lines send, from line `first` on: `part` holds their rows, of `slots` octets each. All of
// them are made idle at once, since most lines may send nothing.
pub(crate) fn send_part(buffer: &FrameBuffer, image: &Image, slots: u8, first: u8, part: &mut [u8])
    requires buffer { buffer.now.lines ≡ lines_of image.now }
    requires slots { image.now.slots ≡ slots }
    requires part { IsPart (lines_of image.now) slots first (length part.old) }
    ensures size { length part.new ≡ length part.old }
    ensures octets { RowsHold slots (sends image.now buffer.now) first part.new }
{
    fill_idle(part);
    let table = image.incoming_table();
    if first < table.used_rows() {
        send_used(buffer, table, slots, first, part);
    }
}

// Writes the octets that some lines send into idle rows. It is called only if one of them may send, so that a frame
// without octets makes no store.
fn send_used(buffer: &FrameBuffer, table: &ControlTable, slots: u8, first: u8, part: &mut [u8])
    requires table { HasSize table.now buffer.now.lines slots 30 }
    requires part { IsPart buffer.now.lines slots first (length part.old) }
    requires idle { (at : ℕ) → at < length part.old → slice_index part.old at ≡ idle_octet }
    ensures size { length part.new ≡ length part.old }
    ensures octets { RowsHold slots (sends_by table.now buffer.now) first part.new }
{
    let mut store = Store::new();
    let slots = usize::from(slots);
    for line in first..table.used_rows() {
        if sends_nothing(buffer, table, line) {
            continue;
        }
        let start = usize::from(line - first) * slots;
        if start < part.len() {
            let row = &mut part[start..start + slots];
            send_row(buffer, table, line, &mut store, row);
        }
    }
}

// Returns true only if a line sends nothing but idle octets: it has no path, or, in a fabric of 30 internal slots, only
// idle octets arrived on it.
#[inline(always)]
fn sends_nothing(buffer: &FrameBuffer, table: &ControlTable, line: u8) -> bool
    requires lines { buffer.now.lines ≡ table.now.rows }
    requires limit { table.now.limit ≡ 30 }
    requires line { line < table.now.rows }
    ensures { IsTrue result → (slot : ℕ) → slot < table.now.columns → sends_by table.now buffer.now line slot ≡ idle_octet }
{
    let places = table.row(line);
    table.is_known_empty(line) || (places.len() == 30 && is_idle(buffer.row(line)))
}

// Writes the octets that one line sends.
fn send_row(buffer: &FrameBuffer, table: &ControlTable, line: u8, store: &mut Store, row: &mut [u8])
    requires lines { buffer.now.lines ≡ table.now.rows }
    requires limit { table.now.limit ≡ 30 }
    requires line { line < table.now.rows }
    requires row { length row.old ≡ table.now.columns }
    ensures size { length row.new ≡ length row.old }
    ensures octets { (slot : ℕ) → slot < length row.new → slice_index row.new slot ≡ sends_by table.now buffer.now line slot }
{
    let octets = buffer.row(line);
    if row.len() == 30 {
        fetch_thirty(octets, table.row(line), row);
    } else {
        store.load(octets);
        store.fetch(table.row(line), row);
    }
}

/// Performs the outgoing time stage of one frame: each place of a line reads the octet of the internal slot in its
/// control table's entry, or the idle octet if there is no entry. It writes the half of `out` that is filled, which is
/// output once the halves are swapped.
///
/// `table` is the control memory by which the octets were crossed.
pub fn outgoing(crossed: &Crossed, table: &Image, out: &mut FrameBuffer)
    requires crossed { crossed.now.lines ≡ lines_of table.now }
    requires slots { crossed.now.slots ≡ table.now.slots }
    requires lines { out.old.lines ≡ lines_of table.now }
    ensures lines { out.new.lines ≡ out.old.lines }
    ensures octets { IsRead table.now crossed.now out.new }
    ensures readable { out.new.readable ≡ out.old.readable }
{
    read_part(crossed, table, 0, out.filling_half_mut());
}

// Writes the octets that some lines read, from line `first` on: `part` holds their rows, of 30 octets each.
pub(crate) fn read_part(crossed: &Crossed, image: &Image, first: u8, part: &mut [u8])
    requires crossed { crossed.now.lines ≡ lines_of image.now }
    requires slots { crossed.now.slots ≡ image.now.slots }
    requires part { IsPart (lines_of image.now) 30 first (length part.old) }
    ensures size { length part.new ≡ length part.old }
    ensures octets { RowsHold 30 (reads image.now crossed.now) first part.new }
{
    fill_idle(part);
    let table = image.outgoing_table();
    if first < table.used_rows() {
        read_used(crossed, table, first, part);
    }
}

// Writes the octets that some lines read into idle rows. It is called only if one of them may read.
fn read_used(crossed: &Crossed, table: &ControlTable, first: u8, part: &mut [u8])
    requires table { HasSize table.now crossed.now.lines 30 crossed.now.slots }
    requires part { IsPart crossed.now.lines 30 first (length part.old) }
    requires idle { (at : ℕ) → at < length part.old → slice_index part.old at ≡ idle_octet }
    ensures size { length part.new ≡ length part.old }
    ensures octets { RowsHold 30 (reads_by table.now crossed.now) first part.new }
{
    let mut store = Store::new();
    let places = usize::from(CHANNELS_PER_LINE);
    for line in first..table.used_rows() {
        if table.is_known_empty(line) {
            continue;
        }
        let start = usize::from(line - first) * places;
        if start < part.len() {
            let row = &mut part[start..start + places];
            read_row(crossed, table, line, &mut store, row);
        }
    }
}

// Writes the octets that one line reads.
fn read_row(crossed: &Crossed, table: &ControlTable, line: u8, store: &mut Store, row: &mut [u8])
    requires table { HasSize table.now crossed.now.lines 30 crossed.now.slots }
    requires line { line < table.now.rows }
    requires row { length row.old ≡ 30 }
    ensures size { length row.new ≡ length row.old }
    ensures octets { (place : ℕ) → place < length row.new → slice_index row.new place ≡ reads_by table.now crossed.now line place }
{
    let octets = crossed.row(line);
    if octets.len() == 30 {
        fetch_thirty(octets, table.row(line), row);
    } else {
        store.load(octets);
        store.fetch(table.row(line), row);
    }
}

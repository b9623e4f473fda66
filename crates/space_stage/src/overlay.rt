//! The crossing of a frame in which few lines send: their octets are laid over idle rows.

ghost use Rattle.std.specs.Prelude.{if◌then◌else◌, ◌≡◌, ◌==◌, ℕ, ◌+◌, ◌<◌, ◌≤◌, IfSome, length, slice_index};
ghost use Rattle.circuit_model.specs.FrameInput.{idle_octet};
ghost use Rattle.frame_buffer.specs.Highways.{IsPart, RowsHold, octet_on};
ghost use Rattle.control_memory.specs.Tables.{HasSize};
ghost use Rattle.space_stage.specs.Crossing.{gets_by, AreSenders, IsLaid};

use circuit_model::IDLE;
use control_memory::ControlTable;
use frame_buffer::{Highway, is_idle};
use std::simd::prelude::*;

/// The maximum number of lines whose octets are laid over idle rows. If more lines send, gathering takes less time.
pub(crate) const MAX_SENDERS: usize = 4;

// Finds the lines that send an octet that is not idle, and returns how many, or `None` if they are too many.
pub(crate) fn find_senders(highway: &Highway, senders: &mut [u8; MAX_SENDERS]) -> Option<usize>
    requires { highway.now.slots ≡ 30 }
    ensures { IfSome result (λ count. AreSenders highway.now count senders.new) }
{
    let mut count = 0;
    for line in 0..highway.lines() {
        if is_idle(sent_row(highway, line)) {
            continue;
        }
        if count == MAX_SENDERS {
            return None;
        }
        senders[count] = line;
        count += 1;
    }
    Some(count)
}

// Returns the octets that a line sends, by internal slot.
pub(crate) fn sent_row(highway: &Highway, line: u8) -> &[u8]
    requires slots { highway.now.slots ≡ 30 }
    requires line { line < highway.now.lines }
    ensures size { length result.now ≡ 30 }
    ensures octets { (slot : ℕ) → slot < 30 → slice_index result.now slot ≡ octet_on highway.now line slot }
{
    let start = (usize::from(line) + 1) * 30;
    &highway.rows_with_idle_first()[start..start + 30]
}

// Crosses the octets of the lines that send to some outgoing lines whose rows are idle.
pub(crate) fn lay_used(
    highway: &Highway,
    senders: &[u8; MAX_SENDERS],
    count: usize,
    table: &ControlTable,
    slots: u8,
    first: u8,
    part: &mut [u8],
)
    requires highway { highway.now.slots ≡ slots }
    requires slots { slots ≡ 30 }
    requires senders { AreSenders highway.now count senders.now }
    requires table { HasSize table.now highway.now.lines slots highway.now.lines }
    requires part { IsPart highway.now.lines slots first (length part.old) }
    requires idle { (at : ℕ) → at < length part.old → slice_index part.old at ≡ idle_octet }
    ensures size { length part.new ≡ length part.old }
    ensures octets { RowsHold slots (gets_by table.now highway.now) first part.new }
{
    let slots = usize::from(slots);
    for line in first..table.used_rows() {
        if table.is_known_empty(line) {
            continue;
        }
        let start = usize::from(line - first) * slots;
        if start < part.len() {
            let row = &mut part[start..start + slots];
            lay_row(highway, senders, count, table, line, row);
        }
    }
}

// Writes the octets that one outgoing line gets. Its row is made idle first.
fn lay_row(
    highway: &Highway,
    senders: &[u8; MAX_SENDERS],
    count: usize,
    table: &ControlTable,
    line: u8,
    row: &mut [u8],
)
    requires slots { highway.now.slots ≡ 30 }
    requires senders { AreSenders highway.now count senders.now }
    requires table { HasSize table.now highway.now.lines 30 highway.now.lines }
    requires line { line < table.now.rows }
    requires row { length row.old ≡ 30 }
    ensures size { length row.new ≡ length row.old }
    ensures octets { (slot : ℕ) → slot < 30 → slice_index row.new slot ≡ gets_by table.now highway.now line slot }
{
    row.fill(IDLE);
    let lines = table.row(line);
    for k in 0..count {
        lay(lines, senders[k], sent_row(highway, senders[k]), row);
    }
}

// Writes the octets of one line over a row, in the internal slots in which the row gets them.
#[inline(always)]
fn lay(lines: &[u8], line: u8, octets: &[u8], row: &mut [u8])
    requires lines { length lines.now ≡ 30 }
    requires octets { length octets.now ≡ 30 }
    requires row { length row.old ≡ 30 }
    ensures size { length row.new ≡ length row.old }
    ensures octets { IsLaid lines.now line octets.now row.old row.new }
{
    let front = laid(
        u8x16::from_slice(&lines[..16]),
        line,
        u8x16::from_slice(&octets[..16]),
        u8x16::from_slice(&row[..16]),
    );
    let back = laid(
        u8x16::from_slice(&lines[14..]),
        line,
        u8x16::from_slice(&octets[14..]),
        u8x16::from_slice(&row[14..]),
    );
    front.copy_to_slice(&mut row[..16]);
    back.copy_to_slice(&mut row[14..]);
}

// Returns sixteen octets of a row with the octets of one line over them.
#[inline(always)]
fn laid(lines: u8x16, line: u8, octets: u8x16, row: u8x16) -> u8x16
    ensures size { length result ≡ 16 }
    ensures octets { (at : ℕ) → at < 16 → slice_index result at ≡ (if slice_index lines at == line then slice_index octets at else slice_index row at) }
{
    lines.simd_eq(u8x16::splat(line)).select(octets, row)
}

//! A control table: a number, or none, for each place of each row.
ghost use Rattle.std.specs.Prelude.{◌≡◌, ℕ, ◌%◌, ◌<◌, ◌≤◌, true, Some, None, IfOk, IfSome, length, slice_index};
ghost use Rattle.std.specs.Int.{bit_at};
ghost use Rattle.control_memory.specs.Tables.{entry, AreBare, HasSize, SameSize, Agree, IsRow, written, nothing};

use circuit_model::CHANNELS_PER_LINE;
use std::alloc::{AllocError, Global};
use std::marker::Model;

// The byte of an empty entry.
const NONE: u8 = 0xFF;

/// A control table of a switching stage: rows of numbers below a limit, with empty entries.
///
/// All rows are one piece of memory with one byte for each entry, because a boundary copies them in one copy, up to the
/// last marked row. A word marks the rows that may have a number, so that a stage makes an unmarked row idle without
/// reading it. Rows share a mark modulo 64, and a row keeps its mark until the table is cleared or overwritten.
#[derive(Debug, Drop)]
pub struct ControlTable {
    rows: u8,
    columns: u8,
    limit: u8,
    bytes: Vec<u8>,
    // The rows that may have a number: a bit for each, by the row's number modulo 64. A row without a bit has none.
    marks: u64,
}

impl Model for ControlTable {
    ghost use Rattle.std.specs.Prelude.{map};
    ghost use Rattle.control_memory.specs.Tables.{Table, number_in, AreBytesOf};

    ghost Value = { Table };

    ghost view = { λ t. record { rows = t.rows; columns = t.columns; limit = t.limit; entries = map number_in t.bytes.items } };

    ghost invariant = { λ t. AreBytesOf t.rows t.columns t.limit t.bytes.items t.marks };
}

/// Returns the tables of the incoming time switch, the space switch and the outgoing time switch for n lines and m
/// internal slots, without any number.
pub(crate) fn bare_tables(
    alloc: Global,
    lines: u8,
    slots: u8,
) -> Result<(ControlTable, ControlTable, ControlTable), AllocError>
    ensures { IfOk result (λ t. AreBare lines slots t.0 t.1 t.2) }
{
    let incoming = ControlTable::new(alloc, lines, slots, CHANNELS_PER_LINE)?;
    let space = ControlTable::new(alloc, lines, slots, lines)?;
    let outgoing = ControlTable::new(alloc, lines, CHANNELS_PER_LINE, slots)?;
    Ok((incoming, space, outgoing))
}

// Returns how many of n rows, from row 0 on, may have a mark. No row after them has one.
pub(crate) fn marked_rows(rows: u8, marks: u64) -> u8
    ensures within { result ≤ rows }
    ensures unmarked { (row : ℕ) → result ≤ row → row < rows → bit_at marks (row % 64) ≡ 0 }
{
    let marked = 64 - marks.leading_zeros();
    if rows <= 64 && marked < u32::from(rows) {
        marked as u8
    } else {
        rows
    }
}

impl ControlTable {
    /// Returns a table of n rows and m columns for numbers below `limit`, without any number.
    pub fn new(alloc: Global, rows: u8, columns: u8, limit: u8) -> Result<ControlTable, AllocError>
        ensures size { IfOk result (λ t. HasSize t rows columns limit) }
        ensures empty { IfOk result (λ t. Agree rows columns (entry t) nothing) }
    {
        let entries = usize::from(rows) * usize::from(columns);
        Ok(ControlTable {
            rows,
            columns,
            limit,
            bytes: vec![in alloc; NONE; entries]?,
            marks: 0,
        })
    }

    /// Returns the number in a column of a row, if there is one.
    pub fn get(&self, row: u8, column: u8) -> Option<u8>
        requires row { row < self.now.rows }
        requires column { column < self.now.columns }
        ensures entry { result ≡ entry self.now row column }
        ensures within { IfSome result (λ number. number < self.now.limit) }
    {
        match self.bytes[usize::from(row) * usize::from(self.columns) + usize::from(column)] {
            NONE => None,
            number => Some(number),
        }
    }

    /// Returns the bytes of a row, one for each column: its number, or 255 if it has none.
    pub fn row(&self, row: u8) -> &[u8]
        requires { row < self.now.rows }
        ensures { IsRow self.now.columns self.now.limit (entry self.now row) result.now }
    {
        let columns = usize::from(self.columns);
        let start = usize::from(row) * columns;
        &self.bytes[start..start + columns]
    }

    /// Returns true only if a row has no number. The result can be false for a row whose numbers were removed one by
    /// one.
    pub fn is_known_empty(&self, row: u8) -> bool
        requires { row < self.now.rows }
        ensures { result ≡ true → (column : ℕ) → column < self.now.columns → entry self.now row column ≡ None }
    {
        (self.marks >> (row % 64)) & 1 == 0
    }

    /// Returns how many rows, from row 0 on, may have a number. No row after them has one.
    pub fn used_rows(&self) -> u8
        ensures within { result ≤ self.now.rows }
        ensures empty { (row column : ℕ) → result ≤ row → row < self.now.rows → column < self.now.columns → entry self.now row column ≡ None }
    {
        marked_rows(self.rows, self.marks)
    }

    /// Writes a number into a column of a row.
    pub fn set(&mut self, row: u8, column: u8, number: u8)
        requires row { row < self.old.rows }
        requires column { column < self.old.columns }
        requires number { number < self.old.limit }
        ensures size { SameSize self.old self.new }
        ensures entries { Agree self.old.rows self.old.columns (entry self.new) (written row column (Some number) (entry self.old)) }
    {
        let at = usize::from(row) * usize::from(self.columns) + usize::from(column);
        self.bytes[at] = number;
        self.marks |= 1 << (row % 64);
    }

    /// Removes the number from a column of a row.
    pub(crate) fn unset(&mut self, row: u8, column: u8)
        requires row { row < self.old.rows }
        requires column { column < self.old.columns }
        ensures size { SameSize self.old self.new }
        ensures entries { Agree self.old.rows self.old.columns (entry self.new) (written row column None (entry self.old)) }
    {
        let at = usize::from(row) * usize::from(self.columns) + usize::from(column);
        self.bytes[at] = NONE;
    }

    /// Removes every number. Rows after the last marked one are not written.
    pub fn clear(&mut self)
        ensures size { SameSize self.old self.new }
        ensures empty { Agree self.old.rows self.old.columns (entry self.new) nothing }
    {
        let rows = marked_rows(self.rows, self.marks);
        let used = usize::from(rows) * usize::from(self.columns);
        empty_front(&mut self.bytes, used);
        self.marks = 0;
    }

    /// Copies the entries of a table of the same size, in one copy. Rows after the last one that is marked in either
    /// table are not copied.
    pub(crate) fn copy_from(&mut self, other: &ControlTable)
        requires { SameSize self.old other.now }
        ensures { self.new ≡ other.now }
    {
        let rows = marked_rows(self.rows, self.marks | other.marks);
        let used = usize::from(rows) * usize::from(self.columns);
        copy_front(&mut self.bytes, &other.bytes, used);
        self.marks = other.marks;
    }
}

// Writes an empty entry into each of the first n bytes.
fn empty_front(bytes: &mut [u8], count: usize)
    requires { count ≤ length bytes.old }
    ensures size { length bytes.new ≡ length bytes.old }
    ensures front { (at : ℕ) → at < count → slice_index bytes.new at ≡ 255 }
    ensures others { (at : ℕ) → count ≤ at → slice_index bytes.new at ≡ slice_index bytes.old at }
{
    bytes[..count].fill(NONE);
}

// Copies the first n bytes.
fn copy_front(to: &mut [u8], from: &[u8], count: usize)
    requires to { count ≤ length to.old }
    requires from { length from.now ≡ length to.old }
    ensures size { length to.new ≡ length to.old }
    ensures front { (at : ℕ) → at < count → slice_index to.new at ≡ slice_index from.now at }
    ensures others { (at : ℕ) → count ≤ at → slice_index to.new at ≡ slice_index to.old at }
{
    to[..count].copy_from_slice(&from[..count]);
}

//! The matrix, stored as a table of the columns by row and slot. A table of the rows by column and slot and a word of
//! used slots for each line are its indexes. A lookup reads one entry, a path writes four, and the lowest free slot is
//! the lowest clear bit of a word.

ghost use Rattle.std.specs.Prelude.{◌≡◌, ◌<◌, ◌≤◌, ◌+◌, ◌*◌, Some, None, IfOk, length};
ghost use Rattle.paull_matrix.specs.Marks.{lacks, marked, unmarked};
ghost use Rattle.paull_matrix.specs.Numbers.{lowest};
ghost use Rattle.paull_matrix.specs.Matrix.{
  no_paths,
  row_slot as row_slot_of,
  column_slot as column_slot_of,
  lowest_in_both,
  lowest_in_row,
  lowest_in_column,
  paths_of_row,
  paths_of_column,
  with_path,
  without_path,
  IsLegal,
};
ghost use Rattle.paull_matrix.specs.InTurn.{lifted, placed, CanLift, CanPlace};
ghost use Rattle.paull_matrix.specs.Tabled.{tabled, IsKept};

use crate::moves::Move;
use crate::steps::Steps;
use std::alloc::{AllocError, Global};
use std::marker::Model;
use std::sync::ledger::Ledger;

/// The paths of a three-stage switch: each has a row (its incoming line), a column (its outgoing line) and an internal
/// slot. There are 1 to 34 rows, the same number of columns, and 1 to 59 slots.
///
/// No slot is in a row or in a column twice. Only `new` allocates. Contracts see the matrix as its sizes and the map
/// from a row and a slot to the column.
#[derive(Debug, Drop)]
pub struct PaullMatrix {
    lines: u8,
    slots: u8,
    columns: Vec<Option<u8>>,
    rows: Vec<Option<u8>>,
    row_words: Vec<u64>,
    column_words: Vec<u64>,
}

impl Model for PaullMatrix {
    ghost use Rattle.paull_matrix.specs.Matrix.{Matrix, matrix_code};
    ghost use Rattle.paull_matrix.specs.Tabled.{tabled, IsKept};

    ghost Value = { Matrix };

    ghost coded = { matrix_code };

    ghost view = { λ a. tabled a.lines a.slots a.columns.items };

    ghost invariant = { λ a. IsKept a.lines a.slots a.columns.items a.rows.items a.row_words.items a.column_words.items };
}

impl PaullMatrix {
    /// Returns an empty matrix of `lines` rows and columns and `slots` slots. It reserves the memory for all the paths
    /// that it can hold. The only error is a failed allocation.
    pub fn new(alloc: Global, lines: u8, slots: u8) -> Result<PaullMatrix, AllocError>
        requires lines { (0 < lines) × (lines ≤ 34) }
        requires slots { (0 < slots) × (slots ≤ 59) }
        ensures empty { IfOk result (λ matrix. matrix ≡ no_paths lines slots) }
        ensures legal { IfOk result IsLegal }
    {
        let places = usize::from(lines) * usize::from(slots);
        Ok(PaullMatrix {
            lines,
            slots,
            columns: vec![in alloc; None; places]?,
            rows: vec![in alloc; None; places]?,
            row_words: vec![in alloc; 0; usize::from(lines)]?,
            column_words: vec![in alloc; 0; usize::from(lines)]?,
        })
    }

    /// Returns the column of the path of row `i` in slot `s`. `None` if and only if there is no such path.
    pub fn row_slot<L: Ledger>(&self, i: u8, s: u8, steps: &mut Steps<L>) -> Option<u8>
        requires row { i < self.now.lines }
        requires slot { s < self.now.slots }
        ensures column { result ≡ row_slot_of self.now i s }
        ensures legal { IsLegal self.now }
        ensures looks { steps.new ≡ steps.old + 1 }
    {
        steps.tick();
        self.columns[place_of(self.slots, i, s)]
    }

    /// Returns the row of the path of column `j` in slot `s`. `None` if and only if there is no such path.
    pub fn column_slot<L: Ledger>(&self, j: u8, s: u8, steps: &mut Steps<L>) -> Option<u8>
        requires column { j < self.now.lines }
        requires slot { s < self.now.slots }
        ensures row { result ≡ column_slot_of self.now j s }
        ensures legal { IsLegal self.now }
        ensures looks { steps.new ≡ steps.old + 1 }
    {
        steps.tick();
        self.rows[place_of(self.slots, j, s)]
    }

    /// Returns the lowest slot that is missing both in row `i` and in column `j`. `None` if and only if every slot is
    /// in one of them.
    pub fn common_free<L: Ledger>(&self, i: u8, j: u8, steps: &mut Steps<L>) -> Option<u8>
        requires row { i < self.now.lines }
        requires column { j < self.now.lines }
        ensures lowest { result ≡ lowest_in_both self.now i j }
        ensures legal { IsLegal self.now }
        ensures looks { steps.new ≡ steps.old + 1 }
    {
        steps.tick();
        let used = self.row_words[usize::from(i)] | self.column_words[usize::from(j)];
        lowest_missing(used, self.slots)
    }

    /// Returns the lowest slot that is missing in row `i`, which has fewer paths than there are slots.
    pub fn free_in_row<L: Ledger>(&self, i: u8, steps: &mut Steps<L>) -> u8
        requires row { i < self.now.lines }
        requires room { paths_of_row self.now i < self.now.slots }
        ensures lowest { lowest_in_row self.now i ≡ Some result }
        ensures legal { IsLegal self.now }
        ensures looks { steps.new ≡ steps.old + 1 }
    {
        steps.tick();
        match lowest_missing(self.row_words[usize::from(i)], self.slots) {
            Some(s) => s,
            None => unreachable!(),
        }
    }

    /// Returns the lowest slot that is missing in column `j`, which has fewer paths than there are slots.
    pub fn free_in_column<L: Ledger>(&self, j: u8, steps: &mut Steps<L>) -> u8
        requires column { j < self.now.lines }
        requires room { paths_of_column self.now j < self.now.slots }
        ensures lowest { lowest_in_column self.now j ≡ Some result }
        ensures legal { IsLegal self.now }
        ensures looks { steps.new ≡ steps.old + 1 }
    {
        steps.tick();
        match lowest_missing(self.column_words[usize::from(j)], self.slots) {
            Some(s) => s,
            None => unreachable!(),
        }
    }

    /// Puts a path of row `i` and column `j` into slot `s`, which is missing in both.
    pub fn place(&mut self, i: u8, j: u8, s: u8)
        requires row { i < self.old.lines }
        requires column { j < self.old.lines }
        requires slot { s < self.old.slots }
        requires missing_in_row { row_slot_of self.old i s ≡ None }
        requires missing_in_column { column_slot_of self.old j s ≡ None }
        ensures placed { self.new ≡ with_path self.old i j s }
        ensures legal { IsLegal self.new }
    {
        let in_row = place_of(self.slots, i, s);
        let in_column = place_of(self.slots, j, s);
        self.columns[in_row] = Some(j);
        self.rows[in_column] = Some(i);
        mark(&mut self.row_words, i, s);
        mark(&mut self.column_words, j, s);
    }

    /// Removes the path of row `i` and column `j` that is in slot `s`.
    pub fn lift(&mut self, i: u8, j: u8, s: u8)
        requires stands { row_slot_of self.old i s ≡ Some j }
        ensures lifted { self.new ≡ without_path self.old i s }
        ensures legal { IsLegal self.new }
    {
        let in_row = place_of(self.slots, i, s);
        let in_column = place_of(self.slots, j, s);
        self.columns[in_row] = None;
        self.rows[in_column] = None;
        unmark(&mut self.row_words, i, s);
        unmark(&mut self.column_words, j, s);
    }

    /// Removes every path that moves from its old slot.
    pub fn lift_all(&mut self, moves: &[Move])
        requires stand { CanLift self.old moves.now }
        ensures lifted { self.new ≡ lifted self.old moves.now }
        ensures legal { IsLegal self.new }
    {
        lift_each(
            &mut self.columns,
            &mut self.rows,
            &mut self.row_words,
            &mut self.column_words,
            self.slots,
            moves,
        );
    }

    /// Puts every path that moves into its new slot.
    pub fn place_all(&mut self, moves: &[Move])
        requires room { CanPlace self.old moves.now }
        ensures placed { self.new ≡ placed self.old moves.now }
        ensures legal { IsLegal self.new }
    {
        place_each(
            &mut self.columns,
            &mut self.rows,
            &mut self.row_words,
            &mut self.column_words,
            self.slots,
            moves,
        );
    }
}

/// Removes every path that moves from the tables and the words.
fn lift_each(
    columns: &mut [Option<u8>],
    rows: &mut [Option<u8>],
    row_words: &mut [u64],
    column_words: &mut [u64],
    slots: u8,
    moves: &[Move],
)
    requires kept { IsKept (length row_words.old) slots columns.old rows.old row_words.old column_words.old }
    requires stand { CanLift (tabled (length row_words.old) slots columns.old) moves.now }
    ensures kept { IsKept (length row_words.old) slots columns.new rows.new row_words.new column_words.new }
    ensures lifted { tabled (length row_words.old) slots columns.new ≡ lifted (tabled (length row_words.old) slots columns.old) moves.now }
{
    for moved in moves {
        columns[place_of(slots, moved.row, moved.old)] = None;
        rows[place_of(slots, moved.column, moved.old)] = None;
        unmark_in(row_words, moved.row, moved.old);
        unmark_in(column_words, moved.column, moved.old);
    }
}

/// Puts every path that moves into the tables and the words.
fn place_each(
    columns: &mut [Option<u8>],
    rows: &mut [Option<u8>],
    row_words: &mut [u64],
    column_words: &mut [u64],
    slots: u8,
    moves: &[Move],
)
    requires kept { IsKept (length row_words.old) slots columns.old rows.old row_words.old column_words.old }
    requires room { CanPlace (tabled (length row_words.old) slots columns.old) moves.now }
    ensures kept { IsKept (length row_words.old) slots columns.new rows.new row_words.new column_words.new }
    ensures placed { tabled (length row_words.old) slots columns.new ≡ placed (tabled (length row_words.old) slots columns.old) moves.now }
{
    for moved in moves {
        columns[place_of(slots, moved.row, moved.new)] = Some(moved.column);
        rows[place_of(slots, moved.column, moved.new)] = Some(moved.row);
        mark_in(row_words, moved.row, moved.new);
        mark_in(column_words, moved.column, moved.new);
    }
}

/// Returns the lowest slot whose bit is clear in a word. `None` if and only if each is set.
fn lowest_missing(word: u64, slots: u8) -> Option<u8>
    requires few { slots ≤ 59 }
    ensures lowest { result ≡ lowest (lacks word) slots }
{
    let s = (!word).trailing_zeros();
    if s < u32::from(slots) {
        Some(s as u8)
    } else {
        None
    }
}

/// Sets the bit of a slot in a line's word.
fn mark_in(words: &mut [u64], line: u8, s: u8)
    requires line { line < length words.old }
    requires slot { s < 59 }
    ensures set { words.new ≡ marked words.old line s }
{
    words[usize::from(line)] |= 1 << s;
}

/// Clears the bit of a slot in a line's word.
fn unmark_in(words: &mut [u64], line: u8, s: u8)
    requires line { line < length words.old }
    requires slot { s < 59 }
    ensures cleared { words.new ≡ unmarked words.old line s }
{
    words[usize::from(line)] &= !(1 << s);
}

/// Sets the bit of a slot in a line's word.
fn mark(words: &mut Vec<u64>, line: u8, s: u8)
    requires line { line < length words.old.items }
    requires slot { s < 59 }
    ensures set { words.new.items ≡ marked words.old.items line s }
{
    words[usize::from(line)] |= 1 << s;
}

/// Clears the bit of a slot in a line's word.
fn unmark(words: &mut Vec<u64>, line: u8, s: u8)
    requires line { line < length words.old.items }
    requires slot { s < 59 }
    ensures cleared { words.new.items ≡ unmarked words.old.items line s }
{
    words[usize::from(line)] &= !(1 << s);
}

/// Returns the place of a line and a slot in a table in which each line has `slots` places.
fn place_of(slots: u8, line: u8, s: u8) -> usize
    ensures { result ≡ line * slots + s }
{
    usize::from(line) * usize::from(slots) + usize::from(s)
}

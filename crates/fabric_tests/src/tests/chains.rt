//! Chains of moves on small matrices, worked by hand.
ghost use Rattle.std.specs.Prelude.{◌≡◌, ◌<◌, ◌≤◌, ◌+◌, []};
ghost use Rattle.paull_matrix.specs.Matrix.{SameSizes, paths_of_row, paths_of_column};

use super::matrices::put;
use arrayvec::ArrayVec;
use paull_matrix::{PaullMatrix, Steps};
use rearrange_chain::{Move, make_room};
use std::marker::Brand;
use std::sync::ledger::{Blank, Ledger};
use std::test::Fail;

/// Room is made on three lines with at most 16 lookups.
fn make_room_on_three_lines<L: Ledger>(
    matrix: &mut PaullMatrix,
    i: u8,
    j: u8,
    moves: &mut ArrayVec<Move, 66>,
    steps: &mut Steps<L>,
) -> u8
    requires lines { matrix.old.lines ≡ 3 }
    requires inside { (i < 3) × (j < 3) }
    requires row_room { paths_of_row matrix.old i < matrix.old.slots }
    requires column_room { paths_of_column matrix.old j < matrix.old.slots }
    requires empty { moves.old.items ≡ [] }
    ensures sizes { SameSizes matrix.old matrix.new }
    ensures looks { steps.new ≤ steps.old + 16 }
{
    make_room(matrix, i, j, moves, steps)
}

/// Paths on three lines and two slots, by row, column and slot; a row and a column without a common slot, and the slot
/// that each lacks; and the result of making room there.
#[derive(Drop)]
struct Case<'a> {
    paths: &'a [(u8, u8, u8)],
    row: u8,
    column: u8,
    row_lacks: u8,
    column_lacks: u8,
    freed: u8,
    moves: &'a [Move],
}

/// Adds paths on three lines and two slots. Returns whether each is added.
fn put_all<L: Ledger>(
    matrix: &mut PaullMatrix,
    paths: &[(u8, u8, u8)],
    steps: &mut Steps<L>,
) -> bool
    requires { (matrix.old.lines ≡ 3) × (matrix.old.slots ≡ 2) }
    ensures { SameSizes matrix.old matrix.new }
{
    for (row, column, slot) in paths {
        if *row > 2 || *column > 2 || *slot > 1 || !put(matrix, *row, *column, *slot, steps) {
            return false;
        }
    }
    true
}

/// Returns whether each path that moved has its new slot.
fn have_moved<L: Ledger>(matrix: &PaullMatrix, moves: &[Move], steps: &mut Steps<L>) -> bool
    requires { (matrix.now.lines ≡ 3) × (matrix.now.slots ≡ 2) }
{
    for moved in moves {
        if moved.row > 2
            || moved.new > 1
            || matrix.row_slot(moved.row, moved.new, steps) != Some(moved.column)
        {
            return false;
        }
    }
    true
}

/// Returns whether making room has the expected result, and moves the expected paths.
fn makes_room<L: Ledger>(matrix: &mut PaullMatrix, case: &Case, blank: Blank) -> bool
    requires sizes { (matrix.old.lines ≡ 3) × (matrix.old.slots ≡ 2) }
    requires ledger { (blank.name ≡ L.name) × (blank.parts ≡ L.parts) × (0 < L.parts) }
{
    let mut steps = Steps::<L>::new(blank);
    let Case {
        row,
        column,
        row_lacks,
        column_lacks,
        ..
    } = *case;
    if row > 2 || column > 2 || row_lacks > 1 || column_lacks > 1 {
        return false;
    }
    if !put_all(matrix, case.paths, &mut steps)
        || matrix.row_slot(row, row_lacks, &mut steps).is_some()
        || matrix
            .column_slot(column, column_lacks, &mut steps)
            .is_some()
    {
        return false;
    }
    let mut moves: ArrayVec<Move, 66> = ArrayVec::new();
    let freed = make_room_on_three_lines(matrix, row, column, &mut moves, &mut steps);
    freed == case.freed
        && moves.as_slice() == case.moves
        && have_moved(matrix, case.moves, &mut steps)
}

/// Returns whether nothing moves if a slot is common.
fn takes_a_common_slot<L: Ledger>(matrix: &mut PaullMatrix, blank: Blank) -> bool
    requires sizes { (matrix.old.lines ≡ 2) × (matrix.old.slots ≡ 3) }
    requires ledger { (blank.name ≡ L.name) × (blank.parts ≡ L.parts) × (0 < L.parts) }
{
    let mut steps = Steps::<L>::new(blank);
    if !put(matrix, 0, 1, 0, &mut steps)
        || matrix.row_slot(0, 1, &mut steps).is_some()
        || matrix.column_slot(0, 0, &mut steps).is_some()
    {
        return false;
    }
    let mut moves: ArrayVec<Move, 66> = ArrayVec::new();
    make_room(matrix, 0, 0, &mut moves, &mut steps) == 1
        && moves.is_empty()
        && matrix.row_slot(0, 0, &mut steps) == Some(1)
}

/// Returns the path of a row and a column that moves from one slot to another.
const fn moved(row: u8, column: u8, old: u8, new: u8) -> Move {
    Move {
        row,
        column,
        old,
        new,
    }
}

#[test]
fn exchanges_the_shorter_chain(rt: HostRuntime) -> Result<(), Fail> {
    // The row's chain has one path, the column's three.
    let by_row = Case {
        paths: &[(1, 0, 0), (1, 1, 1), (2, 1, 0), (0, 2, 1)],
        row: 0,
        column: 0,
        row_lacks: 0,
        column_lacks: 1,
        freed: 1,
        moves: &[moved(0, 2, 1, 0)],
    };
    // The column's chain has one path, the row's three.
    let by_column = Case {
        paths: &[(0, 1, 0), (1, 1, 1), (1, 2, 0), (2, 0, 1)],
        row: 0,
        column: 0,
        row_lacks: 1,
        column_lacks: 0,
        freed: 1,
        moves: &[moved(2, 0, 1, 0)],
    };
    // Both chains have two paths, and the column's is exchanged.
    let tied = Case {
        paths: &[(2, 1, 0), (2, 0, 1), (0, 2, 1), (1, 2, 0)],
        row: 0,
        column: 1,
        row_lacks: 0,
        column_lacks: 1,
        freed: 0,
        moves: &[moved(2, 1, 0, 1), moved(2, 0, 1, 0)],
    };
    for case in &[by_row, by_column, tied] {
        let mut matrix = PaullMatrix::new(rt.alloc(), 3, 2)?;
        let case: &Case = case;
        assert!(rt; makes_room::<Brand>(&mut matrix, case, Blank::new(1)));
    }
    Ok(())
}

#[test]
fn takes_the_lowest_common_slot(rt: HostRuntime) -> Result<(), Fail> {
    let mut matrix = PaullMatrix::new(rt.alloc(), 2, 3)?;
    assert!(rt; takes_a_common_slot::<Brand>(&mut matrix, Blank::new(1)));
    Ok(())
}

//! Lookups in the matrix, and the lowest free slots.
ghost use Rattle.std.specs.Prelude.{◌≡◌, ◌<◌};
ghost use Rattle.paull_matrix.specs.Matrix.{SameSizes};

use paull_matrix::{PaullMatrix, Steps};
use std::marker::Brand;
use std::sync::ledger::{Blank, Ledger};
use std::test::Fail;

/// Adds a path in a slot, if that is free in its row and in its column. Returns whether it is.
pub fn put<L: Ledger>(matrix: &mut PaullMatrix, i: u8, j: u8, s: u8, steps: &mut Steps<L>) -> bool
    requires { (i < matrix.old.lines) × (j < matrix.old.lines) × (s < matrix.old.slots) }
    ensures { SameSizes matrix.old matrix.new }
{
    if matrix.row_slot(i, s, steps).is_some() || matrix.column_slot(j, s, steps).is_some() {
        return false;
    }
    matrix.place(i, j, s);
    true
}

/// Adds four paths to a matrix of three lines and two slots. Returns whether each is added.
fn put_four<L: Ledger>(matrix: &mut PaullMatrix, steps: &mut Steps<L>) -> bool
    requires { (matrix.old.lines ≡ 3) × (matrix.old.slots ≡ 2) }
    ensures { SameSizes matrix.old matrix.new }
{
    put(matrix, 1, 0, 0, steps)
        && put(matrix, 1, 1, 1, steps)
        && put(matrix, 2, 1, 0, steps)
        && put(matrix, 0, 2, 1, steps)
}

/// Returns whether the four paths are found from both of their ends.
fn are_found<L: Ledger>(matrix: &mut PaullMatrix, blank: Blank) -> bool
    requires sizes { (matrix.old.lines ≡ 3) × (matrix.old.slots ≡ 2) }
    requires ledger { (blank.name ≡ L.name) × (blank.parts ≡ L.parts) × (0 < L.parts) }
{
    let mut steps = Steps::<L>::new(blank);
    if !put_four(matrix, &mut steps) {
        return false;
    }
    // Each line: in its row the columns in both slots, and in its column the rows.
    let lines = [
        (0, [None, Some(2)], [Some(1), None]),
        (1, [Some(0), Some(1)], [Some(2), Some(1)]),
        (2, [Some(1), None], [None, Some(0)]),
    ];
    for (line, columns, rows) in lines {
        let found = [
            matrix.row_slot(line, 0, &mut steps),
            matrix.row_slot(line, 1, &mut steps),
        ];
        let others = [
            matrix.column_slot(line, 0, &mut steps),
            matrix.column_slot(line, 1, &mut steps),
        ];
        if found != columns || others != rows {
            return false;
        }
    }
    true
}

/// Returns whether the lowest free slots are found with the four paths, and after one of them is removed.
fn are_free<L: Ledger>(matrix: &mut PaullMatrix, blank: Blank) -> bool
    requires sizes { (matrix.old.lines ≡ 3) × (matrix.old.slots ≡ 2) }
    requires ledger { (blank.name ≡ L.name) × (blank.parts ≡ L.parts) × (0 < L.parts) }
{
    let mut steps = Steps::<L>::new(blank);
    if !put_four(matrix, &mut steps) || !are_free_beside(matrix, &mut steps) {
        return false;
    }
    if matrix.row_slot(1, 0, &mut steps) != Some(0) {
        return false;
    }
    matrix.lift(1, 0, 0);
    matrix.row_slot(1, 0, &mut steps).is_none()
        && matrix.row_slot(1, 1, &mut steps) == Some(1)
        && matrix.common_free(0, 0, &mut steps) == Some(0)
}

/// Returns whether the lowest free slots are found with the four paths.
fn are_free_beside<L: Ledger>(matrix: &PaullMatrix, steps: &mut Steps<L>) -> bool
    requires { (matrix.now.lines ≡ 3) × (matrix.now.slots ≡ 2) }
{
    let both = [
        matrix.common_free(0, 0, steps),
        matrix.common_free(0, 2, steps),
        matrix.common_free(2, 0, steps),
    ];
    if both != [None, Some(0), Some(1)] || matrix.row_slot(2, 1, steps).is_some() {
        return false;
    }
    if matrix.free_in_row(2, steps) != 1 || matrix.column_slot(2, 0, steps).is_some() {
        return false;
    }
    matrix.free_in_column(2, steps) == 0
}

#[test]
fn finds_paths_by_row_and_by_column(rt: HostRuntime) -> Result<(), Fail> {
    let mut matrix = PaullMatrix::new(rt.alloc(), 3, 2)?;
    assert!(rt; are_found::<Brand>(&mut matrix, Blank::new(1)));
    Ok(())
}

#[test]
fn finds_the_lowest_free_slot(rt: HostRuntime) -> Result<(), Fail> {
    let mut matrix = PaullMatrix::new(rt.alloc(), 3, 2)?;
    assert!(rt; are_free::<Brand>(&mut matrix, Blank::new(1)));
    Ok(())
}

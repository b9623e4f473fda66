//! The rule of rearrangement on a matrix.

ghost use Rattle.std.specs.Prelude.{◌≡◌, ℕ, ◌+◌, ◌-◌, ◌*◌, ◌<◌, ◌≤◌, [], length, Some, None, IfSome, if◌then◌else◌};
ghost use Rattle.paull_matrix.specs.Matrix.{
  row_slot,
  column_slot,
  lowest_in_both,
  paths_of_row,
  paths_of_column,
  paths_of_cell,
  SameSizes,
  IsLegal,
};
ghost use Rattle.rearrange_chain.specs.Chain.{
  from_row,
  from_column,
  is_shorter,
  shorter,
  exchanged,
  slot_for,
  moves_for,
  ChangesBy,
};

use arrayvec::ArrayVec;
use paull_matrix::{Move, PaullMatrix, Steps};
use std::mem;
use std::sync::ledger::Ledger;

/// Makes room for a path of row `i` and column `j`, which each have fewer paths than slots. Returns a slot that is free
/// in both afterwards. `moves` is empty before the call, and lists the moves after it.
///
/// If a slot is free in both already, it returns the lowest one and moves nothing. Otherwise let `a` be the lowest slot
/// that is free in the row, and `b` the lowest that is free in the column. The column's chain is the path of the column
/// in `a`, the path in `b` of the row at its end, the next one in `a` and so on. The row's chain begins with the path
/// of the row in `b`. The two share no row and no column, so with r lines the shorter has at most r - 1 paths. The
/// paths of the row's chain, if it is strictly shorter, and otherwise of the column's, exchange `a` and `b`. They are
/// listed in the order of their chain. The result is `b` with the row's chain, and `a` with the column's.
///
/// Source: M. C. Paull, "Reswitching of connection networks", Bell System Technical Journal 41 (1962), for the chain
/// and the exchange. The contract proves the Slepian-Duguid theorem: a row and a column with room each can always be
/// given a slot. This project chooses the lowest slots, and the column's chain in a tie.
///
/// `steps` counts the lookups in the matrix: one for a common slot, one for `a`, one for `b`, and one for each path of
/// the two chains in turn, up to the end of one. Writes are not counted.
pub fn make_room<L: Ledger>(
    matrix: &mut PaullMatrix,
    i: u8,
    j: u8,
    moves: &mut ArrayVec<Move, 66>,
    steps: &mut Steps<L>,
) -> u8
    requires row { i < matrix.old.lines }
    requires column { j < matrix.old.lines }
    requires row_room { paths_of_row matrix.old i < matrix.old.slots }
    requires column_room { paths_of_column matrix.old j < matrix.old.slots }
    requires empty { moves.old.items ≡ [] }
    ensures slot { result ≡ slot_for matrix.old i j }
    ensures moves { moves.new.items ≡ moves_for matrix.old i j }
    ensures exchanged { matrix.new ≡ exchanged matrix.old moves.new.items }
    ensures changes { ChangesBy matrix.old matrix.new moves.new.items }
    ensures cells { (k l : ℕ) → paths_of_cell matrix.new k l ≡ paths_of_cell matrix.old k l }
    ensures row_free { row_slot matrix.new i result ≡ None }
    ensures column_free { column_slot matrix.new j result ≡ None }
    ensures within { result < matrix.new.slots }
    ensures bound { length moves.new.items ≤ matrix.old.lines - 1 }
    ensures common { IfSome (lowest_in_both matrix.old i j) (λ s. (result ≡ s) × (moves.new.items ≡ []) × (matrix.new ≡ matrix.old)) }
    ensures legal { IsLegal matrix.new }
    ensures sizes { SameSizes matrix.old matrix.new }
    ensures looks { steps.new ≤ steps.old + (2 * matrix.old.lines + 2) }
{
    if let Some(common) = matrix.common_free(i, j, steps) {
        return common;
    }
    let a = matrix.free_in_row(i, steps);
    let b = matrix.free_in_column(j, steps);
    let slot = list_shorter(matrix, i, j, a, b, moves, steps);
    matrix.lift_all(moves);
    matrix.place_all(moves);
    slot
}

/// Lists the moves of the row's chain if it is strictly shorter, and otherwise of the column's. Returns the slot that
/// the listed chain frees in both lines. It walks both chains path by path in turn, and stops at the end of one.
fn list_shorter<L: Ledger>(
    matrix: &PaullMatrix,
    i: u8,
    j: u8,
    a: u8,
    b: u8,
    moves: &mut ArrayVec<Move, 66>,
    steps: &mut Steps<L>,
) -> u8
    requires row { i < matrix.now.lines }
    requires column { j < matrix.now.lines }
    requires slots { (a < matrix.now.slots) × (b < matrix.now.slots) }
    requires empty { moves.old.items ≡ [] }
    requires bound { length (from_column matrix.now j a b) + length (from_row matrix.now i a b) + 2 ≤ 2 * matrix.now.lines }
    requires few { matrix.now.lines ≤ 34 }
    ensures moves { moves.new.items ≡ shorter (from_row matrix.now i a b) (from_column matrix.now j a b) }
    ensures slot { result ≡ if is_shorter (from_row matrix.now i a b) (from_column matrix.now j a b) then b else a }
    ensures looks { steps.new ≤ steps.old + (length (from_column matrix.now j a b) + length (from_row matrix.now i a b) + 1) }
{
    let mut by_row = ArrayVec::new();
    let mut row = i;
    let mut column = j;
    while let Some(far_row) = matrix.column_slot(column, a, steps) {
        moves.push(to_slot(b, far_row, column, a));
        let Some(far_column) = matrix.row_slot(row, b, steps) else {
            mem::swap(moves, &mut by_row);
            return b;
        };
        by_row.push(to_slot(a, row, far_column, b));
        let Some(next_column) = matrix.row_slot(far_row, b, steps) else {
            return a;
        };
        moves.push(to_slot(a, far_row, next_column, b));
        let Some(next_row) = matrix.column_slot(far_column, a, steps) else {
            mem::swap(moves, &mut by_row);
            return b;
        };
        by_row.push(to_slot(b, next_row, far_column, a));
        row = next_row;
        column = next_column;
    }
    a
}

/// Returns the move of a path to a slot from the slot `old`.
fn to_slot(new: u8, row: u8, column: u8, old: u8) -> Move
    ensures { result ≡ record { row = row; column = column; old = old; new = new } }
{
    Move {
        row,
        column,
        old,
        new,
    }
}

//! Stores the internal slot of each path through a three-stage switch, as Paull's matrix.
//!
//! A row is an incoming line, a column an outgoing line. Their cell has the internal slots of the paths from one to the
//! other. The matrix is legal if no slot is in a row or a column twice.
//!
//! - [`PaullMatrix`] stays legal at each call (`legal`). `place` and `lift` add and remove one path (`placed`,
//!   `lifted`), `place_all` and `lift_all` the paths of a list of moves. `row_slot` and `column_slot` return the line at
//!   the other end of a path.
//! - `common_free`, `free_in_row` and `free_in_column` return the lowest free slot (`lowest`).
//! - Each of the five is one lookup, which [`Steps`] counts (`looks`). Writes, and the work inside a lookup, are not
//!   counted.
//!
//! Source: M. C. Paull, "Reswitching of connection networks", Bell System Technical Journal 41 (1962). There a cell
//! holds switches of the middle stage, which are internal slots here.
#![tactic(auto)]

mod matrix;
mod moves;
mod steps;

pub use matrix::PaullMatrix;
pub use moves::Move;
pub use steps::Steps;

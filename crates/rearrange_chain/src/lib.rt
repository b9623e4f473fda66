//! Makes room for one more path in Paull's matrix: if no slot is free in both a row and a column, it moves live paths
//! along the shorter of the two alternating chains of two slots.
//!
//! [`make_room`] returns a slot that is free in both afterwards (`row_free`, `column_free`). It moves exactly the chain
//! of the definition, in its order (`moves`, `exchanged`, `changes`). Of r lines it moves at most r-1 paths (`bound`),
//! and none if a common slot was free (`common`). Each cell keeps its number of paths (`cells`). It makes at most 2r+2
//! lookups in the matrix (`looks`).
//!
//! Source: M. C. Paull, "Reswitching of connection networks", Bell System Technical Journal 41 (1962). By the
//! Slepian-Duguid theorem there is always room.
#![tactic(auto)]

mod room;

pub use paull_matrix::Move;
pub use room::make_room;

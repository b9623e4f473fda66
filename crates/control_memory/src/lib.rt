//! Stores the control memory of one frame, and the layouts of paths that it carries out.
//!
//! - [`Image`] is the control memory: three control tables, the source of each slot's octets, and the member of each
//!   port. Each read returns the value that was written, and each write states its change and preserves the rest.
//! - [`RecentTables`] lends the tables of the latest control memory to the control memories of the next frames, for as
//!   long as they apply (`shown`).
//! - [`PathMap`] is the contract of any live map of paths. A new path joins the layout by its rule (`layout`), and its
//!   pairs are the earlier ones and the new one (`pairs`). The result is the number of moved paths (`moves`). The
//!   layout stays legal (`legal`), and the tables at a boundary encode it (`tables`).
//! - A [`Fabric`] is such a map that is created for a number of lines, on its own number of internal slots.
//! - [`PathTable`] stores a layout with its tables, for any such map.
//! - The tables of a legal layout carry its octets ([`tables_carry_their_layout`]).
#![tactic(auto)]

mod control_table;
mod fabric;
mod frame_tables;
mod heard;
mod heard_table;
mod heard_word;
mod image;
mod laws;
mod path_ends;
mod path_map;
mod path_table;
mod recent_tables;
mod route;

pub use control_table::ControlTable;
pub use fabric::Fabric;
pub use heard::Heard;
pub use heard_table::HeardTable;
pub use heard_word::HeardWord;
pub use image::{Image, port_index};
pub use laws::{tables_carry_their_layout, worked_chains, worked_layouts};
pub use path_ends::PathEnds;
pub use path_map::PathMap;
pub use path_table::PathTable;
pub use recent_tables::RecentTables;
pub use route::Route;

//! A wire, and its lines, each processed when it arrives. A wire is both directions of a connection, whose reader has
//! written everything that is due before it waits for input.
//!
//! - `read` of a [`Wire`] requires the facts that the other side relies on (`settled`). Its caller has therefore
//!   written everything that is due before it waits for more input.
//! - `read` returns 0 only if the input has ended (`end`).
//! - Failed reads and failed writes are counted, each with its own count (`cause`, `steady`).
//!
//! [`StdWire`] is a wire over any source and sink, such as standard input and output. [`MemWire`] is a wire in memory
//! for tests.
//!
//! A call that follows the lines of a wire has its definitions and the parts of its loop here:
//!
//! - [`send_all`] and [`flush`] write all of the given octets (`whole`). If a write fails, they have written a prefix
//!   (`front`), and the error is counted (`cause`).
//! - [`read_after`] requires that everything that the other side relies on has been written (`settled`). It returns 0
//!   only if the input has ended (`end`).
//! - The definition `HasFollowed` of `specs/Following.antt` has a case for each ending ([`Following`]).
#![tactic(auto)]

mod buffer;
mod following;
mod handler;
mod memory;
mod standard;
mod wire;

pub use buffer::{first_fed, flush, move_to_front, read_after, send_all};
pub use following::Following;
pub use handler::Stop;
pub use memory::MemWire;
pub use standard::StdWire;
pub use wire::Wire;

//! The source and the sink of the exchange: the stream that it reads and the stream that it writes.
//!
//! - `read` of a [`Source`] returns the next bytes (`next`), and none if and only if it is at the end (`end`,
//!   `no_more`).
//! - `write` of a [`Sink`] appends a prefix of its bytes (`appended`), of at least one byte if there is one (`some`).
//! - Both count their errors. A call fails only if that count rises (`cause`), and then nothing else changes (`kept`).
//!   A call that succeeds leaves it unchanged (`steady`).
//!
//! [`read_all`] reads a source to its end or to a limit (`whole`, `most`), and [`write_all`] writes all bytes to a sink
//! (`whole`). After an error at most a prefix of them was moved (`lost`, `front`).
//!
//! [`MemSource`] and [`MemSink`] are in memory and fail at given calls. [`StdSource`] and [`StdSink`] are standard
//! input and output. No clause states the bytes of these two.
#![tactic(auto)]

mod ends;
mod faults;
mod memory;
mod standard;
mod streams;

pub use ends::{Failed, Sink, Source};
pub use memory::{MemSink, MemSource};
pub use standard::{StdSink, StdSource};
pub use streams::{ReadError, read_all, write_all};

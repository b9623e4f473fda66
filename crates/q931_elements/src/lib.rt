//! Reads and writes the information elements of a message of ITU-T Q.931 (05/98), section 4.5.
//!
//! - [`Elements`] reads them from the octets after the header. `new` gives the list of the grammar (`grammar`), and
//!   `first` returns the first element of a code (`first`, `none`).
//! - No string of octets has two lists ([`one_reading`]), and each has one ([`each_string_is_read`]).
//! - [`Writer`] writes elements. Reading its octets gives the same elements ([`written_is_read`]).
//!
//! Nothing here allocates, and reading copies nothing.
#![tactic(auto)]

mod front;
mod laws;
mod list;
mod writer;

pub use front::Element;
pub use laws::{each_string_is_read, one_reading, written_is_read};
pub use list::Elements;
pub use writer::{MAX_MESSAGE_LEN, Writer};

//! The codec of the frames of a data link: ITU-T Q.921 (09/97), sections 2 and 3.
//!
//! The link has SAPI 0, TEI 0 and modulo 128. The flags and the frame check sequence are not part of the octets.
//!
//! - [`read_frame`] returns the one reading of a string of octets: a frame, or `None` if the octets are discarded
//!   (`computed`). The sequence numbers of a frame are below 128 (`numbered`).
//! - [`write_frame`] returns the octets of a frame (`encoded`), at most 116 (`fits`). Reading them returns the frame
//!   (`read_back`).
//! - For either side, reading the octets of a frame returns the frame ([`law_of_reading`]).
//!
//! No function allocates.
#![tactic(auto)]

mod codes;
mod frame;
mod information;
mod laws;
mod reading;
mod writing;

pub use frame::{Control, Frame, Sender, Supervisory};
pub use information::Information;
pub use laws::law_of_reading;
pub use reading::read_frame;
pub use writing::{FrameOctets, MAX_FRAME_LEN, MAX_MESSAGE_UNIT_LEN, write_frame};

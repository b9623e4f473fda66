//! Stores the octets of a frame between two steps: speech memories, highways, a delay line.
//!
//! - [`FrameBuffer`] has two halves. `get` reads the half that was filled before `swap`. `put_line` and
//!   `fill_lines_idle` fill the other half (`filled`) and preserve the first (`readable`).
//! - [`Highway`] and [`Crossed`] hold an octet for each line and internal slot. A write changes that octet only
//!   (`here`, `others`).
//! - `rows_mut` and `filling_half_mut` lend the rows of all lines for writing, whole or in parts (`writes_back`).
//!   [`MIN_HALF_OCTETS`] is the size of a half that gets a thread.
//! - `back_two` of [`DelayLine`] returns the octet of two frames before, or idle if there is none.
#![tactic(auto)]

mod crossed;
mod delay_line;
mod halves;
mod highway;
mod idle;
mod memory;

pub use crossed::Crossed;
pub use delay_line::DelayLine;
pub use halves::MIN_HALF_OCTETS;
pub use highway::Highway;
pub use idle::{fill_idle, is_idle};
pub use memory::FrameBuffer;

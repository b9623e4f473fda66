//! The procedures of a data link at the network side of an interface: ITU-T Q.921 (09/97), section 5.
//!
//! A [`Link`] has one of four states, a running timer (T200 or T203), and at most 64 messages that are not
//! acknowledged. A step of it is one [`received`](Link::received) frame, any number of [`submitted`](Link::submitted)
//! messages, and its [end](Link::finished). Another step is a [turn](Link::turned), in which the timer can expire. The
//! frames that it sends are in a [`FrameOutbox`].
//!
//! - The link after each call is the link of the definition in `specs/` (`link`), and so are the frames (`out`) and the
//!   indication to layer 3 (`indication`). The definitions have the cases of the SDL diagrams of annex B.
//! - Each call requires capacity in the outbox for the frames that it can send.
//! - For any peer, at most seven messages are sent and not acknowledged ([`law_of_windows`]). A message leaves the queue
//!   only if N(R) acknowledges it, or with all others, and layer 3 is informed ([`law_of_losses`]). The frames sent are
//!   well formed ([`law_of_sent_frames`]). A message is delivered only if its number is V(R) ([`law_of_deliveries`]).
//!
//! No function allocates.
#![tactic(auto)]

mod laws;
mod link;
mod message;
mod outbox;
mod queue;
mod receiving;
mod sending;
mod state;
mod turning;

pub use laws::{law_of_deliveries, law_of_losses, law_of_sent_frames, law_of_windows};
pub use link::Link;
pub use message::MessageUnit;
pub use outbox::{FrameOutbox, MAX_FRAMES};
pub use queue::{MAX_QUEUE_LEN, Queue};
pub use state::{Indication, LinkTimers, Running, State, Timer};

//! The notices of a link to call control.
ghost use Rattle.std.specs.Prelude.{◌≡◌};
ghost use Rattle.link_frames.specs.Writing.{information_in};
ghost use Rattle.link_table.specs.Steps as spec;

use link_frames::{Control, Frame, Information};
use link_procedures::Indication;
use thiserror::Error;

/// A change of a link. Messages that were not delivered are lost.
#[derive(Clone, Copy, PartialEq, Eq)]
pub enum Change {
    /// The link is established: DL-ESTABLISH indication or confirm.
    Up,
    /// The link is released: DL-RELEASE indication.
    Down,
}

/// A notice to call control after a received frame.
#[derive(Clone, Drop)]
pub enum Notice<'a> {
    /// The next message: DL-DATA indication.
    Message(Information<'a>),
    /// A change of the link.
    Link(Change),
}

/// The line has no data link.
#[derive(Clone, Copy, Debug, PartialEq, Eq, Error)]
#[error("the line has no data link")]
pub struct NoLinkError;

// Returns the notice after a frame that the link indicates so.
pub(crate) fn notice_of<'a>(frame: &Frame<'a>, indication: Option<Indication>) -> Option<Notice<'a>>
    ensures { result ≡ spec.notice_of frame.now indication }
{
    match indication? {
        Indication::Data => Some(Notice::Message(information_in(frame))),
        Indication::Established => Some(Notice::Link(Change::Up)),
        Indication::Released => Some(Notice::Link(Change::Down)),
    }
}

// Returns the information field of a frame. It is empty if the frame has none.
fn information_in<'a>(frame: &Frame<'a>) -> Information<'a>
    ensures { result ≡ information_in frame.now.control }
{
    match &frame.control {
        Control::Information { information, .. } => Information::of(information.octets()),
        _ => Information::of(&[]),
    }
}

// Returns the change of the link after a turn.
pub(crate) fn change_of(indication: Option<Indication>) -> Option<Change>
    ensures { result ≡ spec.change_of indication }
{
    match indication? {
        Indication::Data => None,
        Indication::Established => Some(Change::Up),
        Indication::Released => Some(Change::Down),
    }
}

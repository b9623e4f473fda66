//! The encoding of a frame.

ghost use Rattle.std.specs.Prelude.{◌≡◌, ◌+◌, ◌*◌, ◌<◌, ◌≤◌, Bool, Some, length};
ghost use Rattle.link_frames.specs.Fields.{bit};
ghost use Rattle.link_frames.specs.Reading.{reading};
ghost use Rattle.link_frames.specs.Writing.{IsWritable, information_in, encoding};

use crate::codes::{DISC, DM, REJ, RNR, RR, SABME, TEI, UA};
use crate::frame::{Control, Frame, Sender, Supervisory};
use arrayvec::ArrayVec;
use std::marker::Model;

/// The maximum number of octets of a message unit that a written frame carries. Source: this project.
pub const MAX_MESSAGE_UNIT_LEN: usize = 112;

/// The maximum number of octets of a written frame.
pub const MAX_FRAME_LEN: usize = 116;

/// The octets of a written frame. A contract views them as a list.
#[derive(Clone, Debug, Default, Drop)]
pub struct FrameOctets {
    octets: ArrayVec<u8, MAX_FRAME_LEN>,
}

impl Model for FrameOctets {
    ghost use Rattle.std.specs.Prelude.{List, ℕ};

    ghost Value = { List ℕ };

    ghost view = { λ f. f.octets.items };
}

impl FrameOctets {
    /// Returns a copy of these octets, at most 116.
    pub fn of(octets: &[u8]) -> FrameOctets
        requires { length octets.now ≤ 116 }
        ensures { result ≡ octets.now }
    {
        let mut copied = FrameOctets {
            octets: ArrayVec::new(),
        };
        if copied.octets.try_extend_from_slice(octets).is_err() {
            unreachable!();
        }
        copied
    }

    /// Returns the octets in the order of transmission.
    pub fn as_slice(&self) -> &[u8]
        ensures { result.now ≡ self.now }
    {
        self.octets.as_slice()
    }
}

/// Returns the octets of a frame from `sender`: an I frame with a message of at most 112 octets, an S frame, SABME,
/// DISC, UA or DM. I frames, SABME and DISC are commands. UA and DM are responses.
pub fn write_frame(sender: Sender, frame: &Frame) -> FrameOctets
    requires writable { IsWritable frame.now.command frame.now.control }
    requires room { length (information_in frame.now.control) ≤ 112 }
    ensures encoded { result ≡ encoding sender frame.now }
    ensures read_back { reading sender result ≡ Some frame.now }
    ensures fits { length result ≤ 116 }
{
    FrameOctets {
        octets: octets_of(sender, frame),
    }
}

#[tactic(auto, unfolding(crate::specs::Writing::encoding))]
fn octets_of(sender: Sender, frame: &Frame) -> ArrayVec<u8, MAX_FRAME_LEN>
    requires writable { IsWritable frame.now.command frame.now.control }
    requires room { length (information_in frame.now.control) ≤ 112 }
    ensures encoded { result.items ≡ encoding sender frame.now }
    ensures fits { length result.items ≤ 116 }
{
    let mut octets = ArrayVec::new();
    octets.push(sender.address(frame.command));
    octets.push(TEI);
    match &frame.control {
        Control::Information {
            poll,
            send,
            receive,
            information,
        } => {
            octets.push(2 * *send);
            octets.push(with_bit(*receive, *poll));
            if octets.try_extend_from_slice(information.octets()).is_err() {
                unreachable!();
            }
        }
        Control::Supervisory {
            kind,
            poll_final,
            receive,
        } => {
            octets.push(match kind {
                Supervisory::Rr => RR,
                Supervisory::Rnr => RNR,
                Supervisory::Rej => REJ,
            });
            octets.push(with_bit(*receive, *poll_final));
        }
        Control::Sabme(poll) => octets.push(unnumbered(SABME, *poll)),
        Control::Disc(poll) => octets.push(unnumbered(DISC, *poll)),
        Control::Ua(last) => octets.push(unnumbered(UA, *last)),
        Control::Dm(last) => octets.push(unnumbered(DM, *last)),
        Control::Frmr | Control::Ui | Control::Xid | Control::Invalid => unreachable!(),
    }
    octets
}

// Returns the last octet of the control field of an I or S frame.
fn with_bit(receive: u8, poll_final: bool) -> u8
    requires { receive < 128 }
    ensures { result ≡ 2 * receive + bit poll_final }
{
    2 * receive + u8::from(poll_final)
}

// Returns the control octet of a U frame.
fn unnumbered(code: u8, poll_final: bool) -> u8
    requires { code < 128 }
    ensures { result ≡ code + 16 * bit poll_final }
{
    code + 16 * u8::from(poll_final)
}

//! The reading of octets as a frame.

ghost use Rattle.std.specs.Prelude.{◌≡◌, IfSome};
ghost use Rattle.link_frames.specs.Reading as spec;

use crate::codes::{DISC, DM, FRMR, REJ, RNR, RR, SABME, TEI, UA, UI, XID};
use crate::frame::{Control, Frame, Sender, Supervisory};
use crate::information::Information;

// N201: the maximum number of octets of an information field (Q.921, 5.9.3).
const MAX_INFORMATION_LEN: usize = 260;

/// Returns the frame of these octets from `sender`. `None` if they are discarded (Q.921, 2.9): fewer than three octets,
/// fewer than four octets of an I or S frame, another SAPI or TEI, or a wrong EA bit.
pub fn read_frame(sender: Sender, octets: &[u8]) -> Option<Frame<'_>>
    ensures computed { result ≡ spec.reading sender octets.now }
    ensures numbered { IfSome result (λ f. spec.IsNumbered f.control) }
{
    match octets {
        [address, TEI, control, rest @ ..] => {
            let command = command_of(sender, *address)?;
            let control = control_of(command, *control, rest)?;
            Some(Frame { command, control })
        }
        _ => None,
    }
}

// Returns whether an address octet of `sender` belongs to a command. `None` for another SAPI or a wrong EA bit.
fn command_of(sender: Sender, address: u8) -> Option<bool>
    ensures { result ≡ spec.command_of sender address }
{
    if address == sender.address(true) {
        Some(true)
    } else if address == sender.address(false) {
        Some(false)
    } else {
        None
    }
}

// Returns the control field. The last two bits of its first octet determine the format. `None` for an I or S frame
// whose control field has one octet.
fn control_of(command: bool, first: u8, rest: &[u8]) -> Option<Control<'_>>
    ensures computed { result ≡ spec.control_of command first rest.now }
    ensures numbered { IfSome result (λ c. spec.IsNumbered c) }
{
    if first % 2 == 0 {
        numbered_information(command, first, rest)
    } else if first % 4 == 1 {
        supervisory(first, rest)
    } else {
        Some(unnumbered(command, first, rest))
    }
}

fn numbered_information(command: bool, first: u8, rest: &[u8]) -> Option<Control<'_>>
    ensures computed { result ≡ spec.numbered_information command first rest.now }
    ensures numbered { IfSome result (λ c. spec.IsNumbered c) }
{
    let (last, information) = rest.split_first()?;
    Some(information_with(command, first, *last, information))
}

fn information_with(command: bool, first: u8, last: u8, information: &[u8]) -> Control<'_>
    ensures computed { result ≡ spec.information_with command first last information.now }
    ensures numbered { spec.IsNumbered result }
{
    if command && information.len() <= MAX_INFORMATION_LEN {
        Control::Information {
            poll: last % 2 == 1,
            send: first / 2,
            receive: last / 2,
            information: Information::of(information),
        }
    } else {
        Control::Invalid
    }
}

fn supervisory(first: u8, rest: &[u8]) -> Option<Control<'_>>
    ensures computed { result ≡ spec.supervisory first rest.now }
    ensures numbered { IfSome result (λ c. spec.IsNumbered c) }
{
    match rest {
        [] => None,
        [last] => Some(supervisory_with(first, *last)),
        _ => Some(Control::Invalid),
    }
}

fn supervisory_with(first: u8, last: u8) -> Control<'static>
    ensures computed { result ≡ spec.supervisory_with (spec.kind_of first) last }
    ensures numbered { spec.IsNumbered result }
{
    match kind_of(first) {
        Some(kind) => Control::Supervisory {
            kind,
            poll_final: last % 2 == 1,
            receive: last / 2,
        },
        None => Control::Invalid,
    }
}

// Returns the S frame with this control octet. The four bits before its code are 0.
fn kind_of(first: u8) -> Option<Supervisory>
    ensures { result ≡ spec.kind_of first }
{
    match first {
        RR => Some(Supervisory::Rr),
        RNR => Some(Supervisory::Rnr),
        REJ => Some(Supervisory::Rej),
        _ => None,
    }
}

fn unnumbered(command: bool, first: u8, rest: &[u8]) -> Control<'_>
    ensures computed { result ≡ spec.any_unnumbered command first rest.now }
    ensures numbered { spec.IsNumbered result }
{
    let code = first / 32 * 32 + first % 16;
    if code == UI {
        Control::Ui
    } else if code == XID {
        Control::Xid
    } else if code == FRMR && !command {
        Control::Frmr
    } else if rest.is_empty() {
        without_information(command, code, first / 16 % 2 == 1)
    } else {
        Control::Invalid
    }
}

fn without_information(command: bool, code: u8, poll_final: bool) -> Control<'static>
    ensures computed { result ≡ spec.unnumbered command code poll_final }
    ensures numbered { spec.IsNumbered result }
{
    match (command, code) {
        (true, SABME) => Control::Sabme(poll_final),
        (true, DISC) => Control::Disc(poll_final),
        (false, UA) => Control::Ua(poll_final),
        (false, DM) => Control::Dm(poll_final),
        _ => Control::Invalid,
    }
}

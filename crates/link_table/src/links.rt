//! The steps of the link of one line, in the row of the links of all lines.
ghost use Rattle.std.specs.Prelude.{◌≡◌, ◌+◌, ◌≤◌, length};
ghost use Rattle.link_frames.specs.Reading.{IsNumbered};
ghost use Rattle.link_procedures.specs.Links.{DataLink, step};
ghost use Rattle.link_procedures.specs.Sending as sending;
ghost use Rattle.link_procedures.specs.Establishment as establishment;
ghost use Rattle.link_procedures.specs.Receiving as receiving;
ghost use Rattle.link_procedures.specs.Timing as timing;
ghost use Rattle.link_table.specs.Tables.{IsLinked, IsLinkOf, with_link};

use link_frames::Frame;
use link_procedures::{FrameOutbox, Indication, Link, LinkTimers};

// The link of a line receives a frame. Returns its indication.
pub(crate) fn receive_on(
    links: &mut Vec<Option<Link>>,
    line: u8,
    frame: &Frame,
    at: u32,
    out: &mut FrameOutbox,
) -> Option<Indication>
    requires linked { IsLinked links.old.items line }
    requires numbered { IsNumbered frame.now.control }
    requires room { length out.old + 2 ≤ 80 }
    ensures link { (l : DataLink) → IsLinkOf links.old.items line l
        → links.new.items ≡ with_link line (receiving.received frame.now at (step l out.old)).link links.old.items }
    ensures out { (l : DataLink) → IsLinkOf links.old.items line l
        → out.new ≡ (receiving.received frame.now at (step l out.old)).out }
    ensures indication { (l : DataLink) → IsLinkOf links.old.items line l
        → result ≡ (receiving.received frame.now at (step l out.old)).indication }
    ensures few { length out.new ≤ length out.old + 2 }
{
    match &mut links[usize::from(line)] {
        Some(link) => link.received(frame, at, out),
        None => unreachable!(),
    }
}

// The link of a line takes a message.
pub(crate) fn submit_on(
    links: &mut Vec<Option<Link>>,
    line: u8,
    octets: &[u8],
    at: u32,
    out: &mut FrameOutbox,
)
    requires linked { IsLinked links.old.items line }
    requires short { length octets.now ≤ 112 }
    requires room { length out.old + 7 ≤ 80 }
    ensures link { (l : DataLink) → IsLinkOf links.old.items line l
        → links.new.items ≡ with_link line (establishment.submitted octets.now at (step l out.old)).link links.old.items }
    ensures out { (l : DataLink) → IsLinkOf links.old.items line l
        → out.new ≡ (establishment.submitted octets.now at (step l out.old)).out }
    ensures few { length out.new ≤ length out.old + 7 }
{
    match &mut links[usize::from(line)] {
        Some(link) => link.submitted(octets, at, out),
        None => unreachable!(),
    }
}

// The link of a line ends its step.
pub(crate) fn finish_on(links: &mut Vec<Option<Link>>, line: u8, at: u32, out: &mut FrameOutbox)
    requires linked { IsLinked links.old.items line }
    requires room { length out.old + 8 ≤ 80 }
    ensures link { (l : DataLink) → IsLinkOf links.old.items line l
        → links.new.items ≡ with_link line (sending.finished at (step l out.old)).link links.old.items }
    ensures out { (l : DataLink) → IsLinkOf links.old.items line l
        → out.new ≡ (sending.finished at (step l out.old)).out }
    ensures few { length out.new ≤ length out.old + 8 }
{
    match &mut links[usize::from(line)] {
        Some(link) => link.finished(at, out),
        None => unreachable!(),
    }
}

// The link of a line takes its turn. Returns its indication.
pub(crate) fn turn_on(
    links: &mut Vec<Option<Link>>,
    line: u8,
    timers: &LinkTimers,
    at: u32,
    out: &mut FrameOutbox,
) -> Option<Indication>
    requires linked { IsLinked links.old.items line }
    requires room { length out.old + 1 ≤ 80 }
    ensures link { (l : DataLink) → IsLinkOf links.old.items line l
        → links.new.items ≡ with_link line (timing.turned timers.now at (step l out.old)).link links.old.items }
    ensures out { (l : DataLink) → IsLinkOf links.old.items line l
        → out.new ≡ (timing.turned timers.now at (step l out.old)).out }
    ensures indication { (l : DataLink) → IsLinkOf links.old.items line l
        → result ≡ (timing.turned timers.now at (step l out.old)).indication }
    ensures few { length out.new ≤ length out.old + 1 }
{
    match &mut links[usize::from(line)] {
        Some(link) => link.turned(timers, at, out),
        None => unreachable!(),
    }
}

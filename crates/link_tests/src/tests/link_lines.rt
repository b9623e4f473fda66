// The lines of a trace with data links, and their report lines.
use link_frames::{Control, Frame, FrameOctets, Sender, write_frame};
use link_procedures::Indication;
use link_table::Change;
use linked_text::{
    LinkHappening, LinkHeading, append_link_line, append_message_line, put_frame_end,
    put_frame_start, put_turn,
};
use std::alloc::{AllocError, Global};
use std::test::Fail;
use trace_text::{Happening, Limits, LineError, Reason};

// The result of reading a line.
#[derive(Clone, Copy, PartialEq, Eq)]
enum Came {
    // The line is read, and it is not an event.
    Read,
    // It is an event of a trace without data links.
    Event,
    // This line receives this number of octets on its data link.
    Frame(u8, usize),
    // It is refused for this reason.
    Refused(Reason),
    // An allocation fails.
    Lacking,
}

// Lines of a trace without data links, each with the result of reading it.
const UNLINKED: [(&str, Came); 9] = [
    ("link 0", Came::Refused(Reason::Header)),
    ("L 0 00", Came::Refused(Reason::Header)),
    ("timer T200 8", Came::Refused(Reason::Header)),
    ("exchange 1 3 1 2", Came::Read),
    ("L 0 00017F", Came::Refused(Reason::Slot)),
    ("M 0 0802800107", Came::Event),
    ("link 0", Came::Refused(Reason::Word)),
    ("timer T200 8", Came::Refused(Reason::Word)),
    ("exchange 1 3 1 2", Came::Refused(Reason::Word)),
];

// Lines of a trace with data links.
const LINKED: [(&str, Came); 43] = [
    ("exchange 1 3 1 2", Came::Read),
    ("link", Came::Refused(Reason::Word)),
    ("link 0 1", Came::Refused(Reason::Word)),
    ("link 3", Came::Refused(Reason::Slot)),
    ("link 00", Came::Refused(Reason::Slot)),
    ("  link  2 ", Came::Read),
    ("link 2", Came::Refused(Reason::Slot)),
    ("link 0", Came::Read),
    ("link 1\t", Came::Refused(Reason::Word)),
    ("timer T303 8", Came::Read),
    ("timer T200 0", Came::Refused(Reason::Number)),
    ("timer T203", Came::Refused(Reason::Word)),
    ("timer T204 8", Came::Refused(Reason::Word)),
    ("timer T200 9", Came::Read),
    ("timer T200 9", Came::Refused(Reason::Word)),
    ("# link 1", Came::Read),
    ("sync", Came::Read),
    ("M 0 0802800107", Came::Refused(Reason::Slot)),
    (" M 2 zz zz", Came::Refused(Reason::Slot)),
    ("up 0", Came::Refused(Reason::Slot)),
    ("down 2", Came::Refused(Reason::Slot)),
    ("M 3", Came::Refused(Reason::Slot)),
    ("restart 3", Came::Refused(Reason::Slot)),
    ("restart 0 2", Came::Refused(Reason::Word)),
    ("M 1 0", Came::Refused(Reason::Hex)),
    ("L", Came::Refused(Reason::Word)),
    ("L 0 00 01", Came::Refused(Reason::Word)),
    ("L 1 00017F", Came::Refused(Reason::Slot)),
    ("L 3 00017F", Came::Refused(Reason::Slot)),
    ("L 0 0", Came::Refused(Reason::Hex)),
    ("l 0 00", Came::Refused(Reason::Word)),
    ("number 12 line 1", Came::Read),
    ("L 0 00017F", Came::Frame(0, 3)),
    ("number 13 line 1", Came::Refused(Reason::Word)),
    ("link 1", Came::Refused(Reason::Word)),
    ("timer T203 7", Came::Refused(Reason::Word)),
    ("  L  2 ", Came::Frame(2, 0)),
    ("M 1 0802800107", Came::Event),
    ("up 1", Came::Event),
    ("down 1", Came::Event),
    ("restart 1", Came::Event),
    (" restart  2", Came::Event),
    ("F", Came::Event),
];

fn result_of(read: Result<LinkHappening, LineError>) -> Came {
    match read {
        Ok(LinkHappening::Plain(Happening::Event(_))) => Came::Event,
        Ok(LinkHappening::Plain(_)) => Came::Read,
        Ok(LinkHappening::Received(line, octets)) => Came::Frame(line, octets.as_slice().len()),
        Err(LineError::Refused(reason)) => Came::Refused(reason),
        Err(LineError::Memory) => Came::Lacking,
    }
}

fn read_each(heading: &mut LinkHeading, alloc: Global, rows: &[(&str, Came)]) -> bool {
    for (line, wanted) in rows {
        if result_of(heading.read_line(alloc, Limits::for_lines(), line.as_bytes())) != *wanted {
            return false;
        }
    }
    true
}

// Whether the lines have their results, and set nothing.
fn unlinked_are_read(alloc: Global) -> bool {
    let mut heading = LinkHeading::new(alloc);
    read_each(&mut heading, alloc, &UNLINKED)
        && heading.linked().as_slice().is_empty()
        && heading.link_timers().t200 == 8000
}

// Whether the lines have their results, and set the links, the timers and the number of events.
fn linked_are_read(alloc: Global) -> bool {
    let mut heading = LinkHeading::new(alloc);
    read_each(&mut heading, alloc, &LINKED)
        && heading.linked().as_slice() == [2, 0].as_slice()
        && heading.link_timers().t200 == 9
        && heading.link_timers().t203 == 80_000
        && heading.plain().timers().t303 == 8
        && heading.plain().event_count() == 8
}

#[test]
fn lines_with_data_links_are_read(rt: HostRuntime) -> Result<(), Fail> {
    assert!(rt; unlinked_are_read(rt.alloc()));
    assert!(rt; linked_are_read(rt.alloc()));
    Ok(())
}

// A line `L 0` with this number of octets.
fn long_line(alloc: Global, octets: usize) -> Result<Vec<u8>, AllocError> {
    let mut line = Vec::new(alloc);
    line.extend_from_slice(b"L 0 ")?;
    for _ in 0..octets {
        line.extend_from_slice(b"7F")?;
    }
    Ok(line)
}

// Whether a frame of 265 octets is read once in a trace of one event, and a longer one is refused.
fn longest_is_read(alloc: Global) -> Result<bool, AllocError> {
    let longest = long_line(alloc, 265)?;
    let long = long_line(alloc, 266)?;
    let mut heading = LinkHeading::new(alloc);
    let most = Limits {
        max_events: 1,
        max_changes: 0,
    };
    let rows = [("exchange 1 1 0 1", Came::Read), ("link 0", Came::Read)];
    let is_begun = read_each(&mut heading, alloc, &rows);
    let came = [
        result_of(heading.read_line(alloc, most, long.as_slice())),
        result_of(heading.read_line(alloc, most, longest.as_slice())),
        result_of(heading.read_line(alloc, most, longest.as_slice())),
    ];
    let wanted = [
        Came::Refused(Reason::Length),
        Came::Frame(0, 265),
        Came::Refused(Reason::Limit),
    ];
    Ok(is_begun && came == wanted && heading.plain().event_count() == 1)
}

#[test]
fn a_received_frame_has_at_most_265_octets(rt: HostRuntime) -> Result<(), Fail> {
    assert!(rt; longest_is_read(rt.alloc())?);
    Ok(())
}

// SABME with P = 1 of the network.
fn establishment() -> FrameOctets {
    write_frame(
        Sender::Network,
        &Frame {
            command: true,
            control: Control::Sabme(true),
        },
    )
}

// UA with F = 1 of the network.
fn acknowledgement() -> FrameOctets {
    write_frame(
        Sender::Network,
        &Frame {
            command: false,
            control: Control::Ua(true),
        },
    )
}

// The lines of received frames and of messages, in `text`.
fn append_lines(text: &mut Vec<u8>) -> Result<(), AllocError> {
    let first = [establishment()];
    let second = [acknowledgement()];
    let both = [establishment(), acknowledgement()];
    append_link_line(text, 1, Some(Indication::Established), None, &[0], &second)?;
    append_link_line(
        text,
        2,
        Some(Indication::Data),
        Some((0, 1)),
        &[31, 0],
        &both,
    )?;
    append_link_line(text, 3, Some(Indication::Released), None, &[], &[])?;
    append_link_line(text, 4, None, None, &[0], &first)?;
    append_message_line(text, 5, None, &[1, 2], &both)?;
    append_message_line(text, 6, Some((62, 0)), &[], &[])
}

// The lines of frames of the exchange, in `text`.
fn put_frames(text: &mut Vec<u8>) -> Result<(), AllocError> {
    let first = [establishment()];
    let second = [acknowledgement()];
    let both = [establishment(), acknowledgement()];
    put_frame_start(text, 7, 4_294_967_295, &[0, 1], &both)?;
    put_turn(text, 31, Some(Change::Down), &[31], &first)?;
    put_frame_end(text, &[[0xD5; 30], [0x11; 30]])?;
    put_frame_start(text, 8, 0, &[], &[])?;
    put_turn(text, 0, Some(Change::Up), &[], &[])?;
    put_frame_end(text, &[])?;
    put_frame_start(text, 9, 1, &[], &[])?;
    put_turn(text, 1, None, &[1], &second)?;
    put_frame_end(text, &[[0xD5; 30]])
}

const WRITTEN: &str = "1 link up 0:000173
2 link took moved 0 1 31:02017F 0:000173
3 link down
4 link 0:02017F
5 message 1:02017F 2:000173
6 message moved 62 0
7 frame 4294967295 send 0:02017F send 1:000173 down 31 send 31:02017F 1:111111111111111111111111111111111111111111111111111111111111
8 frame 0 up 0
9 frame 1 send 1:000173
";

#[test]
fn report_lines_of_data_links_are_written(rt: HostRuntime) -> Result<(), Fail> {
    let mut text = Vec::new(rt.alloc());
    append_lines(&mut text)?;
    put_frames(&mut text)?;
    assert!(rt; text.as_slice() == WRITTEN.as_bytes());
    Ok(())
}

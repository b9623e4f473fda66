// The line of each answer, stored as the exchange stores it.
use arrayvec::ArrayVec;
use circuit_model::{IDLE, Slot};
use exchange_events::{Answer, CallRecord, Encoded, Party, Records, Reply, Signal, Signals};
use report_text::append_answer;
use std::alloc::{AllocError, Global};
use std::test::Fail;

// The record of a call, which no line has.
const TOLD: CallRecord = CallRecord {
    caller: Slot { line: 0, place: 7 },
    called: Party::Line(Slot { line: 1, place: 8 }),
    answered: true,
    from: 3,
    to: 5,
    cause: 16,
};

/// Returns the bytes of a text in which `+` means 28 idle octets.
pub(crate) fn spelled(alloc: Global, text: &str) -> Result<Vec<u8>, AllocError> {
    let mut bytes = Vec::new(alloc);
    for byte in text.bytes() {
        if byte == b'+' {
            for _ in 0..28 {
                bytes.extend_from_slice(b"D5")?;
            }
        } else {
            bytes.push(byte)?;
        }
    }
    Ok(bytes)
}

// Messages of these octets to these lines.
fn signals(sends: &[(u8, &[u8])]) -> Result<Signals, Fail> {
    let mut signals = ArrayVec::new();
    for (line, octets) in sends {
        signals.try_push(Signal {
            line: *line,
            octets: Encoded::of(ArrayVec::try_from(*octets)?),
        })?;
    }
    Ok(Signals::of(signals))
}

// Returns the reply to a message: these octets to these lines. A call is recorded as well.
fn sent(moved: Option<(u32, u32)>, sends: &[(u8, &[u8])]) -> Result<Reply, Fail> {
    let mut records = Records::new();
    records.push(TOLD);
    Ok(Reply::Sent {
        sends: signals(sends)?,
        moved,
        records,
    })
}

// Returns a frame at whose boundary these octets are sent to these lines.
fn frame(number: u32, sends: &[(u8, &[u8])]) -> Result<Reply, Fail> {
    Ok(Reply::Frame {
        number,
        sends: signals(sends)?,
        records: Records::new(),
    })
}

// Returns the line of an answer after another octet.
fn printed(
    alloc: Global,
    event: u32,
    reply: &Reply,
    octets: &[[u8; 30]],
) -> Result<Vec<u8>, AllocError> {
    let mut out = vec![in alloc; b'>']?;
    let answer = Answer::keep(alloc, event, reply, octets)?;
    append_answer(&mut out, &answer)?;
    Ok(out)
}

// Returns whether the line of an answer is this one, after an earlier text.
fn has_line(
    alloc: Global,
    event: u32,
    reply: &Reply,
    octets: &[[u8; 30]],
    line: &str,
) -> Result<bool, AllocError> {
    let wanted = spelled(alloc, line)?;
    let printed = printed(alloc, event, reply, octets)?;
    Ok(printed.as_slice().split_first() == Some((&b'>', wanted.as_slice())))
}

fn have_plain_lines(alloc: Global, octets: &[[u8; 30]]) -> Result<bool, AllocError> {
    Ok(
        has_line(alloc, 1, &Reply::Granted(0, 62), octets, "1 granted 0 62\n")?
            && has_line(alloc, 20, &Reply::Busy, octets, "20 busy\n")?
            && has_line(alloc, 300, &Reply::Seated(7, 0), octets, "300 seated 7 0\n")?
            && has_line(alloc, 4000, &Reply::NoPort, octets, "4000 noport\n")?
            && has_line(alloc, 50000, &Reply::Freed, octets, "50000 freed\n")?
            && has_line(alloc, 65535, &Reply::NotNailed, octets, "65535 notnailed\n")?,
    )
}

fn have_frame_lines(alloc: Global, octets: &[[u8; 30]]) -> Result<bool, Fail> {
    let bare = frame(4294967295, &[])?;
    let line = "7 frame 4294967295 0:2AD5+ 9:D5+0F 31:FE+BC\n";
    if !has_line(alloc, 7, &bare, octets, line)? {
        return Ok(false);
    }
    let sending = frame(0, &[(31, b"\x08\x02\x00\x01\x4D"), (9, b"\xAB")])?;
    let line = "8 frame 0 send 31:080200014D send 9:AB 0:2AD5+ 9:D5+0F 31:FE+BC\n";
    Ok(has_line(alloc, 8, &sending, octets, line)?)
}

#[test]
fn each_answer_has_its_line(rt: HostRuntime) -> Result<(), Fail> {
    let alloc = rt.alloc();
    // Three lines send octets other than idle: line 0 at the first place, line 9 at the last, line 31 at
    // both.
    let mut octets = [[IDLE; 30]; 32];
    octets[0][0] = 0x2A;
    octets[9][29] = 0x0F;
    octets[31][0] = 0xFE;
    octets[31][29] = 0xBC;
    assert!(rt; have_plain_lines(alloc, &octets)?);
    assert!(rt; have_frame_lines(alloc, &octets)?);
    Ok(())
}

/// An event, the paths that its message moved, the messages that are sent, and the line.
type Told<'a> = (u32, Option<(u32, u32)>, &'a [(u8, &'a [u8])], &'a str);

// CONNECT ACKNOWLEDGE to a called user and CONNECT to a caller; one octet; no messages.
const TOLD_LINES: [Told; 4] = [
    (
        3,
        Some((0, 0)),
        &[(1, b"\x08\x02\x00\x01\x0F"), (0, b"\x08\x02\x80\x01\x07")],
        "3 message moved 0 0 1:080200010F 0:0802800107\n",
    ),
    (12, None, &[(31, b"\xAB")], "12 message 31:AB\n"),
    (5, Some((62, 1)), &[], "5 message moved 62 1\n"),
    (65535, None, &[], "65535 message\n"),
];

fn are_told(alloc: Global, rows: &[Told]) -> Result<bool, Fail> {
    for (event, moved, sends, line) in rows {
        let reply = sent(*moved, sends)?;
        if !has_line(alloc, *event, &reply, &[], line)? {
            return Ok(false);
        }
    }
    Ok(true)
}

#[test]
fn messages_are_told_with_their_lines(rt: HostRuntime) -> Result<(), Fail> {
    assert!(rt; are_told(rt.alloc(), &TOLD_LINES)?);
    Ok(())
}

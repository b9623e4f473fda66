//! The report lines of a trace with data links.
ghost use Rattle.std.specs.Prelude.{◌≡◌, ◌++◌, ◌≤◌, length, take, codes, decimal, OnOk, OnErr};
ghost use Rattle.report_text.specs.Report.{moves, on_line};
ghost use Rattle.linked_text.specs.LinkReport.{change_text, frame_end, frame_start, link_line, indication_text, on_lines, sent_message_line, sent_on_lines, turn_text};

use link_frames::FrameOctets;
use link_procedures::Indication;
use link_table::Change;
use report_text::{put_moves, put_on_line, put_pair, put_parts, put_word};
use std::alloc::AllocError;

/// Appends the line of a frame that a link received: its effect on call control, the numbers of live paths that were
/// moved, and the messages and frames that were sent, each after the number of its line.
///
/// # Errors
///
/// [`AllocError`] if an allocation fails. Then `out` is unchanged.
pub fn append_link_line(
    out: &mut Vec<u8>,
    number: u32,
    indication: Option<Indication>,
    moved: Option<(u32, u32)>,
    lines: &[u8],
    sent: &[FrameOctets],
) -> Result<(), AllocError>
    ensures line { OnOk result (out.new.items ≡ out.old.items ++ link_line number indication moved lines.now sent.now) }
    ensures kept { OnErr result (out.new.items ≡ out.old.items) }
{
    let start = out.len();
    let done = put_link_line(out, number, indication, moved, lines, sent);
    if done.is_err() {
        out.truncate(start);
    }
    done
}

/// Appends the line of a message, of the restart of a line, or of a change of a link that is not in this exchange: the
/// numbers of live paths that were moved, and the messages and frames that were sent, each after the number of its line.
///
/// # Errors
///
/// [`AllocError`] if an allocation fails. Then `out` is unchanged.
pub fn append_message_line(
    out: &mut Vec<u8>,
    number: u32,
    moved: Option<(u32, u32)>,
    lines: &[u8],
    sent: &[FrameOctets],
) -> Result<(), AllocError>
    ensures line { OnOk result (out.new.items ≡ out.old.items ++ sent_message_line number moved lines.now sent.now) }
    ensures kept { OnErr result (out.new.items ≡ out.old.items) }
{
    let start = out.len();
    let done = put_message_line(out, number, moved, lines, sent);
    if done.is_err() {
        out.truncate(start);
    }
    done
}

// Appends the line of a frame that a link received. An error leaves a prefix of the line.
fn put_link_line(
    out: &mut Vec<u8>,
    number: u32,
    indication: Option<Indication>,
    moved: Option<(u32, u32)>,
    lines: &[u8],
    sent: &[FrameOctets],
) -> Result<(), AllocError>
    ensures line { OnOk result (out.new.items ≡ out.old.items ++ link_line number indication moved lines.now sent.now) }
    ensures front { take (length out.old.items) out.new.items ≡ out.old.items }
{
    put_indication(out, number, indication)?;
    put_moves(out, moved)?;
    put_on_lines(out, lines, sent)?;
    out.extend_from_slice(b"\n")
}

// Appends the line of a message. An error leaves a prefix of the line.
fn put_message_line(
    out: &mut Vec<u8>,
    number: u32,
    moved: Option<(u32, u32)>,
    lines: &[u8],
    sent: &[FrameOctets],
) -> Result<(), AllocError>
    ensures line { OnOk result (out.new.items ≡ out.old.items ++ sent_message_line number moved lines.now sent.now) }
    ensures front { take (length out.old.items) out.new.items ≡ out.old.items }
{
    put_word(out, number, b" message")?;
    put_moves(out, moved)?;
    put_on_lines(out, lines, sent)?;
    out.extend_from_slice(b"\n")
}

// Appends the number of a received frame, and its effect on call control.
fn put_indication(
    out: &mut Vec<u8>,
    number: u32,
    indication: Option<Indication>,
) -> Result<(), AllocError>
    ensures indication { OnOk result (out.new.items ≡ out.old.items ++ decimal number ++ codes " link" ++ indication_text indication) }
    ensures front { take (length out.old.items) out.new.items ≡ out.old.items }
{
    match indication {
        None => put_word(out, number, b" link"),
        Some(Indication::Data) => put_word(out, number, b" link took"),
        Some(Indication::Established) => put_word(out, number, b" link up"),
        Some(Indication::Released) => put_word(out, number, b" link down"),
    }
}

// Appends the messages and frames that were sent, each after the number of its line.
fn put_on_lines(out: &mut Vec<u8>, lines: &[u8], sent: &[FrameOctets]) -> Result<(), AllocError>
    ensures sent { OnOk result (out.new.items ≡ out.old.items ++ on_lines lines.now sent.now) }
    ensures front { take (length out.old.items) out.new.items ≡ out.old.items }
{
    let mut rest = sent;
    for line in lines {
        let Some((octets, others)) = rest.split_first() else {
            return Ok(());
        };
        put_on_line(out, usize::from(*line), octets.as_slice())?;
        rest = others;
    }
    Ok(())
}

// Appends what was sent at a boundary, each after the word `send` and the number of its line.
fn put_sent_on_lines(
    out: &mut Vec<u8>,
    lines: &[u8],
    sent: &[FrameOctets],
) -> Result<(), AllocError>
    ensures sent { OnOk result (out.new.items ≡ out.old.items ++ sent_on_lines lines.now sent.now) }
    ensures front { take (length out.old.items) out.new.items ≡ out.old.items }
{
    let mut rest = sent;
    for line in lines {
        let Some((octets, others)) = rest.split_first() else {
            return Ok(());
        };
        put_one_sent(out, *line, octets)?;
        rest = others;
    }
    Ok(())
}

// Appends one of them.
fn put_one_sent(out: &mut Vec<u8>, line: u8, octets: &FrameOctets) -> Result<(), AllocError>
    ensures sent { OnOk result (out.new.items ≡ out.old.items ++ codes " send" ++ on_line line octets.now) }
    ensures front { take (length out.old.items) out.new.items ≡ out.old.items }
{
    out.extend_from_slice(b" send")?;
    put_on_line(out, usize::from(line), octets.as_slice())
}

/// Appends the start of the line of a frame of the exchange: its number, and the messages and frames that were sent at
/// its boundary.
///
/// # Errors
///
/// [`AllocError`] if an allocation fails. Then `out` may have a prefix of the text.
pub fn put_frame_start(
    out: &mut Vec<u8>,
    number: u32,
    frame: u32,
    lines: &[u8],
    sent: &[FrameOctets],
) -> Result<(), AllocError>
    ensures start { OnOk result (out.new.items ≡ out.old.items ++ frame_start number frame lines.now sent.now) }
    ensures front { take (length out.old.items) out.new.items ≡ out.old.items }
{
    put_pair(out, number, b" frame ", frame)?;
    put_sent_on_lines(out, lines, sent)
}

/// Appends the turn of the link of a line in a frame: its change, and the messages and frames that were sent in the turn.
///
/// # Errors
///
/// [`AllocError`] if an allocation fails. Then `out` may have a prefix of the text.
pub fn put_turn(
    out: &mut Vec<u8>,
    line: u8,
    change: Option<Change>,
    lines: &[u8],
    sent: &[FrameOctets],
) -> Result<(), AllocError>
    ensures turn { OnOk result (out.new.items ≡ out.old.items ++ turn_text line change lines.now sent.now) }
    ensures front { take (length out.old.items) out.new.items ≡ out.old.items }
{
    put_change(out, line, change)?;
    put_sent_on_lines(out, lines, sent)
}

// Appends the change of the link of a line.
fn put_change(out: &mut Vec<u8>, line: u8, change: Option<Change>) -> Result<(), AllocError>
    ensures change { OnOk result (out.new.items ≡ out.old.items ++ change_text line change) }
    ensures front { take (length out.old.items) out.new.items ≡ out.old.items }
{
    match change {
        None => Ok(()),
        Some(Change::Up) => put_changed(out, b" up ", line),
        Some(Change::Down) => put_changed(out, b" down ", line),
    }
}

// Appends a word and the number of a line.
fn put_changed(out: &mut Vec<u8>, word: &[u8], line: u8) -> Result<(), AllocError>
    ensures changed { OnOk result (out.new.items ≡ out.old.items ++ word.now ++ decimal line) }
    ensures front { take (length out.old.items) out.new.items ≡ out.old.items }
{
    out.extend_from_slice(word)?;
    put_word(out, u32::from(line), b"")
}

/// Appends the end of the line of a frame of the exchange: the octets of each line.
///
/// # Errors
///
/// [`AllocError`] if an allocation fails. Then `out` may have a prefix of the text.
pub fn put_frame_end(out: &mut Vec<u8>, octets: &[[u8; 30]]) -> Result<(), AllocError>
    ensures end { OnOk result (out.new.items ≡ out.old.items ++ frame_end octets.now) }
    ensures front { take (length out.old.items) out.new.items ≡ out.old.items }
{
    put_parts(out, octets)?;
    out.extend_from_slice(b"\n")
}

//! The line of an answer, or of the response and the outbox of a step.
ghost use Rattle.std.specs.Prelude.{◌≡◌, ◌++◌, ◌*◌, ◌≤◌, length, take, codes, decimal, slice_index, [], OnOk, OnErr};
ghost use Rattle.hex.specs.Hex.{encode_upper};
ghost use Rattle.exchange_events.specs.declared.answer.Kept.TheVariants.{Granted, Busy, Seated, NoPort, Freed, NotNailed};
ghost use Rattle.report_text.specs.Report.{answer_line, frame_line, line_octets, lines_sent, moved_kept, octet_of, part, parts, parts_line, report_line, response_kept, response_line, sends_kept};

use crate::digits::{are_known_idle, is_idle, put_row_digits};
use crate::message::{put_far, put_frame_signals, put_message};
use crate::text::{NEAR_LINES, append_front, put_before, put_line_before, put_number_before};
use exchange_events::{Answer, Kept, Outbox, Response, Signal};
use std::alloc::AllocError;

// Capacity for the words and numbers of a line: three numbers of ten digits, and the text between them.
const ROOM: usize = 48;

/// Appends a report's line for one event: its number and the reply. A message has the messages sent in reply. A frame
/// has the messages sent at its boundary, and the 30 octets of each line that sends an octet other than idle. Only a
/// frame's octets are read.
///
/// # Errors
///
/// [`AllocError`] if an allocation fails. Then `out` is unchanged.
pub fn append_answer(out: &mut Vec<u8>, answer: &Answer) -> Result<(), AllocError>
    ensures line { OnOk result (out.new.items ≡ out.old.items ++ answer_line answer.now) }
    ensures kept { OnErr result (out.new.items ≡ out.old.items) }
{
    append_parts(
        out,
        answer.event,
        response_of(&answer.reply),
        moved_of(&answer.reply),
        sends_of(&answer.reply),
        answer.octets.as_slice(),
    )
}

/// Appends the line of an event as [`append_answer`] does, from the response and the outbox of its step, and for a
/// frame from the octets of each line.
///
/// # Errors
///
/// [`AllocError`] if an allocation fails. Then `out` is unchanged.
// Every line of a report goes through it, and with more than one caller LLVM would leave it a call.
#[inline(always)]
pub fn append_line(
    out: &mut Vec<u8>,
    event: u32,
    response: Response,
    outbox: &Outbox,
    octets: &[[u8; 30]],
) -> Result<(), AllocError>
    ensures line { OnOk result (out.new.items ≡ out.old.items ++ response_line octets.now event response outbox.now) }
    ensures kept { OnErr result (out.new.items ≡ out.old.items) }
{
    append_parts(
        out,
        event,
        response,
        outbox.moved,
        outbox.sends.as_slice(),
        octets,
    )
}

// Returns the response of a stored reply.
fn response_of(reply: &Kept) -> Response
    ensures { result ≡ response_kept reply.now }
{
    match reply {
        Kept::Granted(a, b) => Response::Granted(*a, *b),
        Kept::Busy => Response::Busy,
        Kept::Seated(a, b) => Response::Seated(*a, *b),
        Kept::NoPort => Response::NoPort,
        Kept::Freed => Response::Freed,
        Kept::NotNailed => Response::NotNailed,
        Kept::Sent { .. } => Response::Sent,
        Kept::Frame { number, .. } => Response::Frame(*number),
    }
}

// Returns the numbers of live paths that were moved for a connection or a seat of a message.
fn moved_of(reply: &Kept) -> Option<(u32, u32)>
    ensures { result ≡ moved_kept reply.now }
{
    match reply {
        Kept::Sent { moved, .. } => *moved,
        _ => None,
    }
}

// Returns the messages that were sent in reply to a message, or at the boundary of a frame.
fn sends_of(reply: &Kept) -> &[Signal]
    ensures { result.now ≡ sends_kept reply.now }
{
    match reply {
        Kept::Sent { sends, .. } | Kept::Frame { sends, .. } => sends.as_slice(),
        _ => &[],
    }
}

// Appends the line of a response with these moves and messages.
#[inline(always)]
fn append_parts(
    out: &mut Vec<u8>,
    event: u32,
    response: Response,
    moved: Option<(u32, u32)>,
    sends: &[Signal],
    octets: &[[u8; 30]],
) -> Result<(), AllocError>
    ensures line { OnOk result (out.new.items ≡ out.old.items ++ parts_line octets.now event response moved sends.now) }
    ensures kept { OnErr result (out.new.items ≡ out.old.items) }
{
    let start = out.len();
    let done = put_parts_line(out, event, response, moved, sends, octets);
    if done.is_err() {
        out.truncate(start);
    }
    done
}

// Appends the line of a response with these moves and messages. An error leaves a prefix of the line.
#[inline(always)]
fn put_parts_line(
    out: &mut Vec<u8>,
    event: u32,
    response: Response,
    moved: Option<(u32, u32)>,
    sends: &[Signal],
    octets: &[[u8; 30]],
) -> Result<(), AllocError>
    ensures line { OnOk result (out.new.items ≡ out.old.items ++ parts_line octets.now event response moved sends.now) }
    ensures front { take (length out.old.items) out.new.items ≡ out.old.items }
{
    match response {
        Response::Granted(a, b) => put_granted(out, event, a, b),
        Response::Busy => put_busy(out, event),
        Response::Seated(a, b) => put_seated(out, event, a, b),
        Response::NoPort => put_no_port(out, event),
        Response::Freed => put_freed(out, event),
        Response::NotNailed => put_not_nailed(out, event),
        Response::Sent => put_message(out, event, moved, sends),
        Response::Frame(number) => put_frame(out, event, number, sends, octets),
    }
}

fn put_granted(out: &mut Vec<u8>, event: u32, a: u32, b: u32) -> Result<(), AllocError>
    ensures line { OnOk result (out.new.items ≡ out.old.items ++ report_line [] event (Granted a b)) }
    ensures front { take (length out.old.items) out.new.items ≡ out.old.items }
{
    put_numbers(out, event, b" granted ", a, b)
}

fn put_busy(out: &mut Vec<u8>, event: u32) -> Result<(), AllocError>
    ensures line { OnOk result (out.new.items ≡ out.old.items ++ report_line [] event Busy) }
    ensures front { take (length out.old.items) out.new.items ≡ out.old.items }
{
    put_word(out, event, b" busy\n")
}

fn put_seated(out: &mut Vec<u8>, event: u32, a: u32, b: u32) -> Result<(), AllocError>
    ensures line { OnOk result (out.new.items ≡ out.old.items ++ report_line [] event (Seated a b)) }
    ensures front { take (length out.old.items) out.new.items ≡ out.old.items }
{
    put_numbers(out, event, b" seated ", a, b)
}

fn put_no_port(out: &mut Vec<u8>, event: u32) -> Result<(), AllocError>
    ensures line { OnOk result (out.new.items ≡ out.old.items ++ report_line [] event NoPort) }
    ensures front { take (length out.old.items) out.new.items ≡ out.old.items }
{
    put_word(out, event, b" noport\n")
}

fn put_freed(out: &mut Vec<u8>, event: u32) -> Result<(), AllocError>
    ensures line { OnOk result (out.new.items ≡ out.old.items ++ report_line [] event Freed) }
    ensures front { take (length out.old.items) out.new.items ≡ out.old.items }
{
    put_word(out, event, b" freed\n")
}

fn put_not_nailed(out: &mut Vec<u8>, event: u32) -> Result<(), AllocError>
    ensures line { OnOk result (out.new.items ≡ out.old.items ++ report_line [] event NotNailed) }
    ensures front { take (length out.old.items) out.new.items ≡ out.old.items }
{
    put_word(out, event, b" notnailed\n")
}

/// Appends a number and the word after it.
///
/// # Errors
///
/// [`AllocError`] if an allocation fails. Then `out` may have a prefix of the text.
#[inline(always)]
pub fn put_word(out: &mut Vec<u8>, number: u32, word: &[u8]) -> Result<(), AllocError>
    requires { length word.now ≤ 16 }
    ensures word { OnOk result (out.new.items ≡ out.old.items ++ decimal number ++ word.now) }
    ensures front { take (length out.old.items) out.new.items ≡ out.old.items }
{
    let mut text = [0; 64];
    let start = put_before(&mut text, 32, word);
    let start = put_number_before(&mut text, start, number);
    append_front(out, &text[start..start + 32], 32 - start)
}

/// Appends a number, the word after it, and a second number.
///
/// # Errors
///
/// [`AllocError`] if an allocation fails. Then `out` may have a prefix of the text.
// Two crates call it, and LLVM would leave it a call.
#[inline(always)]
pub fn put_pair(out: &mut Vec<u8>, number: u32, word: &[u8], other: u32) -> Result<(), AllocError>
    requires { length word.now ≤ 16 }
    ensures pair { OnOk result (out.new.items ≡ out.old.items ++ decimal number ++ word.now ++ decimal other) }
    ensures front { take (length out.old.items) out.new.items ≡ out.old.items }
{
    let mut text = [0; 96];
    let start = put_number_before(&mut text, ROOM, other);
    let start = put_before(&mut text, start, word);
    let start = put_number_before(&mut text, start, number);
    append_front(out, &text[start..start + 48], ROOM - start)
}

// Appends a line that ends with two numbers, each after a space.
fn put_numbers(out: &mut Vec<u8>, event: u32, word: &[u8], a: u32, b: u32) -> Result<(), AllocError>
    requires { length word.now ≤ 16 }
    ensures line { OnOk result (out.new.items ≡ out.old.items ++ decimal event ++ word.now ++ decimal a ++ codes " " ++ decimal b ++ codes "\n") }
    ensures front { take (length out.old.items) out.new.items ≡ out.old.items }
{
    let mut text = [b'\n'; ROOM];
    let start = put_number_before(&mut text, ROOM - 1, b);
    let start = put_before(&mut text, start, b" ");
    let start = put_number_before(&mut text, start, a);
    let start = put_before(&mut text, start, word);
    let start = put_number_before(&mut text, start, event);
    out.extend_from_slice(&text[start..])
}

fn put_frame(
    out: &mut Vec<u8>,
    event: u32,
    number: u32,
    sends: &[Signal],
    octets: &[[u8; 30]],
) -> Result<(), AllocError>
    ensures line { OnOk result (out.new.items
        ≡ out.old.items ++ frame_line (lines_sent (octet_of octets.now) (length octets.now)) event number sends.now) }
    ensures front { take (length out.old.items) out.new.items ≡ out.old.items }
{
    put_pair(out, event, b" frame ", number)?;
    put_frame_signals(out, sends)?;
    put_parts(out, octets)?;
    out.extend_from_slice(b"\n")
}

/// Appends the octets of each line that is not idle. In most frames without calls all lines are idle. So for many lines
/// that is tested first.
///
/// # Errors
///
/// [`AllocError`] if an allocation fails. Then `out` may have a prefix of the text.
pub fn put_parts(out: &mut Vec<u8>, octets: &[[u8; 30]]) -> Result<(), AllocError>
    ensures parts { OnOk result (out.new.items ≡ out.old.items ++ parts 0 (lines_sent (octet_of octets.now) (length octets.now))) }
    ensures front { take (length out.old.items) out.new.items ≡ out.old.items }
{
    if are_known_idle(octets) {
        return Ok(());
    }
    for (line, row) in octets.iter().enumerate() {
        put_row(out, line, row)?;
    }
    Ok(())
}

// Appends the octets of one line, unless all are idle, read slot by slot.
fn put_row(out: &mut Vec<u8>, line: usize, octets: &[u8; 30]) -> Result<(), AllocError>
    ensures part { OnOk result (out.new.items ≡ out.old.items ++ part line (line_octets (λ at. slice_index octets.now at.place) line)) }
    ensures front { take (length out.old.items) out.new.items ≡ out.old.items }
{
    put_part(out, line, octets)
}

// Appends the octets of one line, unless all are idle.
fn put_part(out: &mut Vec<u8>, line: usize, octets: &[u8; 30]) -> Result<(), AllocError>
    ensures part { OnOk result (out.new.items ≡ out.old.items ++ part line octets.now) }
    ensures front { take (length out.old.items) out.new.items ≡ out.old.items }
{
    if is_idle(octets) {
        return Ok(());
    }
    if line >= NEAR_LINES {
        return put_far(out, line, octets);
    }
    let mut text = [0; 64];
    put_row_digits(&mut text, octets);
    let start = put_line_before(&mut text, 4, line);
    if start == 0 {
        out.extend_from_slice(&text)
    } else {
        out.extend_from_slice(&text[1..])
    }
}

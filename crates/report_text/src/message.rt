// The line of a message, and the messages of a frame's line.
ghost use Rattle.std.specs.Prelude.{◌≡◌, ◌++◌, ◌<◌, ◌≤◌, codes, decimal, length, take, IsTrue, OnOk, None, Some};
ghost use Rattle.hex.specs.Hex.{encode_upper};
ghost use Rattle.report_text.specs.Report.{frame_messages, message_line, messages, moves, on_line};

use crate::digits::{put_digits, put_few_digits};
use crate::report::put_word;
use crate::text::{NEAR_LINES, append_front, put_before, put_line_before, put_number_before};
use exchange_events::Signal;
use std::alloc::AllocError;

// Appends the line of a message, with the messages sent in reply.
pub(crate) fn put_message(
    out: &mut Vec<u8>,
    event: u32,
    moved: Option<(u32, u32)>,
    sends: &[Signal],
) -> Result<(), AllocError>
    ensures line { OnOk result (out.new.items ≡ out.old.items ++ message_line event moved sends.now) }
    ensures front { take (length out.old.items) out.new.items ≡ out.old.items }
{
    match moved {
        Some((a, b)) => put_moving(out, event, a, b, sends),
        None => put_still(out, event, sends),
    }
}

// Appends the line of a message that moved live paths.
fn put_moving(
    out: &mut Vec<u8>,
    event: u32,
    a: u32,
    b: u32,
    sends: &[Signal],
) -> Result<(), AllocError>
    ensures line { OnOk result (out.new.items ≡ out.old.items ++ message_line event (Some (a, b)) sends.now) }
    ensures front { take (length out.old.items) out.new.items ≡ out.old.items }
{
    put_moving_opening(out, event, a, b)?;
    put_signals(out, sends)?;
    out.extend_from_slice(b"\n")
}

// Appends the number and the word of a message, and the numbers of the live paths that it moved.
#[inline(always)]
fn put_moving_opening(
    out: &mut Vec<u8>,
    event: u32,
    first: u32,
    second: u32,
) -> Result<(), AllocError>
    ensures opening { OnOk result (out.new.items
        ≡ out.old.items ++ decimal event ++ codes " message moved " ++ decimal first ++ codes " " ++ decimal second) }
    ensures front { take (length out.old.items) out.new.items ≡ out.old.items }
{
    let mut text = [0; 96];
    let end = put_number_before(&mut text, 48, second);
    let end = put_before(&mut text, end, b" ");
    let end = put_number_before(&mut text, end, first);
    let end = put_before(&mut text, end, b" message moved ");
    let start = put_number_before(&mut text, end, event);
    append_front(out, &text[start..start + 48], 48 - start)
}

// Appends the line of a message that moved no live path. The first message sent is appended with the words before it.
#[inline(always)]
fn put_still(out: &mut Vec<u8>, event: u32, sends: &[Signal]) -> Result<(), AllocError>
    ensures line { OnOk result (out.new.items ≡ out.old.items ++ message_line event None sends.now) }
    ensures front { take (length out.old.items) out.new.items ≡ out.old.items }
{
    match sends {
        [] => put_word(out, event, b" message\n"),
        [first, rest @ ..] => {
            put_opening(out, event, usize::from(first.line), first.octets.as_slice())?;
            put_signals(out, rest)?;
            out.extend_from_slice(b"\n")
        }
    }
}

// Appends the number and the word of a message, and the first message sent.
#[inline(always)]
fn put_opening(out: &mut Vec<u8>, event: u32, line: usize, octets: &[u8]) -> Result<(), AllocError>
    ensures opening { OnOk result (out.new.items ≡ out.old.items ++ decimal event ++ codes " message" ++ on_line line octets.now) }
    ensures front { take (length out.old.items) out.new.items ≡ out.old.items }
{
    if is_near(line, octets) {
        return put_near_opening(out, event, line, octets);
    }
    put_word(out, event, b" message")?;
    put_far(out, line, octets)
}

// Appends the number and the word of a message, and a message sent of four to sixteen octets.
#[inline(always)]
fn put_near_opening(
    out: &mut Vec<u8>,
    event: u32,
    line: usize,
    octets: &[u8],
) -> Result<(), AllocError>
    requires { (line < 100) × (4 ≤ length octets.now) × (length octets.now ≤ 16) }
    ensures opening { OnOk result (out.new.items ≡ out.old.items ++ decimal event ++ codes " message" ++ on_line line octets.now) }
    ensures front { take (length out.old.items) out.new.items ≡ out.old.items }
{
    let mut text = [0; 86];
    put_few_digits(&mut text, 22, octets);
    let start = put_line_before(&mut text, 22, line);
    let start = put_before(&mut text, start, b" message");
    let start = put_number_before(&mut text, start, event);
    append_front(out, &text[start..start + 64], 22 + 2 * octets.len() - start)
}

/// Appends the numbers of live paths that a connection or a seat moved, if there was one.
///
/// # Errors
///
/// [`AllocError`] if an allocation fails. Then `out` may have a prefix of the text.
#[inline(always)]
pub fn put_moves(out: &mut Vec<u8>, moved: Option<(u32, u32)>) -> Result<(), AllocError>
    ensures moves { OnOk result (out.new.items ≡ out.old.items ++ moves moved) }
    ensures front { take (length out.old.items) out.new.items ≡ out.old.items }
{
    match moved {
        Some((a, b)) => put_moved(out, a, b),
        None => Ok(()),
    }
}

// Appends the numbers of the live paths that were moved.
fn put_moved(out: &mut Vec<u8>, a: u32, b: u32) -> Result<(), AllocError>
    ensures moves { OnOk result (out.new.items ≡ out.old.items ++ codes " moved " ++ decimal a ++ codes " " ++ decimal b) }
    ensures front { take (length out.old.items) out.new.items ≡ out.old.items }
{
    let mut text = [0; 32];
    let start = put_number_before(&mut text, 32, b);
    let start = put_before(&mut text, start, b" ");
    let start = put_number_before(&mut text, start, a);
    let start = put_before(&mut text, start, b" moved ");
    out.extend_from_slice(&text[start..])
}

// Appends the messages that were sent, in order.
fn put_signals(out: &mut Vec<u8>, sends: &[Signal]) -> Result<(), AllocError>
    ensures messages { OnOk result (out.new.items ≡ out.old.items ++ messages sends.now) }
    ensures front { take (length out.old.items) out.new.items ≡ out.old.items }
{
    for sent in sends {
        put_signal(out, sent)?;
    }
    Ok(())
}

// Appends the messages that were sent at a boundary, in order.
pub(crate) fn put_frame_signals(out: &mut Vec<u8>, sends: &[Signal]) -> Result<(), AllocError>
    ensures messages { OnOk result (out.new.items ≡ out.old.items ++ frame_messages sends.now) }
    ensures front { take (length out.old.items) out.new.items ≡ out.old.items }
{
    for sent in sends {
        put_frame_signal(out, sent)?;
    }
    Ok(())
}

// Appends a message that was sent at a boundary.
fn put_frame_signal(out: &mut Vec<u8>, sent: &Signal) -> Result<(), AllocError>
    ensures message { OnOk result (out.new.items ≡ out.old.items ++ codes " send" ++ on_line sent.now.line sent.now.octets) }
    ensures front { take (length out.old.items) out.new.items ≡ out.old.items }
{
    let line = usize::from(sent.line);
    let octets = sent.octets.as_slice();
    if is_near(line, octets) {
        return put_near(out, b" send", line, octets);
    }
    out.extend_from_slice(b" send")?;
    put_far(out, line, octets)
}

// Appends a message that was sent, after the number of its line.
fn put_signal(out: &mut Vec<u8>, sent: &Signal) -> Result<(), AllocError>
    ensures message { OnOk result (out.new.items ≡ out.old.items ++ on_line sent.now.line sent.now.octets) }
    ensures front { take (length out.old.items) out.new.items ≡ out.old.items }
{
    put_on_line(out, usize::from(sent.line), sent.octets.as_slice())
}

/// Appends octets that were sent, after the number of their line.
///
/// # Errors
///
/// [`AllocError`] if an allocation fails. Then `out` may have a prefix of the text.
#[inline(always)]
pub fn put_on_line(out: &mut Vec<u8>, line: usize, octets: &[u8]) -> Result<(), AllocError>
    ensures message { OnOk result (out.new.items ≡ out.old.items ++ on_line line octets.now) }
    ensures front { take (length out.old.items) out.new.items ≡ out.old.items }
{
    if is_near(line, octets) {
        return put_near(out, b"", line, octets);
    }
    put_far(out, line, octets)
}

// Returns whether a message has four to sixteen octets, and its line a number of at most two digits.
#[inline(always)]
fn is_near(line: usize, octets: &[u8]) -> bool
    ensures { IsTrue result → (line < 100) × (4 ≤ length octets.now) × (length octets.now ≤ 16) }
{
    line < NEAR_LINES && 4 <= octets.len() && octets.len() <= 16
}

// Appends a word, the number of a line and the octets of a message of four to sixteen octets. No copy has a length that
// is not known at compile time.
#[inline(always)]
fn put_near(out: &mut Vec<u8>, word: &[u8], line: usize, octets: &[u8]) -> Result<(), AllocError>
    requires { (length word.now ≤ 5) × (line < 100) × (4 ≤ length octets.now) × (length octets.now ≤ 16) }
    ensures message { OnOk result (out.new.items ≡ out.old.items ++ word.now ++ on_line line octets.now) }
    ensures front { take (length out.old.items) out.new.items ≡ out.old.items }
{
    let mut text = [0; 48];
    put_few_digits(&mut text, 9, octets);
    let start = put_line_before(&mut text, 9, line);
    let start = put_before(&mut text, start, word);
    append_front(out, &text[start..start + 41], 9 + 2 * octets.len() - start)
}

// Appends octets that were sent, after the number of their line.
#[inline(never)]
pub(crate) fn put_far(out: &mut Vec<u8>, line: usize, octets: &[u8]) -> Result<(), AllocError>
    ensures message { OnOk result (out.new.items ≡ out.old.items ++ on_line line octets.now) }
    ensures front { take (length out.old.items) out.new.items ≡ out.old.items }
{
    let (first, others) = octets.split_at(octets.len().min(32));
    put_first(out, line, first)?;
    put_octets(out, others)
}

// Appends the first octets of a message that was sent, at most 32, after the number of its line.
fn put_first(out: &mut Vec<u8>, line: usize, octets: &[u8]) -> Result<(), AllocError>
    requires { length octets.now ≤ 32 }
    ensures first { OnOk result (out.new.items ≡ out.old.items ++ on_line line octets.now) }
    ensures front { take (length out.old.items) out.new.items ≡ out.old.items }
{
    let mut text = [0; 86];
    put_digits(&mut text, octets);
    let start = put_line_before(&mut text, 22, line);
    out.extend_from_slice(&text[start..22 + 2 * octets.len()])
}

// Appends octets as hexadecimal digits, two each.
fn put_octets(out: &mut Vec<u8>, octets: &[u8]) -> Result<(), AllocError>
    ensures digits { OnOk result (out.new.items ≡ out.old.items ++ encode_upper octets.now) }
    ensures front { take (length out.old.items) out.new.items ≡ out.old.items }
{
    let mut rest = octets;
    while !rest.is_empty() {
        let (front, others) = rest.split_at(rest.len().min(32));
        put_few(out, front)?;
        rest = others;
    }
    Ok(())
}

// Appends at most 32 octets as hexadecimal digits, two each.
fn put_few(out: &mut Vec<u8>, octets: &[u8]) -> Result<(), AllocError>
    requires { length octets.now ≤ 32 }
    ensures digits { OnOk result (out.new.items ≡ out.old.items ++ encode_upper octets.now) }
    ensures front { take (length out.old.items) out.new.items ≡ out.old.items }
{
    let mut text = [0; 86];
    put_digits(&mut text, octets);
    out.extend_from_slice(&text[22..22 + 2 * octets.len()])
}

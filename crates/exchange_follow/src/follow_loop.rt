// The lines of a wire, which an exchange processes in sequence.
ghost use Rattle.std.specs.Prelude.{◌≡◌, ◌⊎◌, ◌<◌, ◌≤◌, ◌+◌, ◌++◌, ◌∷◌, [], length, drop, IfOk, IfErr, OnOk, MatchOption};
ghost use Rattle.line_wire.specs.Following.{CountsReads, CountsWrites, HasNoFeed};
ghost use Rattle.line_wire.specs.declared.following.Following.TheVariants as ended;
ghost use Rattle.exchange_follow.specs.Followers.{Ends, EndsIn, EndsWith, GoesOn, GoesToEnd, HandlesLine, IsOwing, IsPending, IsUnder, IsUnread, OwesLine, ReliesBy, StopsLine, StopsOwing};

use crate::follower::{MAX_LINE, TraceFollower};
use control_memory::Fabric;
use frame_engine::Carrier;
use line_wire::{Following, Stop, Wire, first_fed, flush, move_to_front, read_after, send_all};
use meters::Meter;
use std::alloc::Global;
use std::thread::Threads;

// The octets of the buffer.
const BUFFER_OCTETS: usize = 131_072;

// The minimum length of a text that is written before the next line is processed.
const FULL_TEXT: usize = 65_536;

// Processes a line.
//
// # Errors
//
// The cause for which the call of `follow_lines` ends.
fn handle_next<P: Fabric, C: Carrier, R: Threads + Sync>(
    handler: &mut TraceFollower<'_, P, C, R>,
    line: &[u8],
    text: &mut Vec<u8>,
) -> Result<(), Following>
    requires at { IsPending ⟦<dyn Meter as Meter>⟧ C.Carrier P.Fabric.own handler.old text.old }
    requires one { HasNoFeed line.now }

    ensures done { OnOk result (HandlesLine ⟦<dyn Meter as Meter>⟧ C.Carrier P.Fabric.own
        handler.old handler.new line.now text.old text.new) }
    ensures short { OnOk result (length line.now ≤ 65535) }
    ensures counted { OnOk result (handler.new.lines ≡ handler.old.lines + 1) }
    ensures few { OnOk result (handler.new.lines ≤ 4294967294) }

    ensures stopped { IfErr result (λ why. StopsLine ⟦<dyn Meter as Meter>⟧ C.Carrier P.Fabric.own
        why handler.old handler.new line.now text.old text.new) }
    ensures no_read { IfErr result (λ why. CountsReads why 0 0) }
    ensures no_write { IfErr result (λ why. CountsWrites why 0 0) }
{
    match handler.handle(line, text) {
        Ok(()) => Ok(()),
        Err(Stop::Refused) => Err(Following::Refused),
        Err(Stop::OutOfMemory) => Err(Following::OutOfMemory),
    }
}

// Processes a line in any form, and writes the text if it is long enough. It is a separate function because it clears
// the large local values of a line with an effect.
//
// # Errors
//
// The cause for which the call of `follow_lines` ends. The text is still to be written, unless a write failed.
#[inline(never)]
fn handle_any_line<W: Wire, P: Fabric, C: Carrier, R: Threads + Sync>(
    wire: &mut W,
    handler: &mut TraceFollower<'_, P, C, R>,
    line: &[u8],
    text: &mut Vec<u8>,
) -> Result<(), Following>
    requires at { IsOwing ⟦<dyn Meter as Meter>⟧ C.Carrier P.Fabric.own (W.stands wire.old) handler.old text.old }
    requires one { HasNoFeed line.now }

    ensures done { OnOk result (OwesLine ⟦<dyn Meter as Meter>⟧ C.Carrier P.Fabric.own
        (W.stands wire.old) (W.stands wire.new) handler.old handler.new line.now text.old text.new) }
    ensures short { OnOk result (length line.now ≤ 65535) }
    ensures counted { OnOk result (handler.new.lines ≡ handler.old.lines + 1) }
    ensures few { OnOk result (handler.new.lines ≤ 4294967294) }
    ensures steady { OnOk result (W.write_faults wire.new ≡ W.write_faults wire.old) }

    ensures stopped { IfErr result (λ why. StopsOwing ⟦<dyn Meter as Meter>⟧ C.Carrier P.Fabric.own
        why (W.stands wire.old) (W.stands wire.new) handler.old handler.new line.now text.old text.new) }
    ensures writes { IfErr result (λ why. CountsWrites why (W.write_faults wire.old) (W.write_faults wire.new)) }
    ensures reads { W.read_faults wire.new ≡ W.read_faults wire.old }
    ensures no_read { IfErr result (λ why. CountsReads why 0 0) }
    ensures end { W.ended wire.old → W.ended wire.new }
{
    handle_next(handler, line, text)?;
    if text.len() < FULL_TEXT {
        return Ok(());
    }
    match flush(wire, text) {
        Ok(()) => Ok(()),
        Err(_) => Err(Following::WriteFailed),
    }
}

// Processes a line, and writes the text if it is long enough.
//
// # Errors
//
// The cause for which the call of `follow_lines` ends. The text is still to be written, unless a write failed.
#[inline(always)]
fn handle_line<W: Wire, P: Fabric, C: Carrier, R: Threads + Sync>(
    wire: &mut W,
    handler: &mut TraceFollower<'_, P, C, R>,
    line: &[u8],
    text: &mut Vec<u8>,
) -> Result<(), Following>
    requires at { IsOwing ⟦<dyn Meter as Meter>⟧ C.Carrier P.Fabric.own (W.stands wire.old) handler.old text.old }
    requires one { HasNoFeed line.now }

    ensures done { OnOk result (OwesLine ⟦<dyn Meter as Meter>⟧ C.Carrier P.Fabric.own
        (W.stands wire.old) (W.stands wire.new) handler.old handler.new line.now text.old text.new) }
    ensures short { OnOk result (length line.now ≤ 65535) }
    ensures counted { OnOk result (handler.new.lines ≡ handler.old.lines + 1) }
    ensures few { OnOk result (handler.new.lines ≤ 4294967294) }
    ensures steady { OnOk result (W.write_faults wire.new ≡ W.write_faults wire.old) }

    ensures stopped { IfErr result (λ why. StopsOwing ⟦<dyn Meter as Meter>⟧ C.Carrier P.Fabric.own
        why (W.stands wire.old) (W.stands wire.new) handler.old handler.new line.now text.old text.new) }
    ensures writes { IfErr result (λ why. CountsWrites why (W.write_faults wire.old) (W.write_faults wire.new)) }
    ensures reads { W.read_faults wire.new ≡ W.read_faults wire.old }
    ensures no_read { IfErr result (λ why. CountsReads why 0 0) }
    ensures end { W.ended wire.old → W.ended wire.new }
{
    // Most lines of a trace of messages are `sync`.
    if handler.only_counts(line) {
        handler.lines += 1;
        return Ok(());
    }
    handle_any_line(wire, handler, line, text)
}

// Returns the octets before the first line feed, and the octets after it. `None` if there is no line feed.
#[inline(always)]
fn next_line(bytes: &[u8]) -> Option<(&[u8], &[u8])>
    ensures { MatchOption result (HasNoFeed bytes.now)
        (λ cut. (bytes.now ≡ cut.0.now ++ 10 ∷ cut.1.now) × HasNoFeed cut.0.now) }
{
    match bytes {
        [b's', b'y', b'n', b'c', b'\n', others @ ..] => Some((&bytes[..4], others)),
        _ => first_fed(bytes),
    }
}

// Processes the lines that have a line feed. Returns the number of octets in them, with their line feeds.
//
// # Errors
//
// The cause for which the call of `follow_lines` ends. The text is still to be written, unless a write failed.
fn handle_lines<W: Wire, P: Fabric, C: Carrier, R: Threads + Sync>(
    wire: &mut W,
    handler: &mut TraceFollower<'_, P, C, R>,
    bytes: &[u8],
    text: &mut Vec<u8>,
) -> Result<usize, Following>
    requires at { IsUnder ⟦<dyn Meter as Meter>⟧ C.Carrier P.Fabric.own
        (W.stands wire.old) handler.old bytes.now text.old }
    requires room { length bytes.now ≤ 131072 }

    ensures within { IfOk result (λ n. n ≤ length bytes.now) }
    ensures partial { IfOk result (λ n. HasNoFeed (drop n bytes.now)) }
    ensures short { IfOk result (λ n. length bytes.now ≤ n + 65535) }
    ensures done { IfOk result (λ n. GoesOn ⟦<dyn Meter as Meter>⟧ C.Carrier P.Fabric.own
        (W.stands wire.old) (W.stands wire.new) handler.old handler.new bytes.now (drop n bytes.now) text.old text.new) }
    ensures counted { IfOk result (λ n. 0 < n → handler.old.lines < handler.new.lines) }
    ensures later { OnOk result (handler.old.lines ≤ handler.new.lines) }
    ensures few { OnOk result (handler.old.lines ≤ 4294967294 → handler.new.lines ≤ 4294967294) }
    ensures steady { OnOk result (W.write_faults wire.new ≡ W.write_faults wire.old) }

    ensures stopped { IfErr result (λ why. EndsIn ⟦<dyn Meter as Meter>⟧ C.Carrier P.Fabric.own
        why (W.stands wire.old) (W.stands wire.new) (W.ended wire.new) handler.old handler.new
        bytes.now text.old text.new) }
    ensures writes { IfErr result (λ why. CountsWrites why (W.write_faults wire.old) (W.write_faults wire.new)) }
    ensures reads { W.read_faults wire.new ≡ W.read_faults wire.old }
    ensures no_read { IfErr result (λ why. CountsReads why 0 0) }
{
    let mut rest = bytes;
    while let Some((line, others)) = next_line(rest) {
        handle_line(wire, handler, line, text)?;
        rest = others;
    }
    if rest.len() <= MAX_LINE {
        return Ok(bytes.len() - rest.len());
    }
    match handle_rest(wire, handler, rest, text) {
        Err(why) => Err(why),
        // No line of this length is processed.
        Ok(()) => Err(Following::Refused),
    }
}

// Processes the octets after the last line feed, at the end of the input or if they are too many for a line. They are a
// line, unless there are none.
//
// # Errors
//
// The cause for which the call of `follow_lines` ends. The text is still to be written, unless a write failed.
fn handle_rest<W: Wire, P: Fabric, C: Carrier, R: Threads + Sync>(
    wire: &mut W,
    handler: &mut TraceFollower<'_, P, C, R>,
    rest: &[u8],
    text: &mut Vec<u8>,
) -> Result<(), Following>
    requires at { IsUnder ⟦<dyn Meter as Meter>⟧ C.Carrier P.Fabric.own
        (W.stands wire.old) handler.old rest.now text.old }
    requires partial { HasNoFeed rest.now }
    requires room { length rest.now ≤ 131072 }
    requires last { W.ended wire.old ⊎ (65535 < length rest.now) }

    ensures done { OnOk result (GoesToEnd ⟦<dyn Meter as Meter>⟧ C.Carrier P.Fabric.own
        (W.stands wire.old) (W.stands wire.new) handler.old handler.new rest.now text.old text.new) }
    ensures short { OnOk result (length rest.now ≤ 65535) }
    ensures steady { OnOk result (W.write_faults wire.new ≡ W.write_faults wire.old) }

    ensures stopped { IfErr result (λ why. EndsIn ⟦<dyn Meter as Meter>⟧ C.Carrier P.Fabric.own
        why (W.stands wire.old) (W.stands wire.new) (W.ended wire.new) handler.old handler.new
        rest.now text.old text.new) }
    ensures writes { IfErr result (λ why. CountsWrites why (W.write_faults wire.old) (W.write_faults wire.new)) }
    ensures reads { W.read_faults wire.new ≡ W.read_faults wire.old }
    ensures no_read { IfErr result (λ why. CountsReads why 0 0) }
    ensures end { W.ended wire.old → W.ended wire.new }
{
    if rest.is_empty() {
        return Ok(());
    }
    handle_line(wire, handler, rest, text)
}

// Processes the octets after the last line feed and the end of the input. Returns the cause for which the call of
// `follow_lines` ends. The text is still to be written, unless a write failed.
fn handle_end<W: Wire, P: Fabric, C: Carrier, R: Threads + Sync>(
    wire: &mut W,
    handler: &mut TraceFollower<'_, P, C, R>,
    rest: &[u8],
    text: &mut Vec<u8>,
) -> Following
    requires at { IsUnder ⟦<dyn Meter as Meter>⟧ C.Carrier P.Fabric.own
        (W.stands wire.old) handler.old rest.now text.old }
    requires partial { HasNoFeed rest.now }
    requires room { length rest.now ≤ 131072 }
    requires end { W.ended wire.old }

    ensures ended { EndsIn ⟦<dyn Meter as Meter>⟧ C.Carrier P.Fabric.own
        result (W.stands wire.old) (W.stands wire.new) (W.ended wire.new) handler.old handler.new
        rest.now text.old text.new }
    ensures writes { CountsWrites result (W.write_faults wire.old) (W.write_faults wire.new) }
    ensures reads { W.read_faults wire.new ≡ W.read_faults wire.old }
    ensures no_read { CountsReads result 0 0 }
{
    match handle_rest(wire, handler, rest, text) {
        Err(why) => why,
        Ok(()) => match handler.finish(text) {
            Ok(()) => Following::Completed,
            Err(Stop::Refused) => Following::Refused,
            Err(Stop::OutOfMemory) => Following::OutOfMemory,
        },
    }
}

// Processes all lines of a wire and the end of its input. Returns the cause for which the call of `follow_lines` ends.
// The text is still to be written, unless a read or a write failed.
fn follow_to_end<W: Wire, P: Fabric, C: Carrier, R: Threads + Sync>(
    wire: &mut W,
    handler: &mut TraceFollower<'_, P, C, R>,
    buffer: &mut [u8],
    text: &mut Vec<u8>,
) -> Following
    requires size { length buffer.old ≡ 131072 }
    requires blank { text.old.items ≡ [] }
    requires fresh { W.stands wire.old [] [] }
    requires unread { IsUnread ⟦<dyn Meter as Meter>⟧ C.Carrier P.Fabric.own handler.old }
    requires promise { ReliesBy ⟦<dyn Meter as Meter>⟧ C.Carrier P.slots P.moves
        handler.old.on.items handler.old.spare.items W.relies }

    ensures ended { EndsWith ⟦<dyn Meter as Meter>⟧ C.Carrier P.Fabric.own
        result (W.stands wire.new) (W.ended wire.new) handler.old handler.new text.new }
    ensures unheard { result ≡ ended.ReadFailed → text.new.items ≡ [] }
    ensures reads { CountsReads result (W.read_faults wire.old) (W.read_faults wire.new) }
    ensures writes { CountsWrites result (W.write_faults wire.old) (W.write_faults wire.new) }
{
    let mut held = 0;
    loop {
        let more = match read_after(wire, buffer, held) {
            Ok(more) => more,
            Err(_) => return Following::ReadFailed,
        };
        if more == 0 {
            return handle_end(wire, handler, &buffer[..held], text);
        }
        let end = held + more;
        let taken = match handle_lines(wire, handler, &buffer[..end], text) {
            Ok(taken) => taken,
            Err(why) => return why,
        };
        match flush(wire, text) {
            Ok(()) => {}
            Err(_) => return Following::WriteFailed,
        }
        move_to_front(buffer, taken, end);
        held = end - taken;
    }
}

// Processes all lines of a wire and the end of its input, and writes all that is due. Returns the cause for which it
// ended.
fn follow_with<W: Wire, P: Fabric, C: Carrier, R: Threads + Sync>(
    wire: &mut W,
    handler: &mut TraceFollower<'_, P, C, R>,
    buffer: &mut [u8],
    text: &mut Vec<u8>,
) -> Following
    requires size { length buffer.old ≡ 131072 }
    requires blank { text.old.items ≡ [] }
    requires fresh { W.stands wire.old [] [] }
    requires unread { IsUnread ⟦<dyn Meter as Meter>⟧ C.Carrier P.Fabric.own handler.old }
    requires promise { ReliesBy ⟦<dyn Meter as Meter>⟧ C.Carrier P.slots P.moves
        handler.old.on.items handler.old.spare.items W.relies }

    ensures followed { Ends ⟦<dyn Meter as Meter>⟧ C.Carrier P.Fabric.own
        result (W.stands wire.new) (W.ended wire.new) handler.old handler.new }
    ensures reads { CountsReads result (W.read_faults wire.old) (W.read_faults wire.new) }
    ensures writes { CountsWrites result (W.write_faults wire.old) (W.write_faults wire.new) }
{
    let why = follow_to_end(wire, handler, buffer, text);
    match why {
        Following::ReadFailed => Following::ReadFailed,
        Following::WriteFailed => Following::WriteFailed,
        _ => match send_all(wire, text.as_slice()) {
            Ok(()) => why,
            Err(_) => Following::WriteFailed,
        },
    }
}

/// Reads a wire to the end of its input and passes each line to a handler. Before each read, it has written all that is
/// due for the lines that were read. Returns the cause for which it ended.
///
/// Octets after the last line feed are a line. More than 65,535 octets without a line feed are passed as one line,
/// which the handler refuses.
pub fn follow_lines<W: Wire, P: Fabric, C: Carrier, R: Threads + Sync>(
    alloc: Global,
    wire: &mut W,
    handler: &mut TraceFollower<'_, P, C, R>,
) -> Following
    requires fresh { W.stands wire.old [] [] }
    requires unread { IsUnread ⟦<dyn Meter as Meter>⟧ C.Carrier P.Fabric.own handler.old }
    requires promise { ReliesBy ⟦<dyn Meter as Meter>⟧ C.Carrier P.slots P.moves
        handler.old.on.items handler.old.spare.items W.relies }

    ensures followed { Ends ⟦<dyn Meter as Meter>⟧ C.Carrier P.Fabric.own
        result (W.stands wire.new) (W.ended wire.new) handler.old handler.new }
    ensures reads { CountsReads result (W.read_faults wire.old) (W.read_faults wire.new) }
    ensures writes { CountsWrites result (W.write_faults wire.old) (W.write_faults wire.new) }
{
    let mut buffer = [0u8; BUFFER_OCTETS];
    let mut text = Vec::new(alloc);
    follow_with(wire, handler, &mut buffer, &mut text)
}

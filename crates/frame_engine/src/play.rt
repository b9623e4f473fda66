//! The octet that each external slot sends in a frame: of its path, of its tone, or idle.

ghost use Rattle.std.specs.Prelude.{if◌then◌else◌, ◌≡◌, ℕ, ◌+◌, ◌*◌, ◌<◌, ◌≤◌, [], length, replicate, slice_index, slice_index_or};
ghost use Rattle.circuit_model.specs.declared.channel.Slot.{Slot};
ghost use Rattle.circuit_model.specs.FrameInput.{idle_octet};
ghost use Rattle.frame_buffer.specs.Speech.{octet_in_half};
ghost use Rattle.control_memory.specs.HeardRows.{HasToneBits};
ghost use Rattle.control_memory.specs.Image.{lines_of, heard_at};
ghost use Rattle.tone_rules.specs.Tables.{table_of};
ghost use Rattle.frame_engine.specs.Frames.{AreIdleFrom, PlaysOut, TonesGiven};
ghost use Rattle.frame_engine.specs.Playing.{AreGiven, AreGivenOn, EachPlace, HasLine, by_path, played_as, played_at, played_on, with_tone};
ghost use Rattle.frame_engine.specs.Resting.{PlaysAtRest};

use circuit_model::IDLE;
use control_memory::{Heard, HeardTable, HeardWord, Image};
use frame_buffer::FrameBuffer;
use tone_rules::{Tones, tone_octet};

const IDLE_LINE: [u8; 30] = [IDLE; 30];

// Writes the octet that each external slot sends. The lines after the last one that may receive something are idle, and
// are written at once. Returns how many lines come before them. Two functions call it, and LLVM would leave it a call.
#[inline(always)]
pub(crate) fn play(read: &FrameBuffer, image: &Image, tones: &Tones, out: &mut [[u8; 30]]) -> u8
    requires read { read.now.lines ≡ lines_of image.now }
    requires lines { lines_of image.now ≤ 255 }
    requires out { length out.old ≡ image.now.external }
    requires tones { TonesGiven tones.now image.now }
    ensures plays { PlaysOut image.now.external (played_at (table_of tones.now) image.now (octet_in_half read.now.readable)) out.new }
    ensures idle { AreIdleFrom result out.new }
{
    let lines = playing_lines(image);
    let table = image.heard_table();
    for line in 0..lines {
        let octets = &mut out[usize::from(line)];
        play_line(read.row(line), table, line, tones, image.frame(), octets);
    }
    fill_idle_from(out, usize::from(lines));
    lines
}

// Writes the octet that each external slot sends, if only idle octets were read out. Without tones all of them are idle.
// Returns how many lines, from line 0 on, may send another octet.
pub(crate) fn play_at_rest(
    read: &FrameBuffer,
    image: &Image,
    tones: &Tones,
    out: &mut [[u8; 30]],
) -> u8
    requires read { read.now.lines ≡ lines_of image.now }
    requires lines { lines_of image.now ≤ 255 }
    requires out { length out.old ≡ image.now.external }
    requires tones { TonesGiven tones.now image.now }
    ensures plays { PlaysAtRest tones.now image.now read.now.readable out.new }
    ensures idle { AreIdleFrom result out.new }
{
    if tones.is_empty() {
        fill_idle_from(out, 0);
        0
    } else {
        play(read, image, tones, out)
    }
}

// Returns how many external lines, from line 0 on, may receive something.
fn playing_lines(image: &Image) -> u8
    ensures within { result ≤ image.now.external }
    ensures silent { (at : Slot) → result ≤ at.line → at.line < image.now.external → at.place < 30 → heard_at image.now at ≡ Heard.Silent }
{
    image.heard_table().receiving_lines().min(image.external())
}

// Writes the idle octet over the rows from one on. The loop compiles to one fill of memory.
fn fill_idle_from(out: &mut [[u8; 30]], first: usize)
    requires { first ≤ length out.old }
    ensures size { length out.new ≡ length out.old }
    ensures before { (row : ℕ) → row < first → slice_index_or out.new row [] ≡ slice_index_or out.old row [] }
    ensures idle { AreIdleFrom first out.new }
{
    for row in first..out.len() {
        out[row] = IDLE_LINE;
    }
}

// Writes the octets that one line sends, given the octets that were read out for its places. A silent line is idle.
#[inline(always)]
fn play_line(
    read: &[u8],
    table: &HeardTable,
    line: u8,
    tones: &Tones,
    frame: u32,
    octets: &mut [u8; 30],
)
    requires read { length read.now ≡ 30 }
    requires line { 30 * line + 30 ≤ length table.now }
    requires tones { AreGivenOn tones.now table.now line }
    ensures { HasLine line (played_on (table_of tones.now) frame table.now (λ at. slice_index read.now at.place)) octets.new }
{
    if table.is_silent(line) {
        *octets = IDLE_LINE;
    } else {
        let places = table.tone_places(line);
        play_heard(read, table.row(line), places, tones, frame, octets);
    }
}

// Writes the octets that one line sends, given the source of each of its places, and the places that receive a tone.
fn play_heard(
    read: &[u8],
    heard: &[HeardWord],
    places: u32,
    tones: &Tones,
    frame: u32,
    octets: &mut [u8; 30],
)
    requires read { length read.now ≡ 30 }
    requires heard { length heard.now ≡ 30 }
    requires places { HasToneBits heard.now 0 places }
    requires tones { AreGiven tones.now heard.now }
    ensures { EachPlace (λ place heard. played_as (table_of tones.now) frame (slice_index read.now place) heard) heard.now octets.new }
{
    play_paths(read, heard, frame, octets);
    if places != 0 {
        play_tones(heard, places, tones, frame, octets);
    }
}

// Writes the octets that a line sends by its paths. The row is made apart from `octets`, so that the loop compiles to
// vector code.
fn play_paths(read: &[u8], heard: &[HeardWord], frame: u32, octets: &mut [u8; 30])
    requires read { length read.now ≡ 30 }
    requires heard { length heard.now ≡ 30 }
    ensures { EachPlace (λ place heard. by_path frame (slice_index read.now place) heard) heard.now octets.new }
{
    let through = frame.saturating_sub(1);
    let mut row = IDLE_LINE;
    for (place, octet) in row.iter_mut().enumerate() {
        *octet = if_received(read[place], heard[place].is_path_before(through));
    }
    *octets = row;
}

// Returns an octet that is received, and the idle octet otherwise. It selects by a mask, because LLVM makes no vector code
// of a loop that selects by a condition.
#[inline(always)]
fn if_received(octet: u8, is_received: bool) -> u8
    ensures { result ≡ (if is_received then octet else idle_octet) }
{
    let mask = if is_received { 0xFF } else { 0 };
    (octet & mask) | (IDLE & !mask)
}

// Writes the octets of the tones, place by place, over the octets of the paths. It is a call, so that a line without a tone
// saves no register for it.
#[inline(never)]
fn play_tones(heard: &[HeardWord], places: u32, tones: &Tones, frame: u32, octets: &mut [u8; 30])
    requires heard { length heard.now ≡ 30 }
    requires places { HasToneBits heard.now 0 places }
    requires tones { AreGiven tones.now heard.now }
    ensures { EachPlace (λ place heard. with_tone (table_of tones.now) frame (slice_index octets.old place) heard) heard.now octets.new }
{
    let mut left = places;
    while left != 0 {
        let place = left.trailing_zeros();
        left &= !(1u32 << place);
        let Heard::Tone { kind, since } = heard[place as usize].to_heard() else {
            unreachable!()
        };
        octets[place as usize] = tone_octet(tones, kind, frame.saturating_sub(since));
    }
}

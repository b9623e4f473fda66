//! The source of each slot's octets, line by line.
ghost use Rattle.std.specs.Prelude.{◌≡◌, ℕ, true, ◌+◌, ◌*◌, ◌%◌, ◌<◌, ◌≤◌, IfOk, length, replicate, slice_index_or, slice_set};
ghost use Rattle.std.specs.Int.{bit_at};
ghost use Rattle.control_memory.specs.Layout.{number_of};
ghost use Rattle.control_memory.specs.HeardRows.{HasToneBits, HearAlike, heard_on, IsSilent, tone_bit};

use crate::control_table::marked_rows;
use crate::heard::Heard;
use crate::heard_word::HeardWord;
use circuit_model::{CHANNELS_PER_LINE, Slot};
use std::alloc::{AllocError, Global};
use std::marker::Model;

/// The source of the octets of each slot of some lines: a row of 30 words for each line. Contracts see the list of
/// sources, by the slot's number.
///
/// A word marks the lines that may receive something. A silent line then costs nothing, and a boundary copies only the
/// lines that are marked in one of the two tables. A word for each line has the places that receive a tone, so an engine
/// reads no other place for its tones.
#[derive(Debug, Drop)]
pub struct HeardTable {
    lines: u8,
    words: Vec<HeardWord>,
    // The lines that may receive something: a bit for each, by the line's number modulo 64. A line without a bit is
    // silent.
    marks: u64,
    // For each line the places that receive a tone, a bit for each.
    tones: Vec<u32>,
}

impl Model for HeardTable {
    ghost use Rattle.std.specs.Prelude.{List};
    ghost use Rattle.control_memory.specs.declared.heard.Heard.{Heard};
    ghost use Rattle.control_memory.specs.HeardRows.{AreHeardOn};

    ghost Value = { List Heard };

    ghost view = { λ t. t.words.items };

    ghost invariant = { λ t. AreHeardOn t.lines t.words.items t.marks t.tones.items };
}

impl HeardTable {
    /// Returns a table of n silent lines.
    pub fn new(alloc: Global, lines: u8) -> Result<HeardTable, AllocError>
        ensures { IfOk result (λ t. t ≡ replicate (30 * lines) Heard.Silent) }
    {
        let slots = usize::from(CHANNELS_PER_LINE) * usize::from(lines);
        Ok(HeardTable {
            lines,
            words: vec![in alloc; HeardWord::from(Heard::Silent); slots]?,
            marks: 0,
            tones: vec![in alloc; 0; usize::from(lines)]?,
        })
    }

    /// Returns the source of a slot's octets.
    pub fn get(&self, at: Slot) -> Heard
        requires { number_of at < length self.now }
        ensures { result ≡ slice_index_or self.now (number_of at) Heard.Silent }
    {
        self.words[at.to_index()].to_heard()
    }

    /// Returns the sources of a line, place by place.
    pub fn row(&self, line: u8) -> &[HeardWord]
        requires { 30 * line + 30 ≤ length self.now }
        ensures size { length result.now ≡ 30 }
        ensures heard { (place : ℕ) → place < 30 → slice_index_or result.now place Heard.Silent ≡ heard_on self.now line place }
    {
        let start = usize::from(CHANNELS_PER_LINE) * usize::from(line);
        &self.words[start..start + usize::from(CHANNELS_PER_LINE)]
    }

    /// Returns the places of a line that receive a tone: a bit for each.
    pub fn tone_places(&self, line: u8) -> u32
        requires { 30 * line + 30 ≤ length self.now }
        ensures { HasToneBits self.now line result }
    {
        self.tones[usize::from(line)]
    }

    /// Returns true only if a line is silent. The result can be false for a line that was silenced place by place.
    pub fn is_silent(&self, line: u8) -> bool
        requires { 30 * line + 30 ≤ length self.now }
        ensures { result ≡ true → IsSilent self.now line }
    {
        (self.marks >> (line % 64)) & 1 == 0
    }

    /// Returns how many lines, from line 0 on, may receive something. Every line after them is silent.
    pub fn receiving_lines(&self) -> u8
        ensures within { 30 * result ≤ length self.now }
        ensures silent { (line : ℕ) → result ≤ line → 30 * line + 30 ≤ length self.now → IsSilent self.now line }
    {
        marked_rows(self.lines, self.marks)
    }

    /// Writes the source of the slot with a number.
    pub fn set(&mut self, number: usize, heard: Heard)
        requires { number < length self.old }
        ensures { self.new ≡ slice_set self.old number heard }
    {
        let line = number / usize::from(CHANNELS_PER_LINE);
        let place = number % usize::from(CHANNELS_PER_LINE);
        self.tones[line] = tones_with(self.tones[line], place, heard);
        self.words[number] = HeardWord::from(heard);
        self.marks |= 1 << (line % 64);
    }

    /// Makes every line silent.
    pub fn clear(&mut self)
        ensures size { length self.new ≡ length self.old }
        ensures silent { (k : ℕ) → slice_index_or self.new k Heard.Silent ≡ Heard.Silent }
    {
        silence(&mut self.words);
        self.marks = 0;
        self.tones.fill(0);
    }

    /// Copies the entries of a table of the same size. Skips the lines that are silent in both tables, and ends at the
    /// last line that is not.
    pub(crate) fn copy_from(&mut self, other: &HeardTable)
        requires { length self.old ≡ length other.now }
        ensures { self.new ≡ other.now }
    {
        let marks = self.marks | other.marks;
        let lines = marked_rows(self.lines, marks);
        copy_rows(&mut self.words, &other.words, lines, marks);
        self.marks = other.marks;
        self.tones.copy_from_slice(&other.tones);
    }
}

// Returns the word of a line in which the bit of one place is set if the place receives a tone, and cleared otherwise.
fn tones_with(tones: u32, place: usize, heard: Heard) -> u32
    requires { place < 30 }
    ensures here { bit_at result place ≡ tone_bit heard }
    ensures others { (other : ℕ) → other < 32 → ¬ (other ≡ place) → bit_at result other ≡ bit_at tones other }
{
    match heard {
        Heard::Tone { .. } => tones | (1 << place),
        Heard::Path { .. } => tones & !(1 << place),
        Heard::Silent => tones & !(1 << place),
    }
}

// Makes the places of some words silent.
fn silence(words: &mut [HeardWord])
    ensures size { length words.new ≡ length words.old }
    ensures silent { (k : ℕ) → slice_index_or words.new k Heard.Silent ≡ Heard.Silent }
{
    for word in words.iter_mut() {
        *word = HeardWord::from(Heard::Silent);
    }
}

// Copies the rows of the first n lines, if they have a mark.
fn copy_rows(to: &mut Vec<HeardWord>, from: &[HeardWord], lines: u8, marks: u64)
    requires to { 30 * lines ≤ length to.old.items }
    requires from { length from.now ≡ length to.old.items }
    ensures size { length to.new.items ≡ length to.old.items }
    ensures marked { HearAlike 1 marks lines to.new.items from.now }
    ensures unmarked { HearAlike 0 marks lines to.new.items to.old.items }
    ensures rest { (line place : ℕ) → lines ≤ line → place < 30 → heard_on to.new.items line place ≡ heard_on to.old.items line place }
{
    for line in 0..lines {
        if (marks >> (line % 64)) & 1 == 0 {
            continue;
        }
        copy_row(to, from, line);
    }
}

// Copies the row of a line.
fn copy_row(to: &mut Vec<HeardWord>, from: &[HeardWord], line: u8)
    requires to { 30 * line + 30 ≤ length to.old.items }
    requires from { length from.now ≡ length to.old.items }
    ensures size { length to.new.items ≡ length to.old.items }
    ensures here { (place : ℕ) → place < 30 → heard_on to.new.items line place ≡ heard_on from.now line place }
    ensures others { (l place : ℕ) → (l ≡ line → ⊥) → place < 30 → heard_on to.new.items l place ≡ heard_on to.old.items l place }
{
    let start = usize::from(CHANNELS_PER_LINE) * usize::from(line);
    let end = start + usize::from(CHANNELS_PER_LINE);
    copy_words(&mut to[start..end], &from[start..end]);
}

// Copies the words of a line in pairs. Both words of a pair are read before one is written, so that they move at once.
fn copy_words(to: &mut [HeardWord], from: &[HeardWord])
    requires to { length to.old ≡ 30 }
    requires from { length from.now ≡ 30 }
    ensures { to.new ≡ from.now }
{
    for pair in 0..15usize {
        let even = from[2 * pair].copied();
        let odd = from[2 * pair + 1].copied();
        to[2 * pair] = even;
        to[2 * pair + 1] = odd;
    }
}

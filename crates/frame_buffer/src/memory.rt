//! The speech memory, whose halves are exchanged at each frame.

ghost use Rattle.std.specs.Prelude.{◌≡◌, ℕ, ◌+◌, ◌-◌, ◌*◌, ◌<◌, ◌≤◌, length, slice_index, IfOk};
ghost use Rattle.std.specs.Borrow.{Lends, Array, sem, u8 as octet_row};
ghost use Rattle.circuit_model.specs.declared.channel.Slot.{Slot};
ghost use Rattle.circuit_model.specs.FrameInput.{idle_octet};
ghost use Rattle.frame_buffer.specs.Speech.{Speech, octet_in_half, AllIdle, PutsLine, speech_with};
ghost use Rattle.frame_buffer.specs.contracts.memory.FrameBuffer.{the_row};

use crate::idle::fill_idle;
use circuit_model::{CHANNELS_PER_LINE, IDLE, Slot};
use std::alloc::{AllocError, Global};
use std::marker::Model;
use std::mem;

/// The speech memory of a frame, in two halves: one is filled while the other is read.
#[derive(Debug, Drop)]
pub struct FrameBuffer {
    lines: u8,
    filled: Vec<u8>,
    readable: Vec<u8>,
}

impl Model for FrameBuffer {
    ghost use Rattle.std.specs.Prelude.{◌≡◌, ◌*◌, length};
    ghost use Rattle.frame_buffer.specs.Speech.{Speech};

    ghost Value = { Speech };

    ghost view = { λ b. record { lines = b.lines; filled = b.filled.items; readable = b.readable.items } };

    ghost invariant = { λ b. (length b.filled.items ≡ b.lines * 30) × (length b.readable.items ≡ b.lines * 30) };
}

impl FrameBuffer {
    /// Returns a speech memory for n lines, with the idle octet in every slot of both halves.
    pub fn new(alloc: Global, lines: u8) -> Result<FrameBuffer, AllocError>
        ensures lines { IfOk result (λ b. b.lines ≡ lines) }
        ensures filled { IfOk result (λ b. AllIdle lines b.filled) }
        ensures readable { IfOk result (λ b. AllIdle lines b.readable) }
    {
        let octets = usize::from(lines) * usize::from(CHANNELS_PER_LINE);
        Ok(FrameBuffer {
            lines,
            filled: vec![in alloc; IDLE; octets]?,
            readable: vec![in alloc; IDLE; octets]?,
        })
    }

    /// Returns the number of lines.
    pub fn lines(&self) -> u8
        ensures { result ≡ self.now.lines }
    {
        self.lines
    }

    /// Writes the 30 octets of a line, by place, into the half that is filled.
    pub fn put_line(&mut self, line: u8, octets: &[u8; 30])
        requires { line < self.old.lines }
        ensures lines { self.new.lines ≡ self.old.lines }
        ensures filled { PutsLine line octets.now self.old.filled self.new.filled }
        ensures readable { self.new.readable ≡ self.old.readable }
    {
        put_row(&mut self.filled, line, octets);
    }

    /// Writes the idle octet over all places of n lines, from line 0 on, in the half that is filled.
    pub fn fill_lines_idle(&mut self, lines: u8)
        requires { lines ≤ self.old.lines }
        ensures lines { self.new.lines ≡ self.old.lines }
        ensures idle { (at : Slot) → at.line < lines → at.place < 30 → octet_in_half self.new.filled at ≡ idle_octet }
        ensures others { (at : Slot) → lines ≤ at.line → at.place < 30 → octet_in_half self.new.filled at ≡ octet_in_half self.old.filled at }
        ensures readable { self.new.readable ≡ self.old.readable }
    {
        make_rows_idle(&mut self.filled, lines);
    }

    /// Returns the octets of the half that is filled, line after line and 30 to a line, for writing.
    pub fn filling_half_mut(&mut self) -> &mut [u8]
        ensures* writes_back { sem 𝓛 (Lends the_row (Array octet_row 0) self.entry result (speech_with self.old)) }
        ensures octets { result.now ≡ self.old.filled }
        ensures size { length result.now ≡ self.old.lines * 30 }
    {
        self.filled.as_mut_slice()
    }

    /// Returns the 30 octets of a line, by place, in the half that is read.
    pub fn row(&self, line: u8) -> &[u8]
        requires { line < self.now.lines }
        ensures size { length result.now ≡ 30 }
        ensures octets { (place : ℕ) → place < 30 → slice_index result.now place ≡ octet_in_half self.now.readable (record { line = line; place = place }) }
    {
        let start = usize::from(line) * usize::from(CHANNELS_PER_LINE);
        &self.readable[start..start + usize::from(CHANNELS_PER_LINE)]
    }

    /// Returns the octets of all lines from one on, line after line and 30 to a line, in the half that is read.
    pub fn rows_from(&self, line: u8) -> &[u8]
        requires { line ≤ self.now.lines }
        ensures size { length result.now ≡ (self.now.lines - line) * 30 }
        ensures octets { (k : ℕ) → slice_index result.now k ≡ slice_index self.now.readable (line * 30 + k) }
    {
        &self.readable[usize::from(line) * usize::from(CHANNELS_PER_LINE)..]
    }

    /// Returns the octet of a slot in the half that is read.
    pub fn get(&self, at: Slot) -> u8
        requires line { at.line < self.now.lines }
        requires place { at.place < 30 }
        ensures { result ≡ octet_in_half self.now.readable at }
    {
        self.readable[usize::from(at.line) * usize::from(CHANNELS_PER_LINE) + usize::from(at.place)]
    }

    /// Exchanges the halves: the filled half is read from now on, and the read half is filled.
    pub fn swap(&mut self)
        ensures { self.new ≡ record { lines = self.old.lines; filled = self.old.readable; readable = self.old.filled } }
    {
        mem::swap(&mut self.filled, &mut self.readable);
    }
}

// Writes the row of a line.
fn put_row(octets: &mut [u8], line: u8, row: &[u8; 30])
    requires { line * 30 + 30 ≤ length octets.old }
    ensures { PutsLine line row.now octets.old octets.new }
{
    let start = usize::from(line) * usize::from(CHANNELS_PER_LINE);
    octets[start..start + usize::from(CHANNELS_PER_LINE)].copy_from_slice(row);
}

// Writes the idle octet over the rows of n lines, from the first on.
fn make_rows_idle(octets: &mut [u8], lines: u8)
    requires { lines * 30 ≤ length octets.old }
    ensures size { length octets.new ≡ length octets.old }
    ensures idle { (i : ℕ) → i < lines * 30 → slice_index octets.new i ≡ idle_octet }
    ensures others { (i : ℕ) → lines * 30 ≤ i → slice_index octets.new i ≡ slice_index octets.old i }
{
    let end = usize::from(lines) * usize::from(CHANNELS_PER_LINE);
    fill_idle(&mut octets[..end]);
}

//! The highways between the incoming time stage and the space stage.

ghost use Rattle.std.specs.Prelude.{◌≡◌, ℕ, ◌+◌, ◌*◌, ◌<◌, length, slice_index, IfOk};
ghost use Rattle.std.specs.Borrow.{Lends, Array, sem, u8 as octet_row};
ghost use Rattle.circuit_model.specs.FrameInput.{idle_octet};
ghost use Rattle.frame_buffer.specs.Highways.{Highways, octet_on, SameHighwaySize, highways_with};
ghost use Rattle.frame_buffer.specs.contracts.highway.Highway.{the_row};

use circuit_model::IDLE;
use std::alloc::{AllocError, Global};
use std::marker::Model;

/// The output of the incoming time stage: for each incoming line an octet in every internal slot of the frame.
///
/// An idle row comes before the rows of the lines. Its octets cross if a control table has no line. In front of the
/// lines it leaves the borrowed rows as a suffix, so no borrower can change it.
#[derive(Debug, Drop)]
pub struct Highway {
    lines: u8,
    slots: u8,
    octets: Vec<u8>,
}

impl Model for Highway {
    ghost use Rattle.std.specs.Prelude.{◌≡◌, ℕ, ◌+◌, ◌*◌, ◌<◌, length, drop, slice_index};
    ghost use Rattle.circuit_model.specs.FrameInput.{idle_octet};
    ghost use Rattle.frame_buffer.specs.Highways.{Highways};

    ghost Value = { Highways };

    ghost view = { λ h. record { lines = h.lines; slots = h.slots; octets = drop h.slots h.octets.items } };

    ghost invariant = { λ h. (length h.octets.items ≡ (h.lines + 1) * h.slots) × ((slot : ℕ) → slot < h.slots → slice_index h.octets.items slot ≡ idle_octet) };
}

impl Highway {
    /// Highways for n lines and m internal slots, with the idle octet everywhere.
    pub fn new(alloc: Global, lines: u8, slots: u8) -> Result<Highway, AllocError>
        ensures lines { IfOk result (λ h. h.lines ≡ lines) }
        ensures slots { IfOk result (λ h. h.slots ≡ slots) }
        ensures idle { IfOk result (λ h. (line slot : ℕ) → line < lines → slot < slots → octet_on h line slot ≡ idle_octet) }
    {
        let octets = (usize::from(lines) + 1) * usize::from(slots);
        Ok(Highway {
            lines,
            slots,
            octets: vec![in alloc; IDLE; octets]?,
        })
    }

    /// Returns the number of lines.
    pub fn lines(&self) -> u8
        ensures { result ≡ self.now.lines }
    {
        self.lines
    }

    /// Returns the number of internal slots of a frame of a line.
    pub fn slots(&self) -> u8
        ensures { result ≡ self.now.slots }
    {
        self.slots
    }

    /// Returns the octet of a line in an internal slot.
    pub fn get(&self, line: u8, slot: u8) -> u8
        requires line { line < self.now.lines }
        requires slot { slot < self.now.slots }
        ensures { result ≡ octet_on self.now line slot }
    {
        self.octets[(usize::from(line) + 1) * usize::from(self.slots) + usize::from(slot)]
    }

    /// Writes the octet of a line in an internal slot, and no other.
    pub fn set(&mut self, line: u8, slot: u8, octet: u8)
        requires line { line < self.old.lines }
        requires slot { slot < self.old.slots }
        ensures size { SameHighwaySize self.old self.new }
        ensures here { octet_on self.new line slot ≡ octet }
        ensures others { (l s : ℕ) → s < self.old.slots → (l ≡ line → s ≡ slot → ⊥) → octet_on self.new l s ≡ octet_on self.old l s }
    {
        let at = (usize::from(line) + 1) * usize::from(self.slots) + usize::from(slot);
        self.octets[at] = octet;
    }

    /// Returns the octets of all lines, line after line, for writing.
    pub fn rows_mut(&mut self) -> &mut [u8]
        ensures* writes_back { sem 𝓛 (Lends the_row (Array octet_row 0) self.entry result (highways_with self.old)) }
        ensures octets { result.now ≡ self.old.octets }
        ensures size { length result.now ≡ self.old.lines * self.old.slots }
    {
        let slots = usize::from(self.slots);
        self.octets.slice_mut(slots..)
    }

    /// Returns a row of idle octets, followed by the octets of all lines, line after line.
    pub fn rows_with_idle_first(&self) -> &[u8]
        ensures size { length result.now ≡ (self.now.lines + 1) * self.now.slots }
        ensures idle { (slot : ℕ) → slot < self.now.slots → slice_index result.now slot ≡ idle_octet }
        ensures lines { (line slot : ℕ) → slot < self.now.slots → slice_index result.now ((line + 1) * self.now.slots + slot) ≡ octet_on self.now line slot }
    {
        &self.octets
    }
}

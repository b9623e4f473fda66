//! The live layout with its control tables and its matrix, which always agree.
ghost use Rattle.std.specs.Prelude.{◌≡◌, ℕ, ◌*◌, ◌<◌, ◌≤◌, None, IfOk, IfSome, replicate, is_none};
ghost use Rattle.std.specs.Option.{option_map};
ghost use Rattle.circuit_model.specs.declared.channel.Slot.{Slot};
ghost use Rattle.control_memory.specs.declared.route.Route.{Route};
ghost use Rattle.control_memory.specs.Layout.{Legal, IsSlot, Joins, hop_of, path_to};
ghost use Rattle.control_memory.specs.Connecting.{common_slot as common_slot_of, with_path, without_path};
ghost use Rattle.control_memory.specs.Image.{lines_of, HasLayout, SameSizes};
ghost use Rattle.control_memory.specs.Paths.{Fabric};
ghost use Rattle.paull_matrix.specs.Matrix.{lowest_in_both, IsLegal};

use circuit_model::Slot;
use control_memory::{Image, PathTable};
use paull_matrix::{PaullMatrix, Steps};
use std::alloc::{AllocError, Global};
use std::marker::{Brand, Model};
use std::sync::ledger::{Blank, Ledger};

/// The live paths of a fabric, and the internal slots that they leave free in each line.
///
/// Contracts see the layout. Both parts are open to a fabric that moves paths, which writes them in sequence. Its proof
/// shows that they agree again before the whole is used.
#[derive(Debug, Drop)]
pub struct PathMemory {
    /// The internal slots that each line uses, as Paull's matrix.
    pub matrix: PaullMatrix,
    /// The layout, with its control tables.
    pub paths: PathTable,
}

impl Model for PathMemory {
    ghost use Rattle.control_memory.specs.Paths.{Fabric};
    ghost use Rattle.path_memory.specs.Memory.{IsPathMemory};

    ghost Value = { Fabric };

    ghost view = { λ m. m.paths };

    ghost invariant = { λ m. IsPathMemory m.matrix m.paths };
}

impl PathMemory {
    /// Returns a memory without paths on n lines, external and bridge lines together, and m internal slots. The only
    /// error is a failed allocation.
    pub fn new(alloc: Global, lines: u8, slots: u8) -> Result<PathMemory, AllocError>
        requires lines { (0 < lines) × (lines ≤ 34) }
        requires slots { (0 < slots) × (slots ≤ 59) }
        ensures lines { IfOk result (λ m. m.lines ≡ lines) }
        ensures slots { IfOk result (λ m. m.slots ≡ slots) }
        ensures bare { IfOk result (λ m. m.layout ≡ replicate (30 * lines) None) }
    {
        Ok(PathMemory {
            matrix: PaullMatrix::new(alloc, lines, slots)?,
            paths: PathTable::new(alloc, lines, slots)?,
        })
    }

    /// Returns whether no path begins at the inlet.
    pub fn inlet_free(&self, at: Slot) -> bool
        requires { IsSlot self.now.lines at }
        ensures free { result ≡ is_none (hop_of self.now.layout at) }
        ensures legal { Legal self.now.lines self.now.slots self.now.layout }
    {
        self.paths.get(at).is_none()
    }

    /// Returns whether no path ends at the outlet.
    pub fn outlet_free(&self, at: Slot) -> bool
        requires { IsSlot self.now.lines at }
        ensures free { result ≡ is_none (path_to self.now.layout at) }
        ensures legal { Legal self.now.lines self.now.slots self.now.layout }
    {
        self.paths.slot_at_outlet(at).is_none()
    }

    /// Connects a free inlet to a free outlet in the lowest internal slot that is free in both lines, and returns the
    /// slot. Returns `None` and changes nothing if and only if there is none.
    #[inline(always)]
    pub fn connect_in_common_slot(&mut self, from: Slot, to: Slot) -> Option<u8>
        requires from { IsSlot self.old.lines from }
        requires to { IsSlot self.old.lines to }
        requires inlet { hop_of self.old.layout from ≡ None }
        requires outlet { path_to self.old.layout to ≡ None }
        ensures slot { result ≡ common_slot_of self.old.slots self.old.layout from.line to.line }
        ensures connected { IfSome result (λ slot. self.new.layout ≡ with_path self.old.layout from to slot) }
        ensures unchanged { result ≡ None → self.new ≡ self.old }
        ensures lines { self.new.lines ≡ self.old.lines }
        ensures slots { self.new.slots ≡ self.old.slots }
        ensures legal { Legal self.new.lines self.new.slots self.new.layout }
    {
        let slot = common_slot::<Brand>(&self.matrix, from.line, to.line, Blank::new(1))?;
        self.matrix.place(from.line, to.line, slot);
        self.paths.insert(from, to, slot);
        Some(slot)
    }

    /// Removes a path. No other path changes its slot.
    pub fn disconnect(&mut self, from: Slot, to: Slot)
        requires from { IsSlot self.old.lines from }
        requires stands { Joins self.old.layout from to }
        ensures layout { self.new.layout ≡ without_path self.old.layout from }
        ensures lines { self.new.lines ≡ self.old.lines }
        ensures slots { self.new.slots ≡ self.old.slots }
        ensures legal { Legal self.new.lines self.new.slots self.new.layout }
    {
        let Some(hop) = self.paths.get(from) else {
            unreachable!()
        };
        self.matrix.lift(from.line, to.line, hop.slot);
        self.paths.remove(from, hop);
    }

    /// Returns the internal slot of the path that begins at an inlet. `None` if and only if the inlet is free.
    pub fn slot_of(&self, from: Slot) -> Option<u8>
        requires { IsSlot self.now.lines from }
        ensures slot { result ≡ option_map (λ (hop : Route). hop.slot) (hop_of self.now.layout from) }
        ensures legal { Legal self.now.lines self.now.slots self.now.layout }
    {
        self.paths.get(from).map(|hop| hop.slot)
    }

    /// Returns the number of internal slots.
    pub fn slots(&self) -> u8
        ensures slots { result ≡ self.now.slots }
        ensures legal { Legal self.now.lines self.now.slots self.now.layout }
    {
        self.paths.slots()
    }

    /// Writes the layout into the three tables of a control memory.
    pub fn write_tables(&self, image: &mut Image)
        requires lines { lines_of image.old ≡ self.now.lines }
        requires slots { image.old.slots ≡ self.now.slots }
        ensures tables { HasLayout image.new self.now.layout }
        ensures legal { Legal self.now.lines self.now.slots self.now.layout }
        ensures sizes { SameSizes image.old image.new }
        ensures frame { image.new.frame ≡ image.old.frame }
        ensures heard { image.new.heard ≡ image.old.heard }
        ensures rooms { image.new.rooms ≡ image.old.rooms }
    {
        self.paths.write_tables(image);
    }
}

// Returns the lowest slot that is free in a row and in a column. It counts its lookup on a separate counter.
fn common_slot<L: Ledger>(matrix: &PaullMatrix, i: u8, j: u8, blank: Blank) -> Option<u8>
    requires ledger { (blank.name ≡ L.name) × (blank.parts ≡ L.parts) × (0 < L.parts) }
    requires row { i < matrix.now.lines }
    requires column { j < matrix.now.lines }
    ensures lowest { result ≡ lowest_in_both matrix.now i j }
    ensures legal { IsLegal matrix.now }
{
    let mut steps = Steps::<L>::new(blank);
    matrix.common_free(i, j, &mut steps)
}

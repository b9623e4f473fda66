//! The live map of paths on 30 internal slots.
ghost use Rattle.std.specs.Prelude.{◌≡◌, ◌↔◌, ◌⊎◌, ℕ, ◌*◌, ◌-◌, ◌<◌, ◌≤◌, [], List, None, IfOk, length, replicate};
ghost use Rattle.circuit_model.specs.declared.channel.Slot.{Slot};
ghost use Rattle.control_memory.specs.Layout.{Layout, Legal, IsSlot, Joins, hop_of, path_to};
ghost use Rattle.control_memory.specs.Connecting.{connect as joined, moved};
ghost use Rattle.fabric_map.specs.Map.{max_moves};
ghost use Rattle.paull_matrix.specs.declared.moves.Move.{Move};
ghost use Rattle.control_memory.specs.declared.path_ends.PathEnds.{PathEnds};
ghost use Rattle.control_memory.specs.Paths.{Fabric};
ghost use Rattle.fabric_map.specs.Rearranging.{without_all, AreTaken, taken_by, laid, CanLay};

use arrayvec::ArrayVec;
use circuit_model::Slot;
use control_memory::{Fabric, Image, PathEnds, PathMap, PathTable};
use path_memory::PathMemory;
use paull_matrix::Steps;
use rearrange_chain::{Move, make_room};
use std::alloc::{AllocError, Global};
use std::marker::{Brand, Model};
use std::sync::ledger::{Blank, Ledger};

/// The number of internal slots of a frame of a line in this fabric. The number of places of a line is enough
/// (Slepian-Duguid).
pub const INTERNAL_SLOTS: u8 = 30;

/// The live map of a rearrangeable fabric: 30 internal slots, one for each place of a line.
///
/// Contracts see its layout.
#[derive(Debug, Drop)]
pub struct FabricMap {
    memory: PathMemory,
}

impl Model for FabricMap {
    ghost use Rattle.std.specs.Prelude.{◌≡◌};
    ghost use Rattle.control_memory.specs.Paths.{Fabric};

    ghost Value = { Fabric };

    ghost view = { λ m. m.memory };

    ghost invariant = { λ m. m.memory.slots ≡ 30 };
}

impl FabricMap {
    /// Returns a map without paths, for n lines, external and bridge lines together.
    pub fn new(alloc: Global, lines: u8) -> Result<FabricMap, AllocError>
        requires { (0 < lines) × (lines ≤ 34) }
        ensures lines { IfOk result (λ m. m.lines ≡ lines) }
        ensures slots { IfOk result (λ m. m.slots ≡ 30) }
        ensures bare { IfOk result (λ m. m.layout ≡ replicate (30 * lines) None) }
    {
        Ok(FabricMap {
            memory: PathMemory::new(alloc, lines, INTERNAL_SLOTS)?,
        })
    }
}

// Connects by the rule if no slot is free in both lines. A separate function holds the lists of moves, because a
// function clears its locals whenever it is entered.
fn connect_by_moves<L: Ledger>(memory: &mut PathMemory, from: Slot, to: Slot, blank: Blank) -> u32
    requires ledger { (blank.name ≡ L.name) × (blank.parts ≡ L.parts) × (0 < L.parts) }
    requires thirty { memory.old.slots ≡ 30 }
    requires from { IsSlot memory.old.lines from }
    requires to { IsSlot memory.old.lines to }
    requires inlet { hop_of memory.old.layout from ≡ None }
    requires outlet { path_to memory.old.layout to ≡ None }
    ensures layout { memory.new.layout ≡ joined memory.old.lines memory.old.slots memory.old.layout from to }
    ensures pairs { (x y : Slot) → IsSlot memory.old.lines x → Joins memory.new.layout x y ↔ (Joins memory.old.layout x y ⊎ ((x ≡ from) × (y ≡ to))) }
    ensures moves { result ≡ moved memory.old.layout memory.new.layout }
    ensures few { result ≤ max_moves memory.old.lines }
    ensures lines { memory.new.lines ≡ memory.old.lines }
    ensures slots { memory.new.slots ≡ memory.old.slots }
    ensures legal { Legal memory.new.lines memory.new.slots memory.new.layout }
{
    let mut steps = Steps::<L>::new(blank);
    let mut moves = ArrayVec::new();
    let mut lifted = ArrayVec::new();
    let freed = make_room(
        &mut memory.matrix,
        from.line,
        to.line,
        &mut moves,
        &mut steps,
    );
    lift_all(&mut memory.paths, &moves, &mut lifted);
    lay_all(&mut memory.paths, &moves, &lifted);
    memory.matrix.place(from.line, to.line, freed);
    memory.paths.insert(from, to, freed);
    moves.len() as u32
}

// Removes the paths that move from the layout, and lists their ends.
fn lift_all(paths: &mut PathTable, moves: &[Move], lifted: &mut ArrayVec<PathEnds, 34>)
    requires taken { AreTaken paths.old.layout moves.now (taken_by paths.old.layout moves.now) }
    requires legal { Legal paths.old.lines paths.old.slots paths.old.layout }
    requires few { length moves.now ≤ 34 }
    requires empty { lifted.old.items ≡ [] }
    ensures lifted { lifted.new.items ≡ taken_by paths.old.layout moves.now }
    ensures layout { paths.new.layout ≡ without_all paths.old.layout (taken_by paths.old.layout moves.now) }
    ensures lines { paths.new.lines ≡ paths.old.lines }
    ensures slots { paths.new.slots ≡ paths.old.slots }
{
    for moved in moves {
        lifted.push(paths.remove_by_slot(moved.row, moved.old));
    }
}

// Sets the paths up again, each in the slot of its move.
fn lay_all(paths: &mut PathTable, moves: &[Move], lifted: &[PathEnds])
    requires same { length lifted.now ≡ length moves.now }
    requires room { CanLay paths.old.lines paths.old.slots paths.old.layout lifted.now moves.now }
    ensures layout { paths.new.layout ≡ laid paths.old.layout lifted.now moves.now }
    ensures lines { paths.new.lines ≡ paths.old.lines }
    ensures slots { paths.new.slots ≡ paths.old.slots }
{
    for i in 0..lifted.len() {
        paths.insert(lifted[i].from, lifted[i].to, moves[i].new);
    }
}

impl PathMap for FabricMap {
    ghost use Rattle.fabric_map.specs.Map.{max_moves};

    ghost width = { λ m. m.lines };

    ghost depth = { λ m. m.slots };

    ghost bound = { λ m. max_moves m.lines };

    ghost layout = { λ m. m.layout };

    fn inlet_free(&self, at: Slot) -> bool {
        self.memory.inlet_free(at)
    }

    fn outlet_free(&self, at: Slot) -> bool {
        self.memory.outlet_free(at)
    }

    fn connect(&mut self, from: Slot, to: Slot) -> u32 {
        match self.memory.connect_in_common_slot(from, to) {
            Some(_) => 0,
            None => connect_by_moves::<Brand>(&mut self.memory, from, to, Blank::new(1)),
        }
    }

    fn disconnect(&mut self, from: Slot, to: Slot) {
        self.memory.disconnect(from, to);
    }

    fn slot_of(&self, from: Slot) -> Option<u8> {
        self.memory.slot_of(from)
    }

    fn slots(&self) -> u8 {
        self.memory.slots()
    }

    fn write_tables(&self, image: &mut Image) {
        self.memory.write_tables(image);
    }
}

impl Fabric for FabricMap {
    ghost use Rattle.fabric_map.specs.Map.{max_moves};

    ghost slots = { 30 };

    ghost moves = { max_moves };

    fn unused(alloc: Global, lines: u8) -> Result<FabricMap, AllocError> {
        FabricMap::new(alloc, lines)
    }
}

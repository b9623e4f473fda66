//! The live map of paths on 59 internal slots.
ghost use Rattle.std.specs.Prelude.{◌≡◌, ◌*◌, ◌<◌, ◌≤◌, None, IfOk, replicate};

use circuit_model::Slot;
use control_memory::{Fabric, Image, PathMap};
use path_memory::PathMemory;
use std::alloc::{AllocError, Global};
use std::marker::Model;

/// The number of internal slots of a frame of a line in this fabric. The other paths of an incoming and an outgoing
/// line of 30 places each can use all but one (Clos).
pub const STRICT_SLOTS: u8 = 59;

/// The live map of a strict-sense non-blocking fabric: 59 internal slots, and no path moves.
///
/// Contracts see its layout.
#[derive(Debug, Drop)]
pub struct StrictMap {
    memory: PathMemory,
}

impl Model for StrictMap {
    ghost use Rattle.std.specs.Prelude.{◌≡◌};
    ghost use Rattle.control_memory.specs.Paths.{Fabric};

    ghost Value = { Fabric };

    ghost view = { λ m. m.memory };

    ghost invariant = { λ m. m.memory.slots ≡ 59 };
}

impl StrictMap {
    /// Returns a map without paths, for n lines, external and bridge lines together. The only error is a failed
    /// allocation.
    pub fn new(alloc: Global, lines: u8) -> Result<StrictMap, AllocError>
        requires { (0 < lines) × (lines ≤ 34) }
        ensures lines { IfOk result (λ m. m.lines ≡ lines) }
        ensures slots { IfOk result (λ m. m.slots ≡ 59) }
        ensures bare { IfOk result (λ m. m.layout ≡ replicate (30 * lines) None) }
    {
        Ok(StrictMap {
            memory: PathMemory::new(alloc, lines, STRICT_SLOTS)?,
        })
    }
}

impl PathMap for StrictMap {
    ghost use Rattle.strict_map.specs.Strict.{max_moves};

    ghost width = { λ m. m.lines };

    ghost depth = { λ m. m.slots };

    ghost bound = { λ m. max_moves m.lines };

    ghost layout = { λ m. m.layout };

    fn inlet_free(&self, at: Slot) -> bool {
        self.memory.inlet_free(at)
    }

    fn outlet_free(&self, at: Slot) -> bool {
        self.memory.outlet_free(at)
    }

    fn connect(&mut self, from: Slot, to: Slot) -> u32 {
        // There is always a common slot: the other paths of the two lines use at most 58 of the 59. The proof shows
        // that the second arm is unreachable.
        match self.memory.connect_in_common_slot(from, to) {
            Some(_) => 0,
            None => unreachable!(),
        }
    }

    fn disconnect(&mut self, from: Slot, to: Slot) {
        self.memory.disconnect(from, to);
    }

    fn slot_of(&self, from: Slot) -> Option<u8> {
        self.memory.slot_of(from)
    }

    fn slots(&self) -> u8 {
        self.memory.slots()
    }

    fn write_tables(&self, image: &mut Image) {
        self.memory.write_tables(image);
    }
}

impl Fabric for StrictMap {
    ghost use Rattle.strict_map.specs.Strict.{max_moves};

    ghost slots = { 59 };

    ghost moves = { max_moves };

    fn unused(alloc: Global, lines: u8) -> Result<StrictMap, AllocError> {
        StrictMap::new(alloc, lines)
    }
}

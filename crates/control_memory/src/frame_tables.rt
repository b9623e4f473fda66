//! The tables of one frame.
ghost use Rattle.std.specs.Prelude.{◌≡◌, ◌+◌, ◌≤◌, IfOk};
ghost use Rattle.control_memory.specs.Tables.{Agree, entry, nothing};
ghost use Rattle.control_memory.specs.Image.{IsCleared, IsQuiet};
ghost use Rattle.control_memory.specs.FrameTables.{AreSized, HaveSameEntries, HaveSameSizes, control_of};

use crate::control_table::{ControlTable, bare_tables};
use crate::heard_table::HeardTable;
use circuit_model::CHANNELS_PER_LINE;
use std::alloc::{AllocError, Global};

// The control tables of the three stages in one frame, the source of each slot's octets by its number, and the member of
// each port: the places of the bridge lines, line after line. External slots have no member, because only ports are
// mixed for.
#[derive(Debug, Drop)]
pub(crate) struct FrameTables {
    pub(crate) incoming: ControlTable,
    pub(crate) space: ControlTable,
    pub(crate) outgoing: ControlTable,
    pub(crate) heard: HeardTable,
    pub(crate) rooms: Vec<Option<(u8, u32)>>,
}

impl FrameTables {
    // Returns tables without a path, in which every slot is silent, and every port free.
    pub(crate) fn new(
        alloc: Global,
        external: u8,
        bridges: u8,
        slots: u8,
    ) -> Result<FrameTables, AllocError>
        requires lines { external + bridges ≤ 34 }
        ensures sized { IfOk result (AreSized external bridges slots) }
        ensures paths { IfOk result (λ t. IsCleared (control_of 0 external bridges slots t)) }
        ensures quiet { IfOk result (λ t. IsQuiet (control_of 0 external bridges slots t)) }
    {
        let lines = external + bridges;
        let places = usize::from(CHANNELS_PER_LINE);
        let rooms = vec![in alloc; None; places * usize::from(bridges)]?;
        let heard = HeardTable::new(alloc, lines)?;
        let (incoming, space, outgoing) = bare_tables(alloc, lines, slots)?;
        Ok(FrameTables {
            incoming,
            space,
            outgoing,
            heard,
            rooms,
        })
    }

    // Copies tables of the same sizes.
    pub(crate) fn copy_from(&mut self, other: &FrameTables)
        requires { HaveSameSizes self.old other.now }
        ensures { HaveSameEntries other.now self.new }
    {
        self.incoming.copy_from(&other.incoming);
        self.space.copy_from(&other.space);
        self.outgoing.copy_from(&other.outgoing);
        self.heard.copy_from(&other.heard);
        self.rooms.copy_from_slice(&other.rooms);
    }

    // Removes every path.
    pub(crate) fn clear_paths(&mut self)
        ensures sizes { HaveSameSizes self.old self.new }
        ensures incoming { Agree self.old.incoming.rows self.old.incoming.columns (entry self.new.incoming) nothing }
        ensures space { Agree self.old.space.rows self.old.space.columns (entry self.new.space) nothing }
        ensures outgoing { Agree self.old.outgoing.rows self.old.outgoing.columns (entry self.new.outgoing) nothing }
        ensures heard { self.new.heard ≡ self.old.heard }
        ensures rooms { self.new.rooms ≡ self.old.rooms }
    {
        self.incoming.clear();
        self.space.clear();
        self.outgoing.clear();
    }
}

//! The tables of the latest control memory.
ghost use Rattle.std.specs.Prelude.{◌≡◌, ◌+◌, ◌≤◌, true, false, None, Some, IfOk, IfSome};
ghost use Rattle.control_memory.specs.Image.{Control};
ghost use Rattle.control_memory.specs.FrameTables.{Fits, at_frame};

use crate::frame_tables::FrameTables;
use crate::image::Image;
use std::alloc::{AllocError, Global};
use std::marker::Model;
use std::mem;
use std::sync::Arc;

/// The tables of the latest control memory, for as long as they apply. The control memories of the next frames share
/// them, so a frame without a change copies nothing.
///
/// Contracts see the sizes, and the latest control memory if its tables still apply. Only `new` allocates.
#[derive(Debug, Drop)]
pub struct RecentTables {
    external: u8,
    bridges: u8,
    slots: u8,
    apply: bool,
    latest: Arc<FrameTables>,
    // The tables for the next change. While two control memories are in use, at most one of them shares these, and it is
    // the one that is written next.
    spare: Arc<FrameTables>,
}

impl Model for RecentTables {
    ghost use Rattle.std.specs.Prelude.{None, Some, if◌then◌else◌};
    ghost use Rattle.std.specs.Arc.{arc_value};
    ghost use Rattle.control_memory.specs.FrameTables.{AreShown, Recent, control_of};

    ghost Value = { Recent };

    ghost view = { λ r. record {
      external = r.external;
      bridges = r.bridges;
      slots = r.slots;
      latest = if r.apply then Some (control_of 0 r.external r.bridges r.slots (arc_value r.latest)) else None;
    } };

    ghost invariant = { λ r. AreShown r.external r.bridges r.slots (arc_value r.spare) (arc_value r.latest) };
}

impl RecentTables {
    /// Returns tables for the given numbers of external lines, bridge lines and internal slots, of no control memory.
    pub fn new(
        alloc: Global,
        external: u8,
        bridges: u8,
        slots: u8,
    ) -> Result<RecentTables, AllocError>
        requires lines { external + bridges ≤ 34 }
        ensures external { IfOk result (λ r. r.external ≡ external) }
        ensures bridges { IfOk result (λ r. r.bridges ≡ bridges) }
        ensures slots { IfOk result (λ r. r.slots ≡ slots) }
        ensures latest { IfOk result (λ r. r.latest ≡ None) }
    {
        let latest = FrameTables::new(alloc, external, bridges, slots)?;
        let spare = FrameTables::new(alloc, external, bridges, slots)?;
        Ok(RecentTables {
            external,
            bridges,
            slots,
            apply: false,
            latest: Arc::new(alloc, latest)?,
            spare: Arc::new(alloc, spare)?,
        })
    }

    /// Records that the tables no longer apply.
    pub fn forget(&mut self)
        ensures external { self.new.external ≡ self.old.external }
        ensures bridges { self.new.bridges ≡ self.old.bridges }
        ensures slots { self.new.slots ≡ self.old.slots }
        ensures latest { self.new.latest ≡ None }
    {
        self.apply = false;
    }

    /// Begins the control memory of another frame with the latest tables, and returns `true`. Returns `false` and changes
    /// nothing if none apply, or if their owners cannot be counted.
    pub fn show_into(&self, frame: u32, image: &mut Image) -> bool
        requires { Fits self.now image.old }
        ensures shown { result ≡ true → (m : Control) × (self.now.latest ≡ Some m) × (image.new ≡ at_frame frame m) }
        ensures other { result ≡ false → image.new ≡ image.old }
        ensures sizes { Fits self.now image.new }
    {
        if !self.apply {
            return false;
        }
        let Ok(tables) = self.latest.clone() else {
            return false;
        };
        image.share(frame, tables);
        true
    }

    /// Makes the tables of a control memory the latest, which it then shares. None apply afterwards if the control memory
    /// shares its tables already, if the spare tables are still shared, or if the owners of the spare tables cannot be
    /// counted.
    pub fn keep(&mut self, image: &mut Image)
        requires { Fits self.old image.old }
        ensures same { image.new ≡ image.old }
        ensures latest { IfSome self.new.latest (λ m. m ≡ at_frame 0 image.old) }
        ensures external { self.new.external ≡ self.old.external }
        ensures bridges { self.new.bridges ≡ self.old.bridges }
        ensures slots { self.new.slots ≡ self.old.slots }
    {
        self.apply = image.lend_tables(&mut self.spare);
        if self.apply {
            mem::swap(&mut self.latest, &mut self.spare);
        }
    }
}

//! The contract of a live map of paths, for any fabric.
ghost use Rattle.std.specs.Prelude.{◌≡◌, ◌↔◌, ◌⊎◌, ◌<◌, ◌≤◌, ℕ, None, is_none};
ghost use Rattle.std.specs.Option.{option_map};
ghost use Rattle.circuit_model.specs.declared.channel.Slot.{Slot};
ghost use Rattle.control_memory.specs.Layout.{Layout, Route, Legal, IsSlot, HasPath, Joins, hop_of, path_to};
ghost use Rattle.control_memory.specs.Connecting.{connect as joined, without_path, moved};
ghost use Rattle.control_memory.specs.Image.{lines_of, IsCleared, HasLayout, SameSizes};

use crate::image::Image;
use circuit_model::Slot;

/// A live map of the paths through the fabric: a legal layout, which new paths join by the rule of rearrangement. No
/// call allocates, and none is refused. After each call its layout is legal.
pub trait PathMap {
    /// The number of lines, external and bridge lines together.
    ghost width: { Self → ℕ };

    /// The number of internal slots.
    ghost depth: { Self → ℕ };

    /// The maximum number of live paths that a new path moves.
    ghost bound: { Self → ℕ };

    /// The layout of its paths.
    ghost layout: { Self → Layout };

    /// Returns whether no path begins at the inlet.
    fn inlet_free(&self, at: Slot) -> bool
        requires { IsSlot (width self.now) at }
        ensures free { result ≡ is_none (hop_of (layout self.now) at) }
        ensures legal { Legal (width self.now) (depth self.now) (layout self.now) };

    /// Returns whether no path ends at the outlet.
    fn outlet_free(&self, at: Slot) -> bool
        requires { IsSlot (width self.now) at }
        ensures free { result ≡ is_none (path_to (layout self.now) at) }
        ensures legal { Legal (width self.now) (depth self.now) (layout self.now) };

    /// Connects a free inlet to a free outlet: in the lowest internal slot that is free in both lines, or after live
    /// paths were moved along the alternating chain of two slots.
    ///
    /// Returns the number of earlier paths that have another internal slot afterwards.
    fn connect(&mut self, from: Slot, to: Slot) -> u32
        requires from { IsSlot (width self.old) from }
        requires to { IsSlot (width self.old) to }
        requires inlet { hop_of (layout self.old) from ≡ None }
        requires outlet { path_to (layout self.old) to ≡ None }
        ensures layout { layout self.new ≡ joined (width self.old) (depth self.old) (layout self.old) from to }
        ensures pairs { (x y : Slot) → IsSlot (width self.old) x → Joins (layout self.new) x y ↔ (Joins (layout self.old) x y ⊎ ((x ≡ from) × (y ≡ to))) }
        ensures moves { result ≡ moved (layout self.old) (layout self.new) }
        ensures few { result ≤ bound self.old }
        ensures width { width self.new ≡ width self.old }
        ensures depth { depth self.new ≡ depth self.old }
        ensures bound { bound self.new ≡ bound self.old }
        ensures legal { Legal (width self.new) (depth self.new) (layout self.new) };

    /// Removes a path. No other path changes its slot.
    fn disconnect(&mut self, from: Slot, to: Slot)
        requires from { IsSlot (width self.old) from }
        requires stands { Joins (layout self.old) from to }
        ensures layout { layout self.new ≡ without_path (layout self.old) from }
        ensures width { width self.new ≡ width self.old }
        ensures depth { depth self.new ≡ depth self.old }
        ensures bound { bound self.new ≡ bound self.old }
        ensures legal { Legal (width self.new) (depth self.new) (layout self.new) };

    /// Returns the internal slot of the path that begins at an inlet. `None` if and only if the inlet is free.
    fn slot_of(&self, from: Slot) -> Option<u8>
        requires { IsSlot (width self.now) from }
        ensures slot { result ≡ option_map (λ (hop : Route). hop.slot) (hop_of (layout self.now) from) }
        ensures legal { Legal (width self.now) (depth self.now) (layout self.now) };

    /// Returns the number of internal slots.
    fn slots(&self) -> u8
        ensures slots { result ≡ depth self.now }
        ensures legal { Legal (width self.now) (depth self.now) (layout self.now) };

    /// Writes the layout into the three tables of a control memory without paths.
    fn write_tables(&self, image: &mut Image)
        requires lines { lines_of image.old ≡ width self.now }
        requires slots { image.old.slots ≡ depth self.now }
        requires cleared { IsCleared image.old }
        ensures tables { HasLayout image.new (layout self.now) }
        ensures legal { Legal (width self.now) (depth self.now) (layout self.now) }
        ensures sizes { SameSizes image.old image.new }
        ensures frame { image.new.frame ≡ image.old.frame }
        ensures heard { image.new.heard ≡ image.old.heard }
        ensures rooms { image.new.rooms ≡ image.old.rooms };
}

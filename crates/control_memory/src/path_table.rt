//! The paths of a live layout in control tables.
ghost use Rattle.std.specs.Prelude.{◌≡◌, ℕ, ◌+◌, ◌*◌, ◌<◌, ◌≤◌, None, Some, IfOk, replicate};
ghost use Rattle.control_memory.specs.Layout.{Layout, Legal, IsSlot, HasPath, hop_of, slot_read, path_in, Path};
ghost use Rattle.control_memory.specs.Image.{lines_of, HasLayout, SameSizes};
ghost use Rattle.control_memory.specs.Connecting.{with_path, without_path, IsFree};
ghost use Rattle.control_memory.specs.Paths.{Fabric, ends_of};

use crate::control_table::{ControlTable, bare_tables};
use crate::image::Image;
use crate::path_ends::PathEnds;
use crate::route::Route;
use circuit_model::{CHANNELS_PER_LINE, Slot};
use std::alloc::{AllocError, Global};
use std::marker::Model;

/// The paths of a fabric with any number of internal slots: for each inlet its route, and the three control tables of
/// the layout, in the form of a control memory.
///
/// Contracts see the layout. It is legal from the first call on, and only `new` allocates.
#[derive(Debug, Drop)]
pub struct PathTable {
    lines: u8,
    slots: u8,
    hops: Vec<Option<Route>>,
    incoming: ControlTable,
    space: ControlTable,
    outgoing: ControlTable,
}

impl Model for PathTable {
    ghost use Rattle.control_memory.specs.Paths.{Fabric, IsTabled};

    ghost Value = { Fabric };

    ghost view = { λ t. record { lines = t.lines; slots = t.slots; layout = t.hops.items } };

    ghost invariant = { λ t. IsTabled t.lines t.slots t.hops.items t.incoming t.space t.outgoing };
}

impl PathTable {
    /// Returns an empty layout on n lines and m internal slots.
    pub fn new(alloc: Global, lines: u8, slots: u8) -> Result<PathTable, AllocError>
        requires lines { lines ≤ 34 }
        ensures lines { IfOk result (λ t. t.lines ≡ lines) }
        ensures slots { IfOk result (λ t. t.slots ≡ slots) }
        ensures bare { IfOk result (λ t. t.layout ≡ replicate (30 * lines) None) }
        ensures legal { IfOk result (λ t. Legal lines slots t.layout) }
    {
        let hops = vec![in alloc; None; usize::from(CHANNELS_PER_LINE) * usize::from(lines)]?;
        let (incoming, space, outgoing) = bare_tables(alloc, lines, slots)?;
        Ok(PathTable {
            lines,
            slots,
            hops,
            incoming,
            space,
            outgoing,
        })
    }

    /// Adds a path in an internal slot that is free in both lines, from a free inlet to a free
    /// outlet.
    pub fn insert(&mut self, from: Slot, to: Slot, slot: u8)
        requires from { IsSlot self.old.lines from }
        requires to { IsSlot self.old.lines to }
        requires slot { slot < self.old.slots }
        requires free { IsFree self.old.lines self.old.layout from to slot }
        ensures layout { self.new.layout ≡ with_path self.old.layout from to slot }
        ensures lines { self.new.lines ≡ self.old.lines }
        ensures slots { self.new.slots ≡ self.old.slots }
        ensures legal { Legal self.new.lines self.new.slots self.new.layout }
    {
        self.hops[from.to_index()] = Some(Route { to, slot });
        self.incoming.set(from.line, slot, from.place);
        self.space.set(to.line, slot, from.line);
        self.outgoing.set(to.line, to.place, slot);
    }

    /// Removes the path that begins at an inlet, whose route is `route`.
    pub fn remove(&mut self, from: Slot, route: Route)
        requires from { IsSlot self.old.lines from }
        requires stands { HasPath self.old.layout from route.to route.slot }
        ensures layout { self.new.layout ≡ without_path self.old.layout from }
        ensures lines { self.new.lines ≡ self.old.lines }
        ensures slots { self.new.slots ≡ self.old.slots }
        ensures legal { Legal self.new.lines self.new.slots self.new.layout }
    {
        self.hops[from.to_index()] = None;
        self.incoming.unset(from.line, route.slot);
        self.space.unset(route.to.line, route.slot);
        self.outgoing.unset(route.to.line, route.to.place);
    }

    /// Returns the number of internal slots.
    pub fn slots(&self) -> u8
        ensures slots { result ≡ self.now.slots }
        ensures legal { Legal self.now.lines self.now.slots self.now.layout }
    {
        self.slots
    }

    /// Returns the route of the path that begins at an inlet. `None` if the inlet is free.
    pub fn get(&self, from: Slot) -> Option<Route>
        requires { IsSlot self.now.lines from }
        ensures hop { result ≡ hop_of self.now.layout from }
        ensures legal { Legal self.now.lines self.now.slots self.now.layout }
    {
        self.hops[from.to_index()]
    }

    /// Returns the internal slot of the path that ends at an outlet. `None` if the outlet is free.
    pub fn slot_at_outlet(&self, to: Slot) -> Option<u8>
        requires { IsSlot self.now.lines to }
        ensures slot { result ≡ slot_read self.now.layout to }
        ensures legal { Legal self.now.lines self.now.slots self.now.layout }
    {
        self.outgoing.get(to.line, to.place)
    }

    /// Removes the path that an incoming line sends in an internal slot, and returns its ends.
    pub fn remove_by_slot(&mut self, line: u8, slot: u8) -> PathEnds
        requires line { line < self.old.lines }
        requires slot { slot < self.old.slots }
        requires stands { (p : Path) × (path_in self.old.layout line slot ≡ Some p) }
        ensures ends { (p : Path) × (path_in self.old.layout line slot ≡ Some p) × (ends_of p ≡ result) }
        ensures layout { self.new.layout ≡ without_path self.old.layout result.from }
        ensures lines { self.new.lines ≡ self.old.lines }
        ensures slots { self.new.slots ≡ self.old.slots }
        ensures legal { Legal self.new.lines self.new.slots self.new.layout }
    {
        let Some(place) = self.incoming.get(line, slot) else {
            unreachable!()
        };
        let from = Slot { line, place };
        let Some(hop) = self.get(from) else {
            unreachable!()
        };
        self.remove(from, hop);
        PathEnds { from, to: hop.to }
    }

    /// Writes the layout into a control memory.
    pub fn write_tables(&self, image: &mut Image)
        requires lines { lines_of image.old ≡ self.now.lines }
        requires slots { image.old.slots ≡ self.now.slots }
        ensures tables { HasLayout image.new self.now.layout }
        ensures sizes { SameSizes image.old image.new }
        ensures frame { image.new.frame ≡ image.old.frame }
        ensures heard { image.new.heard ≡ image.old.heard }
        ensures rooms { image.new.rooms ≡ image.old.rooms }
        ensures legal { Legal self.now.lines self.now.slots self.now.layout }
    {
        image.set_tables(&self.incoming, &self.space, &self.outgoing);
    }
}

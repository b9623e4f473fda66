//! The control memory of one frame.
ghost use Rattle.std.specs.Prelude.{◌≡◌, true, ◌+◌, ◌<◌, ◌≤◌, ◌*◌, All, Some, None, IfOk, IfSome, length, slice_index_or, if◌then◌else◌};
ghost use Rattle.circuit_model.specs.Circuits.{same_slot};
ghost use Rattle.control_memory.specs.Tables.{HasSize, entry, Agree, written};
ghost use Rattle.std.specs.Option.{option_map_or};
ghost use Rattle.std.specs.Arc.{arc_value};
ghost use Rattle.control_memory.specs.FrameTables.{AreSizedFor, HaveSameEntries, HaveSameSizes, at_frame, with_tables};
ghost use Rattle.control_memory.specs.Image.{incoming_of, lines_of, outgoing_of, port_number, space_of, sent, received, read, heard_at, room_at, IsCleared, IsQuiet, SameSizes, SameTables, EachSlot};

use crate::control_table::ControlTable;
use crate::frame_tables::FrameTables;
use crate::heard::Heard;
use crate::heard_table::HeardTable;
use circuit_model::{CHANNELS_PER_LINE, Slot};
use std::alloc::{AllocError, Global};
use std::marker::Model;
use std::mem;
use std::sync::Arc;

/// The control memory of one frame: its number, the tables of its three stages, the source of each slot's octets, and
/// the member of each conference port.
///
/// Lines are counted from 0, external lines first and bridge lines after them. The places of the
/// bridge lines are the conference ports.
#[derive(Debug, Drop)]
pub struct Image {
    frame: u32,
    external: u8,
    bridges: u8,
    slots: u8,
    own: FrameTables,
    // Tables that it shares with other control memories, if any. Its own are then unused.
    shared: Option<Arc<FrameTables>>,
}

impl Model for Image {
    ghost use Rattle.std.specs.Option.{option_map_or};
    ghost use Rattle.std.specs.Arc.{arc_value};
    ghost use Rattle.control_memory.specs.Image.{Control};
    ghost use Rattle.control_memory.specs.FrameTables.{AreShown, control_of};

    ghost Value = { Control };

    ghost view = { λ m. control_of m.frame m.external m.bridges m.slots (option_map_or arc_value m.shared m.own) };

    ghost invariant = { λ m. AreShown m.external m.bridges m.slots m.own (option_map_or arc_value m.shared m.own) };
}

impl Image {
    /// Returns the control memory of frame 0 for the given numbers of external lines, bridge lines and internal slots:
    /// no path, every slot silent, and every port free.
    pub fn new(alloc: Global, external: u8, bridges: u8, slots: u8) -> Result<Image, AllocError>
        requires lines { 1 ≤ external + bridges × (external + bridges ≤ 34) }
        requires slots { 1 ≤ slots × (slots ≤ 59) }
        ensures external { IfOk result (λ m. m.external ≡ external) }
        ensures bridges { IfOk result (λ m. m.bridges ≡ bridges) }
        ensures slots { IfOk result (λ m. m.slots ≡ slots) }
        ensures frame { IfOk result (λ m. m.frame ≡ 0) }
        ensures paths { IfOk result IsCleared }
        ensures quiet { IfOk result IsQuiet }
    {
        Ok(Image {
            frame: 0,
            external,
            bridges,
            slots,
            own: FrameTables::new(alloc, external, bridges, slots)?,
            shared: None,
        })
    }

    /// Returns the number of the frame.
    pub fn frame(&self) -> u32
        ensures { result ≡ self.now.frame }
    {
        self.frame
    }

    /// Returns the number of external lines.
    pub fn external(&self) -> u8
        ensures { result ≡ self.now.external }
    {
        self.external
    }

    /// Returns the number of bridge lines, which come after the external ones.
    pub fn bridges(&self) -> u8
        ensures { result ≡ self.now.bridges }
    {
        self.bridges
    }

    /// Returns the number of internal slots of a frame of a line.
    pub fn slots(&self) -> u8
        ensures { result ≡ self.now.slots }
    {
        self.slots
    }

    /// Returns the place that an incoming line sends in an internal slot, if any.
    pub fn incoming(&self, line: u8, slot: u8) -> Option<u8>
        requires line { line < lines_of self.now }
        requires slot { slot < self.now.slots }
        ensures place { result ≡ sent self.now line slot }
        ensures within { IfSome result (λ place. place < 30) }
    {
        self.tables().incoming.get(line, slot)
    }

    /// Returns the incoming line whose octet an outgoing line gets in an internal slot, if any.
    pub fn space(&self, line: u8, slot: u8) -> Option<u8>
        requires line { line < lines_of self.now }
        requires slot { slot < self.now.slots }
        ensures line { result ≡ received self.now line slot }
        ensures within { IfSome result (λ from. from < lines_of self.now) }
    {
        self.tables().space.get(line, slot)
    }

    /// Returns the internal slot that a place of an outgoing line reads, if any.
    pub fn outgoing(&self, line: u8, place: u8) -> Option<u8>
        requires line { line < lines_of self.now }
        requires place { place < 30 }
        ensures slot { result ≡ read self.now line place }
        ensures within { IfSome result (λ slot. slot < self.now.slots) }
    {
        self.tables().outgoing.get(line, place)
    }

    /// Returns the table of the incoming time switch: the place that each line sends in each internal slot.
    pub fn incoming_table(&self) -> &ControlTable
        ensures { result.now ≡ incoming_of self.now }
    {
        &self.tables().incoming
    }

    /// Returns the table of the space switch: the incoming line whose octet each line gets in each internal slot.
    pub fn space_table(&self) -> &ControlTable
        ensures { result.now ≡ space_of self.now }
    {
        &self.tables().space
    }

    /// Returns the table of the outgoing time switch: the internal slot that each place of each line reads.
    pub fn outgoing_table(&self) -> &ControlTable
        ensures { result.now ≡ outgoing_of self.now }
    {
        &self.tables().outgoing
    }

    /// Returns the source of the octets of every slot. A loop over the lines borrows it once.
    pub fn heard_table(&self) -> &HeardTable
        ensures size { length result.now ≡ 30 * lines_of self.now }
        ensures heard { result.now ≡ self.now.heard }
    {
        &self.tables().heard
    }

    /// Returns the source of a slot's octets.
    pub fn heard(&self, at: Slot) -> Heard
        requires line { at.line < lines_of self.now }
        requires place { at.place < 30 }
        ensures { result ≡ heard_at self.now at }
    {
        self.tables().heard.get(at)
    }

    /// Returns the room of the member at a conference port, and its first frame there. `None` if the port is free, and
    /// for an external slot.
    pub fn room(&self, port: Slot) -> Option<(u8, u32)>
        requires line { port.line < lines_of self.now }
        requires place { port.place < 30 }
        ensures { result ≡ room_at self.now port }
    {
        if port.line < self.external {
            return None;
        }
        self.tables().rooms[port_index(self.external, port)]
    }

    /// Returns the room of the member at each conference port, and its first frame there. A free port has `None`. It
    /// has the places of the bridge lines, line after line.
    pub fn port_members(&self) -> &[Option<(u8, u32)>]
        ensures size { length result.now ≡ 30 * self.now.bridges }
        ensures seats { result.now ≡ self.now.rooms }
    {
        &self.tables().rooms
    }

    /// Begins the control memory of another frame: no path, every slot silent, every port free.
    pub fn clear_all(&mut self, frame: u32)
        ensures frame { self.new.frame ≡ frame }
        ensures sizes { SameSizes self.old self.new }
        ensures paths { IsCleared self.new }
        ensures quiet { IsQuiet self.new }
    {
        self.frame = frame;
        self.shared = None;
        self.own.clear_paths();
        self.own.heard.clear();
        vacate(&mut self.own.rooms);
    }

    /// Begins the control memory of another frame with the sources of all slots and the members of all ports, and
    /// without paths: one copy for each of the two.
    ///
    /// `hearing` has an entry for every place of every line. `sitting` has one for every conference port, that is for
    /// every place of the bridge lines, line after line.
    pub fn reset_with(&mut self, frame: u32, hearing: &HeardTable, sitting: &[Option<(u8, u32)>])
        requires hearing { length hearing.now ≡ 30 * lines_of self.old }
        requires sitting { length sitting.now ≡ 30 * self.old.bridges }
        ensures frame { self.new.frame ≡ frame }
        ensures sizes { SameSizes self.old self.new }
        ensures paths { IsCleared self.new }
        ensures heard { self.new.heard ≡ hearing.now }
        ensures rooms { self.new.rooms ≡ sitting.now }
    {
        self.frame = frame;
        self.shared = None;
        self.own.clear_paths();
        self.own.heard.copy_from(hearing);
        self.own.rooms.copy_from_slice(sitting);
    }

    // Returns the tables that it shows.
    fn tables(&self) -> &FrameTables
        ensures shown { with_tables self.now result.now ≡ self.now }
        ensures sized { AreSizedFor self.now result.now }
    {
        match &self.shared {
            Some(shared) => shared,
            None => &self.own,
        }
    }

    // Begins the control memory of another frame with tables that it shares.
    pub(crate) fn share(&mut self, frame: u32, tables: Arc<FrameTables>)
        requires { AreSizedFor self.old (arc_value tables) }
        ensures { self.new ≡ at_frame frame (with_tables self.old (arc_value tables)) }
    {
        self.frame = frame;
        self.shared = Some(tables);
    }

    // Moves its own tables into `spare`, takes the spare ones for its own, and shares what it moved. Returns `false` and
    // changes no entry if it shares tables already, if `spare` has another owner, or if its owners cannot be counted.
    pub(crate) fn lend_tables(&mut self, spare: &mut Arc<FrameTables>) -> bool
        requires { AreSizedFor self.old (arc_value spare.old) }
        ensures same { self.new ≡ self.old }
        ensures sized { AreSizedFor self.old (arc_value spare.new) }
        ensures lent { result ≡ true → with_tables self.old (arc_value spare.new) ≡ self.old }
    {
        if self.shared.is_some() {
            return false;
        }
        let Some(tables) = Arc::get_mut(spare) else {
            return false;
        };
        mem::swap(&mut self.own, tables);
        match spare.clone() {
            Ok(shared) => {
                self.shared = Some(shared);
                true
            }
            Err(_) => {
                self.own.copy_from(spare);
                false
            }
        }
    }

    /// Writes the path from an inlet to an outlet in an internal slot into the three tables.
    pub fn set_path(&mut self, from: Slot, to: Slot, slot: u8)
        requires from_line { from.line < lines_of self.old }
        requires from_place { from.place < 30 }
        requires to_line { to.line < lines_of self.old }
        requires to_place { to.place < 30 }
        requires slot { slot < self.old.slots }
        ensures incoming { Agree (lines_of self.old) self.old.slots (sent self.new) (written from.line slot (Some from.place) (sent self.old)) }
        ensures space { Agree (lines_of self.old) self.old.slots (received self.new) (written to.line slot (Some from.line) (received self.old)) }
        ensures outgoing { Agree (lines_of self.old) 30 (read self.new) (written to.line to.place (Some slot) (read self.old)) }
        ensures sizes { SameSizes self.old self.new }
        ensures frame { self.new.frame ≡ self.old.frame }
        ensures heard { self.new.heard ≡ self.old.heard }
        ensures rooms { self.new.rooms ≡ self.old.rooms }
    {
        take_back(&mut self.own, &mut self.shared);
        self.own.incoming.set(from.line, slot, from.place);
        self.own.space.set(to.line, slot, from.line);
        self.own.outgoing.set(to.line, to.place, slot);
    }

    /// Copies the three tables of a layout, one copy for each.
    pub(crate) fn set_tables(
        &mut self,
        incoming: &ControlTable,
        space: &ControlTable,
        outgoing: &ControlTable,
    )
        requires incoming { HasSize incoming.now (lines_of self.old) self.old.slots 30 }
        requires space { HasSize space.now (lines_of self.old) self.old.slots (lines_of self.old) }
        requires outgoing { HasSize outgoing.now (lines_of self.old) 30 self.old.slots }
        ensures incoming { Agree (lines_of self.old) self.old.slots (sent self.new) (entry incoming.now) }
        ensures space { Agree (lines_of self.old) self.old.slots (received self.new) (entry space.now) }
        ensures outgoing { Agree (lines_of self.old) 30 (read self.new) (entry outgoing.now) }
        ensures sizes { SameSizes self.old self.new }
        ensures frame { self.new.frame ≡ self.old.frame }
        ensures heard { self.new.heard ≡ self.old.heard }
        ensures rooms { self.new.rooms ≡ self.old.rooms }
    {
        take_back(&mut self.own, &mut self.shared);
        self.own.incoming.copy_from(incoming);
        self.own.space.copy_from(space);
        self.own.outgoing.copy_from(outgoing);
    }

    /// Writes the source of a slot's octets.
    pub fn set_heard(&mut self, at: Slot, heard: Heard)
        requires line { at.line < lines_of self.old }
        requires place { at.place < 30 }
        ensures heard { EachSlot (lines_of self.old) (λ x. heard_at self.new x ≡ (if same_slot x at then heard else heard_at self.old x)) }
        ensures sizes { SameSizes self.old self.new }
        ensures frame { self.new.frame ≡ self.old.frame }
        ensures tables { SameTables self.old self.new }
        ensures rooms { self.new.rooms ≡ self.old.rooms }
    {
        take_back(&mut self.own, &mut self.shared);
        self.own.heard.set(at.to_index(), heard);
    }

    /// Writes the room and the first frame of the member at a conference port.
    pub fn set_room(&mut self, port: Slot, room: u8, since: u32)
        requires line { port.line < lines_of self.old }
        requires bridge { self.old.external ≤ port.line }
        requires place { port.place < 30 }
        ensures rooms { EachSlot (lines_of self.old) (λ x. room_at self.new x ≡ (if same_slot x port then Some (room, since) else room_at self.old x)) }
        ensures sizes { SameSizes self.old self.new }
        ensures frame { self.new.frame ≡ self.old.frame }
        ensures tables { SameTables self.old self.new }
        ensures heard { self.new.heard ≡ self.old.heard }
    {
        let at = port_index(self.external, port);
        take_back(&mut self.own, &mut self.shared);
        self.own.rooms[at] = Some((room, since));
    }
}

// Copies shared tables into its own, and shares them no longer.
fn take_back(own: &mut FrameTables, shared: &mut Option<Arc<FrameTables>>)
    requires { HaveSameSizes own.old (option_map_or arc_value shared.old own.old) }
    ensures own { HaveSameEntries (option_map_or arc_value shared.old own.old) own.new }
    ensures shared { shared.new ≡ None }
{
    if let Some(tables) = shared.take() {
        own.copy_from(&tables);
    }
}

/// Returns the number of a conference port among all ports: 30 to a bridge line, and the bridge lines come after n
/// external ones. A table with an entry for each port uses it as its index.
pub fn port_index(external: u8, port: Slot) -> usize
    requires { external ≤ port.line }
    ensures { result ≡ port_number external port }
{
    usize::from(CHANNELS_PER_LINE) * usize::from(port.line - external) + usize::from(port.place)
}

fn vacate(rooms: &mut [Option<(u8, u32)>])
    ensures { All (λ room. room ≡ None) rooms.new }
{
    for port in rooms.iter_mut() {
        *port = None;
    }
}

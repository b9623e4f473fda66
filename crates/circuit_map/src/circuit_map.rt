//! The circuits that exist, with their paths and ports.
ghost use Rattle.std.specs.Prelude.{◌≡◌, ◌≢◌, ◌+◌, ◌*◌, ◌==◌, ◌<◌, ◌≤◌, ◌↔◌, ℕ, None, Some, IfSome, true, IfOk, IsOk, IsErr, IsTrue, OnErr, OnOk, count_by, is_none};
ghost use Rattle.circuit_model.specs.declared.channel.Slot.{Slot};
ghost use Rattle.circuit_model.specs.declared.circuit.Circuit.{Circuit};
ghost use Rattle.circuit_model.specs.Circuits.{is_idle, is_member, heard_by, listener};
ghost use Rattle.circuit_model.specs.Holding.{Holding, empty, Connect, Seat, Give_tone, Clear, Frame};
ghost use Rattle.circuit_model.specs.Ports.{Ports as Members, ports_after, free_ports, port_of};
ghost use Rattle.control_memory.specs.Layout.{IsBare};
ghost use Rattle.control_memory.specs.Shown.{ShowsBy};
ghost use Rattle.control_memory.specs.Image.{SameSizes as SameImageSizes};
ghost use Rattle.circuit_map.specs.Connections.{IsExternal, hears_at, hears_after, Represents, Obeys, IsLaid, SameSizes, AreMoves, joined_both, parted, is_pathless};

use crate::both_ways::{connect_both, disconnect_both};
use crate::next_memory::write_memory;
use circuit_model::{CHANNELS_PER_LINE, Circuit, Kind, Slot};
use conference_ports::Ports;
use control_memory::{Heard, HeardTable, Image, PathMap, RecentTables, port_index};
use std::alloc::{AllocError, Global};
use std::marker::Model;
use thiserror::Error;

/// Every conference port is taken.
#[derive(Clone, Copy, Debug, PartialEq, Eq, Error)]
#[error("every conference port is taken")]
pub struct NoPort;

/// The circuits that exist, and the paths and conference ports that carry them.
///
/// Contracts see the circuit by which each external slot receives, the member of each port and the layout of the paths.
/// `Represents` relates these to a holding. The invariant requires only that some valid holding has them, so the map
/// stores no holding. Only `new` allocates.
#[derive(Debug, Drop)]
pub struct CircuitMap<P: PathMap> {
    external: u8,
    bridges: u8,
    // The number of the next frame.
    next: u32,
    // The circuit by which each external slot receives, line by line. By this form no two circuits serve one slot.
    heard: Vec<Option<Circuit>>,
    ports: Ports,
    paths: P,
    // The source of each slot's octets and the member of each port, in the form of a control memory. A command writes
    // few entries, and a boundary after a change copies the tables whole.
    hearing: HeardTable,
    sitting: Vec<Option<(u8, u32)>>,
    // The tables of the last control memory, if no circuit has changed since.
    recent: RecentTables,
}

impl<P: PathMap> Model for CircuitMap<P> {
    ghost use Rattle.std.specs.Prelude.{◌≡◌};
    ghost use Rattle.circuit_map.specs.Connections.{Connections, IsSound, kept_connections};

    ghost Value = { Connections };

    ghost view = { λ m. kept_connections m.external m.bridges (P.depth m.paths) (P.bound m.paths) m.next m.heard.items m.ports.owners (P.layout m.paths) };

    ghost invariant = { λ m. IsSound (kept_connections m.external m.bridges (P.depth m.paths) (P.bound m.paths) m.next m.heard.items m.ports.owners (P.layout m.paths))
        (P.width m.paths) m.ports.external m.ports.lines m.ports.owners m.hearing m.sitting.items m.recent };
}

impl<P: PathMap + Drop> CircuitMap<P> {
    /// Returns a map without circuits over a map of paths without paths, for the given numbers of external and bridge
    /// lines. Returns `AllocError` if an allocation fails.
    pub fn new(
        alloc: Global,
        paths: P,
        external: u8,
        bridges: u8,
    ) -> Result<CircuitMap<P>, AllocError>
        requires few { external + bridges ≤ 34 }
        requires lines { P.width paths ≡ external + bridges }
        requires bare { IsBare (P.layout paths) }
        ensures holds { IfOk result (λ m. Represents m empty (free_ports bridges)) }
        ensures external { IfOk result (λ m. m.external ≡ external) }
        ensures bridges { IfOk result (λ m. m.bridges ≡ bridges) }
        ensures paths { IfOk result (λ m. (m.layout ≡ P.layout paths) × (m.slots ≡ P.depth paths) × (m.bound ≡ P.bound paths)) }
    {
        // Each call of a path map guarantees that its layout is legal.
        let slots = paths.slots();
        let places = usize::from(CHANNELS_PER_LINE);
        Ok(CircuitMap {
            external,
            bridges,
            next: 0,
            heard: vec![in alloc; None; places * usize::from(external)]?,
            ports: Ports::new(alloc, external, bridges)?,
            paths,
            hearing: HeardTable::new(alloc, external + bridges)?,
            sitting: vec![in alloc; None; places * usize::from(bridges)]?,
            recent: RecentTables::new(alloc, external, bridges, slots)?,
        })
    }
}

impl<P: PathMap> CircuitMap<P> {
    /// Returns the number of the next frame.
    pub fn next_frame(&self) -> u32
        ensures number { result ≡ self.now.next }
        ensures laid { IsLaid self.now }
    {
        self.next
    }

    /// Returns whether no circuit uses an external slot.
    pub fn idle(&self, at: Slot) -> bool
        requires external { IsExternal self.now at }
        ensures silent { result ≡ is_none (hears_at self.now at) }
        ensures idle { (h : Holding) (ports : Members) → Represents self.now h ports → result ≡ is_idle h.circuits at }
    {
        self.circuit_at(at).is_none()
    }

    /// Returns the circuit by which an external slot receives: the direction of a connection that ends there, its
    /// membership of a conference room, or its tone. `None` if and only if it is idle.
    pub fn circuit_at(&self, at: Slot) -> Option<Circuit>
        requires external { IsExternal self.now at }
        ensures circuit { result ≡ hears_at self.now at }
        ensures listener { IfSome result (λ circuit. listener circuit ≡ at) }
        ensures stands { (h : Holding) (ports : Members) → Represents self.now h ports → result ≡ heard_by h.circuits at }
    {
        self.heard[at.to_index()]
    }

    /// Returns whether every conference port is taken: the number of members equals the number of ports.
    pub fn is_full(&self) -> bool
        ensures { (h : Holding) (ports : Members) → Represents self.now h ports → result ≡ (count_by is_member h.circuits == 30 * self.now.bridges) }
    {
        self.ports.is_full()
    }

    /// Gives a tone to an idle slot.
    pub fn tone(&mut self, x: Slot, kind: Kind)
        requires external { IsExternal self.old x }
        requires idle { hears_at self.old x ≡ None }
        ensures holds { Obeys self.old self.new (Give_tone x kind) }
        ensures hears { (z : Slot) → hears_at self.new z ≡ hears_after self.old (Give_tone x kind) z }
        ensures ports { self.new.ports ≡ self.old.ports }
        ensures next { self.new.next ≡ self.old.next }
        ensures layout { self.new.layout ≡ self.old.layout }
        ensures laid { IsLaid self.new }
        ensures sizes { SameSizes self.old self.new }
    {
        self.recent.forget();
        let at = x.to_index();
        let since = self.next;
        self.heard[at] = Some(Circuit::Tone { kind, to: x, since });
        self.hearing.set(at, Heard::Tone { kind, since });
    }

    /// Connects two idle slots: x to y, and then y to x.
    ///
    /// Returns the number of live paths that each of the two connects moved.
    pub fn pair(&mut self, x: Slot, y: Slot) -> (u32, u32)
        requires external_x { IsExternal self.old x }
        requires external_y { IsExternal self.old y }
        requires distinct { x ≢ y }
        requires idle_x { hears_at self.old x ≡ None }
        requires idle_y { hears_at self.old y ≡ None }
        ensures holds { Obeys self.old self.new (Connect x y) }
        ensures hears { (z : Slot) → hears_at self.new z ≡ hears_after self.old (Connect x y) z }
        ensures ports { self.new.ports ≡ self.old.ports }
        ensures next { self.new.next ≡ self.old.next }
        ensures layout { self.new.layout ≡ joined_both self.old x y }
        ensures moves { AreMoves result self.old x y }
        ensures few { (result.0 ≤ self.old.bound) × (result.1 ≤ self.old.bound) }
        ensures laid { IsLaid self.new }
        ensures sizes { SameSizes self.old self.new }
    {
        self.recent.forget();
        let moves = connect_both(&mut self.paths, x, y);
        let (at_x, at_y) = (x.to_index(), y.to_index());
        let since = self.next;
        self.heard[at_x] = Some(Circuit::Pair {
            from: y,
            to: x,
            since,
        });
        self.heard[at_y] = Some(Circuit::Pair {
            from: x,
            to: y,
            since,
        });
        self.hearing.set(at_x, Heard::Path { since });
        self.hearing.set(at_y, Heard::Path { since });
        moves
    }

    /// Makes an idle slot a member of a conference room, at the lowest free port: connects the member to the port, and
    /// then the port to the member.
    ///
    /// Returns the number of live paths that each of the two connects moved. Returns `NoPort` and changes nothing if
    /// and only if every port is taken.
    pub fn seat(&mut self, x: Slot, room: u8) -> Result<(u32, u32), NoPort>
        requires external { IsExternal self.old x }
        requires idle { hears_at self.old x ≡ None }
        ensures holds { OnOk result (Obeys self.old self.new (Seat x room)) }
        ensures hears { OnOk result ((z : Slot) → hears_at self.new z ≡ hears_after self.old (Seat x room) z) }
        ensures ports { OnOk result (self.new.ports ≡ ports_after self.old.ports (Seat x room)) }
        ensures next { self.new.next ≡ self.old.next }
        ensures full { (h : Holding) (ports : Members) → Represents self.old h ports → IsErr result ↔ (count_by is_member h.circuits ≡ 30 * self.old.bridges) }
        ensures refused { OnErr result (self.new ≡ self.old) }
        ensures layout { IfOk result (λ moves. IfSome (port_of self.old.external self.new.ports x) (λ port. self.new.layout ≡ joined_both self.old x port)) }
        ensures moves { IfOk result (λ moves. IfSome (port_of self.old.external self.new.ports x) (AreMoves moves self.old x)) }
        ensures few { IfOk result (λ moves. (moves.0 ≤ self.old.bound) × (moves.1 ≤ self.old.bound)) }
        ensures laid { IsLaid self.new }
        ensures sizes { SameSizes self.old self.new }
    {
        let Some(port) = self.ports.take(room, x) else {
            return Err(NoPort);
        };
        self.recent.forget();
        let moves = connect_both(&mut self.paths, x, port);
        let (at_x, at_port) = (x.to_index(), port.to_index());
        let sits_at = port_index(self.external, port);
        let since = self.next;
        self.heard[at_x] = Some(Circuit::Member { room, at: x, since });
        self.hearing.set(at_x, Heard::Path { since });
        self.hearing.set(at_port, Heard::Path { since });
        self.sitting[sits_at] = Some((room, since));
        Ok(moves)
    }

    /// Removes every circuit that uses a slot, with its paths and its conference port.
    pub fn clear(&mut self, x: Slot)
        requires external { IsExternal self.old x }
        ensures holds { Obeys self.old self.new (Clear x) }
        ensures hears { (z : Slot) → hears_at self.new z ≡ hears_after self.old (Clear x) z }
        ensures idle { hears_at self.new x ≡ None }
        ensures ports { self.new.ports ≡ ports_after self.old.ports (Clear x) }
        ensures next { self.new.next ≡ self.old.next }
        ensures layout { self.new.layout ≡ parted self.old x }
        ensures laid { IsLaid self.new }
        ensures sizes { SameSizes self.old self.new }
    {
        match self.circuit_at(x) {
            None => self.silence(x),
            Some(Circuit::Tone { .. }) => self.silence(x),
            Some(Circuit::Pair { from, .. }) => self.release(x, from),
            Some(Circuit::Member { .. }) => self.unseat(x),
        }
    }

    /// Writes the whole control memory of the next frame, and returns the frame's number.
    ///
    /// It has the paths' tables, the source of each slot and port, and the member of each port. The next boundary has
    /// the next number.
    pub fn boundary(&mut self, image: &mut Image) -> u32
        requires next { self.old.next < 4294967295 }
        requires external { image.old.external ≡ self.old.external }
        requires bridges { image.old.bridges ≡ self.old.bridges }
        requires slots { image.old.slots ≡ self.old.slots }
        ensures number { result ≡ self.old.next }
        ensures shows { (h : Holding) (ports : Members) → Represents self.old h ports → ShowsBy self.old.layout image.new h.circuits ports h.next }
        ensures image { SameImageSizes image.old image.new }
        ensures holds { Obeys self.old self.new Frame }
        ensures hears { (z : Slot) → hears_at self.new z ≡ hears_after self.old Frame z }
        ensures ports { self.new.ports ≡ self.old.ports }
        ensures next { self.new.next ≡ self.old.next + 1 }
        ensures layout { self.new.layout ≡ self.old.layout }
        ensures laid { IsLaid self.new }
        ensures sizes { SameSizes self.old self.new }
    {
        let frame = self.next;
        let recent = &mut self.recent;
        write_memory(
            recent,
            frame,
            image,
            &self.hearing,
            &self.sitting,
            &self.paths,
        );
        self.next = frame + 1;
        frame
    }

    // Removes the tone of a slot, if it has one.
    fn silence(&mut self, x: Slot)
        requires external { IsExternal self.old x }
        requires pathless { is_pathless (hears_at self.old x) ≡ true }
        ensures holds { Obeys self.old self.new (Clear x) }
        ensures hears { (z : Slot) → hears_at self.new z ≡ hears_after self.old (Clear x) z }
        ensures idle { hears_at self.new x ≡ None }
        ensures ports { self.new.ports ≡ ports_after self.old.ports (Clear x) }
        ensures next { self.new.next ≡ self.old.next }
        ensures layout { self.new.layout ≡ parted self.old x }
        ensures laid { IsLaid self.new }
        ensures sizes { SameSizes self.old self.new }
    {
        self.recent.forget();
        let at = x.to_index();
        self.heard[at] = None;
        self.hearing.set(at, Heard::Silent);
    }

    // Releases the connection of x with y, both ways.
    fn release(&mut self, x: Slot, y: Slot)
        requires external { IsExternal self.old x }
        requires connected { (to : Slot) × (since : ℕ) × (hears_at self.old x ≡ Some (Circuit.Pair y to since)) }
        ensures holds { Obeys self.old self.new (Clear x) }
        ensures hears { (z : Slot) → hears_at self.new z ≡ hears_after self.old (Clear x) z }
        ensures idle { hears_at self.new x ≡ None }
        ensures ports { self.new.ports ≡ ports_after self.old.ports (Clear x) }
        ensures next { self.new.next ≡ self.old.next }
        ensures layout { self.new.layout ≡ parted self.old x }
        ensures laid { IsLaid self.new }
        ensures sizes { SameSizes self.old self.new }
    {
        self.recent.forget();
        disconnect_both(&mut self.paths, x, y);
        let (at_x, at_y) = (x.to_index(), y.to_index());
        self.heard[at_x] = None;
        self.heard[at_y] = None;
        self.hearing.set(at_x, Heard::Silent);
        self.hearing.set(at_y, Heard::Silent);
    }

    // Removes a member from its room, and frees its port.
    fn unseat(&mut self, x: Slot)
        requires external { IsExternal self.old x }
        requires seated { (room : ℕ) × (at : Slot) × (since : ℕ) × (hears_at self.old x ≡ Some (Circuit.Member room at since)) }
        ensures holds { Obeys self.old self.new (Clear x) }
        ensures hears { (z : Slot) → hears_at self.new z ≡ hears_after self.old (Clear x) z }
        ensures idle { hears_at self.new x ≡ None }
        ensures ports { self.new.ports ≡ ports_after self.old.ports (Clear x) }
        ensures next { self.new.next ≡ self.old.next }
        ensures layout { self.new.layout ≡ parted self.old x }
        ensures laid { IsLaid self.new }
        ensures sizes { SameSizes self.old self.new }
    {
        let Some(port) = self.ports.port_of(x) else {
            unreachable!();
        };
        self.recent.forget();
        disconnect_both(&mut self.paths, x, port);
        self.ports.give(x);
        let (at_x, at_port) = (x.to_index(), port.to_index());
        let sits_at = port_index(self.external, port);
        self.heard[at_x] = None;
        self.hearing.set(at_port, Heard::Silent);
        self.sitting[sits_at] = None;
        self.hearing.set(at_x, Heard::Silent);
    }
}

//! The ports of the bridge lines, with an index from member to port.

ghost use Rattle.std.specs.Prelude.{◌≡◌, ◌≢◌, ◌+◌, ◌*◌, ◌<◌, ◌≤◌, ℕ, None, Some, IfOk, is_none, position, replicate, option_map, slice_index_or};
ghost use Rattle.circuit_model.specs.Ports.{port_numbered, port_of as port_of_member, ports_with, ports_without};
ghost use Rattle.conference_ports.specs.Owners.{Bridges, IsMemberSlot, IsPortSlot, members, owners_with, owners_without, port_number};
ghost use Rattle.conference_ports.specs.declared.occupant.Occupant.{Occupant};

use crate::occupant::Occupant;
use circuit_model::Slot;
use std::alloc::{AllocError, Global};
use std::marker::Model;

/// The ports of all bridge lines, and their members.
///
/// Contracts see the list of owners, port by port. One table lookup finds a member's port, or a port's owner.
#[derive(Debug, Drop)]
pub struct Ports {
    external: u8,
    lines: u8,
    // Each port's owner.
    owners: Vec<Option<Occupant>>,
    // Each external slot's port.
    ports: Vec<Option<u16>>,
}

impl Model for Ports {
    ghost use Rattle.conference_ports.specs.Owners.{Bridges};
    ghost use Rattle.conference_ports.specs.Indexed.{IsIndexed};

    ghost Value = { Bridges };

    ghost view = { λ p. record { external = p.external; lines = p.lines; owners = p.owners.items } };

    ghost invariant = { λ p. IsIndexed p.external p.lines p.owners.items p.ports.items };
}

impl Ports {
    /// Returns 30 free ports on each of n bridge lines, which are numbered from `first_line` on, after the external
    /// lines.
    pub fn new(alloc: Global, first_line: u8, lines: u8) -> Result<Ports, AllocError>
        requires { first_line + lines ≤ 34 }
        ensures external { IfOk result (λ p. p.external ≡ first_line) }
        ensures lines { IfOk result (λ p. p.lines ≡ lines) }
        ensures free { IfOk result (λ p. p.owners ≡ replicate (30 * lines) None) }
    {
        Ok(Ports {
            external: first_line,
            lines,
            owners: vec![in alloc; None; usize::from(lines) * 30]?,
            ports: vec![in alloc; None; usize::from(first_line) * 30]?,
        })
    }

    /// Gives the member the lowest free port by line, then place. Returns `None` and changes nothing if and only if
    /// every port is taken.
    pub fn take(&mut self, room: u8, member: Slot) -> Option<Slot>
        requires external { IsMemberSlot self.old member }
        requires portless { port_of_member self.old.external (members self.old.owners) member ≡ None }
        ensures lowest { result ≡ option_map (port_numbered self.old.external) (position is_none self.old.owners) }
        ensures owners { self.new.owners ≡ owners_with (record { room = room; member = member }) self.old.owners }
        ensures members { members self.new.owners ≡ ports_with member (members self.old.owners) }
        ensures sizes { (self.new.external ≡ self.old.external) × (self.new.lines ≡ self.old.lines) }
    {
        let Some(port) = lowest_free(&self.owners) else {
            return None;
        };
        self.owners[port] = Some(Occupant { room, member });
        self.ports[member.to_index()] = Some(port as u16);
        Some(port_at(self.external, port))
    }

    /// Returns whether every port is taken.
    pub fn is_full(&self) -> bool
        ensures { result ≡ is_none (position is_none self.now.owners) }
    {
        lowest_free(&self.owners).is_none()
    }

    /// Frees the member's port.
    pub fn give(&mut self, member: Slot)
        requires external { IsMemberSlot self.old member }
        requires ported { port_of_member self.old.external (members self.old.owners) member ≢ None }
        ensures owners { self.new.owners ≡ owners_without member self.old.owners }
        ensures members { members self.new.owners ≡ ports_without member (members self.old.owners) }
        ensures sizes { (self.new.external ≡ self.old.external) × (self.new.lines ≡ self.old.lines) }
    {
        let index = member.to_index();
        if let Some(port) = self.ports[index] {
            self.owners[usize::from(port)] = None;
            self.ports[index] = None;
        }
    }

    /// Returns the member's port. `None` if and only if the member has none.
    pub fn port_of(&self, member: Slot) -> Option<Slot>
        requires { IsMemberSlot self.now member }
        ensures { result ≡ port_of_member self.now.external (members self.now.owners) member }
    {
        let port = self.ports[member.to_index()]?;
        Some(port_at(self.external, usize::from(port)))
    }

    /// Returns the port's room and member. `None` if and only if the port is free.
    pub fn room_of(&self, port: Slot) -> Option<(u8, Slot)>
        requires { IsPortSlot self.now port }
        ensures { result ≡ option_map (λ owner. (owner.room, owner.member)) (slice_index_or self.now.owners (port_number self.now.external port) None) }
    {
        let number = usize::from(port.line - self.external) * 30 + usize::from(port.place);
        let owner = self.owners[number]?;
        Some((owner.room, owner.member))
    }
}

// Returns the number of the lowest free port.
fn lowest_free(owners: &[Option<Occupant>]) -> Option<usize>
    ensures { result ≡ position is_none owners.now }
{
    owners.iter().position(|owner| owner.is_none())
}

// Returns the slot of the port with a number among all ports.
fn port_at(external: u8, number: usize) -> Slot
    requires lines { external ≤ 34 }
    requires number { number < 1020 }
    ensures { result ≡ port_numbered external number }
{
    Slot {
        line: external + (number / 30) as u8,
        place: (number % 30) as u8,
    }
}

//! A bridge that mixes all rooms of a frame at once.

ghost use Rattle.std.specs.Prelude.{◌≡◌, ℕ, ◌≤◌, ◌<◌, None, Some, length, replicate, slice_set, slice_index, slice_index_or, EachIndex};
ghost use Rattle.circuit_model.specs.ALaw.{compress};
ghost use Rattle.conference_mix.specs.Bridge.{max_members};
ghost use Rattle.conference_mix.specs.Rooms.{given_at};

use crate::{MAX_MEMBERS, value_of};
use alaw_codec::CodeTable;
use std::marker::Model;

/// The room of the free ports, after all rooms that an octet can number. Nothing is added to it, so a free port gets
/// the code of 0, which is the idle octet.
const FREE: u16 = 256;

/// The number of rooms with a total, including the room of the free ports.
const ROOMS: usize = 257;

/// A member of a room, at a port of a bridge.
#[derive(Clone, Copy, Debug)]
pub struct RoomMember {
    /// The number of its room.
    pub room: u8,
    /// The octet that it sent, or `None` if none of it counts yet.
    pub octet: Option<u8>,
}

/// A bridge during the mixing of one frame: the total of each room, and for each port the room of its member and the
/// summand of the member. Contracts see the member of each port.
///
/// Members are added in any order and to any rooms. Then each receives the total of its room without its own value. The
/// work does not depend on the distribution of the members over rooms.
#[derive(Debug, Drop)]
pub struct Mixer {
    ports: usize,
    totals: [i32; ROOMS],
    rooms: [u16; MAX_MEMBERS],
    own: [i32; MAX_MEMBERS],
}

impl Model for Mixer {
    ghost use Rattle.std.specs.Prelude.{List, Option};
    ghost use Rattle.conference_mix.specs.declared.mixer.RoomMember.{RoomMember};
    ghost use Rattle.conference_mix.specs.Seats.{seats_kept, IsKept};

    ghost Value = { List (Option RoomMember) };

    ghost view = { λ m. seats_kept m.ports m.rooms m.own };

    ghost invariant = { λ m. IsKept m.ports m.totals m.rooms m.own };
}

impl Mixer {
    /// Returns a bridge of n free ports.
    pub fn new(ports: usize) -> Mixer
        requires { ports ≤ max_members }
        ensures { result ≡ replicate ports None }
    {
        Mixer {
            ports,
            totals: [0; ROOMS],
            rooms: [FREE; MAX_MEMBERS],
            own: [0; MAX_MEMBERS],
        }
    }

    /// Puts a member at a free port, and adds its value to its room.
    pub fn add(&mut self, port: usize, member: RoomMember)
        requires port { port < length self.old }
        requires free { slice_index_or self.old port None ≡ None }
        ensures { self.new ≡ slice_set self.old port (Some member) }
    {
        let value = value_of(member.octet);
        self.totals[usize::from(member.room)] += value;
        self.rooms[port] = u16::from(member.room);
        self.own[port] = value;
    }

    /// Writes to each place of `out` the octet of the port there: the A-law octet of the sum of the values of the other
    /// members of its room, or the idle octet if the port is free.
    ///
    /// Each room gets the octets that [`mix`](crate::mix) gives it. Sums are exact and saturate only in their coding
    /// (ITU-T G.711 (11/88), table 1a).
    pub fn mix(&self, codes: &CodeTable, out: &mut [u8])
        requires same { length out.old ≡ length self.now }
        ensures { EachIndex self.now (λ k. slice_index out.new k ≡ given_at k self.now) }
    {
        for (port, octet) in out.iter_mut().enumerate() {
            *octet = codes.compress(self.total_without(port));
        }
    }

    // Returns the total of a port's room without the port's own summand.
    fn total_without(&self, port: usize) -> i32
        requires { port < length self.now }
        ensures { compress result ≡ given_at port self.now }
    {
        let totals = &self.totals;
        totals[usize::from(self.rooms[port])] - self.own[port]
    }
}

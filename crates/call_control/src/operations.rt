//! The state of call control, and its single operations.
ghost use Rattle.std.specs.Prelude.{◌≡◌, ◌≢◌, ◌*◌, ◌≤◌, ◌<◌, ◌+◌, [], ◌∷◌, true, false, length, None, Some, IsTrue};
ghost use Rattle.circuit_model.specs.declared.channel.Slot.{Slot};
ghost use Rattle.circuit_model.specs.Extent.{IsExternal};
ghost use Rattle.circuit_model.specs.Holding.{Connect, Seat as Take_seat, Clear};
ghost use Rattle.circuit_map.specs.Connections.{SameSizes, hears_at, hears_after};
ghost use Rattle.q931_codec.specs.CallStates.{overlap_sending, active};
ghost use Rattle.q931_codec.specs.Outgoing.{IsWritable, outgoing_of};
ghost use Rattle.call_states.specs.Acts.{is_among};
ghost use Rattle.call_states.specs.Status.{FitsMessages};
ghost use Rattle.exchange_events.specs.Limits.{max_sends};
ghost use Rattle.call_profile.specs.Acts.{answered};
ghost use Rattle.call_profile.specs.KeptMessages.{awaiting_answer};
ghost use Rattle.call_profile.specs.IdleSlots.{idle};
ghost use Rattle.call_profile.specs.Legs.{waiting_from, retransmitted_from, leg_at, with_leg, with_waiting, without_leg};
ghost use Rattle.call_profile.specs.Operations.{Put, Wait, Expect, Await, moves_for, moves_of_seat, with_tone};
ghost use Rattle.call_profile.specs.Permitted.{CanSeat};
ghost use Rattle.call_control.specs.Standing.{Holds, Performs, PerformsQuietly};
ghost use Rattle.exchange_events.specs.Sizes.{Dimensions};
ghost use Rattle.call_profile.specs.World.{World, obey};

use call_profile::{retransmitted_from, waiting_from};
use call_states::{Condition, Leg, Pending};
use circuit_map::CircuitMap;
use circuit_model::{Kind, Slot};
use control_memory::PathMap;
use exchange_events::{Encoded, Outbox, Signal};
use leg_table::LegTable;
use q931_codec::{Outgoing, write};

/// The state of call control: the live circuits, with their paths and conference ports, and the legs of the calls. Each
/// has its own invariant, and `Holds` joins them. No operation allocates.
#[derive(Debug, Drop)]
pub struct CallControl<P: PathMap> {
    /// The circuits, with their paths and conference ports.
    pub map: CircuitMap<P>,
    /// The legs of the calls, by their slots.
    pub legs: LegTable,
}

impl<P: PathMap> CallControl<P> {
    /// Returns whether a slot has no circuit and no leg.
    pub fn is_idle(&self, x: Slot) -> bool
        requires external { IsExternal self.now.map.external x }
        ensures idle { (d : Dimensions) (w : World) → Holds d self.now.map self.now.legs w → result ≡ idle w x }
        ensures silent { IsTrue result → hears_at self.now.map x ≡ None }
        ensures none { IsTrue result → leg_at self.now.legs x ≡ None }
    {
        self.map.idle(x) && self.legs.get(x).is_none()
    }

    /// Releases every circuit at a slot.
    pub fn clear(&mut self, x: Slot)
        requires external { IsExternal self.old.map.external x }
        ensures holds { (d : Dimensions) (w : World) → Holds d self.old.map self.old.legs w → Holds d self.new.map self.new.legs (obey d w (Clear x)) }
        ensures hears { (z : Slot) → hears_at self.new.map z ≡ hears_after self.old.map (Clear x) z }
        ensures silent { hears_at self.new.map x ≡ None }
        ensures legs { self.new.legs ≡ self.old.legs }
        ensures sizes { SameSizes self.old.map self.new.map }
    {
        self.map.clear(x);
    }

    /// Connects two slots without circuits in both directions, and returns the number of live paths that were moved in
    /// each direction.
    pub fn pair(&mut self, x: Slot, y: Slot) -> (u32, u32)
        requires external_x { IsExternal self.old.map.external x }
        requires external_y { IsExternal self.old.map.external y }
        requires distinct { x ≢ y }
        requires silent_x { hears_at self.old.map x ≡ None }
        requires silent_y { hears_at self.old.map y ≡ None }
        ensures holds { (d : Dimensions) (w : World) → Holds d self.old.map self.old.legs w → Holds d self.new.map self.new.legs (obey d w (Connect x y)) }
        ensures moves { (d : Dimensions) (w : World) → Holds d self.old.map self.old.legs w → result ≡ moves_for d w.layout x y }
        ensures few { (result.0 ≤ self.old.map.bound) × (result.1 ≤ self.old.map.bound) }
        ensures legs { self.new.legs ≡ self.old.legs }
        ensures sizes { SameSizes self.old.map self.new.map }
    {
        self.map.pair(x, y)
    }

    /// Adds a slot without a circuit to a room that has a free port, and returns the number of live paths that were
    /// moved in each direction.
    pub(crate) fn seat(&mut self, x: Slot, room: u8) -> (u32, u32)
        requires can { (d : Dimensions) × (w : World) × Holds d self.old.map self.old.legs w × CanSeat d w x }
        ensures holds { (d : Dimensions) (w : World) → Holds d self.old.map self.old.legs w → Holds d self.new.map self.new.legs (obey d w (Take_seat x room)) }
        ensures moves { (d : Dimensions) (w : World) → Holds d self.old.map self.old.legs w → Some result ≡ moves_of_seat d w x }
        ensures few { (result.0 ≤ self.old.map.bound) × (result.1 ≤ self.old.map.bound) }
        ensures legs { self.new.legs ≡ self.old.legs }
        ensures sizes { SameSizes self.old.map self.new.map }
    {
        let Ok(moves) = self.map.seat(x, room) else {
            unreachable!();
        };
        moves
    }

    /// Connects a slot without a circuit to a tone, if there is one.
    pub(crate) fn sound(&mut self, x: Slot, tone: Option<Kind>)
        requires external { IsExternal self.old.map.external x }
        requires silent { hears_at self.old.map x ≡ None }
        ensures holds { (d : Dimensions) (w : World) → Holds d self.old.map self.old.legs w
            → Holds d self.new.map self.new.legs (record w { holding = with_tone w.holding x tone }) }
        ensures legs { self.new.legs ≡ self.old.legs }
        ensures sizes { SameSizes self.old.map self.new.map }
    {
        if let Some(kind) = tone {
            self.map.tone(x, kind);
        }
    }

    /// Places a leg at a slot from the next frame on, and replaces any other. Drops a pending number and a stored
    /// message there.
    pub(crate) fn put(&mut self, x: Slot, leg: Leg)
        requires external { IsExternal self.old.map.external x }
        requires count { length self.old.legs.held ≡ 30 * self.old.map.external }
        requires told { FitsMessages leg }
        requires state { leg.state ≢ overlap_sending }
        requires unanswered { is_among awaiting_answer leg.state ≡ false }
        ensures legs { self.new.legs ≡ with_leg self.old.legs x (waiting_from self.old.map.next leg) }
        ensures map { self.new.map ≡ self.old.map }
        ensures makes { PerformsQuietly (Put x leg ∷ []) self.old.map self.old.legs self.new.map self.new.legs }
    {
        self.legs.put(x, waiting_from(self.map.next_frame(), leg));
    }

    /// Places a leg at a slot from the next frame on, and replaces any other. The leg waits there with its number.
    pub(crate) fn wait(&mut self, x: Slot, leg: Leg, pending: Pending)
        requires external { IsExternal self.old.map.external x }
        requires count { length self.old.legs.held ≡ 30 * self.old.map.external }
        requires told { FitsMessages leg }
        requires state { leg.state ≡ overlap_sending }
        ensures legs { self.new.legs ≡ with_waiting self.old.legs x (waiting_from self.old.map.next leg) pending }
        ensures map { self.new.map ≡ self.old.map }
        ensures makes { PerformsQuietly (Wait x leg pending ∷ []) self.old.map self.old.legs self.new.map self.new.legs }
    {
        self.legs
            .put_pending(x, waiting_from(self.map.next_frame(), leg), pending);
    }

    /// Places a leg at a slot from the next frame on, and replaces any other. Sends this message to its user, and
    /// stores it for a retransmission.
    pub(crate) fn expect(&mut self, out: &mut Outbox, x: Slot, leg: Leg, message: &Outgoing)
        requires external { IsExternal self.old.map.external x }
        requires count { length self.old.legs.held ≡ 30 * self.old.map.external }
        requires told { FitsMessages leg }
        requires state { is_among awaiting_answer leg.state ≡ true }
        requires room { length out.old.sends < max_sends }
        requires writable { IsWritable (outgoing_of message.now) }
        ensures makes { Performs (Expect x leg (outgoing_of message.now) ∷ []) self.old.map self.old.legs out.old self.new.map self.new.legs out.new }
        ensures count { length self.new.legs.held ≡ length self.old.legs.held }
        ensures sends { length out.new.sends ≡ length out.old.sends + 1 }
        ensures moved { out.new.moved ≡ out.old.moved }
        ensures records { out.new.records ≡ out.old.records }
        ensures map { self.new.map ≡ self.old.map }
    {
        let octets = Encoded::of(write(message));
        let leg = waiting_from(self.map.next_frame(), leg);
        self.legs.put_awaiting(x, leg, &octets);
        out.sends.push(Signal {
            line: x.line,
            octets,
        });
    }

    /// Places a leg in state 10 at a slot from the next frame on, and replaces any other. T309 starts if the data link of
    /// its line is down.
    pub(crate) fn put_answered(&mut self, x: Slot, leg: Leg)
        requires external { IsExternal self.old.map.external x }
        requires count { length self.old.legs.held ≡ 30 * self.old.map.external }
        requires told { FitsMessages leg }
        requires state { leg.state ≡ active }
        ensures count { length self.new.legs.held ≡ length self.old.legs.held }
        ensures down { self.new.legs.down ≡ self.old.legs.down }
        ensures map { self.new.map ≡ self.old.map }
        ensures makes { PerformsQuietly (answered self.old.legs x leg ∷ []) self.old.map self.old.legs self.new.map self.new.legs }
    {
        if self.legs.is_down(x.line) {
            self.await_link(x, leg);
        } else {
            self.put(x, leg);
        }
    }

    /// Places a leg in state 10 at a slot, and replaces any other. T309 starts in the next frame.
    pub(crate) fn await_link(&mut self, x: Slot, leg: Leg)
        requires external { IsExternal self.old.map.external x }
        requires count { length self.old.legs.held ≡ 30 * self.old.map.external }
        requires told { FitsMessages leg }
        requires state { leg.state ≡ active }
        ensures legs { self.new.legs ≡ with_leg self.old.legs x (retransmitted_from self.old.map.next leg) }
        ensures map { self.new.map ≡ self.old.map }
        ensures makes { PerformsQuietly (Await x leg ∷ []) self.old.map self.old.legs self.new.map self.new.legs }
    {
        let leg = retransmitted_from(self.map.next_frame(), leg);
        self.legs.put(x, leg);
    }

    /// Removes the leg at a slot, with a pending number and a stored message there. Stores the condition
    /// of its channel.
    pub(crate) fn remove(&mut self, x: Slot, condition: Condition)
        requires external { IsExternal self.old.map.external x }
        requires count { length self.old.legs.held ≡ 30 * self.old.map.external }
        ensures legs { self.new.legs ≡ without_leg self.old.legs x condition }
        ensures map { self.new.map ≡ self.old.map }
    {
        self.legs.remove(x, condition);
    }
}

//! An accepted call, by a SETUP or by a number that is now complete: its legs are made, and its users are sent the
//! messages of the new call.
ghost use Rattle.std.specs.Prelude.{◌≡◌, ◌+◌, ◌*◌, ◌<◌, ◌≤◌, ◌^◌, ◌++◌, [], ◌∷◌, None, IfSome, length};
ghost use Rattle.circuit_map.specs.Connections.{SameSizes};
ghost use Rattle.circuit_model.specs.Extent.{IsExternal};
ghost use Rattle.q931_codec.specs.Outgoing.{outgoing_of};
ghost use Rattle.call_states.specs.Pending.{FitsElements};
ghost use Rattle.call_states.specs.Status.{FitsMessages};
ghost use Rattle.exchange_events.specs.Limits.{max_sends};
ghost use Rattle.exchange_events.specs.Sizes.{Dimensions};
ghost use Rattle.call_profile.specs.Operations.{making_at, making_after_all};
ghost use Rattle.call_profile.specs.Permitted.{CanSeat};
ghost use Rattle.call_profile.specs.Setup.{caller_leg, called_leg, with_channel, setup_acknowledge, offer, call_line, call_room, await_digits};
ghost use Rattle.call_profile.specs.World.{World};
ghost use Rattle.call_control.specs.Asked.{asked_of};
ghost use Rattle.call_control.specs.Choices.{IsWithin, SeatsInRoom, accept_side, proceeding_sent};
ghost use Rattle.call_control.specs.Standing.{Holds, Makes, Performs};

use crate::asked::{Asked, pending_of};
use crate::operations::CallControl;
use crate::sending::{message_to, send};
use crate::setup_checks::CalledSide;
use call_states::{Leg, Peer, Side};
use circuit_model::{Slot, channel_of};
use control_memory::PathMap;
use exchange_events::Outbox;
use q931_codec::states::{ACTIVE, CALL_PRESENT, OUTGOING_CALL_PROCEEDING, OVERLAP_SENDING};
use q931_codec::{MessageKind, Outgoing};

/// The caller of an accepted call.
#[derive(Clone, Copy)]
pub(crate) struct Caller {
    /// Its slot.
    pub slot: Slot,
    /// Its call reference value.
    pub reference: u16,
    /// Whether no reply to its SETUP was sent yet. The first reply states the channel of its call.
    pub first: bool,
}

impl<P: PathMap> CallControl<P> {
    /// Makes the legs of a call with these contents and the called side that was chosen for it.
    pub(crate) fn accept(
        &mut self,
        out: &mut Outbox,
        caller: Caller,
        asked: &Asked,
        called: CalledSide,
    )
        requires external { IsExternal self.old.map.external caller.slot }
        requires count { length self.old.legs.held ≡ 30 * self.old.map.external }
        requires within { IsWithin self.old.map.external called }
        requires seats { SeatsInRoom self.old.map self.old.legs caller.slot called }
        requires reference { caller.reference < 2 ^ 15 }
        requires fits { FitsElements (asked_of asked.now) }
        requires fresh { (out.old.sends ≡ []) × (out.old.moved ≡ None) }
        ensures makes { (d : Dimensions) (w : World) → Holds d self.old.map self.old.legs w → Makes d self.new.map self.new.legs out.new.sends out.new.moved
            (making_after_all d (making_at w) (accept_side caller.first w caller.reference (asked_of asked.now) caller.slot called)) }
        ensures few { IfSome out.new.moved (λ moves. (moves.0 ≤ self.old.map.bound) × (moves.1 ≤ self.old.map.bound)) }
        ensures sizes { SameSizes self.old.map self.new.map }
    {
        match called {
            CalledSide::Line(slot) => {
                let reference = self.legs.lowest_free_reference(slot.line);
                self.call_line(out, caller, asked, slot, reference);
            }
            CalledSide::Room(room) => self.call_room(out, caller, room),
            CalledSide::More => self.await_digits(out, caller, asked),
        }
    }

    // Makes a call to a line: the caller waits, and the called user is sent a SETUP with this reference.
    fn call_line(
        &mut self,
        out: &mut Outbox,
        caller: Caller,
        asked: &Asked,
        y: Slot,
        reference: u16,
    )
        requires external_x { IsExternal self.old.map.external caller.slot }
        requires external_y { IsExternal self.old.map.external y }
        requires count { length self.old.legs.held ≡ 30 * self.old.map.external }
        requires room { length out.old.sends ≤ 60 }
        requires own { caller.reference < 2 ^ 15 }
        requires reference { reference < 2 ^ 15 }
        requires fits { FitsElements (asked_of asked.now) }
        ensures makes { Performs (call_line caller.first caller.reference (asked_of asked.now) caller.slot y reference)
            self.old.map self.old.legs out.old self.new.map self.new.legs out.new }
        ensures moved { out.new.moved ≡ out.old.moved }
        ensures map { self.new.map ≡ self.old.map }
    {
        let x = caller.slot;
        let calling = caller_leg(OUTGOING_CALL_PROCEEDING, caller.reference, Peer::Leg(y));
        let called = called_leg(reference, x);
        self.put(x, calling);
        send_proceeding(out, caller, &calling);
        self.expect(out, y, called, &offer(asked, y, &called));
    }

    // Places a caller that waits for further digits, and sends SETUP ACKNOWLEDGE once.
    fn await_digits(&mut self, out: &mut Outbox, caller: Caller, asked: &Asked)
        requires external { IsExternal self.old.map.external caller.slot }
        requires count { length self.old.legs.held ≡ 30 * self.old.map.external }
        requires room { length out.old.sends ≤ 60 }
        requires own { caller.reference < 2 ^ 15 }
        requires fits { FitsElements (asked_of asked.now) }
        ensures makes { Performs (await_digits caller.first caller.reference (asked_of asked.now) caller.slot)
            self.old.map self.old.legs out.old self.new.map self.new.legs out.new }
        ensures moved { out.new.moved ≡ out.old.moved }
        ensures map { self.new.map ≡ self.old.map }
    {
        let x = caller.slot;
        let calling = caller_leg(OVERLAP_SENDING, caller.reference, Peer::Alone);
        self.wait(x, calling, pending_of(asked));
        if caller.first {
            send(out, x.line, &setup_acknowledge(x, &calling));
        }
    }

    // Makes a call to a conference room, which is connected at once.
    fn call_room(&mut self, out: &mut Outbox, caller: Caller, room: u8)
        requires can { (d : Dimensions) × (w : World) × Holds d self.old.map self.old.legs w × CanSeat d w caller.slot }
        requires external { IsExternal self.old.map.external caller.slot }
        requires count { length self.old.legs.held ≡ 30 * self.old.map.external }
        requires room { length out.old.sends ≤ 60 }
        requires own { caller.reference < 2 ^ 15 }
        ensures makes { Performs (call_room caller.first self.old.legs caller.reference caller.slot room)
            self.old.map self.old.legs out.old self.new.map self.new.legs out.new }
        ensures few { IfSome out.new.moved (λ moves. (moves.0 ≤ self.old.map.bound) × (moves.1 ≤ self.old.map.bound)) }
        ensures sizes { SameSizes self.old.map self.new.map }
    {
        let x = caller.slot;
        let calling = caller_leg(ACTIVE, caller.reference, Peer::Room(room));
        self.put_answered(x, calling);
        out.moved = Some(self.seat(x, room));
        send_proceeding(out, caller, &calling);
        send(out, x.line, &message_to(&calling, MessageKind::Connect));
    }
}

// Sends CALL PROCEEDING to a caller. As the first reply it states the channel.
fn send_proceeding(out: &mut Outbox, caller: Caller, leg: &Leg)
    requires place { caller.slot.place < 30 }
    requires room { length out.old.sends < max_sends }
    requires told { FitsMessages leg.now }
    ensures sends { out.new.sends ≡ out.old.sends ++ proceeding_sent caller.first caller.slot leg.now ∷ [] }
    ensures moved { out.new.moved ≡ out.old.moved }
{
    let message = message_to(leg, MessageKind::CallProceeding);
    if caller.first {
        send(out, caller.slot.line, &with_channel(caller.slot, message));
    } else {
        send(out, caller.slot.line, &message);
    }
}

// Returns the caller's leg of a new call, before it holds a slot.
fn caller_leg(state: u8, reference: u16, peer: Peer) -> Leg
    ensures { result ≡ caller_leg state reference peer }
{
    Leg {
        state,
        reference,
        side: Side::Caller,
        peer,
        cause: 0,
        since: 0,
        resent: false,
        enquired: false,
    }
}

// Returns the called leg of a new call, before it holds a slot.
fn called_leg(reference: u16, caller: Slot) -> Leg
    ensures { result ≡ called_leg reference caller }
{
    Leg {
        state: CALL_PRESENT,
        reference,
        side: Side::Called,
        peer: Peer::Leg(caller),
        cause: 0,
        since: 0,
        resent: false,
        enquired: false,
    }
}

// Returns the SETUP ACKNOWLEDGE that states the caller's channel and requests further digits.
fn setup_acknowledge(x: Slot, leg: &Leg) -> Outgoing<'static>
    requires place { x.place < 30 }
    ensures { outgoing_of result ≡ setup_acknowledge x leg.now }
{
    with_channel(x, message_to(leg, MessageKind::SetupAcknowledge))
}

// Returns a message that states the channel of the user's call.
fn with_channel(x: Slot, message: Outgoing<'static>) -> Outgoing<'static>
    requires place { x.place < 30 }
    ensures { outgoing_of result ≡ with_channel x (outgoing_of message.entry) }
{
    Outgoing {
        channel: Some(channel_of(x.place)),
        ..message
    }
}

// Returns the SETUP to the called user.
fn offer<'a>(asked: &Asked<'a>, y: Slot, leg: &Leg) -> Outgoing<'a>
    requires place { y.place < 30 }
    ensures { outgoing_of result ≡ offer (asked_of asked.now) y leg.now }
{
    Outgoing {
        complete: true,
        bearer: asked.bearer,
        channel: Some(channel_of(y.place)),
        calling: asked.calling,
        called: asked.called,
        low: asked.low,
        high: asked.high,
        ..message_to(leg, MessageKind::Setup)
    }
}

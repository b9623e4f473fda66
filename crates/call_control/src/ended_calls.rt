//! The record of a call whose clearing begins.
ghost use Rattle.std.specs.Prelude.{◌≡◌, IfSome};
ghost use Rattle.circuit_model.specs.Extent.{IsExternal};
ghost use Rattle.call_profile.specs.Acts.{peer_of};
ghost use Rattle.call_profile.specs.CallRecords.{conversation_begin};
ghost use Rattle.call_profile.specs.EndedCalls.{cause_of_act_at, record_calling, record_ended, record_of_act};
ghost use Rattle.call_control.specs.Standing.{Holds};
ghost use Rattle.exchange_events.specs.Sizes.{Dimensions};
ghost use Rattle.call_profile.specs.World.{World};

use crate::operations::CallControl;
use call_profile::{first_frame_of, is_calling, party_of};
use call_states::{Act, HeldLeg, Leg, Side};
use control_memory::PathMap;
use exchange_events::CallRecord;
use q931_codec::causes::MESSAGE_NOT_COMPATIBLE_WITH_CALL_STATE;
use q931_codec::states::ACTIVE;

impl<P: PathMap> CallControl<P> {
    /// Returns the record of a leg's call if this act on the leg begins to clear it. The caller calls it before the
    /// act, because the act releases the circuit that shows the first frame of the conversation.
    pub(crate) fn record_of_act(
        &self,
        held: &HeldLeg,
        peer: &Option<HeldLeg>,
        act: Act,
    ) -> Option<CallRecord>
        requires external { IsExternal self.now.map.external held.now.slot }
        requires peer_external { IfSome peer.now (λ other. IsExternal self.now.map.external other.slot) }
        requires peer { peer.now ≡ peer_of self.now.legs held.now.leg.peer }
        ensures { (d : Dimensions) (w : World) → Holds d self.now.map self.now.legs w → result ≡ record_of_act w held.now act }
    {
        self.record_ended(held, peer, cause_of_act_at(&held.leg, act)?)
    }

    /// Returns the record of a leg's call, if its clearing has not begun.
    pub(crate) fn record_ended(
        &self,
        held: &HeldLeg,
        peer: &Option<HeldLeg>,
        cause: u8,
    ) -> Option<CallRecord>
        requires external { IsExternal self.now.map.external held.now.slot }
        requires peer_external { IfSome peer.now (λ other. IsExternal self.now.map.external other.slot) }
        requires peer { peer.now ≡ peer_of self.now.legs held.now.leg.peer }
        ensures { (d : Dimensions) (w : World) → Holds d self.now.map self.now.legs w → result ≡ record_ended w held.now cause }
    {
        match held.leg.side {
            Side::Caller => self.record_calling(held, cause),
            Side::Called => match peer {
                Some(caller) => self.record_calling(caller, cause),
                None => None,
            },
        }
    }

    // Returns the record of a call from its caller's leg, if its clearing has not begun.
    fn record_calling(&self, caller: &HeldLeg, cause: u8) -> Option<CallRecord>
        requires external { IsExternal self.now.map.external caller.now.slot }
        ensures { (d : Dimensions) (w : World) → Holds d self.now.map self.now.legs w → result ≡ record_calling w cause caller.now }
    {
        if !is_calling(&caller.leg) {
            return None;
        }
        let called = party_of(caller.leg.peer)?;
        Some(CallRecord {
            caller: caller.slot,
            called,
            answered: caller.leg.state == ACTIVE,
            from: self.conversation_begin(caller),
            to: self.map.next_frame(),
            cause,
        })
    }

    // Returns the first frame of the conversation, or the next frame if there was none.
    fn conversation_begin(&self, caller: &HeldLeg) -> u32
        requires external { IsExternal self.now.map.external caller.now.slot }
        ensures { (d : Dimensions) (w : World) → Holds d self.now.map self.now.legs w → result ≡ conversation_begin w caller.now }
    {
        if caller.leg.state != ACTIVE {
            return self.map.next_frame();
        }
        match self.map.circuit_at(caller.slot) {
            Some(circuit) => first_frame_of(circuit),
            None => self.map.next_frame(),
        }
    }
}

// Returns the cause with which an act clears the call of a leg, if it clears it. What a user reports matters only if it
// was asked.
fn cause_of_act_at(leg: &Leg, act: Act) -> Option<u8>
    ensures { result ≡ cause_of_act_at leg.now act }
{
    match act {
        Act::Report(reported) if leg.enquired && reported != ACTIVE => {
            Some(MESSAGE_NOT_COMPATIBLE_WITH_CALL_STATE)
        }
        _ => act.cause(),
    }
}

//! The parts of a call record that its caller's leg gives.
ghost use Rattle.std.specs.Prelude.{◌≡◌, Some};
ghost use Rattle.circuit_model.specs.Circuits.{first_frame_of};
ghost use Rattle.call_profile.specs.CallRecords.{is_calling, party_of};

use call_states::{Leg, Peer, Side};
use circuit_model::Circuit;
use exchange_events::Party;
use q931_codec::states::{ACTIVE, CALL_DELIVERED, OUTGOING_CALL_PROCEEDING};

/// Returns whether a leg is a caller's, of a call whose clearing has not begun.
pub fn is_calling(leg: &Leg) -> bool
    ensures { result ≡ is_calling (Some leg.now) }
{
    let is_up = matches!(
        leg.state,
        OUTGOING_CALL_PROCEEDING | CALL_DELIVERED | ACTIVE
    );
    leg.side == Side::Caller && is_up
}

/// Returns the party that a caller called, by its leg's peer.
pub fn party_of(peer: Peer) -> Option<Party>
    ensures { result ≡ party_of peer }
{
    match peer {
        Peer::Alone => None,
        Peer::Leg(slot) => Some(Party::Line(slot)),
        Peer::Room(room) => Some(Party::Room(room)),
    }
}

/// Returns the first frame of a circuit.
pub fn first_frame_of(circuit: Circuit) -> u32
    ensures { result ≡ first_frame_of circuit }
{
    match circuit {
        Circuit::Pair { since, .. } | Circuit::Member { since, .. } | Circuit::Tone { since, .. } =>
            since,
    }
}

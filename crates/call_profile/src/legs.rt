//! The leg that a message is for, and the first frame of a leg's wait.
ghost use Rattle.std.specs.Prelude.{◌≡◌};
ghost use Rattle.call_profile.specs.Legs.{waiting_from, is_addressed_to, retransmitted_from};

use call_states::{HeldLeg, Leg, Side};

/// Returns whether a message from a user with this call reference flag and value is for a leg (ITU-T Q.931 (05/98),
/// 4.3). The flag indicates the side that chose the value.
pub fn is_addressed_to(flag: bool, reference: u16, held: HeldLeg) -> bool
    ensures { result ≡ is_addressed_to flag reference held }
{
    let side = if flag { Side::Called } else { Side::Caller };
    held.leg.side == side && held.leg.reference == reference
}

/// Returns a leg that waits in its state from this frame on, as stored at a slot.
pub fn waiting_from(next: u32, leg: Leg) -> Leg
    ensures { result ≡ waiting_from next leg }
{
    Leg {
        since: next,
        resent: false,
        ..leg
    }
}

/// Returns a leg whose wait restarts in this frame after a retransmission.
pub fn retransmitted_from(next: u32, leg: Leg) -> Leg
    ensures { result ≡ retransmitted_from next leg }
{
    Leg {
        since: next,
        resent: true,
        ..leg
    }
}

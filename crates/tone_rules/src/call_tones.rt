//! The tone of a leg in its state.

ghost use Rattle.std.specs.Prelude.{◌≡◌, IfSome};
ghost use Rattle.tone_rules.specs.Tables.{IsGiven};
ghost use Rattle.tone_rules.specs.CallTones.{tone_for, tone_given};

use crate::tones::Tones;
use circuit_model::Kind;
use q931_codec::causes::USER_BUSY;
use q931_codec::states::{CALL_DELIVERED, DISCONNECT_INDICATION};

/// Returns the tone of a leg of a call, by its call state value (Q.931, 4.5.7) and the cause value (4.5.12) with which
/// it was cleared. The tone is ringing tone in state 4, call delivered, with every cause, and busy tone in state 12,
/// disconnect indication, with cause 17, user busy. It is `None` for every other pair.
pub fn tone_for(state: u8, cause: u8) -> Option<Kind>
    ensures { result ≡ tone_for state cause }
{
    match (state, cause) {
        (CALL_DELIVERED, _) => Some(Kind::Ringback),
        (DISCONNECT_INDICATION, USER_BUSY) => Some(Kind::Busy),
        _ => None,
    }
}

/// Returns the tone that the slot of such a leg gets: the one of [`tone_for`], or `None` if the trace does not give it.
pub fn tone_given(tones: &Tones, state: u8, cause: u8) -> Option<Kind>
    ensures tone { result ≡ tone_given tones.now state cause }
    ensures octets { IfSome result (IsGiven tones.now) }
{
    tone_for(state, cause).filter(|kind| tones.is_given(*kind))
}

//! The act of a timer's expiry, and the frame in which it is due.

ghost use Rattle.std.specs.Prelude.{◌≡◌, ◌<◌, ℕ, None};
ghost use Rattle.call_timers.specs.Expiries.{due, expiry_in, frames_to};

use crate::timers::Timers;
use q931_codec::states::{
    ACTIVE, CALL_PRESENT, CALL_RECEIVED, DISCONNECT_INDICATION, INCOMING_CALL_PROCEEDING,
    OVERLAP_SENDING, RELEASE_REQUEST,
};

/// The act of a timer's expiry (Q.931, 9.1, table 9-1).
#[derive(Clone, Copy, Debug, PartialEq, Eq)]
pub enum Expiry {
    /// T302 in overlap sending: the number stays incomplete.
    Digits,
    /// T303 in call present, for the first time: the SETUP is retransmitted.
    SetupAgain,
    /// T303 in call present, for the second time: the called user does not answer.
    SetupOver,
    /// T310 in incoming call proceeding: the called user neither alerts nor answers.
    Proceeding,
    /// T301 in call received: the called user is alerted and does not answer.
    Alerting,
    /// T309 in active: the data link of the leg's line did not come up again.
    Outage,
    /// T305 in disconnect indication: the user is asked to release the call.
    Disconnect,
    /// T308 in release request, for the first time: the RELEASE is retransmitted.
    ReleaseAgain,
    /// T308 in release request, for the second time: the user does not complete the release.
    ReleaseOver,
}

/// Returns the expiry that is due in a frame at a leg in this call state (Q.931, 4.5.7). `since` is the first frame of
/// its wait, and `resent` whether its SETUP or RELEASE was retransmitted, or in active whether T309 runs. The result is
/// `Some` if and only if the state has a timer that has expired in this frame or before it. The arguments are not a leg,
/// so that timers are proved below the calls.
pub fn due(state: u8, resent: bool, since: u32, frame: u32, timers: &Timers) -> Option<Expiry>
    ensures { result ≡ due state resent since frame timers.now }
{
    let expiry = expiry_in(state, resent)?;
    // Returns a frame before which nothing is due at such a leg: the frame in which its timer expires. If that is not
    // below 2^32, or the state has no timer, it returns the greatest number.
    let end = u64::from(since) + u64::from(frames_to(timers, expiry));
    if end <= u64::from(frame) {
        Some(expiry)
    } else {
        None
    }
}

/// Returns a frame before which nothing is due at such a leg: the frame in which its timer expires. If no frame below
/// 2^32 is that one, or the state has no timer, it returns the greatest number.
pub fn next_due_frame(state: u8, resent: bool, since: u32, timers: &Timers) -> u32
    ensures { (frame : ℕ) → frame < result → due state resent since frame timers.now ≡ None }
{
    match expiry_in(state, resent) {
        Some(expiry) => since.saturating_add(frames_to(timers, expiry)),
        None => u32::MAX,
    }
}

// Returns the act of the expiry of the state's timer, if it has one.
fn expiry_in(state: u8, resent: bool) -> Option<Expiry>
    ensures { result ≡ expiry_in state resent }
{
    match (state, resent) {
        (OVERLAP_SENDING, _) => Some(Expiry::Digits),
        (CALL_PRESENT, false) => Some(Expiry::SetupAgain),
        (CALL_PRESENT, true) => Some(Expiry::SetupOver),
        (INCOMING_CALL_PROCEEDING, _) => Some(Expiry::Proceeding),
        (CALL_RECEIVED, _) => Some(Expiry::Alerting),
        (ACTIVE, true) => Some(Expiry::Outage),
        (DISCONNECT_INDICATION, _) => Some(Expiry::Disconnect),
        (RELEASE_REQUEST, false) => Some(Expiry::ReleaseAgain),
        (RELEASE_REQUEST, true) => Some(Expiry::ReleaseOver),
        _ => None,
    }
}

// Returns the number of frames that its timer runs.
fn frames_to(timers: &Timers, expiry: Expiry) -> u32
    ensures { result ≡ frames_to timers.now expiry }
{
    match expiry {
        Expiry::Digits => timers.t302,
        Expiry::SetupAgain | Expiry::SetupOver => timers.t303,
        Expiry::Proceeding => timers.t310,
        Expiry::Alerting => timers.t301,
        Expiry::Outage => timers.t309,
        Expiry::Disconnect => timers.t305,
        Expiry::ReleaseAgain | Expiry::ReleaseOver => timers.t308,
    }
}

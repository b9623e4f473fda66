//! The time that a leg of a call waits in a state.

ghost use Rattle.std.specs.Prelude.{◌≡◌};
ghost use Rattle.call_timers.specs.Expiries.{usual};

/// The timers of calls at the network side of an interface (Q.931, 9.1, table 9-1), each in frames of 125
/// microseconds.
#[derive(Clone, Copy, Debug, PartialEq, Eq)]
pub struct Timers {
    /// T301: the time for an alerted called user to answer.
    pub t301: u32,
    /// T302: the time for the next digits of a number.
    pub t302: u32,
    /// T303: the time for a called user's first reply to a SETUP.
    pub t303: u32,
    /// T305: the time for a user to release a call after DISCONNECT.
    pub t305: u32,
    /// T308: the time for a user to complete a RELEASE.
    pub t308: u32,
    /// T309: the time for a data link that is down to come up again before its active calls are cleared.
    pub t309: u32,
    /// T310: the time for a called user with complete information to alert or to answer.
    pub t310: u32,
}

impl Timers {
    /// Returns the usual timers: 180 seconds, 15, 4, 30, 4, 6 and 10, which are values of table 9-1, in frames.
    pub fn usual() -> Timers
        ensures { result ≡ usual }
    {
        Timers {
            t301: 1_440_000,
            t302: 120_000,
            t303: 32_000,
            t305: 240_000,
            t308: 32_000,
            t309: 48_000,
            t310: 80_000,
        }
    }
}

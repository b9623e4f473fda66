//! The act of a message on a call.
ghost use Rattle.std.specs.Prelude.{◌≡◌};
ghost use Rattle.call_states.specs.Acts.{cause_of_act};

/// The act of the exchange for a message. The number is a cause value (Q.931, 4.5.12) if nothing else is said.
#[derive(Clone, Copy, Debug, PartialEq, Eq)]
pub enum Act {
    /// Nothing.
    Nothing,
    /// The message does not belong to this state: a STATUS reports that.
    Unexpected,
    /// A STATUS reports the leg's state.
    Enquiry,
    /// The called user has all the information to set up the call.
    Proceeding,
    /// The called user is being alerted.
    Alerting,
    /// The called user has answered.
    Answer,
    /// The user sends further digits of the number.
    Digits,
    /// The user requests that the call be cleared.
    Disconnect(u8),
    /// The user has released the channel, and waits for the exchange to do so.
    Release(u8),
    /// The user has released the channel and the call reference.
    ReleaseComplete(u8),
    /// The user of a leg in state 10 reports its call state value (4.5.7).
    Report(u8),
}

impl Act {
    /// Returns the cause of the act: the acts that clear a call have one, the others have none.
    pub fn cause(self) -> Option<u8>
        ensures { result ≡ cause_of_act self }
    {
        match self {
            Act::Disconnect(cause) | Act::Release(cause) | Act::ReleaseComplete(cause) => Some(
                cause,
            ),
            _ => None,
        }
    }
}

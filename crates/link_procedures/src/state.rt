//! The states of a data link, its timers, and its indications to layer 3.

/// The state of a link (Q.921, annex B). States 1 to 3 belong to TEI assignment. State 6, awaiting release, follows a
/// request of layer 3, which this exchange does not make.
#[derive(Clone, Copy, PartialEq, Eq)]
pub enum State {
    /// State 4, TEI assigned: there is no link.
    TeiAssigned,
    /// State 5, awaiting establishment: SABME is sent and not answered.
    AwaitingEstablishment,
    /// State 7, multiple frame established.
    MultipleFrameEstablished,
    /// State 8, timer recovery: an enquiry is sent and not answered.
    TimerRecovery,
}

impl State {
    ghost use Rattle.std.specs.Prelude.{◌≡◌};
    ghost use Rattle.link_procedures.specs.Links.{is_awaiting, is_established, is_recovering, is_multiple_frame};

    /// Returns whether this is state 5.
    #[tactic(auto, unfolding(crate::specs::Links::is_awaiting))]
    pub fn is_awaiting(self) -> bool
        ensures { result ≡ is_awaiting self }
    {
        matches!(self, State::AwaitingEstablishment)
    }

    /// Returns whether this is state 7.
    #[tactic(auto, unfolding(crate::specs::Links::is_established))]
    pub fn is_established(self) -> bool
        ensures { result ≡ is_established self }
    {
        matches!(self, State::MultipleFrameEstablished)
    }

    /// Returns whether this is state 8.
    #[tactic(auto, unfolding(crate::specs::Links::is_recovering))]
    pub fn is_recovering(self) -> bool
        ensures { result ≡ is_recovering self }
    {
        matches!(self, State::TimerRecovery)
    }

    /// Returns whether this is state 7 or 8: multiple frame operation.
    #[tactic(auto, unfolding(crate::specs::Links::is_multiple_frame))]
    pub fn is_multiple_frame(self) -> bool
        ensures { result ≡ is_multiple_frame self }
    {
        self.is_established() || self.is_recovering()
    }
}

/// The running timer. Exactly one timer runs.
#[derive(Clone, Copy, PartialEq, Eq)]
pub enum Running {
    /// T200: the time for the response to a command (5.9.1), or until the next attempt in state 4.
    T200,
    /// T203: the time without frames (5.9.8).
    T203,
}

/// A running timer.
#[derive(Clone, Copy, PartialEq, Eq)]
pub struct Timer {
    /// The timer.
    pub running: Running,
    /// The number of the frame of the exchange in which it started.
    pub since: u32,
}

/// The values of the timers of a data link (Q.921, 5.9), each in frames of 125 microseconds.
#[derive(Clone, Copy, PartialEq, Eq)]
pub struct LinkTimers {
    /// T200, in Q.921 usually 1 second.
    pub t200: u32,
    /// T203, in Q.921 usually 10 seconds.
    pub t203: u32,
}

/// An indication to layer 3.
#[derive(Clone, Copy, PartialEq, Eq)]
pub enum Indication {
    /// DL-DATA indication: the information field of the received frame is the next message.
    Data,
    /// DL-ESTABLISH indication or confirm: the link is established, and messages that were not delivered are lost.
    Established,
    /// DL-RELEASE indication: the link is released, and messages that were not delivered are lost.
    Released,
}

//! The condition of a channel without a leg.

/// Whether the user of a channel without a leg has confirmed that no call uses it (Q.931, 5.5).
#[derive(Clone, Copy, Debug, PartialEq, Eq)]
pub enum Condition {
    /// Idle: no RESTART of it is sent.
    Idle,
    /// Its user was sent RESTART, and has not acknowledged it, or has not replied to RELEASE, which was sent twice. A call
    /// can be offered on it. Each establishment of the data link sends RESTART.
    Unconfirmed,
    /// The leg was removed while its user could not be informed. No call is offered on it until the establishment of the
    /// data link has sent RESTART.
    Owed,
}

impl Condition {
    ghost use Rattle.std.specs.Prelude.{◌≡◌};
    ghost use Rattle.call_states.specs.Conditions.{unanswered};

    /// Returns the condition of a channel whose user has not replied about it, by whether the data link of the line is
    /// down.
    pub fn unanswered(down: bool) -> Condition
        ensures { result ≡ unanswered down }
    {
        if down {
            Condition::Owed
        } else {
            Condition::Unconfirmed
        }
    }
}

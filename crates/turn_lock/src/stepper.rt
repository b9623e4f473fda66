//! The interface of the state in a turn lock.
ghost use Rattle.std.specs.Prelude.{◌≡◌, ℕ, ◌+◌, ◌<◌, ◌++◌, [], ◌∷◌, List};
ghost use Rattle.seat_history.specs.Histories.{Entry};

/// A state that is stepped by one event at a time, and keeps a journal of its steps.
pub trait Stepper {
    /// The value that a step uses in addition to the state. The caller passes it.
    type Tool;

    type Reply;

    /// The constant part of the state. No value of it need be made.
    type Setting;

    ghost setting: { Self → Self.Setting };

    /// The steps so far.
    ghost journal: { Self → List Entry };

    /// The number of entries for which the journal has capacity left.
    ghost room: { Self → ℕ };

    /// The events that only the holder of the baton may step.
    ghost reserved: { Self.Setting → ℕ → Type 0 };

    /// The condition of a step on its event and its tool.
    ghost ready: { Self.Setting → ℕ → Self.Tool → Type 0 };

    /// The reply of a step and the tool after it, from the journal before it, the seat's number and the event.
    ghost answers: { Self.Setting → List Entry → ℕ → ℕ → Self.Reply → Self.Tool → Type 0 };

    /// Steps the event of the seat with the number `by`, and appends its entry to the journal.
    fn step(&mut self, by: u32, event: u32, tool: &mut Self::Tool) -> Self::Reply
        requires room { 0 < room self.old }
        requires ready { ready (setting self.old) event tool.old }
        ensures setting { setting self.new ≡ setting self.old }
        ensures journal { journal self.new ≡ journal self.old ++ (by, event) ∷ [] }
        ensures room { room self.new + 1 ≡ room self.old }
        ensures answers { answers (setting self.old) (journal self.old) by event result tool.new };
}

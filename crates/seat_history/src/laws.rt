//! A theorem on the definitions.
ghost use Rattle.std.specs.Prelude.{ℕ};
ghost use Rattle.seat_history.specs.Seats.{Settled, first_seat};

/// The knowledge of the first seat of a history adds up.
pub fn law_of_first_seat()
    ensures { (turns : ℕ) → Settled turns (first_seat turns) }
{}

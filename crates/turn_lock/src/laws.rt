//! Waiting for a turn, between any two moves.
ghost use Rattle.std.specs.Prelude.{ℕ, Option};
ghost use Rattle.atomic_table.specs.Table.{State};
ghost use Rattle.turn_lock.specs.declared.board.View.{View};
ghost use Rattle.turn_lock.specs.Rule.{TurnRule};
ghost use Rattle.turn_lock.specs.Waiting.{FewComeBefore, KeepsPlace, SomebodyCanGo};

use crate::stepper::Stepper;

/// If tickets are held, one seat can go (`somebody`). No seat is served before one that drew earlier (`order`). Fewer
/// turns come before a ticket than there are seats (`few`). The number of steps in a turn has no bound, and no clause
/// guarantees that a seat passes its turn.
pub fn law_of_waiting<S: Stepper>()
    ensures somebody { (c : S.Setting) (n : ℕ) (s : State (Option S) (View S.Setting))
        → TurnRule S.setting S.journal S.room S.reserved c n s → SomebodyCanGo s }
    ensures order { (c : S.Setting) (n : ℕ) (s : State (Option S) (View S.Setting))
        → TurnRule S.setting S.journal S.room S.reserved c n s → KeepsPlace s }
    ensures few { (c : S.Setting) (n : ℕ) (s : State (Option S) (View S.Setting))
        → TurnRule S.setting S.journal S.room S.reserved c n s → FewComeBefore s }
{}

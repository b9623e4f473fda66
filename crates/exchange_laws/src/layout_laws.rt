//! Theorems on layouts: these functions do nothing, and their contracts are the theorems.
ghost use Rattle.std.specs.Prelude.{ℕ, ◌≤◌, List};
ghost use Rattle.exchange_events.specs.Sizes.{Setting};
ghost use Rattle.exchange_events.specs.Sound.{IsSound};
ghost use Rattle.exchange_events.specs.declared.trace.Event.{Event};
ghost use Rattle.exchange_events.specs.declared.trace.Trace.{Trace};
ghost use Rattle.trace_text.specs.declared.said.Sizes.{Sizes};
ghost use Rattle.linked_text.specs.LinkLines.{Content};
ghost use Rattle.linked_exchange.specs.InTurn.{setting_in_turn, world_in_turn};
ghost use Rattle.exchange_laws.specs.Followed.{AreFollowed};
ghost use Rattle.exchange_laws.specs.LaidOut.{IsFitting, IsLegalAfter, IsLegalIn, JoinsCircuitsAfter, JoinsCircuitsIn, world_of_all};

/// After any events of a sound trace, in any order, on 30 to 59 internal slots, the layout of the paths is legal. It
/// joins exactly the existing circuits: each connection has both its paths, and each member has a path to its port and
/// one back.
pub fn law_of_layouts()
    ensures legal { (slots : ℕ) (trace : Trace) (order : List ℕ) → IsSound trace → 30 ≤ slots → slots ≤ 59 → IsLegalAfter slots trace order }
    ensures joins { (slots : ℕ) (trace : Trace) (order : List ℕ) → IsSound trace → 30 ≤ slots → slots ≤ 59 → JoinsCircuitsAfter slots trace order }
{}

/// The same after any list of events that fit an exchange, of whatever length.
pub fn law_of_reached_layouts()
    ensures legal { (s : Setting) (events : List Event) → IsFitting s events → IsLegalIn s.dimensions (world_of_all s events) }
    ensures joins { (s : Setting) (events : List Event) → IsFitting s events → JoinsCircuitsIn s.dimensions (world_of_all s events) }
{}

/// After any lines that are followed, with or without data links and however many, the layout of the paths is legal on
/// 30 to 59 internal slots. It joins exactly the existing circuits.
pub fn law_of_followed_layouts()
    ensures legal { (slots : ℕ) (rows : List (List ℕ)) (told : List Content) (z : Sizes) → AreFollowed slots rows told z
        → IsLegalIn (setting_in_turn slots z told).dimensions (world_in_turn slots z told) }
    ensures joins { (slots : ℕ) (rows : List (List ℕ)) (told : List Content) (z : Sizes) → AreFollowed slots rows told z
        → JoinsCircuitsIn (setting_in_turn slots z told).dimensions (world_in_turn slots z told) }
{}

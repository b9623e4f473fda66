//! Theorems: lines without data links have the contents and the story of a trace without them, and each trace with short
//! lines is followed.
ghost use Rattle.std.specs.Prelude.{◌≡◌, ℕ, List, [], map};
ghost use Rattle.exchange_events.specs.declared.trace.Trace.{Trace};
ghost use Rattle.circuit_model.specs.Hears.{Plays};
ghost use Rattle.trace_text.specs.declared.said.Said.{Said};
ghost use Rattle.trace_text.specs.TraceGrammar.{IsTrace, IsWhatLinesSay};
ghost use Rattle.trace_text.specs.TraceWords.{lines};
ghost use Rattle.linked_text.specs.LinkEffects.{plain_told};
ghost use Rattle.linked_text.specs.LinkLines.{Content, Plain};
ghost use Rattle.linked_exchange.specs.Told.{EachFollows, story_said};
ghost use Rattle.linked_exchange.specs.InTurn.{ArePlain, EachInTurn, story_in_turn};
ghost use Rattle.linked_exchange.specs.FollowedTraces.{AreShort, IsFollowedInTurn};

/// Lines without data links have the contents and the story of a trace without them. Lines have one list of contents.
/// Each trace with short lines is followed in turn, with the story of a run in file order.
pub fn plain_lines_are_followed()
    ensures lines { (told : List Said) (rows : List (List ℕ)) → EachFollows [] rows told → EachInTurn [] rows (map Plain told) }
    ensures same { (told : List Content) (rows : List (List ℕ)) → ArePlain told → EachInTurn [] rows told → EachFollows [] rows (plain_told told) }
    ensures story { (plays : Plays) (slots : ℕ) (told : List Content) → ArePlain told
        → story_in_turn plays slots told ≡ story_said plays slots (plain_told told) }
    ensures one { (told other : List Content) (rows : List (List ℕ)) → EachInTurn [] rows told → EachInTurn [] rows other → told ≡ other }
    ensures traces { (plays : Plays) (slots : ℕ) (bytes : List ℕ) (t : Trace) → IsTrace bytes t → AreShort bytes → IsFollowedInTurn plays slots bytes t }
{}

/// Each trace whose lines have at most 65,535 octets is followed.
pub fn traces_are_followed()
    ensures { (bytes : List ℕ) (t : Trace) → IsTrace bytes t → AreShort bytes
        → (told : List Said) × EachFollows [] (lines bytes) told × IsWhatLinesSay t told }
{}

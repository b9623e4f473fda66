//! A theorem on the definitions: the function does nothing, and its contract is the theorem.
ghost use Rattle.std.specs.Prelude.{◌≡◌, ℕ, List, [], Ok, map};
ghost use Rattle.trace_text.specs.declared.limits.Limits.{Limits};
ghost use Rattle.trace_text.specs.declared.said.Said.{Said};
ghost use Rattle.trace_text.specs.TraceGrammar.{so_far};
ghost use Rattle.trace_text.specs.TraceLines.{says};
ghost use Rattle.linked_text.specs.LinkLines.{LinkSoFar, Plain, says_in_turn};
ghost use Rattle.linked_text.specs.LinkEffects.{in_turn, linked_in, plain_told};

/// If no line has a data link, each line of a trace without data links has its content (`line`), and the lines so far
/// have their result (`lines`).
pub fn law_of_plain_lines()
    ensures line { (limits : Limits) (k : LinkSoFar) (line : List ℕ) (said : Said) → k.linked ≡ []
        → says limits k.plain line ≡ Ok said → says_in_turn limits k line ≡ Ok (Plain said) }
    ensures lines { (told : List Said) → (in_turn (map Plain told)).plain ≡ so_far told }
    ensures unlinked { (told : List Said) → linked_in (map Plain told) ≡ [] }
    ensures same { (told : List Said) → plain_told (map Plain told) ≡ told }
{}

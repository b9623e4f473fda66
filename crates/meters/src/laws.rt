// Theorems about the definitions only: these functions do nothing, and their contracts are the theorems.
ghost use Rattle.std.specs.Prelude.{◌≡◌, ◌+◌, ◌^◌, ◌++◌, ◌∷◌, List, [], codes};
ghost use Rattle.meters.specs.Details.{Ring, IsRingOf, detail_text, detail_text_with};
ghost use Rattle.meters.specs.Changing.{Step, Metering, AreEvents, AreMetered, HaveNoted, after_steps, handed_in, lines_of, records_of, steps_text};
ghost use Rattle.meters.specs.Examples.{first_steps, last_steps, metering_of, three_calls, written_by};
ghost use Rattle.meters.specs.Registers.{Pegs, Held, register_value, ArePegsOf, IsHeldBy, peg_text, peg_text_with, holding_text, holding_text_with};

use crate::meter::Meter;

/// The text of a meter after further calls is the text over all calls, those that it represents and the further ones.
/// So its text at any time is the text over the calls that it represents.
pub fn law_of_texts()
    ensures detail { (ring : Ring) (calls more : _) → IsRingOf calls ring → detail_text_with ring more ≡ detail_text ring.keep (calls ++ more) }
    ensures pegs { (pegs : Pegs) (calls more : _) → ArePegsOf calls pegs → peg_text_with pegs more ≡ peg_text (calls ++ more) }
    ensures holding { (held : Held) (calls more : _) → IsHeldBy calls held → holding_text_with held more ≡ holding_text (calls ++ more) }
{}

/// Three calls, and the texts that the definitions give.
pub fn worked_texts()
    ensures all { detail_text 3 three_calls ≡ codes "call 0/1 12/31 2 10 16\ncall 31/15 room 63 100 4100 102\ncall 7/17 0/2 9 8 17\n" }
    ensures last { detail_text 1 three_calls ≡ codes "call 7/17 0/2 9 8 17\n" }
    ensures pegs { peg_text three_calls ≡ codes "peg 3 2\n" }
    ensures holding { holding_text three_calls ≡ codes "holding 4008 4000\n" }
    ensures none { (detail_text 3 [] ≡ []) × (peg_text [] ≡ codes "peg 0 0\n") × (holding_text [] ≡ codes "holding 0 0\n") }
    ensures full { register_value (2 ^ 64 + 5) ≡ 18446744073709551615 }
{}

/// The text of consecutive steps, and the meters after them, are composed from the first steps and the others (`texts`,
/// `meters`). If no meter is changed, the text has the lines of the events, each meter records all of their calls, and
/// the spare meters are unchanged (`lines`, `times`, `noted`).
pub fn law_of_changes<M: Meter>()
    ensures texts { (xs ys : List Step) (s : Metering M) → steps_text M.text (xs ++ ys) s ≡ steps_text M.text xs s ++ steps_text M.text ys (after_steps xs s) }
    ensures meters { (xs ys : List Step) (s : Metering M) → after_steps (xs ++ ys) s ≡ after_steps ys (after_steps xs s) }
    ensures lines { (steps : List Step) (s : Metering M) → AreEvents steps → steps_text M.text steps s ≡ lines_of steps }
    ensures times { (steps : List Step) (old spare new now : List M) → AreEvents steps
        → AreMetered M.stands M.text (after_steps steps (handed_in old spare)) new now → HaveNoted M.stands M.text (records_of steps) old new × (now ≡ spare) }
    ensures noted { (steps : List Step) (old spare new : List M) → AreEvents steps
        → HaveNoted M.stands M.text (records_of steps) old new → AreMetered M.stands M.text (after_steps steps (handed_in old spare)) new spare }
{}

/// A call, a frame and three changes: the text with one active and one spare meter, and with three of each; and the
/// meters after the changes.
pub fn worked_changes()
    ensures pegs { written_by (first_steps ++ last_steps) (peg_text ∷ []) (peg_text ∷ [])
        ≡ codes "1 message moved 0 0 0:08028001021803A98381 0:0802800107\n2 message\npeg 1 1\n3 frame 0\npeg 0 0\n" }
    ensures three { written_by (first_steps ++ last_steps) (detail_text 10 ∷ peg_text ∷ holding_text ∷ []) (detail_text 10 ∷ peg_text ∷ holding_text ∷ [])
        ≡ codes "1 message moved 0 0 0:08028001021803A98381 0:0802800107\n2 message\ncall 0/1 room 0 0 0 16\n3 frame 0\npeg 1 1\nholding 0 0\n" }
    ensures nothing_left { after_steps (first_steps ++ last_steps) (metering_of (peg_text ∷ []) (peg_text ∷ [])) ≡ metering_of [] [] }
    ensures one_left { after_steps first_steps (metering_of (peg_text ∷ []) (peg_text ∷ [])) ≡ metering_of (peg_text ∷ []) [] }
{}

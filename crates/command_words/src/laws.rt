//! Theorems on the commands of arguments.
ghost use Rattle.std.specs.Prelude.{◌≡◌, ◌<◌, ◌≤◌, ◌^◌, ℕ, List, [], ◌∷◌, codes, decimal, Some, None, true, false};
ghost use Rattle.command_words.specs.Numerals.{numeral};
ghost use Rattle.command_words.specs.Words.{begins_with_hyphen, command_of, follow_of, generation};
ghost use Rattle.command_words.specs.declared.command.Command.TheVariants.{Check, Generate, Run};

/// Two texts after `gen`, neither of which begins with a hyphen, are a command if and only if they are the decimal
/// numbers of a seed and of a number of calls.
pub fn law_of_plain_texts()
    ensures { (seed calls : List ℕ) → begins_with_hyphen seed ≡ false → begins_with_hyphen calls ≡ false
        → command_of (codes "gen" ∷ seed ∷ calls ∷ []) ≡ generation (Some seed) (Some calls) }
{}

/// Worked examples: `run` accepts the flag once and without a value, and an argument `--` ends the options.
pub fn worked_runs()
    ensures run { command_of (codes "run" ∷ []) ≡ Some (Run false) }
    ensures strict { command_of (codes "run" ∷ codes "--strict" ∷ []) ≡ Some (Run true) }
    ensures ended { command_of (codes "run" ∷ codes "--" ∷ []) ≡ Some (Run false) }
    ensures strict_ended { command_of (codes "run" ∷ codes "--strict" ∷ codes "--" ∷ []) ≡ Some (Run true) }
    ensures and_more { command_of (codes "run" ∷ codes "x" ∷ []) ≡ None }
    ensures strict_and_more { command_of (codes "run" ∷ codes "--strict" ∷ codes "x" ∷ []) ≡ None }
    ensures too_late { command_of (codes "run" ∷ codes "--" ∷ codes "--strict" ∷ []) ≡ None }
    ensures twice { command_of (codes "run" ∷ codes "--strict" ∷ codes "--strict" ∷ []) ≡ None }
    ensures with_a_value { command_of (codes "run" ∷ codes "--strict=x" ∷ []) ≡ None }
    ensures too_early { command_of (codes "--strict" ∷ codes "run" ∷ []) ≡ None }
{}

/// Worked examples: `check` accepts the same flag in the same way, and no other argument.
pub fn worked_checks()
    ensures check { command_of (codes "check" ∷ []) ≡ Some (Check false) }
    ensures strict { command_of (codes "check" ∷ codes "--strict" ∷ []) ≡ Some (Check true) }
    ensures ended { command_of (codes "check" ∷ codes "--" ∷ []) ≡ Some (Check false) }
    ensures and_more { command_of (codes "check" ∷ codes "x" ∷ []) ≡ None }
    ensures too_late { command_of (codes "check" ∷ codes "--" ∷ codes "--strict" ∷ []) ≡ None }
    ensures twice { command_of (codes "check" ∷ codes "--strict" ∷ codes "--strict" ∷ []) ≡ None }
    ensures capital { command_of (codes "Check" ∷ []) ≡ None }
{}

/// Worked examples: `follow` accepts the same flag in the same way. It is not a command of a whole input.
pub fn worked_follows()
    ensures follow { follow_of (codes "follow" ∷ []) ≡ Some false }
    ensures strict { follow_of (codes "follow" ∷ codes "--strict" ∷ []) ≡ Some true }
    ensures and_more { follow_of (codes "follow" ∷ codes "x" ∷ []) ≡ None }
    ensures twice { follow_of (codes "follow" ∷ codes "--strict" ∷ codes "--strict" ∷ []) ≡ None }
    ensures another { follow_of (codes "run" ∷ []) ≡ None }
    ensures whole { command_of (codes "follow" ∷ []) ≡ None }
{}

/// Worked examples of `gen`, which has no flag.
pub fn worked_generations()
    ensures ended { command_of (codes "gen" ∷ codes "--" ∷ codes "0" ∷ codes "1" ∷ []) ≡ Some (Generate 0 1) }
    ensures last { command_of (codes "gen" ∷ codes "4294967295" ∷ codes "2000" ∷ []) ≡ Some (Generate 4294967295 2000) }
    ensures and_less { command_of (codes "gen" ∷ codes "0" ∷ []) ≡ None }
    ensures and_one_more { command_of (codes "gen" ∷ codes "0" ∷ codes "1" ∷ codes "2" ∷ []) ≡ None }
    ensures strict { command_of (codes "gen" ∷ codes "--strict" ∷ codes "0" ∷ codes "1" ∷ []) ≡ None }
    ensures help { command_of (codes "gen" ∷ codes "--help" ∷ []) ≡ None }
{}

/// The text of a number is its decimal digits, and no other.
pub fn law_of_numerals()
    ensures spelled { (number : ℕ) → number < 10 ^ 10 → numeral (decimal number) ≡ Some number }
    ensures no_other { (text : List ℕ) (number : ℕ) → numeral text ≡ Some number → text ≡ decimal number }
{}

/// Every seed of 32 bits and every number of calls from 1 to 2000 has a command, with their digits.
pub fn law_of_asking()
    ensures { (seed calls : ℕ) → seed < 2 ^ 32 → 1 ≤ calls → calls ≤ 2000
        → command_of (codes "gen" ∷ decimal seed ∷ decimal calls ∷ []) ≡ Some (Generate seed calls) }
{}

//! Theorems on the definitions, for every seed and every number of calls.
ghost use Rattle.std.specs.Prelude.{◌≡◌, ℕ, true, ◌+◌, ◌*◌, ◌/◌, ◌^◌, ◌≤◌, length};
ghost use Rattle.std.specs.List.{AllByRecursion, list_all};
ghost use Rattle.traffic_gen.specs.Draws.{drawn, state_after};
ghost use Rattle.traffic_gen.specs.Fitting.{Fits, event_count, is_printable};
ghost use Rattle.traffic_gen.specs.Lines.{Line, line_text};
ghost use Rattle.traffic_gen.specs.Traffic.{traffic, traffic_lines};

/// Each line fits the exchange of the trace, and the text of each line that fits has at most 127 printable octets.
pub fn law_of_generated_lines()
    ensures fits { (seed calls : ℕ) → AllByRecursion Fits (traffic_lines seed calls) }
    ensures printable { (line : Line) → Fits line → list_all is_printable (line_text line) ≡ true }
    ensures short { (line : Line) → Fits line → length (line_text line) ≤ 127 }
{}

/// The length of a trace: 91 lines before the first call and at most 14 for each call, of which 80 and at most 8 are
/// events.
pub fn law_of_lengths()
    ensures lines { (seed calls : ℕ) → length (traffic_lines seed calls) ≤ 91 + 14 * calls }
    ensures events { (seed calls : ℕ) → event_count (traffic_lines seed calls) ≤ 80 + 8 * calls }
    ensures octets { (seed calls : ℕ) → length (traffic seed calls) ≤ 128 * (91 + 14 * calls) }
{}

/// A worked example. The upper 31 bits of the first three states of seed 0 are these numbers, so line
/// 7 calls line 3, and the call lasts two frames.
pub fn first_call_of_seed_0()
    ensures first { state_after 1 0 / 2 ^ 33 ≡ 167951807 }
    ensures second { state_after 2 0 / 2 ^ 33 ≡ 218396424 }
    ensures third { state_after 3 0 / 2 ^ 33 ≡ 1299921937 }
    ensures caller { drawn 8 (state_after 1 0) ≡ 7 }
    ensures called { drawn 9 (state_after 2 0) ≡ 3 }
    ensures frames { 1 + drawn 3 (state_after 3 0) ≡ 2 }
{}

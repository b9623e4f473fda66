//! Theorems on verdicts, and on the input that has a trace and its report.
ghost use Rattle.std.specs.Prelude.{◌≡◌, ◌+◌, ◌≤◌, ◌++◌, ◌↔◌, ◌⊎◌, ℕ, List, [], ◌∷◌, length};
ghost use Rattle.exchange_events.specs.declared.trace.Trace.{Trace};
ghost use Rattle.exchange_events.specs.Orders.{IsLawfulPrefix};
ghost use Rattle.exchange_events.specs.Sound.{IsSound};
ghost use Rattle.run_verifier.specs.Checking.{IsDivided};
ghost use Rattle.run_verifier.specs.Verdicts.{IsGood, IsInvalidAt, IsValid, MayFollow, report_due};

/// A report determines the order of its events: two lawful prefixes of an order with the same report are equal.
pub fn law_of_orders()
    ensures { (slots : ℕ) (trace : Trace) (one other : List ℕ)
        → IsSound trace → IsLawfulPrefix trace one → IsLawfulPrefix trace other
        → report_due slots trace one ≡ report_due slots trace other → one ≡ other }
{}

/// Exactly one verdict is correct.
pub fn law_of_verdicts()
    ensures never_both { (slots : ℕ) (trace : Trace) (bytes : List ℕ) (n : ℕ)
        → IsValid slots trace bytes → IsInvalidAt slots trace bytes n → ⊥ }
    ensures one_line { (slots : ℕ) (trace : Trace) (bytes : List ℕ) (m n : ℕ)
        → IsInvalidAt slots trace bytes m → IsInvalidAt slots trace bytes n → m ≡ n }
    ensures always_one { (slots : ℕ) (trace : Trace) (bytes : List ℕ) → IsSound trace
        → IsValid slots trace bytes ⊎ ((n : ℕ) × IsInvalidAt slots trace bytes n) }
{}

/// If the first k lines are correct, each shorter prefix is correct. A trace of n events has at most n correct lines,
/// so a verdict refers to line n + 1 at most.
pub fn law_of_correct_lines()
    ensures fewer { (slots : ℕ) (trace : Trace) (bytes : List ℕ) (j k : ℕ)
        → j ≤ k → IsGood slots trace bytes k → IsGood slots trace bytes j }
    ensures good { (slots : ℕ) (trace : Trace) (bytes : List ℕ) (k : ℕ)
        → IsGood slots trace bytes k → k ≤ length trace.events }
    ensures named { (slots : ℕ) (trace : Trace) (bytes : List ℕ) (n : ℕ)
        → IsInvalidAt slots trace bytes n → n ≤ length trace.events + 1 }
{}

/// A lawful prefix extended by an event is lawful if and only if the event may come next.
pub fn law_of_turns()
    ensures { (trace : Trace) (order : List ℕ) (n : ℕ)
        → IsLawfulPrefix trace (order ++ n ∷ []) ↔ (IsLawfulPrefix trace order × MayFollow trace order n) }
{}

/// An input is divided into a trace and a report in only one way.
pub fn law_of_divisions()
    ensures { (bytes trace report also other : List ℕ) → IsDivided bytes trace report → IsDivided bytes also other → (trace ≡ also) × (report ≡ other) }
{}

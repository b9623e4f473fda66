//! Theorems on the grammar of traces.
ghost use Rattle.std.specs.Prelude.{◌≡◌, ◌⊎◌, ℕ, List};
ghost use Rattle.trace_text.specs.declared.fault.Reason.{Reason};
ghost use Rattle.exchange_events.specs.declared.trace.Trace.{Trace};
ghost use Rattle.exchange_events.specs.Sound.{IsSound};
ghost use Rattle.trace_text.specs.TraceGrammar.{IsTrace, IsRefused};

/// Bytes have at most one reading: they are one trace, or they are refused for one reason at one line.
pub fn one_trace_reading()
    ensures one_trace { (bytes : List ℕ) (t u : Trace) → IsTrace bytes t → IsTrace bytes u → t ≡ u }
    ensures never_both { (bytes : List ℕ) (t : Trace) (number : ℕ) (why : Reason) →
        IsTrace bytes t → IsRefused bytes number why → ⊥ }
    ensures one_fault { (bytes : List ℕ) (m n : ℕ) (why other : Reason) →
        IsRefused bytes m why → IsRefused bytes n other → (m ≡ n) × (why ≡ other) }
{}

/// Bytes have a reading: they are a trace, or they are refused.
pub fn some_trace_reading()
    ensures { (bytes : List ℕ) →
        ((t : Trace) × IsTrace bytes t)
        ⊎ ((number : ℕ) × (why : Reason) × IsRefused bytes number why) }
{}

/// Every trace is sound. Its sizes are the sizes of an exchange, and the lines of its numbers and events exist. Its
/// events are at most 65,535, and each is in a segment.
pub fn traces_are_sound()
    ensures { (bytes : List ℕ) (t : Trace) → IsTrace bytes t → IsSound t }
{}

//! Theorems on the orders of events.
ghost use Rattle.std.specs.Prelude.{ℕ, ◌≤◌, length};
ghost use Rattle.exchange_events.specs.declared.trace.Trace.{Trace};
ghost use Rattle.exchange_events.specs.Orders.{IsLawful, IsLawfulPrefix, file_order};

/// The order of the file is lawful, and so is each of its prefixes.
pub fn file_order_is_lawful()
    ensures whole { (t : Trace) → IsLawful t (file_order (length t.events)) }
    ensures begun { (t : Trace) (count : ℕ) → count ≤ length t.events → IsLawfulPrefix t (file_order count) }
{}

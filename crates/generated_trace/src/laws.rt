//! The theorem of generated traces.
ghost use Rattle.std.specs.Prelude.{◌≡◌, ℕ, ◌≤◌, [], length};
ghost use Rattle.exchange_events.specs.declared.trace.Trace.{Trace};
ghost use Rattle.trace_text.specs.TraceGrammar.{IsWhatLinesSay};
ghost use Rattle.traffic_gen.specs.Fitting.{event_count};
ghost use Rattle.traffic_gen.specs.Traffic.{traffic_lines};
ghost use Rattle.generated_trace.specs.Generated.{HasExchangeSizes, IsTrafficOf, traffic_told};

/// The octets that are generated from a seed are exactly one trace, with the contents of their lines. The exchange has
/// eight external lines, one bridge line and four call processors. There is an event for each line that is one, and no
/// meter is changed.
pub fn law_of_generated_traces()
    ensures some { (seed calls : ℕ) → calls ≤ 2000 → (t : Trace) × IsTrafficOf seed calls t }
    ensures one { (seed calls : ℕ) (t u : Trace) → IsTrafficOf seed calls t → IsTrafficOf seed calls u → t ≡ u }
    ensures told { (seed calls : ℕ) (t : Trace) → calls ≤ 2000 → IsTrafficOf seed calls t → IsWhatLinesSay t (traffic_told seed calls) }
    ensures sizes { (seed calls : ℕ) (t : Trace) → calls ≤ 2000 → IsTrafficOf seed calls t → HasExchangeSizes t 8 1 4 }
    ensures events { (seed calls : ℕ) (t : Trace) → calls ≤ 2000 → IsTrafficOf seed calls t
        → length t.events ≡ event_count (traffic_lines seed calls) }
    ensures changes { (seed calls : ℕ) (t : Trace) → calls ≤ 2000 → IsTrafficOf seed calls t → t.changes ≡ [] }
{}

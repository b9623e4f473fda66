//! Theorem: a trace that is followed has the report of a run in file order.
ghost use Rattle.std.specs.Prelude.{◌≡◌, ℕ, List, [], length};
ghost use Rattle.exchange_events.specs.declared.trace.Trace.{Trace};
ghost use Rattle.exchange_events.specs.Orders.{IsLawful, file_order};
ghost use Rattle.circuit_model.specs.Hears.{Plays};
ghost use Rattle.report_lines.specs.declared.listing.Listing.TheVariants.{Report};
ghost use Rattle.trace_text.specs.declared.said.Said.{Said};
ghost use Rattle.trace_text.specs.TraceGrammar.{IsTrace};
ghost use Rattle.trace_text.specs.TraceWords.{lines};
ghost use Rattle.linked_exchange.specs.Told.{EachFollows, story_said};
ghost use Rattle.exchange_top.specs.Stories.{HasValidStories};
ghost use Rattle.linked_exchange.specs.Story.{story};

use meters::Meter;

/// If the bytes that are followed are a trace, their story is the story of a run of the trace in file order, which is a
/// lawful order. If the trace changes no meters, the text of the story is a valid report of the trace.
pub fn followed_traces_are_runs<M: Meter>()
    ensures story { (plays : Plays) (slots : ℕ) (bytes : List ℕ) (t : Trace) (told : List Said) → IsTrace bytes t → EachFollows [] (lines bytes) told
        → story_said plays slots told ≡ story plays Report slots t (file_order (length t.events)) }
    ensures lawful { (t : Trace) → IsLawful t (file_order (length t.events)) }
    ensures valid { HasValidStories M.text }
{}

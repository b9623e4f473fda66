//! The theorem on the texts of stories: the function does nothing, and its contract is the theorem.
ghost use Rattle.std.specs.Prelude.{◌≡◌, ℕ, List};
ghost use Rattle.circuit_model.specs.Hears.{hears};
ghost use Rattle.exchange_events.specs.declared.trace.Trace.{Trace};
ghost use Rattle.report_text.specs.RunReport.{report};
ghost use Rattle.report_lines.specs.declared.listing.Listing.TheVariants.{Report};
ghost use Rattle.meters.specs.Changing.{handed_in, steps_text};
ghost use Rattle.meters.specs.Changing as changing;
ghost use Rattle.trace_text.specs.declared.said.Sizes.{Sizes};
ghost use Rattle.linked_text.specs.LinkEffects.{plain_told};
ghost use Rattle.linked_text.specs.LinkLines.{Content};
ghost use Rattle.linked_exchange.specs.InTurn.{story_in_turn};
ghost use Rattle.linked_exchange.specs.Story.{story};
ghost use Rattle.exchange_laws.specs.Stories.{IsPlainTrace, lines_said};

use meters::Meter;

/// The lines of the events in the story of a run are the report of the run, wherever the trace changes meters (`run`).
///
/// If lines have no data link and change no meters, the text of their story is the report lines of their events in file
/// order (`followed`). This holds after any number of lines, and so before each read of a trace that is processed when its
/// lines arrive.
pub fn law_of_stories<M: Meter>()
    ensures run { (slots : ℕ) (trace : Trace) (order : List ℕ)
        → changing.lines_of (story hears Report slots trace order) ≡ report hears slots trace order }
    ensures followed { (slots : ℕ) (sizes : Sizes) (told : List Content) (old spare : List M) → IsPlainTrace sizes told
        → steps_text M.text (story_in_turn hears slots told) (handed_in old spare) ≡ lines_said slots sizes (plain_told told) }
{}

//! Theorems: a strict fabric moves no path, and a run without changes has one report.
ghost use Rattle.std.specs.Prelude.{◌≡◌, ℕ, List, [], All, true};
ghost use Rattle.exchange_events.specs.declared.trace.Trace.{Trace};
ghost use Rattle.exchange_events.specs.Orders.{IsEvent};
ghost use Rattle.circuit_model.specs.Hears.{Plays};
ghost use Rattle.report_text.specs.RunReport.{report};
ghost use Rattle.report_lines.specs.declared.listing.Listing.{Listing};
ghost use Rattle.report_lines.specs.Lines.{listed};
ghost use Rattle.meters.specs.Changing.{handed_in, steps_text};
ghost use Rattle.exchange_run.specs.Commands.{fabric_of};
ghost use Rattle.exchange_run.specs.Outcomes.{MovesFew, MovesNone, NotesAll};
ghost use Rattle.linked_exchange.specs.Story.{story};

use meters::Meter;

/// On a strict fabric no new path moves another: each number of moved paths that an answer reports is 0.
pub fn strict_runs_move_nothing()
    ensures { (trace : Trace) (order : List ℕ) → MovesFew (fabric_of true trace) trace order → MovesNone (fabric_of true trace) trace order }
{}

/// If the trace changes no meters, the text of a run is its report, if lines are listed. The active and spare meters
/// are the same as before the run, and each active meter recorded the calls that ended.
pub fn law_of_unchanged_meters<M: Meter>()
    ensures text { (plays : Plays) (l : Listing) (slots : ℕ) (trace : Trace) (order : List ℕ) (old spare : List M) → trace.changes ≡ []
        → steps_text M.text (story plays l slots trace order) (handed_in old spare) ≡ listed l (report plays slots trace order) }
    ensures meters { (plays : Plays) (l : Listing) (slots : ℕ) (trace : Trace) (order : List ℕ) → trace.changes ≡ [] → All (IsEvent trace) order
        → NotesAll M.stands M.text plays l slots trace order }
{}

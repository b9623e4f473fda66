//! The theorem on the text of a report: the function does nothing, and its contract is the theorem.
ghost use Rattle.std.specs.Prelude.{◌≡◌, ℕ, List};
ghost use Rattle.circuit_model.specs.declared.circuit.Kind.{Kind};
ghost use Rattle.circuit_model.specs.Hears.{hears};
ghost use Rattle.tone_rules.specs.Tables.{table_of};
ghost use Rattle.exchange_events.specs.declared.trace.Event.{Event};
ghost use Rattle.exchange_events.specs.declared.trace.Trace.{Trace};
ghost use Rattle.exchange_events.specs.Sizes.{Setting};
ghost use Rattle.exchange_events.specs.Sound.{setting_of};
ghost use Rattle.call_profile.specs.Step.{events_of};
ghost use Rattle.report_text.specs.RunReport.{report};
ghost use Rattle.privacy.specs.Alike.{AreAlikeBesideOctets};
ghost use Rattle.exchange_laws.specs.Printed.{AgreeInAll, AgreeOnLine, item, lines_hiding, lines_of, with_events};

/// A report consists of the lines of its run, with the items of octets in the line of each frame (`lines`).
///
/// Let two lists of events differ only in the octets of their frames. Then they also do in any one order (`events`), and
/// their lines are equal if another text replaces the items (`others`). The item of a line is equal if the two runs agree
/// on the sources of its 30 slots (`item`). If they agree on the sources of all slots in each frame, the reports are equal
/// (`whole`).
pub fn law_of_printed_reports()
    ensures lines { (slots : ℕ) (trace : Trace) (order : List ℕ)
        → report hears slots trace order ≡ lines_of (table_of trace.tones) (setting_of slots trace) order (events_of trace.events order) }
    ensures events { (es fs : List Event) (order : List ℕ) → AreAlikeBesideOctets es fs
        → AreAlikeBesideOctets (events_of es order) (events_of fs order) }
    ensures others { (s : Setting) (es fs : List Event) (order : List ℕ) (text : ℕ → List ℕ) → AreAlikeBesideOctets es fs
        → lines_hiding text s order es ≡ lines_hiding text s order fs }
    ensures item { (tones : Kind → List ℕ) (s : Setting) (es fs : List Event) (f line : ℕ) → AreAlikeBesideOctets es fs
        → AgreeOnLine s es fs f line → item tones s es f line ≡ item tones s fs f line }
    ensures whole { (slots : ℕ) (trace : Trace) (fs : List Event) (order : List ℕ) → AreAlikeBesideOctets trace.events fs
        → AgreeInAll (setting_of slots trace) (events_of trace.events order) (events_of fs order)
        → report hears slots trace order ≡ report hears slots (with_events trace fs) order }
{}

// Theorems on the definitions: these functions do nothing, and their contracts are the theorems.
ghost use Rattle.std.specs.Prelude.{◌≡◌, ◌≢◌, ◌≤◌, ◌+◌, ℕ, List, Some, length};
ghost use Rattle.link_procedures.specs.declared.state.LinkTimers.{LinkTimers};
ghost use Rattle.link_procedures.specs.Links.{Step};
ghost use Rattle.link_procedures.specs.Sending.{finished};
ghost use Rattle.link_procedures.specs.Establishment.{submitted};
ghost use Rattle.link_procedures.specs.Timing.{turned};
ghost use Rattle.link_table.specs.Tables.{Table, link_of};
ghost use Rattle.link_table.specs.Steps as spec;
ghost use Rattle.link_table.specs.Rest.{IsAtRest};

/// A link is at rest after the end of a step. A message or a turn leaves a link at rest, and the end of a step changes
/// nothing there. So only the link that received a frame needs the end of a step.
pub fn law_of_rest()
    ensures finished { (at : ℕ) (s : Step) → IsAtRest (finished at s).link }
    ensures unchanged { (at : ℕ) (s : Step) → IsAtRest s.link → finished at s ≡ s }
    ensures submitted { (m : List ℕ) (at : ℕ) (s : Step) → IsAtRest s.link → IsAtRest (submitted m at s).link }
    ensures one { (m : List ℕ) (at : ℕ) (s : Step) → IsAtRest s.link → length (submitted m at s).out ≤ length s.out + 1 }
    ensures turned { (t : LinkTimers) (at : ℕ) (s : Step) → IsAtRest s.link → IsAtRest (turned t at s).link }
{}

/// A step of the link of one line leaves the links of all other lines unchanged.
pub fn law_of_other_lines()
    ensures received { (line other at : ℕ) (octets : List ℕ) (t : Table) → other ≢ line
        → link_of other (spec.received_on line octets at t) ≡ link_of other t }
    ensures submitted { (line other at : ℕ) (m : List ℕ) (t : Table) → other ≢ line
        → link_of other (spec.submitted_on line m at t) ≡ link_of other t }
    ensures finished { (other at : ℕ) (t : Table) → t.receiving ≢ Some other
        → link_of other (spec.ended at t) ≡ link_of other t }
    ensures turned { (other at : ℕ) (timers : LinkTimers) (t : Table) → other ≢ spec.line_of_turn at
        → link_of other (spec.turned_at timers at t) ≡ link_of other t }
{}

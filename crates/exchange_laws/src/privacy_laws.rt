//! Theorems on privacy over data links: these functions do nothing, and their contracts are the theorems.
ghost use Rattle.std.specs.Prelude.{◌≡◌, ℕ, Bool, Contains, List, None};
ghost use Rattle.circuit_model.specs.declared.channel.Slot.{Slot};
ghost use Rattle.circuit_model.specs.declared.circuit.Circuit.TheVariants.{Pair};
ghost use Rattle.exchange_events.specs.Sizes.{Setting};
ghost use Rattle.call_laws.specs.Fabrics.{world_of_run};
ghost use Rattle.call_profile.specs.Step.{world_after_all};
ghost use Rattle.link_procedures.specs.declared.state.LinkTimers.{LinkTimers};
ghost use Rattle.link_table.specs.Tables.{link_of};
ghost use Rattle.linked_exchange.specs.Steps.{Joint, LinkedInput, next_joint};
ghost use Rattle.linked_exchange.specs.Runs.{derived_all, derived_trace, joint_after_all, start_joint};
ghost use Rattle.privacy.specs.Consent.{IsConsented};
ghost use Rattle.privacy.specs.Premises.{IsRun};
ghost use Rattle.exchange_laws.specs.OtherLinks.{AreLinkedInputs, IsOnLink, link_with_messages, world_of_inputs};

/// A step is on the data link of one line if it is a frame of the user there, or the turn of the link. After a step, the
/// link of any other line is the link after the messages that call control sends to that line, each submitted to it in turn
/// (`others`). No frame of a user and no turn changes it in another way. Between two steps no link waits for the end of a
/// step (`ended`), so the premise of `others` holds in each state of a run.
pub fn law_of_other_links()
    ensures others { (s : Setting) (timers : LinkTimers) (j : Joint) (i : LinkedInput) (line : ℕ) → j.links.receiving ≡ None
        → ¬ IsOnLink line j i → link_of line (next_joint s timers j i).links ≡ link_with_messages s timers j i line }
    ensures ended { (s : Setting) (timers : LinkTimers) (linked : List Bool) (is : List LinkedInput)
        → (joint_after_all s timers (start_joint s linked) is).links.receiving ≡ None }
{}

/// The events that the frames of the users deliver are a run (`run`), and the exchange state is the state after it
/// (`state`). So each theorem on runs holds for them: two slots are connected only by a command or by their users
/// (`connections`). Further steps change the state as their events do (`further`).
pub fn law_of_linked_runs()
    ensures run { (s : Setting) (t : LinkTimers) (linked : List Bool) (is : List LinkedInput)
        → AreLinkedInputs s linked is → IsRun s (derived_trace s t linked is) }
    ensures state { (s : Setting) (t : LinkTimers) (linked : List Bool) (is : List LinkedInput)
        → world_of_inputs s t linked is ≡ world_of_run s (derived_trace s t linked is) }
    ensures connections { (s : Setting) (t : LinkTimers) (linked : List Bool) (is : List LinkedInput) (x y : Slot) (since : ℕ)
        → AreLinkedInputs s linked is → Contains (world_of_inputs s t linked is).holding.circuits (Pair x y since)
        → IsConsented s (derived_trace s t linked is) x y since }
    ensures further { (s : Setting) (t : LinkTimers) (j : Joint) (is : List LinkedInput)
        → (joint_after_all s t j is).world ≡ world_after_all s j.world (derived_all s t j is) }
{}

//! A theorem on the definitions: the function does nothing, and its contract is the theorem.
ghost use Rattle.std.specs.Prelude.{◌≡◌, ◌≤◌, ◌++◌, ℕ, Bool, List, [], None, All, length};
ghost use Rattle.exchange_events.specs.declared.reply.Reply.TheVariants.{Sent};
ghost use Rattle.exchange_events.specs.Sizes.{Setting};
ghost use Rattle.exchange_events.specs.Sound.{Fits};
ghost use Rattle.call_profile.specs.Step.{run, world_after_all};
ghost use Rattle.call_profile.specs.World.{start};
ghost use Rattle.link_procedures.specs.declared.state.LinkTimers.{LinkTimers};
ghost use Rattle.linked_exchange.specs.Steps.{LinkedInput};
ghost use Rattle.linked_exchange.specs.Runs as spec;

/// The steps of an exchange with data links are a trace without them.
///
/// For every list of inputs, with any octets on any line, the events of the steps fit the exchange (`fits`), and no
/// message of them is too long for a trace (`short`). The exchange state after the steps is the state after these events
/// (`world`), and the replies are the replies to them (`replies`). So the calls, the octets and the records are the same.
/// The first of these events, which put the links down, send nothing (`silent`).
pub fn linked_runs_are_plain()
    ensures fits { (s : Setting) (timers : LinkTimers) (linked : List Bool) (is : List LinkedInput)
        → length linked ≤ s.dimensions.external → All (spec.FitsLinked s.dimensions.external) is
        → All (Fits s.dimensions.external) (spec.derived_trace s timers linked is) }
    ensures short { (s : Setting) (timers : LinkTimers) (linked : List Bool) (is : List LinkedInput)
        → All spec.IsShortInput is → All spec.IsShortEvent (spec.derived_trace s timers linked is) }
    ensures world { (s : Setting) (timers : LinkTimers) (linked : List Bool) (is : List LinkedInput)
        → (spec.joint_after_all s timers (spec.start_joint s linked) is).world
        ≡ world_after_all s (start s.dimensions) (spec.derived_trace s timers linked is) }
    ensures replies { (s : Setting) (timers : LinkTimers) (linked : List Bool) (is : List LinkedInput)
        → run s (start s.dimensions) (spec.links_down 0 linked) ++ spec.replies_all s timers (spec.start_joint s linked) is
        ≡ run s (start s.dimensions) (spec.derived_trace s timers linked is) }
    ensures silent { (s : Setting) (linked : List Bool)
        → All (λ r. r ≡ Sent [] None []) (run s (start s.dimensions) (spec.links_down 0 linked)) }
{}

//! Theorems on the exchange states that events make, and on their frames.
ghost use Rattle.std.specs.Prelude.{◌≡◌, ℕ, ◌<◌, ◌++◌, All, List, length, map};
ghost use Rattle.circuit_model.specs.declared.channel.Slot.{Slot};
ghost use Rattle.circuit_model.specs.declared.circuit.Circuit.{Circuit};
ghost use Rattle.circuit_model.specs.declared.circuit.Kind.{Kind};
ghost use Rattle.circuit_model.specs.FrameInput.{Input};
ghost use Rattle.circuit_model.specs.Hears.{hears};
ghost use Rattle.control_memory.specs.Layout.{Layout};
ghost use Rattle.exchange_events.specs.declared.trace.Event.{Event};
ghost use Rattle.exchange_events.specs.Sizes.{Setting};
ghost use Rattle.exchange_events.specs.Sound.{Fits, IsPlanned};
ghost use Rattle.call_profile.specs.Answered.{with_layout};
ghost use Rattle.call_laws.specs.Fabrics.{with_slots, without_paths, without_moves, replies_of_run, world_of_run, heard_in_run};
ghost use Rattle.call_profile.specs.IsMade.{IsMade};
ghost use Rattle.call_profile.specs.Step.{reply, next, world_after_all};
ghost use Rattle.call_profile.specs.World.{World, start};

/// The circuits and ports of each frame are the result of one list of commands, each of which was allowed after those
/// before it. This holds for all events. It is a theorem, so that the definitions of replies stay short.
pub fn worlds_are_made()
    ensures { (s : Setting) (events : List Event) → IsPlanned s → All (Fits s.dimensions.external) events
        → IsMade s.dimensions s.tones (world_after_all s (start s.dimensions) events) }
{}

/// The number of internal slots and the layout of the paths decide only how many paths move. Two exchanges that differ
/// in them send and record the same in every run. They end with the same circuits, legs, ports and recorded frames, so
/// that each slot receives the same octets.
pub fn law_of_fabrics()
    ensures reply { (s : Setting) (slots : ℕ) (w : World) (layout : Layout) (e : Event)
        → without_moves (reply (with_slots s slots) (with_layout w layout) e) ≡ without_moves (reply s w e) }
    ensures world { (s : Setting) (slots : ℕ) (w : World) (layout : Layout) (e : Event)
        → without_paths (next (with_slots s slots) (with_layout w layout) e) ≡ without_paths (next s w e) }
    ensures replies { (s : Setting) (slots : ℕ) (es : List Event)
        → map without_moves (replies_of_run (with_slots s slots) es) ≡ map without_moves (replies_of_run s es) }
    ensures end { (s : Setting) (slots : ℕ) (es : List Event)
        → without_paths (world_of_run (with_slots s slots) es) ≡ without_paths (world_of_run s es) }
    ensures heard { (s : Setting) (slots : ℕ) (es : List Event) (tones : Kind → List ℕ) (f : ℕ) (y : Slot)
        → heard_in_run tones (with_slots s slots) es f y ≡ heard_in_run tones s es f y }
{}

/// Later frames do not change the octet that a slot receives in a frame.
pub fn later_frames_change_nothing()
    ensures { (tones : Kind → List ℕ) (inputs more : List Input) (held later : List (List Circuit)) (f : ℕ) (y : Slot)
        → f < length inputs → f < length held → hears tones (inputs ++ more) (held ++ later) f y ≡ hears tones inputs held f y }
{}

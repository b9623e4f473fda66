//! Theorems on the conference ports, and on the lines that circuits use.

ghost use Rattle.std.specs.Prelude.{◌≡◌, ℕ, ℤ, List, Some, Contains};
ghost use Rattle.circuit_model.specs.declared.channel.Slot.{Slot};
ghost use Rattle.circuit_model.specs.declared.circuit.Circuit.{Circuit};
ghost use Rattle.circuit_model.specs.Extent.{AreWithin, NamesWithin};
ghost use Rattle.circuit_model.specs.Holding.{Command, circuits_in_frame};
ghost use Rattle.circuit_model.specs.Ports.{InEachFrame, owner_of, HasPort, HaveOneEach, KeepsItsPort, HasSeat, HasSeatBefore, sum_of_owners, sum_of_members};

/// Theorem of ports, over the frames of allowed commands. Each member that exists in a frame has a port of a bridge
/// line in it, and each occupied port has a member that exists. No two ports have the same member, and a member keeps
/// its port as long as it stays in its room. A sum over the ports of a frame is therefore a sum over its members.
pub fn law_of_ports()
    ensures each { (b : ℕ) → InEachFrame b (λ circuits ports. (x : Slot) → HasSeat circuits x → HasPort b ports x) }
    ensures owned { (b : ℕ) → InEachFrame b (λ circuits ports. (k : ℕ) (x : Slot) → owner_of ports k ≡ Some x → HasSeat circuits x) }
    ensures alone { (b : ℕ) → InEachFrame b (λ circuits ports. HaveOneEach ports) }
    ensures kept { (b f : ℕ) (cs : List Command) (x : Slot) → HasSeatBefore f (circuits_in_frame cs f) x → KeepsItsPort b cs f x }
    ensures sums { (b : ℕ) → InEachFrame b (λ circuits ports. (weight : Slot → ℤ) → sum_of_owners weight ports ≡ sum_of_members weight circuits) }
{}

/// If commands use slots of external lines only, so do the circuits of each frame.
pub fn law_of_extent()
    ensures { (lines : ℕ) (cs : List Command) (f : ℕ) (c : Circuit) → AreWithin lines cs → Contains (circuits_in_frame cs f) c → NamesWithin lines c }
{}

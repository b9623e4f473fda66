//! Theorems on holdings: validity, the circuit by which a slot receives, and the effect of each command.

ghost use Rattle.std.specs.Prelude.{◌≡◌, ◌+◌, ◌<◌, ◌↔◌, ℕ, IsTrue, List, [], ◌∷◌, ◌++◌, Some, None, Contains, count_by, length, if◌then◌else◌};
ghost use Rattle.circuit_model.specs.declared.channel.Slot.{Slot};
ghost use Rattle.circuit_model.specs.declared.circuit.Kind.{Kind};
ghost use Rattle.circuit_model.specs.declared.circuit.Circuit.{Circuit};
ghost use Rattle.circuit_model.specs.declared.circuit.Kind.TheVariants.{Busy};
ghost use Rattle.circuit_model.specs.declared.circuit.Circuit.TheVariants.{Pair, Member, Tone};
ghost use Rattle.circuit_model.specs.Circuits.{listener, is_idle, heard_by, unless_naming, with_circuit, with_pair};
ghost use Rattle.circuit_model.specs.Holding.{Holding, empty, Command, Connect, Seat, Give_tone, Clear, Frame, after, after_all, frames, held_in, hears_by, members_of, HearsAfter, HearsSlot, IsIdle, IsMember, IsNoMember, circuits_naming, Valid, IsAllowed, AreAllowed};
ghost use Rattle.circuit_model.specs.Examples.{first};

/// A holding is valid at the start and after each allowed command. The circuits of each frame that commands record
/// therefore belong to a valid holding.
pub fn law_of_validity()
    ensures start { (bridges : ℕ) → Valid bridges empty }
    ensures kept { (bridges : ℕ) (h : Holding) (c : Command) → Valid bridges h → IsAllowed bridges h c → Valid bridges (after h c) }
    ensures recorded { (b : ℕ) (cs : List Command) (f : ℕ) → AreAllowed b empty cs → f < length (frames empty cs) → Valid b (held_in cs f) }
{}

/// Examples of invalid holdings: a slot connected to itself, a connection in one direction or whose directions differ
/// in age, a slot that is busy in two ways or a member twice, a circuit that is younger than the next frame, and a
/// member without a port.
pub fn worked_holdings()
    ensures to_itself { (b : ℕ) → ¬ Valid b (after empty (Connect (first 0) (first 0))) }
    ensures one_way { (b : ℕ) → ¬ Valid b (record { circuits = Pair (first 0) (first 1) 0 ∷ []; next = 0 }) }
    ensures uneven { (b : ℕ) → ¬ Valid b (record { circuits = Pair (first 0) (first 1) 0 ∷ Pair (first 1) (first 0) 1 ∷ []; next = 1 }) }
    ensures two_ways { (b : ℕ) → ¬ Valid b (record { circuits = Tone Busy (first 0) 0 ∷ Member 0 (first 0) 0 ∷ []; next = 0 }) }
    ensures seated_twice { (b : ℕ) → ¬ Valid b (record { circuits = Member 0 (first 0) 0 ∷ Member 0 (first 0) 0 ∷ []; next = 0 }) }
    ensures too_young { (b : ℕ) → ¬ Valid b (record { circuits = Tone Busy (first 0) 1 ∷ []; next = 0 }) }
    ensures no_port { ¬ Valid 0 (record { circuits = Member 0 (first 0) 0 ∷ []; next = 0 }) }
{}

/// A slot is idle if no circuit uses it. In a valid holding these are the slots that receive by no circuit.
pub fn law_of_idle_slots()
    ensures unnamed { (circuits : List Circuit) (x : Slot) → IsTrue (is_idle circuits x) ↔ (circuits_naming circuits x ≡ []) }
    ensures deaf { (bridges : ℕ) (h : Holding) (x : Slot) → Valid bridges h → IsIdle h x ↔ (hears_by h x ≡ None) }
{}

/// The circuit by which a slot receives exists and has the slot as its receiver. In a valid holding a slot receives by
/// one circuit at most, whatever the order of the list. If a slot receives from another one, that one receives from it,
/// since the same frame.
pub fn law_of_one_circuit()
    ensures stands { (circuits : List Circuit) (x : Slot) (c : Circuit) → heard_by circuits x ≡ Some c → Contains circuits c × (listener c ≡ x) }
    ensures alone { (bridges : ℕ) (h : Holding) (c : Circuit) → Valid bridges h → Contains h.circuits c → hears_by h (listener c) ≡ Some c }
    ensures mutual { (b : ℕ) (h : Holding) (x y : Slot) (since : ℕ) → Valid b h → HearsSlot h x y since → HearsSlot h y x since }
{}

/// Each command's effect on the circuits by which slots receive. A new connection, member or tone changes only its
/// receivers. Clearing a slot removes the circuits that use it and no others.
pub fn law_of_commands()
    ensures connect { (h : Holding) (x y : Slot) → IsIdle h x → IsIdle h y → HearsAfter h (Connect x y) (with_pair x y h.next) }
    ensures seat { (h : Holding) (x : Slot) (room : ℕ) → IsIdle h x → HearsAfter h (Seat x room) (with_circuit (Member room x h.next)) }
    ensures tone { (h : Holding) (x : Slot) (kind : Kind) → IsIdle h x → HearsAfter h (Give_tone x kind) (with_circuit (Tone kind x h.next)) }
    ensures clear { (b : ℕ) (h : Holding) (x : Slot) → Valid b h → HearsAfter h (Clear x) (λ before z. unless_naming x before) }
{}

/// Commands in sequence: a frame's boundary records the circuits that exist, any other command records nothing, and a
/// holding counts the boundaries that it passed.
pub fn law_of_frames()
    ensures state { (h : Holding) (cs ds : List Command) → after_all h (cs ++ ds) ≡ after_all (after_all h cs) ds }
    ensures boundary { (h : Holding) (cs : List Command) → frames h (cs ++ Frame ∷ []) ≡ frames h cs ++ (after_all h cs).circuits ∷ [] }
    ensures command { (h : Holding) (cs : List Command) (c : Command) → ¬ (c ≡ Frame) → frames h (cs ++ c ∷ []) ≡ frames h cs }
    ensures count { (cs : List Command) → length (frames empty cs) ≡ (after_all empty cs).next }
{}

/// The number of members after a command: a new member adds one, clearing a member removes one, and nothing else
/// changes the number.
pub fn law_of_seats()
    ensures connect { (h : Holding) (x y : Slot) → members_of (after h (Connect x y)) ≡ members_of h }
    ensures seat { (h : Holding) (x : Slot) (room : ℕ) → members_of (after h (Seat x room)) ≡ members_of h + 1 }
    ensures tone { (h : Holding) (x : Slot) (kind : Kind) → members_of (after h (Give_tone x kind)) ≡ members_of h }
    ensures clear_member { (bridges : ℕ) (h : Holding) (x : Slot) → Valid bridges h → IsMember h x → members_of (after h (Clear x)) + 1 ≡ members_of h }
    ensures clear_other { (bridges : ℕ) (h : Holding) (x : Slot) → Valid bridges h → IsNoMember h x → members_of (after h (Clear x)) ≡ members_of h }
{}

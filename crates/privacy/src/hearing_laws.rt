//! Theorems on whose octets a slot hears: these functions do nothing, and their contracts are the theorems.
//!
//! The sources of a slot in a frame are the octets that decide the octet which it receives ([`law_of_sources`]). The slot's
//! partner or a member of its room sent each of them, while it was connected with the slot or a member
//! ([`law_of_source_kinds`]). A slot without a circuit, or with one that is younger than two frames, hears no octet of any
//! slot ([`law_of_silence`]). A slot that is neither connected with a slot nor in its room is a bystander, and hears nothing
//! of it ([`law_of_bystanders`]).
ghost use Rattle.std.specs.Prelude.{◌≡◌, ◌≢◌, ◌+◌, ◌-◌, ◌<◌, ◌≤◌, ℕ, All, List, [], ◌∷◌, None, Some, Contains};
ghost use Rattle.circuit_model.specs.declared.channel.Slot.{Slot};
ghost use Rattle.circuit_model.specs.declared.circuit.Kind.{Kind};
ghost use Rattle.circuit_model.specs.declared.circuit.Circuit.{Circuit};
ghost use Rattle.circuit_model.specs.declared.circuit.Circuit.TheVariants.{Pair, Member, Tone};
ghost use Rattle.circuit_model.specs.FrameInput.{Input};
ghost use Rattle.circuit_model.specs.Circuits.{heard_by, first_frame_of};
ghost use Rattle.circuit_model.specs.Holding.{Command, circuits_of, empty, frames, AreAllowed};
ghost use Rattle.circuit_model.specs.Hears.{hears};
ghost use Rattle.circuit_model.specs.Examples.{a_changing_room, a_connection, hears_on};
ghost use Rattle.privacy.specs.Examples.{octet, heard_on, a_change_of_partner, a_return, from_member, from_partner};
ghost use Rattle.privacy.specs.Sources.{Octet, sources, AgreeOn, IsSource, AreTogether, DifferOnlyAt};

/// The octet that a slot receives in a frame depends only on its sources: two histories of inputs that agree on them give
/// the same octet. This holds for any circuits.
pub fn law_of_sources()
    ensures heard { (tones : Kind → List ℕ) (a b : List Input) (held : List (List Circuit)) (f : ℕ) (y : Slot)
        → AgreeOn a b (sources held f y) → hears tones a held f y ≡ hears tones b held f y }
{}

/// Each source was sent by the slot's partner two frames before, or by another member of its room four frames before
/// (`each`). The partner was connected with the slot when it sent the octet, and still is. The member was in the room when it
/// sent the octet. No slot hears itself (`itself`).
pub fn law_of_source_kinds()
    ensures each { (cs : List Command) (f : ℕ) (y : Slot) (o : Octet) → Contains (sources (frames empty cs) f y) o
        → IsSource (frames empty cs) f y o }
    ensures itself { (bridges : ℕ) (cs : List Command) (f : ℕ) (y : Slot) (o : Octet) → AreAllowed bridges empty cs
        → Contains (sources (frames empty cs) f y) o → o.from ≢ y }
{}

/// A slot without a circuit (`none`), with a circuit that is younger than two frames (`young`) or with a tone (`tone`) has no
/// source. Over a connection each source was sent since the connection exists (`connection`). In a room no source was sent
/// more than two frames before the slot joined (`room`).
pub fn law_of_silence()
    ensures none { (held : List (List Circuit)) (f : ℕ) (y : Slot) → heard_by (circuits_of held f) y ≡ None → sources held f y ≡ [] }
    ensures young { (held : List (List Circuit)) (f : ℕ) (y : Slot) (c : Circuit) → heard_by (circuits_of held f) y ≡ Some c
        → f < first_frame_of c + 2 → sources held f y ≡ [] }
    ensures tone { (held : List (List Circuit)) (f : ℕ) (x y : Slot) (kind : Kind) (since : ℕ)
        → heard_by (circuits_of held f) y ≡ Some (Tone kind x since) → sources held f y ≡ [] }
    ensures connection { (held : List (List Circuit)) (f : ℕ) (x z y : Slot) (since : ℕ)
        → heard_by (circuits_of held f) y ≡ Some (Pair x z since) → All (λ o. since ≤ o.frame) (sources held f y) }
    ensures room { (held : List (List Circuit)) (f : ℕ) (x y : Slot) (room since : ℕ)
        → heard_by (circuits_of held f) y ≡ Some (Member room x since) → All (λ o. since ≤ o.frame + 2) (sources held f y) }
{}

/// A bystander hears nothing of a slot: if two histories of inputs differ only in octets of slot x, slot y receives the
/// same octet in frame f, unless x and y were connected or in one room in frame f - 2.
pub fn law_of_bystanders()
    ensures heard { (tones : Kind → List ℕ) (a b : List Input) (cs : List Command) (f : ℕ) (x y : Slot) → DifferOnlyAt x a b
        → ¬ AreTogether (frames empty cs) (f - 2) x y → hears tones a (frames empty cs) f y ≡ hears tones b (frames empty cs) f y }
{}

/// The sources in three small runs: a change of the partner, a member that joins and leaves, and a member that leaves its
/// room and returns. After a change of the partner two frames are silent, and no octet of the earlier partner is heard. A
/// new member hears octets of the two frames before it joined. A member that left is heard for two frames.
pub fn worked_sources()
    ensures before { heard_on a_change_of_partner 2 0 ≡ octet 0 1 ∷ [] }
    ensures silent { heard_on a_change_of_partner 4 0 ≡ [] }
    ensures afterwards { heard_on a_change_of_partner 5 0 ≡ octet 3 2 ∷ [] }
    ensures third { heard_on a_change_of_partner 4 1 ≡ [] }
    ensures newcomer { heard_on a_changing_room 5 2 ≡ octet 1 0 ∷ octet 1 1 ∷ [] }
    ensures not_yet { heard_on a_changing_room 6 0 ≡ octet 2 1 ∷ [] }
    ensures joined { heard_on a_changing_room 7 0 ≡ octet 3 1 ∷ octet 3 2 ∷ [] }
    ensures left { heard_on a_changing_room 9 0 ≡ octet 5 1 ∷ octet 5 2 ∷ [] }
    ensures gone { heard_on a_changing_room 10 0 ≡ octet 6 1 ∷ [] }
    ensures returned { heard_on a_return 8 0 ≡ octet 4 1 ∷ [] }
    ensures other_room { heard_on a_return 8 2 ≡ [] }
{}

/// Octets that decide others, by evaluation. The octet that the partner sends in frame 0 is heard in frame 2 (`partner`,
/// `another`), although the frame before has no source (`silent`). The octet that a member sends in frame 5 decides the octet
/// of frame 9, two frames after the member left (`member`, `differs`), and no octet of frame 10 (`later`).
pub fn worked_octets()
    ensures silent { heard_on a_connection 1 0 ≡ [] }
    ensures partner { hears_on (from_partner 0x81) a_connection 2 0 ≡ 0x81 }
    ensures another { hears_on (from_partner 0x91) a_connection 2 0 ≡ 0x91 }
    ensures member { hears_on (from_member 0xAA) a_changing_room 9 0 ≡ 0xAA }
    ensures differs { hears_on (from_member 0x2A) a_changing_room 9 0 ≡ 0x2A }
    ensures later { hears_on (from_member 0xAA) a_changing_room 10 0 ≡ hears_on (from_member 0x2A) a_changing_room 10 0 }
{}

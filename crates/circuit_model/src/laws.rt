//! The theorem of age, and the definitions of received octets, evaluated on small exchanges.

ghost use Rattle.std.specs.Prelude.{◌≡◌, ◌<◌, ◌-◌, ℕ, List, [], ◌∷◌, length, map, pos, negsuc, slice_index, Contains};
ghost use Rattle.circuit_model.specs.declared.circuit.Circuit.{Circuit};
ghost use Rattle.circuit_model.specs.Circuits.{first_frame_of};
ghost use Rattle.circuit_model.specs.Holding.{Command, empty, frames, circuits_in_frame};
ghost use Rattle.circuit_model.specs.ALaw.{decision_values, expand, compress};
ghost use Rattle.circuit_model.specs.Hears.{hears};
ghost use Rattle.circuit_model.specs.Examples.{first, heard_in_frames, a_connection, two_lines, a_reused_slot, three_lines, a_room, loud_lines, alone, a_pair_of_members, soft_lines, a_tone, a_late_connection, a_renewed_connection, quiet_lines, a_changing_room, counting_lines, two_rooms, a_full_room, loud_and_low, two_tones};

/// Theorem of age: after any commands, a circuit that exists in frame `f` since an earlier frame existed in frame
/// `f - 1` too.
///
/// An octet that crossed in the frame before, by a circuit that a slot receives by, was therefore sent by that circuit.
pub fn law_of_age()
    ensures { (cs : List Command) (f : ℕ) (c : Circuit)
        → Contains (circuits_in_frame cs f) c → first_frame_of c < f → Contains (circuits_in_frame cs (f - 1)) c }
{}

/// The definitions of received octets, evaluated on small exchanges: octets pass after two frames, a reused slot lets
/// no octet of the old connection through, a room is summed without the receiver and coded once, and a tone begins with
/// the first frame that it exists in.
pub fn worked_frames()
    ensures delay { heard_in_frames two_lines a_connection 1 (0 ∷ 1 ∷ 2 ∷ 3 ∷ 4 ∷ []) ≡ 0xD5 ∷ 0xD5 ∷ 0x01 ∷ 0x02 ∷ 0x03 ∷ [] }
    ensures other_way { heard_in_frames two_lines a_connection 0 (0 ∷ 1 ∷ 2 ∷ 3 ∷ 4 ∷ []) ≡ 0xD5 ∷ 0xD5 ∷ 0x81 ∷ 0x82 ∷ 0x83 ∷ [] }
    ensures reused { heard_in_frames three_lines a_reused_slot 0 (0 ∷ 1 ∷ 2 ∷ 3 ∷ 4 ∷ []) ≡ 0xD5 ∷ 0xD5 ∷ 0xD5 ∷ 0xD5 ∷ 0xC3 ∷ [] }
    ensures left { heard_in_frames three_lines a_reused_slot 1 (0 ∷ 1 ∷ 2 ∷ 3 ∷ 4 ∷ []) ≡ 0xD5 ∷ 0xD5 ∷ 0xD5 ∷ 0xD5 ∷ 0xD5 ∷ [] }
    ensures joined { heard_in_frames three_lines a_reused_slot 2 (0 ∷ 1 ∷ 2 ∷ 3 ∷ 4 ∷ []) ≡ 0xD5 ∷ 0xD5 ∷ 0xD5 ∷ 0xD5 ∷ 0x03 ∷ [] }
    ensures room { heard_in_frames loud_lines a_room 0 (0 ∷ 1 ∷ 2 ∷ 3 ∷ 4 ∷ 5 ∷ []) ≡ 0xD5 ∷ 0xD5 ∷ 0xD5 ∷ 0xD5 ∷ 0xAA ∷ 0xD5 ∷ [] }
    ensures loudest { heard_in_frames loud_lines a_room 2 (0 ∷ 1 ∷ 2 ∷ 3 ∷ 4 ∷ 5 ∷ []) ≡ 0xD5 ∷ 0xD5 ∷ 0xD5 ∷ 0xD5 ∷ 0xAA ∷ 0xAA ∷ [] }
    ensures alone { heard_in_frames soft_lines alone 0 (0 ∷ 1 ∷ 2 ∷ 3 ∷ 4 ∷ 5 ∷ []) ≡ 0xD5 ∷ 0xD5 ∷ 0xD5 ∷ 0xD5 ∷ 0xD5 ∷ 0xD5 ∷ [] }
    ensures members { heard_in_frames soft_lines a_pair_of_members 0 (0 ∷ 1 ∷ 2 ∷ 3 ∷ 4 ∷ 5 ∷ []) ≡ 0xD5 ∷ 0xD5 ∷ 0xD5 ∷ 0xD5 ∷ 0x91 ∷ 0x92 ∷ [] }
    ensures tone { heard_in_frames [] a_tone 0 (0 ∷ 1 ∷ 2 ∷ 3 ∷ 4 ∷ 5 ∷ []) ≡ 0xD5 ∷ 0x11 ∷ 0x22 ∷ 0x33 ∷ 0x11 ∷ 0xD5 ∷ [] }
{}

/// Boundary cases of received octets: connections made late or again, lines that send nothing, members who join and
/// leave while the others stay, and sums whose parts pass the highest value though the total does not.
///
/// A new member receives the room's mix two frames after it joins, and is heard four frames after it joins. A member
/// that left is heard for two more frames, since its octets are already mixed. A member whose line sends nothing counts
/// as the idle octet, whose value is 1.
pub fn worked_edges()
    ensures late { heard_in_frames two_lines a_late_connection 1 (0 ∷ 1 ∷ 2 ∷ 3 ∷ 4 ∷ []) ≡ 0xD5 ∷ 0xD5 ∷ 0xD5 ∷ 0xD5 ∷ 0x03 ∷ [] }
    ensures renewed { heard_in_frames two_lines a_renewed_connection 1 (0 ∷ 1 ∷ 2 ∷ 3 ∷ 4 ∷ []) ≡ 0xD5 ∷ 0xD5 ∷ 0xD5 ∷ 0xD5 ∷ 0x03 ∷ [] }
    ensures quiet { heard_in_frames quiet_lines a_connection 1 (0 ∷ 1 ∷ 2 ∷ 3 ∷ 4 ∷ []) ≡ 0xD5 ∷ 0xD5 ∷ 0x01 ∷ 0xD5 ∷ 0x03 ∷ [] }
    ensures quiet_members { heard_in_frames quiet_lines a_room 2 (4 ∷ 5 ∷ []) ≡ 0x01 ∷ 0xD4 ∷ [] }
    ensures stayed { heard_in_frames counting_lines a_changing_room 0 (6 ∷ 7 ∷ 8 ∷ 9 ∷ 10 ∷ []) ≡ 0x55 ∷ 0xD6 ∷ 0xD1 ∷ 0xD0 ∷ 0x55 ∷ [] }
    ensures newcomer { heard_in_frames counting_lines a_changing_room 2 (4 ∷ 5 ∷ 6 ∷ 7 ∷ 8 ∷ []) ≡ 0xD5 ∷ 0xD4 ∷ 0xD4 ∷ 0xD4 ∷ 0xD5 ∷ [] }
    ensures apart { heard_in_frames soft_lines two_rooms 0 (3 ∷ 4 ∷ 5 ∷ []) ≡ 0xD5 ∷ 0xD5 ∷ 0xD5 ∷ [] }
    ensures once { heard_in_frames loud_and_low a_full_room 0 (4 ∷ []) ≡ 0xAA ∷ [] }
    ensures no_octets { hears (λ kind. []) [] (frames empty a_tone) 1 (first 0) ≡ 0xD5 }
    ensures tones { heard_in_frames [] two_tones 0 (0 ∷ 1 ∷ 2 ∷ 3 ∷ 4 ∷ 5 ∷ []) ≡ 0x44 ∷ 0x44 ∷ 0x11 ∷ 0x22 ∷ 0x11 ∷ 0x22 ∷ [] }
{}

/// The A-law definitions, evaluated: the number of decision values and the last of them, the ends of the first interval
/// and of the last, zero, ties, and values beyond the last decision value.
pub fn worked_values()
    ensures count { length decision_values ≡ 129 }
    ensures last { slice_index decision_values 128 ≡ 4096 }
    ensures values { map expand (0xD5 ∷ 0x55 ∷ 0xAA ∷ 0x2A ∷ []) ≡ pos 1 ∷ negsuc 0 ∷ pos 4032 ∷ negsuc 4031 ∷ [] }
    ensures zero { compress (pos 0) ≡ 0xD5 }
    ensures below_tie { compress (pos 63) ≡ 0xCA }
    ensures tie { compress (pos 64) ≡ 0xF5 }
    ensures negative_tie { compress (negsuc 63) ≡ 0x75 }
    ensures beyond { compress (pos 9000) ≡ 0xAA }
    ensures beyond_below { compress (negsuc 8999) ≡ 0x2A }
{}

// Theorems on the definitions only: these functions do nothing, and their contracts are the theorems.
ghost use Rattle.std.specs.Prelude.{◌≡◌};
ghost use Rattle.control_memory.specs.Connecting.{connect, moved};
ghost use Rattle.control_memory.specs.Examples.{
  at,
  both_halves,
  row_shorter,
  row_moved,
  column_shorter,
  column_moved,
  same_length,
  tie_moved,
};
ghost use Rattle.control_memory.specs.Carrying.{Wiring, BringsAcross, BringsOut};

/// The rule of rearrangement, evaluated on a full line: no internal slot is free in both line 0 and line 1. The first
/// direction therefore moves two live paths, and the second none.
pub fn worked_layouts()
    ensures first { moved (both_halves 15) (connect 3 30 (both_halves 15) (at 0 15) (at 1 15)) ≡ 2 }
    ensures second { let once = connect 3 30 (both_halves 15) (at 0 15) (at 1 15) in moved once (connect 3 30 once (at 1 15) (at 0 15)) ≡ 0 }
{}

/// The rule of rearrangement if one of the two chains is shorter, and if neither is: the paths that move, and the slot
/// of the new path.
pub fn worked_chains()
    ensures incoming { connect 3 2 row_shorter (at 0 1) (at 0 1) ≡ row_moved }
    ensures outgoing { connect 3 2 column_shorter (at 0 1) (at 0 1) ≡ column_moved }
    ensures tie { connect 3 2 same_length (at 0 1) (at 1 1) ≡ tie_moved }
{}

/// The tables of a legal layout carry its octets. If the incoming lines send by the incoming table and the outgoing
/// lines get by the space table, each internal slot holds the octet of the inlet of its path. The octet that a place
/// then reads by the outgoing table is the octet of the inlet of its path. Everything else is idle.
pub fn tables_carry_their_layout()
    ensures crossing { (w : Wiring) → BringsAcross w }
    ensures carried { (w : Wiring) → BringsOut w }
{}

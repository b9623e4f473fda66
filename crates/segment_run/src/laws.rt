//! Theorems on the orders in which the segments of a trace are processed.
ghost use Rattle.std.specs.Prelude.{◌≡◌, ℕ, ◌+◌, ◌*◌, ◌^◌, ◌<◌, ◌≤◌, List, [], length};
ghost use Rattle.exchange_events.specs.declared.trace.Trace.{Trace};
ghost use Rattle.exchange_events.specs.Orders.{IsLawful, IsLawfulPrefix};
ghost use Rattle.seat_history.specs.declared.seat_knowledge.SeatKnowledge.{SeatKnowledge};
ghost use Rattle.seat_history.specs.Seats.{first_seat};
ghost use Rattle.exchange_events.specs.Sound.{IsSound};
ghost use Rattle.exchange_core.specs.Boards.{Board, turns_of};
ghost use Rattle.exchange_core.specs.Working.{order_of};
ghost use Rattle.segment_run.specs.Segment.{HasTurns, IsChief, Ran, RanWhole};
ghost use Rattle.segment_run.specs.Segments.{IsDoneBelow, HasDoneBelow, events_before};

/// Segments that run in sequence have a lawful order. If the last one is incomplete, they have a prefix of one.
pub fn segments_make_lawful_orders()
    ensures none { (t : Trace) → IsDoneBelow t 0 [] }
    ensures more { (t : Trace) (k : ℕ) (v w : SeatKnowledge) → HasDoneBelow t k v → Ran t k v w → RanWhole t k v w → HasDoneBelow t (k + 1) w }
    ensures begun { (t : Trace) (k : ℕ) (v w : SeatKnowledge) → HasDoneBelow t k v → Ran t k v w → IsLawfulPrefix t (order_of w.seen) }
    ensures whole { (t : Trace) (order : List ℕ) → IsSound t → IsDoneBelow t (length t.segments) order → IsLawful t order }
{}

/// The first seat of a board meets the condition of the first segment.
pub fn first_seat_is_chief()
    ensures { (turns : ℕ) → IsChief turns (first_seat turns) }
{}

/// After the segments before one, the history has one entry for each of their events. Seat 0 has a turn for each event
/// of the next segment, and there are numbers left for the seats of its workers.
pub fn segments_leave_room()
    ensures long { (t : Trace) (k : ℕ) (v : SeatKnowledge)
        → IsSound t → k ≤ length t.segments → HasDoneBelow t k v → length v.seen ≡ events_before t.segments k }
    ensures turns { (b : Board) (k : ℕ) (v : SeatKnowledge) → IsSound b.trace → k < length b.trace.segments → IsChief (turns_of b) v
        → IsDoneBelow b.trace k (order_of v.seen) → HasTurns b.trace k v }
    ensures numbers { (t : Trace) (k made : ℕ) → IsSound t → k < length t.segments → made ≤ 9 * k → made + 10 < 2 ^ 32 }
{}

//! The first frame in which a timer of a leg can expire, place by place.
ghost use Rattle.std.specs.Prelude.{◌≡◌, ◌<◌, ◌≤◌, ◌*◌, ℕ, length, slice_index};
ghost use Rattle.leg_table.specs.DueBounds.{AreLower, IsNotDue};
ghost use Rattle.leg_table.specs.LegKeys.{leg_on};

use call_states::Leg;
use call_timers::{Timers, next_due_frame};
use circuit_model::CHANNELS_PER_LINE;

/// The number of places of a line.
pub(crate) const BOUNDS: usize = 30;

/// The bound of a place at which no leg has a timer.
pub(crate) const NEVER: u32 = u32::MAX;

/// Returns the frame before which nothing is due at a leg.
pub(crate) fn due_from(leg: Leg, timers: &Timers) -> u32
    ensures { (frame : ℕ) → frame < result → IsNotDue timers.now frame (Some leg) }
{
    next_due_frame(leg.state, leg.resent, leg.since, timers)
}

/// Lowers the bound of a place to this frame, if the bound is later.
pub(crate) fn lower(bounds: &mut [u32; BOUNDS], place: u8, frame: u32)
    requires place { place < 30 }
    ensures places { length bounds.new ≡ length bounds.old }
    ensures here { slice_index bounds.new place ≤ frame }
    ensures lower { AreLower bounds.old bounds.new }
{
    let bound = &mut bounds[usize::from(place)];
    if frame < *bound {
        *bound = frame;
    }
}

/// Returns the frame before which nothing is due at the legs at a place of n lines.
pub(crate) fn due_from_at(legs: &[Option<Leg>], lines: u8, place: u8, timers: &Timers) -> u32
    requires place { place < 30 }
    requires size { length legs.now ≡ 30 * lines }
    ensures { (line frame : ℕ) → line < lines → frame < result → IsNotDue timers.now frame (leg_on legs.now line place) }
{
    let mut first = NEVER;
    for line in 0..lines {
        let number = usize::from(CHANNELS_PER_LINE) * usize::from(line) + usize::from(place);
        if let Some(leg) = legs[number] {
            first = first.min(due_from(leg, timers));
        }
    }
    first
}

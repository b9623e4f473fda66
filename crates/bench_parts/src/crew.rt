//! Seats at work, each in its own thread.
ghost use Rattle.std.specs.Prelude.{◌≡◌, ◌<◌, ◌≤◌, ◌+◌, ◌*◌, ◌^◌, length};
ghost use Rattle.std.specs.Thread.{IsSync};
ghost use Rattle.turn_lock.specs.Locks.{IsSeatOf};

use crate::sum::Sum;
use std::alloc::Global;
use std::sync::Wait;
use std::thread::{Threads, join};
use turn_lock::{Seat, TurnLock};

// Steps the events 1 to `count`, each `turn` of them in one turn.
fn steps<R: Wait>(
    rt: &R,
    lock: &TurnLock<Sum>,
    mut seat: Seat<Sum>,
    count: u32,
    turn: u32,
) -> Seat<Sum>
    requires of { IsSeatOf lock.now seat }
    requires turns { (count ≤ seat.known.left) × (count < 2 ^ 31) × (0 < turn) }
    ensures of { IsSeatOf lock.now result }
    ensures number { result.known.number ≡ seat.known.number }
    ensures seats { (result.known.made ≡ seat.known.made) × (length result.known.kept ≡ length seat.known.kept) }
{
    let mut tool = 0;
    for i in 0..count {
        lock.step(rt, &mut seat, i + 1, &mut tool, (i + 1) % turn != 0);
    }
    seat.release(lock);
    seat
}

// Seat 0 and `more` others step the events 1 to `count`, each in its own thread and in turns of `turn` events. Seat 0
// joins the others.
fn crew<R: Threads + Wait + Sync>(
    rt: &R,
    lock: &TurnLock<Sum>,
    mut seat: Seat<Sum>,
    more: u32,
    count: u32,
    turn: u32,
) -> Seat<Sum>
    requires of { IsSeatOf lock.now seat }
    requires chief { seat.known.number ≡ 0 }
    requires turns { (count * (more + 1) ≤ seat.known.left) × (count < 2 ^ 31) × (0 < turn) }
    requires few { seat.known.made + more < 2 ^ 32 }
    ensures of { IsSeatOf lock.now result }
    ensures chief { result.known.number ≡ 0 }
    ensures seats { (result.known.made ≡ seat.known.made + more) × (length result.known.kept ≡ length seat.known.kept + more) }
{
    if more == 0 {
        return steps(rt, lock, seat, count, turn);
    }
    let other = seat.split(lock, count, false);
    let next = more - 1;
    let (other, mut seat) = join(
        rt,
        move || -> Seat<Sum>
            requires of { IsSeatOf lock.now other }
            requires turns { count ≤ other.known.left }
            requires few { (count < 2 ^ 31) × (0 < turn) }
            ensures { IsSeatOf lock.entry.now result }
        { steps(rt, lock, other, count, turn) },
        move || -> Seat<Sum>
            requires threads { IsSync R.row }
            requires of { IsSeatOf lock.now seat }
            requires chief { seat.known.number ≡ 0 }
            requires turns { count * (next + 1) ≤ seat.known.left }
            requires few { (count < 2 ^ 31) × (0 < turn) }
            requires seats { seat.known.made + next < 2 ^ 32 }
            ensures of { IsSeatOf lock.entry.now result }
            ensures chief { result.known.number ≡ 0 }
            ensures made { result.known.made ≡ seat.known.made + next }
            ensures kept { length result.known.kept ≡ length seat.known.kept + next }
        { crew(rt, lock, seat, next, count, turn) },
    );
    seat.join(lock, other);
    seat
}

/// Has each of n seats step the events 1 to `count`, in turns of `turn` events. Returns the sum and the length of the
/// journal, or `None` if an allocation fails or a number is out of bounds.
pub fn run<R: Threads + Wait + Sync>(
    rt: &R,
    alloc: Global,
    seats: u32,
    count: u32,
    turn: u32,
) -> Option<(u64, usize)> {
    if seats == 0 || seats > 100 || count > 10000000 || turn == 0 {
        return None;
    }
    let budget = seats * count;
    let Ok(sum) = Sum::new(alloc, budget) else {
        return None;
    };
    let Ok((lock, zero)) = TurnLock::open(alloc, sum, budget) else {
        return None;
    };
    let zero = crew(rt, &lock, zero, seats - 1, count, turn);
    Some(lock.close(zero).total())
}

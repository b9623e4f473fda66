//! Seats at work, in one thread and in a thread each.
ghost use Rattle.std.specs.Prelude.{◌≡◌, ◌<◌, ◌+◌, ◌^◌, length, false};
ghost use Rattle.std.specs.Thread.{IsSync};
ghost use Rattle.turn_lock.specs.Locks.{IsSeatOf};

use super::sum::Sum;
use std::sync::Wait;
use std::thread::{Threads, join};
use turn_lock::{Seat, TurnLock};

/// Steps an event, and keeps the turn if `keep` is true. `None` if the seat has no step left or may not step the event.
pub fn step_once<R: Wait>(
    rt: &R,
    lock: &TurnLock<Sum>,
    seat: &mut Seat<Sum>,
    event: u32,
    keep: bool,
) -> Option<(u32, u64)>
    requires of { IsSeatOf lock.now seat.old }
    ensures of { IsSeatOf lock.now seat.new }
    ensures number { seat.new.known.number ≡ seat.old.known.number }
    ensures seats { (seat.new.known.made ≡ seat.old.known.made) × (length seat.new.known.kept ≡ length seat.old.known.kept) }
{
    if seat.left() == 0 || (event == 0 && !seat.baton()) {
        return None;
    }
    let mut tool = 0;
    Some(lock.step(rt, seat, event, &mut tool, keep))
}

/// Steps of three seats in this order, each a seat's number and an event. Returns whether the place and the sum of each
/// are these, or `None` if a step finds no turn or no baton.
pub fn step_all<R: Wait>(
    rt: &R,
    lock: &TurnLock<Sum>,
    zero: &mut Seat<Sum>,
    one: &mut Seat<Sum>,
    two: &mut Seat<Sum>,
    steps: &[(u32, u32)],
    answers: &[(u32, u64)],
) -> Option<bool>
    requires zero { IsSeatOf lock.now zero.old }
    requires one { IsSeatOf lock.now one.old }
    requires two { IsSeatOf lock.now two.old }
    ensures zero { IsSeatOf lock.now zero.new }
    ensures one { IsSeatOf lock.now one.new }
    ensures two { IsSeatOf lock.now two.new }
    ensures number { zero.new.known.number ≡ zero.old.known.number }
    ensures seats { (zero.new.known.made ≡ zero.old.known.made) × (length zero.new.known.kept ≡ length zero.old.known.kept) }
{
    let mut left = answers.iter();
    let mut same = true;
    for &(number, event) in steps {
        let answer = match number {
            0 => step_once(rt, lock, zero, event, false),
            1 => step_once(rt, lock, one, event, false),
            _ => step_once(rt, lock, two, event, false),
        };
        same = left.next() == Some(&answer?) && same;
    }
    Some(same && left.next().is_none())
}

/// Steps the events 1 to `count`, each `turn` of them in one turn.
pub fn steps<R: Wait>(
    rt: &R,
    lock: &TurnLock<Sum>,
    mut seat: Seat<Sum>,
    count: u32,
    turn: u32,
) -> Seat<Sum>
    requires of { IsSeatOf lock.now seat }
    requires few { (count < 1000000) × (0 < turn) }
    ensures of { IsSeatOf lock.now result }
    ensures free { result.keeps ≡ false }
    ensures number { result.known.number ≡ seat.known.number }
    ensures seats { (result.known.made ≡ seat.known.made) × (length result.known.kept ≡ length seat.known.kept) }
{
    for i in 0..count {
        step_once(rt, lock, &mut seat, i + 1, (i + 1) % turn != 0);
    }
    seat.release(lock);
    seat
}

/// Seat 0 and `more` others step the events 1 to `count`, each in its own thread and in turns of `turn` events. Seat 0
/// joins the others.
pub fn crew<R: Threads + Wait + Sync>(
    rt: &R,
    lock: &TurnLock<Sum>,
    mut seat: Seat<Sum>,
    more: u32,
    count: u32,
    turn: u32,
) -> Seat<Sum>
    requires of { IsSeatOf lock.now seat }
    requires chief { seat.known.number ≡ 0 }
    requires few { (count < 1000000) × (0 < turn) × (seat.known.made + more < 2 ^ 32) }
    ensures of { IsSeatOf lock.now result }
    ensures chief { result.known.number ≡ 0 }
    ensures seats { (result.known.made ≡ seat.known.made + more) × (length result.known.kept ≡ length seat.known.kept + more) }
{
    if more == 0 {
        return steps(rt, lock, seat, count, turn);
    }
    let share = count.min(seat.left());
    let other = seat.split(lock, share, false);
    let next = more - 1;
    let (other, mut seat) = join(
        rt,
        move || -> Seat<Sum>
            requires of { IsSeatOf lock.now other }
            requires few { (count < 1000000) × (0 < turn) }
            ensures { IsSeatOf lock.entry.now result }
        { steps(rt, lock, other, count, turn) },
        move || -> Seat<Sum>
            requires threads { IsSync R.row }
            requires of { IsSeatOf lock.now seat }
            requires chief { seat.known.number ≡ 0 }
            requires few { (count < 1000000) × (0 < turn) }
            requires seats { seat.known.made + next < 2 ^ 32 }
            ensures of { IsSeatOf lock.entry.now result }
            ensures chief { result.known.number ≡ 0 }
            ensures made { result.known.made ≡ seat.known.made + next }
            ensures kept { length result.known.kept ≡ length seat.known.kept + next }
        { crew(rt, lock, seat, next, count, turn) },
    );
    seat.join(lock, other);
    seat
}

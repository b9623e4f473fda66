//! Seats of a lock, and a worked example, whose numbers were found by hand.
mod crew;
mod sum;

use crew::{crew, step_all, step_once};
use std::alloc::Global;
use std::sync::Wait;
use std::test::Fail;
use std::thread::Threads;
use sum::Sum;
use turn_lock::TurnLock;

/// The result of a run: whether each step had the expected result, or `None` if one found no turn or no baton; the
/// turns and the baton of seat 0 after the joins, and the journal.
#[derive(Drop)]
struct Run {
    answered: Option<bool>,
    left: u32,
    baton: bool,
    journal: Vec<(u32, u32)>,
}

// Seat 0 gives turns to seat 1, and turns and the baton to seat 2. The steps are made in their order, each a seat's
// number and an event, and then the others are joined, seat 2 first if `swapped` is true.
fn three_seats<R: Wait>(
    rt: &R,
    alloc: Global,
    turns: [u32; 3],
    steps: &[(u32, u32)],
    swapped: bool,
    answers: &[(u32, u64)],
) -> Option<Run> {
    let [kept, first, second] = turns;
    if kept > 100 || first > 100 || second > 100 {
        return None;
    }
    let budget = kept + first + second;
    let Ok(sum) = Sum::new(alloc, budget) else {
        return None;
    };
    let Ok((lock, mut zero)) = TurnLock::open(alloc, sum, budget) else {
        return None;
    };
    let mut one = zero.split(&lock, first, false);
    let mut two = zero.split(&lock, second, true);
    let answered = step_all(rt, &lock, &mut zero, &mut one, &mut two, steps, answers);
    if swapped {
        zero.join(&lock, two);
        zero.join(&lock, one);
    } else {
        zero.join(&lock, one);
        zero.join(&lock, two);
    }
    let (left, baton) = (zero.left(), zero.baton());
    Some(Run {
        answered,
        left,
        baton,
        journal: lock.close(zero).into_journal(),
    })
}

// Returns the journal of n seats that step the events 1 to `count`, each in its own thread and in turns of `turn`
// events.
fn in_threads<R: Threads + Wait + Sync>(
    rt: &R,
    alloc: Global,
    seats: u32,
    count: u32,
    turn: u32,
) -> Option<Vec<(u32, u32)>> {
    if seats == 0 || seats > 100 || count > 100000 || turn == 0 {
        return None;
    }
    let budget = seats * count;
    let Ok(sum) = Sum::new(alloc, budget) else {
        return None;
    };
    let Ok((lock, zero)) = TurnLock::open(alloc, sum, budget) else {
        return None;
    };
    let zero = crew(rt, &lock, zero, seats - 1, count, turn);
    Some(lock.close(zero).into_journal())
}

// Returns whether each seat's steps are in the journal in their order, each once, and nothing else is.
fn has_all(journal: &[(u32, u32)], seats: u32, count: u32) -> bool {
    for seat in 0..seats {
        let mut last = 0;
        for &(by, event) in journal {
            if by == seat {
                if Some(event) != u32::checked_add(last, 1) {
                    return false;
                }
                last = event;
            }
        }
        if last != count {
            return false;
        }
    }
    Some(journal.len()) == (seats as usize).checked_mul(count as usize)
}

// Returns whether no other seat steps within a turn: the seat changes only after the last event of a turn.
fn has_whole_turns(journal: &[(u32, u32)], count: u32, turn: u32) -> bool {
    let next = journal.iter().skip(1);
    journal.iter().zip(next).all(|(one, next)| one.0 == next.0
        || one.1 == count
        || one.1.checked_rem(turn) == Some(0))
}

// Returns whether these steps have these results, are in the journal in their order, and leave seat 0 n turns and the
// baton. Without results, a step finds no turn or no baton.
fn comes_out<R: Wait>(
    rt: &R,
    alloc: Global,
    turns: [u32; 3],
    steps: &[(u32, u32)],
    swapped: bool,
    answers: &[(u32, u64)],
    left: u32,
) -> bool {
    let Some(run) = three_seats(rt, alloc, turns, steps, swapped, answers) else {
        return false;
    };
    if run.answered.is_none() {
        return answers.is_empty();
    }
    run.answered == Some(true) && run.journal.as_slice() == steps && run.left == left && run.baton
}

// Three seats step a sum in every order, and the two others are joined in either order.
fn in_every_order<R: Wait>(rt: &R, alloc: Global) -> bool {
    let orders = [
        [0, 1, 2],
        [0, 2, 1],
        [1, 0, 2],
        [1, 2, 0],
        [2, 0, 1],
        [2, 1, 0],
    ];
    let answers = [(0, 3), (1, 7), (2, 12)];
    for [a, b, c] in orders {
        let steps = [(a, 3), (b, 4), (c, 5)];
        for swapped in [false, true] {
            if !comes_out(rt, alloc, [1, 1, 2], &steps, swapped, &answers, 1) {
                return false;
            }
        }
    }
    true
}

#[test]
fn seats_step_in_turn(rt: HostRuntime) -> Result<(), Fail> {
    let steps = [(0, 5), (1, 7), (0, 1)];
    let answers = [(0, 5), (1, 12), (2, 13)];
    assert!(rt; comes_out(&rt, rt.alloc(), [2, 2, 0], &steps, false, &answers, 1));
    // Seat 2 has the baton and steps the reserved event; seat 0 may not.
    assert!(rt; comes_out(&rt, rt.alloc(), [1, 1, 1], &[(2, 0)], false, &[(0, 0)], 2));
    assert!(rt; comes_out(&rt, rt.alloc(), [1, 1, 1], &[(0, 0)], false, &[], 0));
    // A second step of one turn.
    assert!(rt; comes_out(&rt, rt.alloc(), [1, 1, 1], &[(1, 4), (1, 4)], false, &[], 0));
    assert!(rt; in_every_order(&rt, rt.alloc()));
    Ok(())
}

// Returns the journal of seat 0 and another one. Each steps several events in one turn, and passes the turn by a split,
// a join or the close. `None` if a seat lacks the turn after its steps, or has it after a split.
fn in_long_turns<R: Wait>(rt: &R, alloc: Global) -> Option<Vec<(u32, u32)>> {
    let Ok(sum) = Sum::new(alloc, 6) else {
        return None;
    };
    let Ok((lock, mut zero)) = TurnLock::open(alloc, sum, 6) else {
        return None;
    };
    step_once(rt, &lock, &mut zero, 1, true);
    step_once(rt, &lock, &mut zero, 2, true);
    let mut kept = zero.has_turn();
    let share = zero.left().min(3);
    let mut one = zero.split(&lock, share, false);
    let passed = !zero.has_turn() && !one.has_turn();
    step_once(rt, &lock, &mut one, 3, true);
    step_once(rt, &lock, &mut one, 4, true);
    step_once(rt, &lock, &mut one, 5, true);
    kept = kept && one.has_turn();
    zero.join(&lock, one);
    step_once(rt, &lock, &mut zero, 6, true);
    kept = kept && zero.has_turn();
    let journal = lock.close(zero).into_journal();
    if kept && passed { Some(journal) } else { None }
}

// Returns whether the seats keep and pass their turns, and the journal has all steps.
fn keeps_turns<R: Wait>(rt: &R, alloc: Global) -> bool {
    let wanted = [(0, 1), (0, 2), (1, 3), (1, 4), (1, 5), (0, 6)];
    match in_long_turns(rt, alloc) {
        Some(journal) => journal.as_slice() == wanted.as_slice(),
        None => false,
    }
}

#[test]
fn a_seat_keeps_the_turn_until_it_passes_it(rt: HostRuntime) -> Result<(), Fail> {
    assert!(rt; keeps_turns(&rt, rt.alloc()));
    Ok(())
}

// Returns whether each of n seats steps all events in its own thread, in whole turns of `turn` events.
fn all_step<R: Threads + Wait + Sync>(
    rt: &R,
    alloc: Global,
    seats: u32,
    count: u32,
    turn: u32,
) -> bool {
    match in_threads(rt, alloc, seats, count, turn) {
        Some(journal) => has_all(&journal, seats, count) && has_whole_turns(&journal, count, turn),
        None => false,
    }
}

#[test]
fn threads_step_in_turn(rt: HostRuntime) -> Result<(), Fail> {
    assert!(rt; all_step(&rt, rt.alloc(), 1, 10, 1));
    assert!(rt; all_step(&rt, rt.alloc(), 2, 100, 1));
    assert!(rt; all_step(&rt, rt.alloc(), 9, 20000, 1));
    Ok(())
}

// The last turn of a seat is shorter than the others, if `turn` does not divide the number of its events.
#[test]
fn threads_step_in_long_turns(rt: HostRuntime) -> Result<(), Fail> {
    assert!(rt; all_step(&rt, rt.alloc(), 1, 10, 3));
    assert!(rt; all_step(&rt, rt.alloc(), 2, 100, 1000));
    assert!(rt; all_step(&rt, rt.alloc(), 9, 20000, 7));
    assert!(rt; all_step(&rt, rt.alloc(), 9, 20000, 512));
    Ok(())
}

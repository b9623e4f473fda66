//! Tests of facts that no clause states: the calls end, also in threads. A worked example has numbers that were found
//! by hand.
mod core_steps;
mod opened;
mod segments;
mod traces;
mod work;

ghost use Rattle.std.specs.Prelude.{◌≡◌, ◌≤◌, length};
ghost use Rattle.exchange_events.specs.Sound.{IsSound};

use core_steps::nail_is_shown;
use exchange_core::Switchboard;
use exchange_events::Trace;
use frame_engine::Engine;
use gate::{Gate, OpenGate, TestGate};
use opened::opened;
use segments::{frames_are_answered, part_is_answered, segments_are_answered};
use std::alloc::{AllocError, Global};
use std::sync::Wait;
use std::test::Fail;
use std::thread::Threads;
use traces::{nail_and_five_frames, nails_and_frames};
use work::{Outcome, Step, are_answered, side_by_side};

// Processes steps of two seats on one thread. Returns whether each has the expected result, and the journal has them in
// their order.
fn by_turns<R: Wait>(
    rt: &R,
    alloc: Global,
    trace: &Trace,
    steps: &[Step],
) -> Result<bool, AllocError>
    requires sound { IsSound trace.now }
    requires sizes { (trace.now.external ≡ 4) × (trace.now.bridges ≡ 0) × (length trace.now.events ≡ 62) }
    requires few { length steps.now ≤ 30 }
{
    let (exchange, mut zero) = opened(alloc, trace, 4)?;
    let mut one = exchange.split(&mut zero, 31, false);
    let answered = are_answered(rt, alloc, &exchange, trace, &mut zero, &mut one, steps);
    exchange.join(&mut zero, one);
    let journal = exchange.close(zero).into_journal();
    Ok(answered && is_of_steps(journal.as_slice(), steps))
}

// Returns whether a journal has these steps in their order.
fn is_of_steps(journal: &[(u32, u32)], steps: &[Step]) -> bool {
    let mut left = journal.iter();
    for (done, _) in steps {
        if left.next() != Some(done) {
            return false;
        }
    }
    left.next().is_none()
}

// Processes all nails on two threads. Returns whether each is granted, and the journal has each thread's in their
// order.
fn in_threads<R: Threads + Wait + Sync>(
    rt: &R,
    alloc: Global,
    trace: &Trace,
) -> Result<bool, AllocError>
    requires sound { IsSound trace.now }
    requires sizes { (trace.now.external ≡ 4) × (trace.now.bridges ≡ 0) × (length trace.now.events ≡ 62) }
{
    let (exchange, seat) = opened(alloc, trace, 4)?;
    let (granted, seat) = side_by_side(rt, &exchange, trace, seat);
    let journal = exchange.close(seat).into_journal();
    Ok(granted == (30, 30) && has_all_nails(journal.as_slice()))
}

// Returns whether a journal has the nails of both seats, and nothing else.
fn has_all_nails(journal: &[(u32, u32)]) -> bool {
    journal.len() == 60 && has_every_second(journal, 0, 1) && has_every_second(journal, 1, 2)
}

// Returns whether the events of a seat, in the order of the journal, are every second one from `first` on, 30 in all.
fn has_every_second(journal: &[(u32, u32)], seat: u32, first: u32) -> bool {
    let mut next = first;
    for &(by, event) in journal {
        if by == seat {
            if event != next {
                return false;
            }
            next = next.saturating_add(2);
        }
    }
    next == first.saturating_add(60)
}

// Seat 1 is granted a nail, which seat 0 then finds busy; seat 0 processes both frames.
const STEPS: [Step; 5] = [
    ((1, 1), (0, Outcome::Granted(0, 0))),
    ((0, 1), (1, Outcome::Busy)),
    ((0, 61), (2, Outcome::Frame(0))),
    ((1, 2), (3, Outcome::Granted(0, 0))),
    ((0, 62), (4, Outcome::Frame(1))),
];

// Tests two seats with their own trace. (A trace made in a test would be dropped at each of its ways out.)
fn two_seats_agree(rt: &impl Wait, alloc: Global) -> Result<bool, AllocError> {
    let trace = nails_and_frames(alloc)?;
    by_turns(rt, alloc, &trace, &STEPS)
}

// Tests two threads with their own trace.
fn two_threads_agree(rt: &(impl Threads + Wait + Sync), alloc: Global) -> Result<bool, AllocError> {
    let trace = nails_and_frames(alloc)?;
    in_threads(rt, alloc, &trace)
}

// Tests a core with its own trace.
fn core_steps_agree(alloc: Global) -> Result<bool, AllocError> {
    let trace = nail_and_five_frames(alloc)?;
    nail_is_shown(alloc, &trace)
}

// Tests a call processor with its own trace.
fn processor_answers(rt: &impl Wait, alloc: Global) -> Result<bool, AllocError> {
    let trace = nail_and_five_frames(alloc)?;
    part_is_answered(rt, alloc, &trace)
}

// Tests a frame worker with its own trace.
fn frame_worker_answers<R: Threads + Wait + Sync>(
    rt: &R,
    alloc: Global,
) -> Result<bool, AllocError> {
    let trace = nail_and_five_frames(alloc)?;
    frames_are_answered::<Engine, R>(rt, alloc, &trace)
}

// Tests all workers with their own trace.
fn all_workers_answer<G: Gate, R: Threads + Wait + Sync>(
    rt: &R,
    alloc: Global,
    gate: &G,
) -> Result<bool, AllocError> {
    let trace = nail_and_five_frames(alloc)?;
    segments_are_answered::<Engine, G, R>(rt, alloc, &trace, gate)
}

#[test]
fn a_core_does_a_nail_and_a_frame(rt: HostRuntime) -> Result<(), Fail> {
    assert!(rt; core_steps_agree(rt.alloc())?);
    Ok(())
}

#[test]
fn two_seats_share_one_history(rt: HostRuntime) -> Result<(), Fail> {
    assert!(rt; two_seats_agree(&rt, rt.alloc())?);
    Ok(())
}

#[test]
fn two_threads_share_one_history(rt: HostRuntime) -> Result<(), Fail> {
    assert!(rt; two_threads_agree(&rt, rt.alloc())?);
    Ok(())
}

#[test]
fn a_call_processor_answers_its_part(rt: HostRuntime) -> Result<(), Fail> {
    assert!(rt; processor_answers(&rt, rt.alloc())?);
    Ok(())
}

#[test]
fn a_frame_worker_answers_its_part(rt: HostRuntime) -> Result<(), Fail> {
    assert!(rt; frame_worker_answers(&rt, rt.alloc())?);
    Ok(())
}

#[test]
fn segments_are_answered_whole_by_one_caller(rt: HostRuntime) -> Result<(), Fail> {
    assert!(rt; all_workers_answer(&rt, rt.alloc(), &OpenGate)?);
    Ok(())
}

#[test]
fn segments_are_answered_whole_in_threads(rt: HostRuntime) -> Result<(), Fail> {
    assert!(rt; all_workers_answer(&rt, rt.alloc(), &TestGate::new(0, 9))?);
    Ok(())
}

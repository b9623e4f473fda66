// The record of a gate.
use gate::{Gate, OpenGate, TestGate};
use std::test::Fail;
use std::thread::{Threads, join};

// A call that a thread makes at a gate.
#[derive(Clone, Copy)]
enum Call {
    BeforeTurn(u32),
    AfterTurn(u32),
    BeforeCrossing(u32),
    AfterCrossing(u32),
}

fn make<G: Gate>(gate: &G, call: Call) {
    match call {
        Call::BeforeTurn(event) => gate.before_turn(0, event),
        Call::AfterTurn(event) => gate.after_turn(0, event),
        Call::BeforeCrossing(frame) => gate.before_crossing(frame),
        Call::AfterCrossing(frame) => gate.after_crossing(frame),
    }
}

// One thread that makes these calls in order at a gate for event 7 and frame 3. No other thread ends a hold, so the
// gate passes only if neither call had to wait.
fn passes(calls: &[Call]) -> bool {
    let gate = TestGate::with_spin_limit(7, 3, 5);
    for call in calls {
        make(&gate, *call);
    }
    gate.passed()
}

#[test]
fn a_new_gate_has_not_passed(rt: HostRuntime) -> Result<(), Fail> {
    assert!(rt; !TestGate::new(7, 3).passed());
    make(&OpenGate, Call::BeforeTurn(7));
    assert!(rt; !OpenGate.apart() && TestGate::new(7, 3).apart());
    assert!(rt; !OpenGate.may_hold() && TestGate::new(7, 3).may_hold());
    Ok(())
}

// The calls of one thread, and whether the gate passes.
const CALLS: [([Call; 3], bool); 6] = [
    // The turn was over when the crossing began, and other events and frames are not held.
    (
        [
            Call::BeforeTurn(6),
            Call::AfterTurn(7),
            Call::BeforeCrossing(3),
        ],
        true,
    ),
    (
        [
            Call::BeforeCrossing(2),
            Call::AfterTurn(7),
            Call::BeforeCrossing(3),
        ],
        true,
    ),
    // The turn waits for a crossing that does not begin.
    (
        [
            Call::BeforeTurn(7),
            Call::AfterTurn(7),
            Call::BeforeCrossing(3),
        ],
        false,
    ),
    // The crossing waits for a turn that does not end.
    (
        [
            Call::BeforeCrossing(3),
            Call::BeforeTurn(7),
            Call::AfterTurn(7),
        ],
        false,
    ),
    // Other events and frames do not count.
    (
        [
            Call::AfterTurn(8),
            Call::BeforeTurn(8),
            Call::BeforeCrossing(3),
        ],
        false,
    ),
    (
        [
            Call::AfterTurn(7),
            Call::BeforeCrossing(2),
            Call::AfterCrossing(3),
        ],
        false,
    ),
];

// Returns whether the gate passes if and only if it should.
fn pass_as_wanted(rows: &[([Call; 3], bool)]) -> bool {
    for (calls, wanted) in rows {
        if passes(calls) != *wanted {
            return false;
        }
    }
    true
}

#[test]
fn one_thread_alone_passes_only_where_nothing_is_held(rt: HostRuntime) -> Result<(), Fail> {
    assert!(rt; pass_as_wanted(&CALLS));
    Ok(())
}

// Two threads at one gate: a processor takes its turn at event 7 while the frame worker moves the
// octets of frame 3.
fn passes_side_by_side<R: Threads + Sync>(rt: &R, gate: &TestGate) -> bool {
    join(
        rt,
        || {
            gate.before_turn(0, 7);
            gate.after_turn(0, 7);
        },
        || {
            gate.before_crossing(3);
            gate.after_crossing(3);
        },
    );
    gate.passed()
}

#[test]
fn two_threads_pass_where_they_run_at_once(rt: HostRuntime) -> Result<(), Fail> {
    assert!(rt; passes_side_by_side(&rt, &TestGate::new(7, 3)));
    Ok(())
}

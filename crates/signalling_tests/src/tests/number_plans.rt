//! The number plan, step by step.
use number_plan::{Found, LineList, Plan, PlanFault, Target, is_number};
use std::alloc::Global;
use std::test::*;

// A step on a plan, and its result.
#[derive(Drop)]
enum Step {
    Add(&'static [u8], Target, Result<(), PlanFault>),
    Look(&'static [u8], Found),
}

fn passes(plan: &mut Plan, step: &Step) -> bool {
    match step {
        Step::Add(digits, target, wanted) => {
            is_number(digits) && plan.add(digits, *target) == *wanted
        }
        Step::Look(digits, wanted) => plan.look(digits) == *wanted,
    }
}

const STEPS: [Step; 24] = [
    Step::Look(b"", Found::Nothing),
    Step::Add(b"101", Target::Line(1), Ok(())),
    Step::Look(b"", Found::More),
    Step::Look(b"1", Found::More),
    Step::Look(b"10", Found::More),
    Step::Look(b"101", Found::Line(1)),
    Step::Look(b"1012", Found::Line(1)),
    Step::Look(b"102", Found::Nothing),
    Step::Look(b"11", Found::Nothing),
    Step::Look(b"0", Found::Nothing),
    // The same number, a prefix of it, and a continuation of it.
    Step::Add(b"101", Target::Room(3), Err(PlanFault::Prefix)),
    Step::Add(b"1", Target::Room(3), Err(PlanFault::Prefix)),
    Step::Add(b"1010", Target::Room(3), Err(PlanFault::Prefix)),
    Step::Look(b"101", Found::Line(1)),
    // Numbers before it, after it and next to it.
    Step::Add(b"30", Target::Room(0), Ok(())),
    Step::Add(b"0", Target::Line(7), Ok(())),
    Step::Add(b"100", Target::Line(2), Ok(())),
    Step::Add(b"12345678901234567890", Target::Line(3), Ok(())),
    Step::Look(b"3099", Found::Room(0)),
    Step::Look(b"0", Found::Line(7)),
    Step::Look(b"100", Found::Line(2)),
    Step::Look(b"10", Found::More),
    Step::Look(b"1234567890123456789", Found::More),
    Step::Look(b"123456789012345678901", Found::Line(3)),
];

#[test]
fn looks(rt: HostRuntime) {
    let mut plan = Plan::new(rt.alloc());
    for (place, step) in STEPS.iter().enumerate() {
        assert!(rt; passes(&mut plan, step), "at step {place}");
    }
}

// Returns the list of the first 32 of these lines.
fn list_of(lines: &[u8]) -> LineList {
    let mut list = LineList::new();
    for line in lines {
        if !list.is_full() {
            list.push(*line);
        }
    }
    list
}

#[test]
fn finds_lists_of_lines(rt: HostRuntime) {
    let mut plan = Plan::new(rt.alloc());
    let steps = [
        Step::Add(b"20", Target::Lines(list_of(&[3, 31, 0])), Ok(())),
        Step::Add(b"21", Target::Lines(list_of(&[4])), Ok(())),
        Step::Look(b"205", Found::Lines(list_of(&[3, 31, 0]))),
        Step::Look(b"21", Found::Lines(list_of(&[4]))),
        Step::Look(b"2", Found::More),
    ];
    for (place, step) in steps.iter().enumerate() {
        assert!(rt; passes(&mut plan, step), "at step {place}");
    }
    assert!(rt; plan.look(b"20") != Found::Lines(list_of(&[31, 3, 0])));
    assert!(rt; plan.look(b"21") != Found::Line(4));
    assert!(rt; list_of(&[7; 33]).as_slice() == [7; 32].as_slice());
}

// Adds the number of three digits, each from 0 to 9.
fn add(plan: &mut Plan, number: u16) -> Result<(), PlanFault> {
    let digits = [
        b'0' + (number / 100 % 10) as u8,
        b'0' + (number / 10 % 10) as u8,
        b'0' + (number % 10) as u8,
    ];
    if !is_number(&digits) {
        return Err(PlanFault::Memory);
    }
    plan.add(&digits, Target::Line((number % 32) as u8))
}

#[test]
fn is_full_with_256(rt: HostRuntime) {
    let mut plan = Plan::new(rt.alloc());
    for step in 0..256u16 {
        assert!(rt; add(&mut plan, step * 37 % 512) == Ok(()));
    }
    assert!(rt; add(&mut plan, 0) == Err(PlanFault::Prefix));
    assert!(rt; add(&mut plan, 999) == Err(PlanFault::TooMany));
    assert!(rt; plan.look(b"037") == Found::Line(5));
    assert!(rt; plan.look(b"999") == Found::Nothing);
}

// Returns whether an error has this number and this text.
fn is_named(alloc: Global, fault: PlanFault, number: u8, text: &str) -> Result<bool, Fail> {
    Ok(fault as u8 == number && format!(in alloc; "{fault}")?.as_str() == text)
}

#[test]
fn names_faults(rt: HostRuntime) -> Result<(), Fail> {
    for (fault, number, text) in [
        (
            PlanFault::Prefix,
            1,
            "the number equals, begins or continues another",
        ),
        (PlanFault::TooMany, 2, "the plan is full"),
        (PlanFault::Memory, 3, "out of memory"),
    ] {
        assert!(rt; is_named(rt.alloc(), fault, number, text)?, "{text}");
    }
    Ok(())
}

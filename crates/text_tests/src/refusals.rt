// Calls whose allocation may fail: their subject is then unchanged, and the call succeeds when it is repeated. Any one
// request of these tests can be refused (`.ci/memory --calls`).
use crate::keeper::Keeper;
use circuit_model::Slot;
use exchange_events::{Answer, CallRecord, Party, Reply};
use meters::{CallDetail, Meter};
use number_plan::{Found, Plan, Target, is_number};
use report_text::append_answer;
use std::alloc::Global;
use std::test::Fail;

// Returns whether a number is added that the plan does not have, at once or at the second time.
fn adds(plan: &mut Plan, digits: &[u8], line: u8) -> bool {
    if !is_number(digits) {
        return false;
    }
    plan.add(digits, Target::Line(line)).is_ok()
        || (plan.look(digits) == Found::Nothing && plan.add(digits, Target::Line(line)).is_ok())
}

#[test]
fn a_plan_that_refuses_a_number_is_as_it_was(rt: HostRuntime) {
    let mut plan = Plan::new(rt.alloc());
    for line in 0..9u8 {
        assert!(rt; adds(&mut plan, &[b'3', b'0' + line], line));
    }
    for line in 0..9u8 {
        assert!(rt; plan.look(&[b'3', b'0' + line]) == Found::Line(line));
    }
    assert!(rt; plan.look(b"39") == Found::Nothing);
}

// Returns whether the line of an answer is appended, at once or at the second time.
fn appends(out: &mut Vec<u8>, answer: &Answer) -> bool {
    let before = out.len();
    append_answer(out, answer).is_ok()
        || (out.len() == before && append_answer(out, answer).is_ok())
}

// Returns an answer without lists, which requests no memory.
fn granted(alloc: Global, event: u32) -> Option<Answer> {
    Answer::keep(alloc, event, &Reply::Granted(0, 62), &[]).ok()
}

#[test]
fn a_report_that_refuses_a_line_is_as_it_was(rt: HostRuntime) {
    let alloc = rt.alloc();
    let mut out = Vec::new(alloc);
    for event in 1..4u32 {
        let Some(answer) = granted(alloc, event) else {
            continue;
        };
        assert!(rt; appends(&mut out, &answer));
    }
    let wanted = b"1 granted 0 62\n2 granted 0 62\n3 granted 0 62\n".as_slice();
    assert!(rt; out.as_slice() == wanted);
}

// Returns the record of a call to a room.
fn record(cause: u8, answered: bool) -> CallRecord {
    CallRecord {
        caller: Slot { line: 0, place: 0 },
        called: Party::Room(5),
        answered,
        from: 1,
        to: 4,
        cause,
    }
}

// Returns whether a meter records a call, at once or at the second time.
fn notes<M: Meter>(meter: &mut M, call: &CallRecord) -> bool {
    meter.note(call).is_ok() || meter.note(call).is_ok()
}

// Returns whether a meter's text is appended, at once or at the second time.
fn says<M: Meter>(meter: &M, out: &mut Vec<u8>) -> bool {
    let before = out.len();
    meter.summary(out).is_ok() || (out.len() == before && meter.summary(out).is_ok())
}

#[test]
fn a_meter_that_refuses_a_record_is_as_it_was(rt: HostRuntime) {
    let mut keeper = Keeper::new(rt.alloc());
    for answered in [true, false, true, true, false, true] {
        assert!(rt; notes(&mut keeper, &record(16, answered)));
    }
    let mut out = Vec::new(rt.alloc());
    assert!(rt; says(&keeper, &mut out));
    assert!(rt; out.as_slice() == b"ANAANA".as_slice());
}

#[test]
fn a_text_that_refuses_a_summary_is_as_it_was(rt: HostRuntime) -> Result<(), Fail> {
    let alloc = rt.alloc();
    let mut calls = match CallDetail::new(alloc, 2) {
        Ok(calls) => calls,
        Err(_) => CallDetail::new(alloc, 2)?,
    };
    for cause in [16, 31, 102] {
        assert!(rt; notes(&mut calls, &record(cause, true)));
    }
    let mut out = Vec::new(alloc);
    assert!(rt; says(&calls, &mut out));
    assert!(rt; says(&calls, &mut out));
    let wanted =
        b"call 0/1 room 5 1 4 31\ncall 0/1 room 5 1 4 102\ncall 0/1 room 5 1 4 31\ncall 0/1 room 5 1 4 102\n".as_slice();
    assert!(rt; out.as_slice() == wanted);
    Ok(())
}

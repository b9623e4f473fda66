// Each meter through the trait, together with two meters of a program.
use crate::calls_to_line::CallsToLine;
use crate::keeper::Keeper;
use circuit_model::Slot;
use exchange_events::{CallRecord, Party};
use meters::{CallDetail, HoldingTime, Meter, PegCount, append_summaries};
use std::alloc::{AllocError, Global};
use std::test::Fail;

// An answered call between slots, a longer one to a room, and one that was not answered and is recorded with its frames
// in the wrong order.
const CALLS: [CallRecord; 3] = [
    CallRecord {
        caller: Slot { line: 0, place: 0 },
        called: Party::Line(Slot {
            line: 12,
            place: 29,
        }),
        answered: true,
        from: 2,
        to: 10,
        cause: 16,
    },
    CallRecord {
        caller: Slot {
            line: 31,
            place: 14,
        },
        called: Party::Room(63),
        answered: true,
        from: 100,
        to: 4100,
        cause: 102,
    },
    CallRecord {
        caller: Slot { line: 7, place: 15 },
        called: Party::Line(Slot { line: 0, place: 1 }),
        answered: false,
        from: 9,
        to: 8,
        cause: 17,
    },
];

fn note_to_each(meters: &mut [Box<dyn Meter>], call: &CallRecord) -> Result<(), AllocError> {
    for meter in meters.iter_mut() {
        meter.note(call)?;
    }
    Ok(())
}

fn note_all(meters: &mut [Box<dyn Meter>], calls: &[CallRecord]) -> Result<(), AllocError> {
    for call in calls {
        note_to_each(meters, call)?;
    }
    Ok(())
}

/// A meter of these tests.
#[derive(Clone, Copy)]
enum Kind {
    /// The details of the last two calls.
    Details,
    Peg,
    Holding,
    Keeper,
    /// The calls to a line.
    CallsTo(u8),
}

use Kind::{CallsTo, Details, Holding, Peg};

/// Meters, their texts without a call, the number of calls that then end, and the texts after these.
struct Told<'a> {
    kinds: &'a [Kind],
    before: &'a str,
    count: usize,
    after: &'a str,
}

// Returns whether the meters append these texts to an earlier one.
fn say_behind(
    alloc: Global,
    meters: &mut [Box<dyn Meter>],
    told: &Told,
) -> Result<bool, AllocError> {
    let mut out = vec![in alloc; b'>']?;
    append_summaries(meters, &mut out)?;
    note_all(meters, CALLS.get(..told.count).unwrap_or(&CALLS))?;
    append_summaries(meters, &mut out)?;
    let Some(said) = out.as_slice().strip_prefix(b">") else {
        return Ok(false);
    };
    Ok(said.strip_prefix(told.before.as_bytes()) == Some(told.after.as_bytes()))
}

// Makes the meters of all tests, because each way out of a function that makes them drops those made before. Returns
// whether they have these texts.
fn say(alloc: Global, told: &Told) -> Result<bool, AllocError> {
    let mut meters: Vec<Box<dyn Meter>> = Vec::new(alloc);
    for kind in told.kinds {
        let meter: Box<dyn Meter> = match kind {
            Details => Box::new(alloc, CallDetail::new(alloc, 2)?)?,
            Peg => Box::new(alloc, PegCount::new())?,
            Holding => Box::new(alloc, HoldingTime::new())?,
            Kind::Keeper => Box::new(alloc, Keeper::new(alloc))?,
            CallsTo(line) => Box::new(alloc, CallsToLine::new(*line))?,
        };
        meters.push(meter)?;
    }
    say_behind(alloc, &mut meters, told)
}

const OF_ALL_KINDS: Told = Told {
    kinds: &[Details, Peg, Holding, Kind::Keeper],
    before: "peg 0 0\nholding 0 0\n",
    count: 3,
    after: "call 31/15 room 63 100 4100 102\ncall 7/17 0/2 9 8 17\npeg 3 2\nholding 4008 4000\nAAN",
};

#[test]
fn meters_say_what_they_were_told(rt: HostRuntime) -> Result<(), Fail> {
    assert!(rt; say(rt.alloc(), &OF_ALL_KINDS)?);
    Ok(())
}

// Two counts of the calls to one line, the same or another, next to a peg count. None counts the line of a caller, or a
// room with the number of the line.
const OF_LINES: [Told; 5] = [
    Told {
        kinds: &[CallsTo(12), Peg, CallsTo(0)],
        before: "to 12: 0\npeg 0 0\nto 0: 0\n",
        count: 0,
        after: "to 12: 0\npeg 0 0\nto 0: 0\n",
    },
    Told {
        kinds: &[CallsTo(12), Peg, CallsTo(0)],
        before: "to 12: 0\npeg 0 0\nto 0: 0\n",
        count: 1,
        after: "to 12: 1\npeg 1 1\nto 0: 0\n",
    },
    Told {
        kinds: &[CallsTo(12), Peg, CallsTo(0)],
        before: "to 12: 0\npeg 0 0\nto 0: 0\n",
        count: 3,
        after: "to 12: 1\npeg 3 2\nto 0: 1\n",
    },
    Told {
        kinds: &[CallsTo(0), Peg, CallsTo(0)],
        before: "to 0: 0\npeg 0 0\nto 0: 0\n",
        count: 3,
        after: "to 0: 1\npeg 3 2\nto 0: 1\n",
    },
    Told {
        kinds: &[CallsTo(63), Peg, CallsTo(7)],
        before: "to 63: 0\npeg 0 0\nto 7: 0\n",
        count: 3,
        after: "to 63: 0\npeg 3 2\nto 7: 0\n",
    },
];

fn all_say(alloc: Global, rows: &[Told]) -> Result<bool, AllocError> {
    for told in rows {
        if !say(alloc, told)? {
            return Ok(false);
        }
    }
    Ok(true)
}

#[test]
fn calls_are_counted_at_their_line(rt: HostRuntime) -> Result<(), Fail> {
    assert!(rt; all_say(rt.alloc(), &OF_LINES)?);
    Ok(())
}

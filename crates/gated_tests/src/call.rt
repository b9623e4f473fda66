//! One call of the exchange.
ghost use Rattle.std.specs.Prelude.{◌≤◌, []};
ghost use Rattle.line_wire.specs.Memory.{IsTaped};

use crate::arguments::Arguments;
use ex_io::{MemSink, MemSource};
use exchange_follow::{FollowOutcome, follow};
use exchange_run::{Outcome, exchange};
use frame_engine::Carrier;
use library_example::CauseCount;
use line_wire::MemWire;
use meters::{CallDetail, HoldingTime, Meter, PegCount, append_summaries};
use std::alloc::{AllocError, Global};
use std::collections::VecDeque;
use std::sync::Wait;
use std::thread::Threads;

// The cause of a call to a busy line.
const BUSY: u8 = 17;

/// The result of a call: the status, the number of processed events and the last of them, and whether an engine is
/// returned.
#[derive(Clone, Copy, Drop)]
pub struct Ended {
    pub status: u8,
    pub events: usize,
    pub last: u32,
    pub has_engine: bool,
}

impl Ended {
    // Returns the result of a call of `exchange`.
    fn of_run<C: Carrier>(outcome: &Outcome<C>) -> Ended {
        let order = outcome.order.as_slice();
        Ended {
            status: outcome.status,
            events: order.len(),
            last: order.last().copied().unwrap_or(0),
            has_engine: outcome.engine.is_some(),
        }
    }

    // Returns the result of a call of `follow`.
    fn of_following<C: Carrier>(outcome: &FollowOutcome<C>) -> Ended {
        Ended {
            status: outcome.status,
            events: 0,
            last: 0,
            has_engine: outcome.engine.is_some(),
        }
    }
}

/// The meters that are left: the numbers of active and spare ones, and their summaries.
#[derive(Drop)]
pub struct Left {
    pub on: usize,
    pub spare: usize,
    pub text: Vec<u8>,
}

// Returns the number of calls that a kind of meter has details of.
fn details(letter: u8) -> u32
    ensures { (1 ≤ result) × (result ≤ 20) }
{
    match letter {
        b'l' => 1,
        b'm' => 20,
        _ => 10,
    }
}

/// Calls `exchange` over a source and a sink, with an engine of type `C`. The meters are boxed here, where they are
/// used. Adds those that are left.
pub fn called<C: Carrier, R: Threads + Wait + Sync>(
    rt: &R,
    alloc: Global,
    arguments: &Arguments,
    source: &mut MemSource,
    sink: &mut MemSink,
    left: &mut Left,
) -> Result<Ended, AllocError> {
    let mut boxed: VecDeque<Box<dyn Meter>> = VecDeque::new(alloc);
    for letter in arguments.on.iter().chain(arguments.spare.iter()) {
        match *letter {
            b'p' => boxed.push_back(Box::new(alloc, PegCount::new())?)?,
            b'h' => boxed.push_back(Box::new(alloc, HoldingTime::new())?)?,
            b'b' => boxed.push_back(Box::new(alloc, CauseCount::new(BUSY))?)?,
            other => boxed.push_back(Box::new(alloc, CallDetail::new(alloc, details(other))?)?)?,
        }
    }
    let mut spare = boxed.split_off(boxed.len().min(arguments.on.len()))?;
    let mut on = Vec::from(boxed);
    let (words, gate) = (&arguments.command, &arguments.gate);
    let outcome: Outcome<C> = exchange(rt, alloc, words, source, sink, gate, &mut on, &mut spare);
    left.on = on.len();
    left.spare = spare.len();
    append_summaries(on.as_slice(), &mut left.text)?;
    append_summaries(Vec::from(spare).as_slice(), &mut left.text)?;
    Ok(Ended::of_run(&outcome))
}

/// Calls `follow` over a wire, with an engine of type `C`. The meters are boxed here, where they are used. Adds those
/// that are left.
pub fn followed<C: Carrier, R: Threads + Sync>(
    rt: &R,
    alloc: Global,
    arguments: &Arguments,
    strict: bool,
    wire: &mut MemWire,
    left: &mut Left,
) -> Result<Ended, AllocError>
    requires fresh { IsTaped wire.old [] [] }
{
    let mut boxed: VecDeque<Box<dyn Meter>> = VecDeque::new(alloc);
    for letter in arguments.on.iter().chain(arguments.spare.iter()) {
        match *letter {
            b'p' => boxed.push_back(Box::new(alloc, PegCount::new())?)?,
            b'h' => boxed.push_back(Box::new(alloc, HoldingTime::new())?)?,
            b'b' => boxed.push_back(Box::new(alloc, CauseCount::new(BUSY))?)?,
            other => boxed.push_back(Box::new(alloc, CallDetail::new(alloc, details(other))?)?)?,
        }
    }
    let mut spare = boxed.split_off(boxed.len().min(arguments.on.len()))?;
    let mut on = Vec::from(boxed);
    let outcome: FollowOutcome<C> = follow(rt, alloc, strict, wire, &mut on, &mut spare);
    left.on = on.len();
    left.spare = spare.len();
    append_summaries(on.as_slice(), &mut left.text)?;
    append_summaries(Vec::from(spare).as_slice(), &mut left.text)?;
    Ok(Ended::of_following(&outcome))
}

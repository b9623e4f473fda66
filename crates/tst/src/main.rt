//! A digital telephone exchange as a filter from standard input to standard output.
//!
//! - `run` reads a trace of events and writes the report of its run. `run --strict` does the same on a fabric that
//!   never moves a path.
//! - `gen SEED CALLS` writes the summary of a generated trace.
//! - `check` reads a trace and a report, and writes the verdict on the report.
//! - `follow` reads a trace and writes the report line of each event when its line arrives. It accepts the same flag.
//!
//! The program makes the standard source and sink, three meters and three spare ones. It calls `exchange_top::follow`
//! for `follow`, and `exchange_top::exchange` for all other arguments, with the engine of three stages in a box, and
//! ends with the status of the call. The guarantee is that call's, because `main` has no contract. Nothing is proved
//! about standard input and output. `.ci/gated` runs whole traces over in-memory streams by the program of
//! `gated_tests`, which calls the same functions.
#![tactic(auto)]

ghost use Rattle.std.specs.Prelude.{[]};

use command_words::{CommandError, read_follow};
use ex_io::{Sink, Source, StdSink, StdSource};
use exchange_top::{FollowOutcome, Outcome, exchange, follow};
use frame_engine::Engine;
use gate::OpenGate;
use line_wire::{StdWire, Wire};
use meters::{CallDetail, HoldingTime, Meter, PegCount};
use std::alloc::{AllocError, Global};
use std::collections::VecDeque;
use std::env;
use std::io::{self, ErrorKind};
use std::process::ExitCode;
use std::sync::Wait;
use std::thread::Threads;

// Returns the arguments after the program's name. An argument that is not text is not a command.
fn words_of(rt: &HostRuntime) -> io::Result<Vec<String>> {
    let arguments = match env::args(rt) {
        Ok(arguments) => arguments,
        Err(error) if error.kind() == ErrorKind::InvalidData => return Ok(Vec::new(rt.alloc())),
        Err(error) => return Err(error),
    };
    Ok(arguments.skip(1).collect(rt.alloc())?)
}

// Returns the status of a call with three meters: the details of the last ten calls, a peg count and the holding time;
// and with three spare ones of the same kinds. They are boxed here, where they are used.
fn status_of<S: Source, K: Sink, R: Threads + Wait + Sync>(
    rt: &R,
    alloc: Global,
    words: &[String],
    wire: &mut StdWire<S, K>,
) -> Result<u8, AllocError>
    requires fresh { ⟦<StdWire<S, K> as Wire>⟧.stands wire.old [] [] }
{
    let mut boxed: VecDeque<Box<dyn Meter>> = VecDeque::with_capacity(alloc, 6)?;
    for _ in 0..2 {
        boxed.push_back(Box::new(alloc, CallDetail::new(alloc, 10)?)?)?;
        boxed.push_back(Box::new(alloc, PegCount::new())?)?;
        boxed.push_back(Box::new(alloc, HoldingTime::new())?)?;
    }
    let half = boxed.len() / 2;
    let mut spare = boxed.split_off(half)?;
    let mut meters = Vec::from(boxed);
    match read_follow(alloc, words) {
        Ok(strict) => {
            // In a box the engine moves as one word.
            let followed: FollowOutcome<Box<Engine>> = follow(
                rt,
                alloc,
                strict,
                wire,
                &mut meters,
                &mut spare,
            );
            Ok(followed.status)
        }
        Err(CommandError::Memory) => Ok(5),
        Err(CommandError::NoCommand) => {
            let outcome: Outcome<Box<Engine>> = exchange(
                rt,
                alloc,
                words,
                &mut wire.source,
                &mut wire.sink,
                &OpenGate,
                &mut meters,
                &mut spare,
            );
            Ok(outcome.status)
        }
    }
}

fn main(rt: HostRuntime) -> ExitCode {
    // Otherwise an allocation failed.
    let Ok(words) = words_of(&rt) else {
        return ExitCode::from(5);
    };
    let source = StdSource::new(rt.stdin());
    let sink = StdSink::new(rt.stdout());
    let mut wire = StdWire::new(source, sink);
    let status = status_of(&rt, rt.alloc(), &words, &mut wire);
    ExitCode::from(status.unwrap_or(5))
}

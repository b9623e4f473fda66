//! Parts of the exchange, each by itself, so that its time can be measured: the proved half of `bench/mix`,
//! `bench/stages` and `bench/turns`.
//!
//! - `bench_parts mix ROUNDS` mixes a full bridge of four rooms that many times, and prints a checksum of the mixed
//!   octets. Each round uses the result of the one before, so none can be left out.
//! - `bench_parts stages PAIRS` carries that many pairs of frames, each stage by one call, and prints a sum over the last
//!   one. `bench_parts stages PAIRS shared` uses the calls that halve the lines of a stage three times if that pays.
//!   `bench_parts stages PAIRS joins` uses a thread for each half, with seven joins in a stage.
//! - `bench_parts turns SEATS STEPS TURN` has each seat of a turn lock, in its own thread, step the events 1 to STEPS, in
//!   turns of TURN steps. It prints the sum of the events and the length of the journal.
//!
//! Without arguments it does a few of each. The program is proved safe. No contract specifies its output.
#![tactic(auto)]

mod crew;
mod fabric;
mod mixing;
mod sum;

use anyhow::Result;
use fabric::Way;
use std::alloc::{AllocError, Global};
use std::env;
use std::sync::Wait;
use std::thread::Threads;

// A part at work, with its amount.
#[derive(Clone, Copy)]
enum Work {
    Mix { rounds: u32 },
    Stages { pairs: u32, way: Way },
    Turns { seats: u32, steps: u32, turn: u32 },
}

// The work without arguments.
const FEW: [Work; 3] = [
    Work::Mix { rounds: 1000 },
    Work::Stages {
        pairs: 4,
        way: Way::Plain,
    },
    Work::Turns {
        seats: 3,
        steps: 100,
        turn: 7,
    },
];

fn way_named(word: Option<&String>) -> Way {
    match word.map(String::as_str) {
        Some("shared") => Way::Shared,
        Some("joins") => Way::Joins,
        _ => Way::Plain,
    }
}

fn number(word: Option<&String>) -> u32 {
    match word {
        Some(word) => word.as_str().parse().unwrap_or(0),
        None => 0,
    }
}

// Returns the work that the arguments request.
fn work_of(words: &[String]) -> Option<Work> {
    match words.first().map(String::as_str) {
        Some("mix") => Some(Work::Mix {
            rounds: number(words.get(1)),
        }),
        Some("stages") => Some(Work::Stages {
            pairs: number(words.get(1)),
            way: way_named(words.get(2)),
        }),
        Some("turns") => Some(Work::Turns {
            seats: number(words.get(1)),
            steps: number(words.get(2)),
            turn: number(words.get(3)),
        }),
        _ => None,
    }
}

// Does some work, and returns its result as a line, which is empty if a number is out of bounds.
fn line_of<R: Threads + Wait + Sync>(
    rt: &R,
    alloc: Global,
    work: Work,
) -> Result<String, AllocError> {
    match work {
        Work::Mix { rounds } => {
            let sum = mixing::run(alloc, rounds)?;
            format!(in alloc; "{sum}\n")
        }
        Work::Stages { pairs, way } => {
            let sum = fabric::run(rt, alloc, pairs, way)?;
            format!(in alloc; "{sum}\n")
        }
        Work::Turns { seats, steps, turn } => match crew::run(rt, alloc, seats, steps, turn) {
            Some((total, entries)) => format!(in alloc; "{total} {entries}\n"),
            None => Ok(String::new(alloc)),
        },
    }
}

fn main(rt: HostRuntime) -> Result<()> {
    let alloc = rt.alloc();
    let words: Vec<String> = env::args(&rt)?.skip(1).collect(alloc)?;
    match work_of(words.as_slice()) {
        Some(work) => {
            let line = line_of(&rt, alloc, work)?;
            print!(rt; "{line}")?;
        }
        None => {
            for work in FEW {
                let line = line_of(&rt, alloc, work)?;
                print!(rt; "{line}")?;
            }
        }
    }
    Ok(())
}

//! The program of the tests of a whole call: the exchange over streams in memory, under a gate and with any meters.
//!
//! `gated_tests GATE ON SPARE READS WRITES COMMAND ..` passes standard input and the arguments from COMMAND on to
//! `exchange_run::exchange`, or to `exchange_follow::follow` if COMMAND is `follow`. After a word `marked` the engine is
//! `Marker`. The arguments before it are:
//!
//! - GATE ([`TestedGate`](gates::TestedGate)): `open` is the gate of `tst`. With `single` all segments run in threads
//!   and each turn has one event. With `kept` they run in threads and a worker keeps its turn as long as it may.
//!   `behind:HELD:FIRST`, `crossing:EVENT:FRAME` and `meeting:WORKERS` hold threads. `watched:EVENTS:FRAMER` records
//!   the calls of threads, and `watched_open:EVENTS:FRAMER` the calls of one caller.
//! - ON and SPARE: a letter for each active and each spare meter, `-` for none. `l`, `c` and `m` are details of the
//!   last call, of the last 10 and of the last 20, `p` is a peg count, and `h` the holding time. `b` is the meter of
//!   `library_example`, and counts the calls to busy lines.
//! - READS and WRITES: `CALL:PIECE` is the number of the call that fails, 0 if all succeed, and the largest number of
//!   octets that one call moves.
//!
//! After the output of the command the program writes a line `left` and the summaries of the remaining meters, first of
//! the active and then of the spare ones. Three lines of numbers follow:
//!
//! - `ended`: the status, the number of processed events, the last of them, 1 if an engine is returned, the numbers of
//!   active and spare meters, and the error counts of the source and of the sink.
//! - `gate`: the record of the gate ([`TestedGate::record`](gates::TestedGate::record)).
//! - `reads`: the number of octets written before each read of a followed trace.
//!
//! The program ends with the status of the command. For other arguments it ends with 8, and if an allocation, a read or
//! a write fails outside the call, with 9. It then writes nothing.
//!
//! The order of the threads is not reproducible. `.ci/random_traces` compares the report with a reference program that
//! processes the events in the order of its lines, and `.ci/gated` has worked calls. The program is proved safe. No
//! contract specifies its output.
#![tactic(auto)]

mod arguments;
mod call;
mod gates;
mod text;

ghost use Rattle.std.specs.Prelude.{◌≡◌, ◌≤◌, [], IfOk};
ghost use Rattle.line_wire.specs.Memory.{IsTaped};

use arguments::{Arguments, Callee, Fails, read_arguments};
use call::{Left, called, followed};
use ex_io::{MemSink, MemSource, StdSource, read_all};
use frame_engine::{Carrier, Engine, Marker};
use gates::TestedGate;
use line_wire::MemWire;
use std::alloc::{AllocError, Global};
use std::process::ExitCode;
use std::sync::Wait;
use std::thread::Threads;
use std::{env, io};
use text::text_of;

/// The largest number of octets of an input.
const MAX_INPUT: usize = 1 << 28;

/// The capacity of the output.
const ROOM: usize = 1 << 26;

/// The capacity of the list of reads.
const READS: usize = 4096;

/// The status for arguments of another form.
const WRONG_ARGUMENTS: u8 = 8;

/// The status if an allocation, a read or a write of this program fails.
const FAILED: u8 = 9;

// Returns a sink whose write with this number fails.
fn sink_of(alloc: Global, writes: Fails) -> Result<MemSink, AllocError>
    requires { 1 ≤ writes.piece }
    ensures { IfOk result (λ sink. sink.written ≡ []) }
{
    MemSink::new(alloc, ROOM, writes.piece, [writes.call].to_vec(alloc)?)
}

// Returns a wire with this input, whose read and write with these numbers fail.
fn wire_of(alloc: Global, input: &[u8], reads: Fails, writes: Fails) -> Result<MemWire, AllocError>
    requires { (1 ≤ reads.piece) × (1 ≤ writes.piece) }
    ensures { IfOk result (λ wire. IsTaped wire [] []) }
{
    let sink = sink_of(alloc, writes)?;
    MemWire::new(
        alloc,
        input,
        reads.piece,
        [reads.call].to_vec(alloc)?,
        sink,
        READS,
    )
}

/// The text that the program writes, and its status.
#[derive(Drop)]
struct Answer {
    text: Vec<u8>,
    status: u8,
}

// Returns no meters.
fn none_left(alloc: Global) -> Left {
    Left {
        on: 0,
        spare: 0,
        text: Vec::new(alloc),
    }
}

// Returns the answer of a command over a source and a sink, with an engine of type `C`.
fn exchanged<C: Carrier, R: Threads + Wait + Sync>(
    rt: &R,
    alloc: Global,
    arguments: &Arguments,
    input: Vec<u8>,
) -> Result<Answer, AllocError> {
    let (reads, writes) = (arguments.reads, arguments.writes);
    if reads.piece == 0 || writes.piece == 0 {
        return wrong_arguments(alloc);
    }
    let mut source = MemSource::new(input, reads.piece, [reads.call].to_vec(alloc)?);
    let mut sink = sink_of(alloc, writes)?;
    let mut left = none_left(alloc);
    let ended = called::<C, R>(rt, alloc, arguments, &mut source, &mut sink, &mut left)?;
    let errors = (source.error_count(), sink.error_count());
    let text = text_of(
        alloc,
        &arguments.gate,
        &ended,
        &left,
        sink.bytes(),
        errors,
        &[],
    )?;
    Ok(Answer {
        text,
        status: ended.status,
    })
}

// Returns the answer of `follow` over a wire.
fn followed_wire<R: Threads + Sync>(
    rt: &R,
    alloc: Global,
    arguments: &Arguments,
    strict: bool,
    input: &[u8],
) -> Result<Answer, AllocError> {
    let (reads, writes) = (arguments.reads, arguments.writes);
    if reads.piece == 0 || writes.piece == 0 {
        return wrong_arguments(alloc);
    }
    let mut wire = wire_of(alloc, input, reads, writes)?;
    let mut left = none_left(alloc);
    let ended = followed::<Engine, R>(rt, alloc, arguments, strict, &mut wire, &mut left)?;
    let text = text_of(
        alloc,
        &arguments.gate,
        &ended,
        &left,
        wire.bytes(),
        (0, 0),
        wire.notes(),
    )?;
    Ok(Answer {
        text,
        status: ended.status,
    })
}

// Returns the answer of the command of the arguments over an input.
fn answer_of<R: Threads + Wait + Sync>(
    rt: &R,
    alloc: Global,
    arguments: &Arguments,
    input: Vec<u8>,
) -> Result<Answer, AllocError> {
    match arguments.callee {
        Callee::Exchange => exchanged::<Engine, R>(rt, alloc, arguments, input),
        Callee::MarkedExchange => exchanged::<Marker, R>(rt, alloc, arguments, input),
        Callee::Follow(strict) => followed_wire(rt, alloc, arguments, strict, input.as_slice()),
    }
}

// Returns the answer to arguments of another form.
fn wrong_arguments(alloc: Global) -> Result<Answer, AllocError> {
    Ok(Answer {
        text: Vec::new(alloc),
        status: WRONG_ARGUMENTS,
    })
}

// Returns the answer to the arguments after the program's name.
fn answered<R: Threads + Wait + Sync>(
    rt: &R,
    alloc: Global,
    words: &[String],
    input: Vec<u8>,
) -> Result<Answer, AllocError> {
    match read_arguments(alloc, words)? {
        Some(arguments) => answer_of(rt, alloc, &arguments, input),
        None => wrong_arguments(alloc),
    }
}

// Returns the arguments after the program's name.
fn words_of(rt: &HostRuntime) -> io::Result<Vec<String>> {
    Ok(env::args(rt)?.skip(1).collect(rt.alloc())?)
}

fn main(rt: HostRuntime) -> ExitCode {
    let Ok(words) = words_of(&rt) else {
        return ExitCode::from(FAILED);
    };
    let Ok(input) = read_all(rt.alloc(), &mut StdSource::new(rt.stdin()), MAX_INPUT) else {
        return ExitCode::from(FAILED);
    };
    let Ok(answer) = answered(&rt, rt.alloc(), words.as_slice(), input) else {
        return ExitCode::from(FAILED);
    };
    let Ok(text) = str::from_utf8(answer.text.as_slice()) else {
        return ExitCode::from(FAILED);
    };
    match print!(rt; "{text}") {
        Ok(()) => ExitCode::from(answer.status),
        Err(_) => ExitCode::from(FAILED),
    }
}

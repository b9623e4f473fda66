ghost use Rattle.std.specs.Prelude.{◌≡◌, ◌+◌, ◌≤◌, ◌⊎◌, ◌↔◌, [], map, None};
ghost use Rattle.std.specs.List.{concat};
ghost use Rattle.exchange_events.specs.Sound.{IsSound};
ghost use Rattle.control_memory.specs.Unused.{IsUnused};
ghost use Rattle.trace_text.specs.TraceGrammar.{max_bytes};
ghost use Rattle.run_verifier.specs.declared.ending.Ending.{Ending};
ghost use Rattle.run_verifier.specs.declared.ending.Ending.TheVariants.{Completed, ReadFailed, WriteFailed};
ghost use Rattle.exchange_run.specs.Commands.{IsReading, max_read, texts};
ghost use Rattle.exchange_run.specs.Endings.{Ends, EndsAs, GenerationEnds, InputEnds, IsDue, PartEnds, RunEnds};
ghost use Rattle.ex_io.specs.Inputs.{max_bytes_read};
ghost use Rattle.exchange_run.specs.Outcomes.{SumsUp, input, output, part, whole};
ghost use Rattle.run_verifier.specs.Refusals.{Says};
ghost use Rattle.exchange_run.specs.Running.{RunsOn, board_for, board_on};
ghost use Rattle.run_verifier.specs.Statuses.{status_of};
ghost use Rattle.ex_io.specs.Streams.{ConsumesAtMost};
ghost use Rattle.exchange_run.specs.Summary.{summary_text};

use crate::call_context::{CallContext, Metering, PendingText};
use crate::run::{RunError, run};
use crate::summaries::summary;
use command_words::{Command, CommandError, parse_command};
use control_memory::PathMap;
use ex_io::{ReadError, Sink, Source, read_all, write_all};
use exchange_events::Trace;
use fabric_map::FabricMap;
use frame_engine::Carrier;
use gate::Gate;
use generated_trace::generate_trace;
use meters::Meter;
use report_lines::{LineSink, ListingKind, NoLines, ReportLines};
use run_verifier::{Ending, check, refusal, say};
use std::alloc::Global;
use std::collections::VecDeque;
use std::mem;
use std::sync::Wait;
use std::thread::Threads;
use strict_map::StrictMap;
use trace_text::{MAX_BYTES, TraceFault, read_trace};

/// The ending of a call of the exchange.
#[derive(Drop)]
pub struct Outcome<C: Carrier> {
    /// 0: the trace was run and its report or its summary was written, or the report that was read is correct for its
    /// trace. 1: the input is not a trace, or has none. 2: the arguments are not a command. 3: a read failed. 4: a
    /// write failed. 5: an allocation failed. 6: the report that was read is not correct for its trace.
    pub status: u8,
    /// The numbers of the processed events, in the order in which they happened.
    pub order: Vec<u32>,
    /// The engine that carried the octets, with the trace's sizes, if a trace was run and the status is 0.
    pub engine: Option<C>,
}

// The ending of a part of a call, the numbers of the processed events, and the engine that is returned.
#[derive(Drop)]
struct CallEnd<C: Carrier> {
    ending: Ending,
    order: Vec<u32>,
    engine: Option<C>,
}

// Returns the end of a part that processed no event.
fn idle<C: Carrier>(alloc: Global, ending: Ending) -> CallEnd<C>
    ensures ending { result.ending ≡ ending }
    ensures none { result.order.items ≡ [] }
    ensures engine { result.engine ≡ None }
{
    CallEnd {
        ending,
        order: Vec::new(alloc),
        engine: None,
    }
}

// Writes a line, and ends with the given ending unless the write fails.
fn refuse<K: Sink, C: Carrier>(
    alloc: Global,
    sink: &mut K,
    line: &[u8],
    ending: Ending,
) -> CallEnd<C>
    ensures none { result.order.items ≡ [] }
    ensures engine { result.engine ≡ None }
    ensures answer { Says ending line.now result.ending (output K.Sink sink) }
    ensures writes { (result.ending ≡ WriteFailed) ⊎ (K.faults sink.new ≡ K.faults sink.old) }
{
    idle(alloc, say(sink, line, ending))
}

// Runs a trace on a map of paths, after it has reserved memory for the numbers of its events. Lines are stored in
// `pending` until they are written.
fn run_on<
    P: PathMap + Drop + Send,
    K: Sink,
    G: Gate,
    C: Carrier,
    L: ListingKind + Send + Drop,
    R: Threads + Wait + Sync,
>(
    context: &CallContext<'_, R, G>,
    trace: &Trace,
    map: P,
    pending: &mut PendingText<L>,
    sink: &mut K,
    metering: &mut Metering,
) -> CallEnd<C>
    requires sound { IsSound trace.now }
    requires paths { IsUnused (trace.now.external + trace.now.bridges) (P.width map) (P.depth map) (P.layout map) }
    requires blank { pending.old.lines ≡ [] }
    requires silent { pending.old.said.items ≡ [] }
    ensures runs { RunsOn (part C.Carrier result K.Sink sink stands text metering) L.listing
        (board_on P.PathMap map trace.now) }
    ensures writes { (result.ending ≡ WriteFailed) ⊎ (K.faults sink.new ≡ K.faults sink.old) }
{
    let alloc = context.alloc;
    let Ok(mut order) = Vec::with_capacity(alloc, trace.events.as_slice().len()) else {
        return idle(alloc, Ending::OutOfMemory);
    };
    match run(context, trace, map, &mut order, pending, sink, metering) {
        Ok(engine) => CallEnd {
            ending: Ending::Completed,
            order,
            engine: Some(engine),
        },
        Err(RunError::Write) => CallEnd {
            ending: Ending::WriteFailed,
            order,
            engine: None,
        },
        Err(RunError::Memory) => CallEnd {
            ending: Ending::OutOfMemory,
            order,
            engine: None,
        },
    }
}

// Runs a trace on the requested fabric.
fn run_trace<K: Sink, G: Gate, C: Carrier, L: ListingKind + Send + Drop, R: Threads + Wait + Sync>(
    context: &CallContext<'_, R, G>,
    trace: &Trace,
    strict: bool,
    pending: &mut PendingText<L>,
    sink: &mut K,
    metering: &mut Metering,
) -> CallEnd<C>
    requires sound { IsSound trace.now }
    requires blank { pending.old.lines ≡ [] }
    requires silent { pending.old.said.items ≡ [] }
    ensures runs { RunsOn (part C.Carrier result K.Sink sink stands text metering) L.listing (board_for strict trace.now) }
    ensures writes { (result.ending ≡ WriteFailed) ⊎ (K.faults sink.new ≡ K.faults sink.old) }
{
    let alloc = context.alloc;
    let width = trace.external + trace.bridges;
    if strict {
        match StrictMap::new(alloc, width) {
            Ok(paths) => run_on(context, trace, paths, pending, sink, metering),
            Err(_) => idle(alloc, Ending::OutOfMemory),
        }
    } else {
        match FabricMap::new(alloc, width) {
            Ok(paths) => run_on(context, trace, paths, pending, sink, metering),
            Err(_) => idle(alloc, Ending::OutOfMemory),
        }
    }
}

// Parses the bytes and runs their trace, or refuses them.
fn run_bytes<K: Sink, G: Gate, C: Carrier, R: Threads + Wait + Sync>(
    context: &CallContext<'_, R, G>,
    bytes: Vec<u8>,
    strict: bool,
    sink: &mut K,
    metering: &mut Metering,
) -> CallEnd<C>
    ensures ends { InputEnds strict bytes.items (part C.Carrier result K.Sink sink stands text metering) }
    ensures writes { (result.ending ≡ WriteFailed) ⊎ (K.faults sink.new ≡ K.faults sink.old) }
{
    let alloc = context.alloc;
    match read_trace(alloc, bytes.as_slice()) {
        Ok(trace) => {
            // The lines reuse the memory of the input, so that its pages need not be mapped again.
            let mut pending: PendingText<ReportLines> = PendingText {
                lines: LineSink::new(alloc, bytes),
                said: Vec::new(alloc),
            };
            run_trace(context, &trace, strict, &mut pending, sink, metering)
        }
        Err(TraceFault::Memory) => idle(alloc, Ending::OutOfMemory),
        Err(TraceFault::Line { number, reason }) => match refusal(alloc, number, reason) {
            Ok(line) => refuse(
                alloc,
                sink,
                line.as_slice(),
                Ending::Refused { number, reason },
            ),
            Err(_) => idle(alloc, Ending::OutOfMemory),
        },
    }
}

// Writes the summary of a complete run.
fn sum_up<K: Sink, C: Carrier>(
    alloc: Global,
    trace: &Trace,
    ended: CallEnd<C>,
    sink: &mut K,
    meters: &[Box<dyn Meter>],
) -> CallEnd<C>
    ensures order { result.order ≡ ended.order }
    ensures sums { SumsUp (output K.Sink sink) (summary_text trace.now (concat (map (λ m. text m []) meters.now)))
        ended.engine result.engine result.ending }
    ensures writes { (result.ending ≡ WriteFailed) ⊎ (K.faults sink.new ≡ K.faults sink.old) }
{
    let CallEnd { order, engine, .. } = ended;
    let Ok(text) = summary(alloc, trace, meters) else {
        return CallEnd {
            ending: Ending::OutOfMemory,
            order,
            engine: None,
        };
    };
    match write_all(sink, text.as_slice()) {
        Ok(()) => CallEnd {
            ending: Ending::Completed,
            order,
            engine,
        },
        Err(_) => CallEnd {
            ending: Ending::WriteFailed,
            order,
            engine: None,
        },
    }
}

// Runs the trace generated from a seed with n calls, on 30 internal slots, and writes its summary.
fn run_generated<K: Sink, G: Gate, C: Carrier, R: Threads + Wait + Sync>(
    context: &CallContext<'_, R, G>,
    seed: u32,
    calls: u32,
    sink: &mut K,
    metering: &mut Metering,
) -> CallEnd<C>
    requires some { 1 ≤ calls }
    requires most { calls ≤ 2000 }
    ensures ends { GenerationEnds seed calls (part C.Carrier result K.Sink sink stands text metering) }
    ensures writes { (result.ending ≡ WriteFailed) ⊎ (K.faults sink.new ≡ K.faults sink.old) }
{
    let alloc = context.alloc;
    let Ok(trace) = generate_trace(alloc, u64::from(seed), calls) else {
        return idle(alloc, Ending::OutOfMemory);
    };
    let mut pending: PendingText<NoLines> = PendingText {
        lines: LineSink::new(alloc, Vec::new(alloc)),
        said: Vec::new(alloc),
    };
    let ended = run_trace(context, &trace, false, &mut pending, sink, metering);
    match ended.ending {
        Ending::Completed => sum_up(alloc, &trace, ended, sink, metering.on.as_slice()),
        _ => ended,
    }
}

// Reads the input, and runs it.
fn run_input<S: Source, K: Sink, G: Gate, C: Carrier, R: Threads + Wait + Sync>(
    context: &CallContext<'_, R, G>,
    strict: bool,
    source: &mut S,
    sink: &mut K,
    metering: &mut Metering,
) -> CallEnd<C>
    ensures ends { RunEnds strict (input S.Source source) (part C.Carrier result K.Sink sink stands text metering) }
    ensures stops { ConsumesAtMost (max_bytes_read max_bytes) (S.left source.old) (S.left source.new) }
    ensures reads { (result.ending ≡ ReadFailed) ⊎ (S.faults source.new ≡ S.faults source.old) }
    ensures writes { (result.ending ≡ WriteFailed) ⊎ (K.faults sink.new ≡ K.faults sink.old) }
{
    let alloc = context.alloc;
    match read_all(alloc, source, MAX_BYTES) {
        Ok(bytes) => run_bytes(context, bytes, strict, sink, metering),
        Err(ReadError::Read) => idle(alloc, Ending::ReadFailed),
        Err(ReadError::Memory) => idle(alloc, Ending::OutOfMemory),
    }
}

// Executes the command of the arguments.
fn answer_words<S: Source, K: Sink, G: Gate, C: Carrier, R: Threads + Wait + Sync>(
    context: &CallContext<'_, R, G>,
    words: &[String],
    source: &mut S,
    sink: &mut K,
    metering: &mut Metering,
) -> CallEnd<C>
    ensures ends { PartEnds (texts words.now) (input S.Source source)
        (part C.Carrier result K.Sink sink stands text metering) }
    ensures unread { ¬ IsReading (texts words.now) → source.new ≡ source.old }
    ensures stops { ConsumesAtMost (max_read (texts words.now)) (S.left source.old) (S.left source.new) }
    ensures reads { (result.ending ≡ ReadFailed) ⊎ (S.faults source.new ≡ S.faults source.old) }
    ensures writes { (result.ending ≡ WriteFailed) ⊎ (K.faults sink.new ≡ K.faults sink.old) }
{
    let alloc = context.alloc;
    match parse_command(alloc, words) {
        Ok(Command::Run { strict }) => run_input(context, strict, source, sink, metering),
        Ok(Command::Generate { seed, calls }) => run_generated(
            context, seed, calls, sink, metering,
        ),
        Ok(Command::Check { strict }) => {
            idle(alloc, check(context.rt, alloc, strict, source, sink))
        }
        Err(CommandError::NoCommand) => {
            refuse(alloc, sink, b"refused words\n", Ending::WrongArguments)
        }
        Err(CommandError::Memory) => idle(alloc, Ending::OutOfMemory),
    }
}

/// Runs a trace and writes its report, runs a generated trace and writes its summary, or verifies a report against its
/// trace and writes the verdict.
///
/// `run` reads a trace: its input to the end, or until it has more bytes than a trace may have. `gen SEED CALLS` reads
/// nothing, and generates the trace from the seed with n calls. The fabric has 30 internal slots. With `--strict` it
/// has 59, and no path ever moves.
///
/// The segments run in sequence. The call processors and the frame worker of a segment take turns at one switching map,
/// each in its own thread. The gate can hold them, so that a test can observe them. If all workers except the busiest
/// have few events together, and the gate does not request threads, the caller processes the segment in file order.
/// `order` is the order in which the events took their turns. The report has a line for each event in that order. A
/// summary has a line that counts the events, and then the texts of the meters (`docs/FORMATS.md`).
///
/// The meters record the calls that end, segment by segment, in that order. At each change of the trace, between two
/// segments, the first active meter writes its summary to the report and is dropped. Then the first of `spare` becomes
/// active after the others. Without an active or without a spare meter, that half of the change has no effect.
///
/// The causes of another ending are tested in this order: the arguments, reading, the trace, the run, writing.
///
/// `check` reads a trace, a line `report` and a report, and processes no event: `order` is empty, no engine is
/// returned, and meters record nothing.
///
/// The octets of a frame are the output of the engine of type `C`. The engine is returned if a trace was run and the
/// status is 0. It then has the lines and internal slots of the exchange, and carries the frames of `order`.
///
/// A read or write that fails ends the call, and then the error count of the source or of the sink rises. Neither rises
/// otherwise. An allocation can fail at any trace.
pub fn exchange<S: Source, K: Sink, G: Gate, C: Carrier, R: Threads + Wait + Sync>(
    rt: &R,
    alloc: Global,
    words: &[String],
    source: &mut S,
    sink: &mut K,
    gate: &G,
    meters: &mut Vec<Box<dyn Meter>>,
    spare: &mut VecDeque<Box<dyn Meter>>,
) -> Outcome<C>
    // The ending of the call, with the facts for it.
    ensures ends { Ends words.now (input S.Source source) (whole C.Carrier result K.Sink sink stands text meters spare) }
    // The arguments and the input decide the ending, unless a read, a write or an allocation fails.
    ensures due { (due : Ending) → IsDue (texts words.now) (S.left source.old) due → EndsAs due result.status }
    // No other ending hides an error of the source or of the sink.
    ensures reads { (result.status ≡ status_of ReadFailed) ⊎ (S.faults source.new ≡ S.faults source.old) }
    ensures writes { (result.status ≡ status_of WriteFailed) ⊎ (K.faults sink.new ≡ K.faults sink.old) }
    // No more of the input is read than the command's limit and one piece; only `run` and `check` read any.
    ensures stops { ConsumesAtMost (max_read (texts words.now)) (S.left source.old) (S.left source.new) }
    ensures unread { ¬ IsReading (texts words.now) → source.new ≡ source.old }
{
    let context = CallContext { rt, alloc, gate };
    let mut metering = Metering {
        on: mem::replace(meters, Vec::new(alloc)),
        spare: mem::replace(spare, VecDeque::new(alloc)),
    };
    let ended = answer_words(&context, words, source, sink, &mut metering);
    *meters = metering.on;
    *spare = metering.spare;
    Outcome {
        status: ended.ending.status(),
        order: ended.order,
        engine: ended.engine,
    }
}

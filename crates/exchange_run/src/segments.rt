//! The segments of a run, and the text of each.
ghost use Rattle.std.specs.Prelude.{◌≡◌, ◌⊎◌, ◌*◌, ◌<◌, ◌≤◌, ◌++◌, [], length, IsSome, OnOk, OnErr};
ghost use Rattle.std.specs.Io.KnownBytes.{Appends};
ghost use Rattle.ex_io.specs.Ends.{Rose};
ghost use Rattle.seat_history.specs.Seats.{first_seat};
ghost use Rattle.exchange_core.specs.Boards.{turns_of};
ghost use Rattle.exchange_events.specs.Sound.{IsSound};
ghost use Rattle.exchange_core.specs.Working.{order_of};
ghost use Rattle.segment_run.specs.Segment.{IsChief, MayRun, Ran, RanWhole};
ghost use Rattle.segment_run.specs.Segments.{IsDoneBelow};
ghost use Rattle.report_lines.specs.Lines.{text_of};
ghost use Rattle.run_verifier.specs.declared.ending.Ending.TheVariants.{WriteFailed};
ghost use Rattle.exchange_run.specs.Outcomes.{IsFlushed};
ghost use Rattle.exchange_run.specs.Running.{AddsAnswerLines, AreOfAnswers, GrowthIsTold, HasMachine, IsAdded, RunsOn, ending_of, run_part};
ghost use Rattle.ex_io.specs.Streams.{AppendsFront};
ghost use Rattle.linked_exchange.specs.Telling.{AreTold, AreToldFront};

use crate::call_context::{Metering, PendingText};
use crate::changing::change_at;
use crate::run::RunError;
use crate::telling::tell;
use call_processor::{AnswerSink, Machine, RunContext};
use ex_io::{Failed, Sink, write_all};
use exchange_core::Switchboard;
use frame_engine::Carrier;
use gate::Gate;
use meters::Meter;
use report_lines::{LineSink, ListingKind};
use segment_run::{BufferPool, is_short, run_by_caller, run_segment_with};
use std::alloc::AllocError;
use std::sync::Wait;
use std::thread::Threads;

// The number of bytes of a report that are gathered before a write. The lines of a segment stay together.
const PIECE: usize = 65_536;

/// The values that pass from one segment to the next: the machine and the buffer pool. `T` is the type of the workers'
/// seats, and `L` states the listing.
#[derive(Drop)]
pub struct SegmentResources<T, C, L> {
    /// The machine, which has carried the frames so far.
    pub machine: Box<Machine<C>>,
    /// The buffers of the workers.
    pub buffer_pool: BufferPool<T, LineSink<L>>,
}

/// Runs the segments of a board's trace in sequence, writes the listed text, and records the ended calls on the meters.
/// After a segment it makes the changes there, and before any segment the changes before the first event. The lines of
/// a segment are written after all of that. Until then they are pending, with the summaries of the meters that were
/// removed after them.
pub fn report_segments<
    B: Switchboard,
    K: Sink,
    G: Gate,
    C: Carrier,
    L: ListingKind + Send + Drop,
    R: Threads + Wait + Sync,
>(
    cx: &RunContext<'_, B, G, R>,
    seat: &mut B::Seat,
    carried: &mut Option<SegmentResources<B::Seat, C, L>>,
    pending: &mut PendingText<L>,
    sink: &mut K,
    metering: &mut Metering,
) -> Result<C, RunError>
    requires blank { pending.old.lines ≡ [] }
    requires silent { pending.old.said.items ≡ [] }
    requires seated { B.seated cx.now.board.now seat.old }
    requires trace { cx.now.trace.now ≡ (B.board cx.now.board.now).trace }
    requires sound { IsSound cx.now.trace.now }
    requires fresh { B.known seat.old ≡ first_seat (turns_of (B.board cx.now.board.now)) }
    requires ready { HasMachine C.Carrier (B.board cx.now.board.now) [] carried.old }
    ensures seated { B.seated cx.now.board.now seat.new }
    ensures chief { IsChief (turns_of (B.board cx.now.board.now)) (B.known seat.new) }
    ensures runs { RunsOn (run_part C.Carrier result (order_of (B.known seat.new).seen) K.Sink sink stands text metering)
        L.listing (B.board cx.now.board.now) }
    ensures writes { (ending_of result ≡ WriteFailed) ⊎ (K.faults sink.new ≡ K.faults sink.old) }
{
    let ends = cx.trace.segments.as_slice();
    let changes = cx.trace.changes.as_slice();
    let mut made = change_at(
        changes,
        0,
        0,
        &mut metering.on,
        &mut metering.spare,
        &mut pending.said,
    )?;
    flush_full(sink, pending)?;
    for segment in 0..ends.len() as u32 {
        report_segment(
            cx,
            seat,
            segment,
            carried,
            &mut pending.lines,
            &mut metering.on,
        )?;
        made = change_at(
            changes,
            made,
            ends[segment as usize],
            &mut metering.on,
            &mut metering.spare,
            &mut pending.said,
        )?;
        flush_full(sink, pending)?;
    }
    flush(sink, pending)?;
    let machine = Box::into_inner(taken(carried).machine);
    Ok(machine.engine)
}

// Takes the value of the option.
fn taken<T>(place: &mut Option<T>) -> T
    requires { IsSome place.old }
    ensures { place.old ≡ Some result }
{
    match place.take() {
        Some(value) => value,
        None => unreachable!(),
    }
}

// Runs one segment, appends the lines of its events to those before them, and records its calls on the meters.
fn report_segment<
    B: Switchboard,
    G: Gate,
    C: Carrier,
    L: ListingKind + Send + Drop,
    R: Threads + Wait + Sync,
>(
    cx: &RunContext<'_, B, G, R>,
    seat: &mut B::Seat,
    segment: u32,
    carried: &mut Option<SegmentResources<B::Seat, C, L>>,
    lines: &mut LineSink<L>,
    meters: &mut Vec<Box<dyn Meter>>,
) -> Result<(), AllocError>
    requires seated { B.seated cx.now.board.now seat.old }
    requires trace { cx.now.trace.now ≡ (B.board cx.now.board.now).trace }
    requires sound { IsSound cx.now.trace.now }
    requires segment { segment < length cx.now.trace.now.segments }
    requires chief { IsChief (turns_of (B.board cx.now.board.now)) (B.known seat.old) }
    requires numbers { (B.known seat.old).made ≤ 9 * segment }
    requires kept { AreOfAnswers L.listing lines.old }
    requires done { IsDoneBelow cx.now.trace.now segment (order_of (B.known seat.old).seen) }
    requires ready { HasMachine C.Carrier (B.board cx.now.board.now) (B.known seat.old).seen carried.old }
    ensures seated { B.seated cx.now.board.now seat.new }
    ensures chief { IsChief (turns_of (B.board cx.now.board.now)) (B.known seat.new) }
    ensures ran { Ran cx.now.trace.now segment (B.known seat.old) (B.known seat.new) }
    ensures whole { OnOk result (RanWhole cx.now.trace.now segment (B.known seat.old) (B.known seat.new)) }
    ensures added { OnOk result (IsAdded C.plays L.listing (B.board cx.now.board.now) (B.known seat.old) (B.known seat.new) lines.old lines.new) }
    ensures told { OnOk result (GrowthIsTold (AreTold stands text meters.old.items meters.new.items)
        (B.board cx.now.board.now) (B.known seat.old) (B.known seat.new)) }
    ensures told_front { OnErr result (GrowthIsTold (AreToldFront stands text meters.old.items meters.new.items)
        (B.board cx.now.board.now) (B.known seat.old) (B.known seat.new)) }
    ensures ready { OnOk result (HasMachine C.Carrier (B.board cx.now.board.now) (B.known seat.new).seen carried.new) }
{
    let told = lines.records().len();
    run_one(cx, seat, segment, carried, lines)?;
    tell(meters, lines.records_after(told))
}

// Runs one segment. The caller processes a short one in place, unless the gate requests threads.
fn run_one<
    B: Switchboard,
    G: Gate,
    C: Carrier,
    L: ListingKind + Send + Drop,
    R: Threads + Wait + Sync,
>(
    cx: &RunContext<'_, B, G, R>,
    seat: &mut B::Seat,
    segment: u32,
    carried: &mut Option<SegmentResources<B::Seat, C, L>>,
    lines: &mut LineSink<L>,
) -> Result<(), AllocError>
    requires seated { B.seated cx.now.board.now seat.old }
    requires may { MayRun (B.board cx.now.board.now) cx.now.trace.now segment (B.known seat.old) }
    requires sound { IsSound cx.now.trace.now }
    requires ready { HasMachine C.Carrier (B.board cx.now.board.now) (B.known seat.old).seen carried.old }
    ensures seated { B.seated cx.now.board.now seat.new }
    ensures chief { IsChief (turns_of (B.board cx.now.board.now)) (B.known seat.new) }
    ensures ran { Ran cx.now.trace.now segment (B.known seat.old) (B.known seat.new) }
    ensures whole { OnOk result (RanWhole cx.now.trace.now segment (B.known seat.old) (B.known seat.new)) }
    ensures answered { OnOk result (AddsAnswerLines C.plays L.listing cx.now.trace.now (B.board cx.now.board.now)
        (B.known seat.old) (B.known seat.new) lines.old lines.new) }
    ensures ready { OnOk result (HasMachine C.Carrier (B.board cx.now.board.now) (B.known seat.new).seen carried.new) }
{
    if cx.gate.apart() || !is_short(cx.trace, segment) {
        return run_long(cx, seat, segment, carried, lines);
    }
    let Some(resources) = carried else {
        unreachable!()
    };
    run_by_caller(
        cx,
        seat,
        segment,
        &mut resources.machine,
        &mut resources.buffer_pool,
        lines,
    )
}

// Runs one segment, in threads if they pay. The values for the next segment are moved out meanwhile, so that no early
// return holds them, because their drop there is slow to prove.
#[inline(never)]
fn run_long<
    B: Switchboard,
    G: Gate,
    C: Carrier,
    L: ListingKind + Send + Drop,
    R: Threads + Wait + Sync,
>(
    cx: &RunContext<'_, B, G, R>,
    seat: &mut B::Seat,
    segment: u32,
    carried: &mut Option<SegmentResources<B::Seat, C, L>>,
    lines: &mut LineSink<L>,
) -> Result<(), AllocError>
    requires seated { B.seated cx.now.board.now seat.old }
    requires may { MayRun (B.board cx.now.board.now) cx.now.trace.now segment (B.known seat.old) }
    requires ready { HasMachine C.Carrier (B.board cx.now.board.now) (B.known seat.old).seen carried.old }
    ensures seated { B.seated cx.now.board.now seat.new }
    ensures chief { IsChief (turns_of (B.board cx.now.board.now)) (B.known seat.new) }
    ensures ran { Ran cx.now.trace.now segment (B.known seat.old) (B.known seat.new) }
    ensures whole { OnOk result (RanWhole cx.now.trace.now segment (B.known seat.old) (B.known seat.new)) }
    ensures answered { OnOk result (AddsAnswerLines C.plays L.listing cx.now.trace.now (B.board cx.now.board.now)
        (B.known seat.old) (B.known seat.new) lines.old lines.new) }
    ensures ready { OnOk result (HasMachine C.Carrier (B.board cx.now.board.now) (B.known seat.new).seen carried.new) }
{
    let SegmentResources {
        machine,
        buffer_pool,
    } = taken(carried);
    let done = run_segment_with(cx, seat, segment, machine, buffer_pool, lines)?;
    *carried = Some(SegmentResources {
        machine: done.machine,
        buffer_pool: done.buffer_pool,
    });
    Ok(())
}

// Writes the pending text if it is a whole piece, or if a meter added its summary. If nothing is listed, there is none.
fn flush_full<K: Sink, L: ListingKind + Send + Drop>(
    sink: &mut K,
    pending: &mut PendingText<L>,
) -> Result<(), Failed>
    ensures flushed { OnOk result (IsFlushed (K.written sink.old) (K.written sink.new)
        (text_of pending.old.lines ++ pending.old.said.items) (text_of pending.new.lines ++ pending.new.said.items) pending.old.said.items) }
    ensures silent { OnOk result (pending.new.said.items ≡ []) }
    ensures kept { OnOk result ((pending.new.lines ≡ pending.old.lines) ⊎ (pending.new.lines ≡ [])) }
    ensures steady { OnOk result (K.faults sink.new ≡ K.faults sink.old) }

    ensures front { OnErr result (AppendsFront (K.written sink.old) (K.written sink.new) (text_of pending.old.lines ++ pending.old.said.items)) }
    ensures cause { OnErr result (Rose (K.faults sink.old) (K.faults sink.new)) }
{
    let text = pending.lines.text().len();
    if pending.said.is_empty() && 0 < text && text < PIECE {
        return Ok(());
    }
    flush(sink, pending)
}

// Writes all pending text: the lines, and then the summaries of the meters.
fn flush<K: Sink, L: ListingKind + Send + Drop>(
    sink: &mut K,
    pending: &mut PendingText<L>,
) -> Result<(), Failed>
    ensures whole { OnOk result (Appends (K.written sink.old) (K.written sink.new) (text_of pending.old.lines ++ pending.old.said.items)) }
    ensures empty { OnOk result ((pending.new.lines ≡ []) × (pending.new.said.items ≡ [])) }
    ensures steady { OnOk result (K.faults sink.new ≡ K.faults sink.old) }

    ensures front { OnErr result (AppendsFront (K.written sink.old) (K.written sink.new) (text_of pending.old.lines ++ pending.old.said.items)) }
    ensures cause { OnErr result (Rose (K.faults sink.old) (K.faults sink.new)) }
{
    write_all(sink, pending.lines.text())?;
    pending.lines.clear();
    write_all(sink, pending.said.as_slice())?;
    pending.said.clear();
    Ok(())
}

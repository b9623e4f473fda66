ghost use Rattle.std.specs.Prelude.{◌≡◌, ◌⊎◌, ◌+◌, ◌≤◌, ◌++◌, ℕ, [], length, vec_capacity, IfOk};
ghost use Rattle.exchange_run.specs.declared.run.RunError.TheVariants.{Memory, Write};
ghost use Rattle.exchange_events.specs.Sound.{IsSound};
ghost use Rattle.control_memory.specs.Unused.{IsUnused};
ghost use Rattle.exchange_core.specs.Working.{order_of};
ghost use Rattle.seat_history.specs.Seats.{first_seat};
ghost use Rattle.shared_exchange.specs.Sharing.{IsSeated};
ghost use Rattle.call_processor.specs.Frames.{IsReady};
ghost use Rattle.run_verifier.specs.declared.ending.Ending.TheVariants.{WriteFailed};
ghost use Rattle.exchange_run.specs.Running.{RunsOn, board_on, ending_of, run_part};

use crate::call_context::{CallContext, Metering, PendingText};
use crate::segments::{SegmentResources, report_segments};
use call_processor::{Machine, RunContext};
use control_memory::{Image, PathMap};
use ex_io::{Failed, Sink};
use exchange_core::{Core, Tool};
use exchange_events::Trace;
use frame_engine::Carrier;
use gate::Gate;
use report_lines::{LineSink, ListingKind};
use segment_run::BufferPool;
use shared_exchange::{Seat, SharedExchange};
use std::alloc::{AllocError, Global};
use std::sync::Wait;
use std::thread::Threads;

/// The error that interrupted a run (defined by this project).
#[derive(Clone, Copy)]
pub enum RunError {
    /// An allocation failed.
    Memory,
    /// A write of the report failed.
    Write,
}

impl From<AllocError> for RunError {
    ghost from_gives = { λ _ fault. fault ≡ Memory };

    fn from(_: AllocError) -> RunError {
        RunError::Memory
    }
}

impl From<Failed> for RunError {
    ghost from_gives = { λ _ fault. fault ≡ Write };

    fn from(_: Failed) -> RunError {
        RunError::Write
    }
}

/// Runs a trace on a map of paths, segment by segment, with its call processors and its frame worker in parallel.
/// Writes the listed text, records the ended calls on the meters, and changes the meters at the changes of the trace.
/// Copies the event numbers of the journal to `order`, which has capacity for them. Lines are stored in `pending` until
/// they are written. Returns the engine that carried the octets.
///
/// # Errors
///
/// [`RunError::Write`] if a write failed and the error count of the sink rose. [`RunError::Memory`] if an allocation
/// failed and no write did. A prefix of the report of the completed segments was written. After a failed allocation it
/// ends with a segment.
pub fn run<
    P: PathMap + Drop + Send,
    K: Sink,
    G: Gate,
    C: Carrier,
    L: ListingKind + Send + Drop,
    R: Threads + Wait + Sync,
>(
    context: &CallContext<'_, R, G>,
    trace: &Trace,
    paths: P,
    order: &mut Vec<u32>,
    pending: &mut PendingText<L>,
    sink: &mut K,
    metering: &mut Metering,
) -> Result<C, RunError>
    requires sound { IsSound trace.now }
    requires paths { IsUnused (trace.now.external + trace.now.bridges) (P.width paths) (P.depth paths) (P.layout paths) }
    requires empty { order.old.items ≡ [] }
    requires blank { pending.old.lines ≡ [] }
    requires silent { pending.old.said.items ≡ [] }
    requires room { length trace.now.events ≤ vec_capacity order.old }
    ensures runs { RunsOn (run_part C.Carrier result order.new.items K.Sink sink stands text metering) L.listing
        (board_on P.PathMap paths trace.now) }
    ensures writes { (ending_of result ≡ WriteFailed) ⊎ (K.faults sink.new ≡ K.faults sink.old) }
{
    let (board, mut seat, carried) = equipped(context.alloc, trace, paths, &pending.lines)?;
    let mut carried = Some(carried);
    let cx = RunContext {
        rt: context.rt,
        alloc: context.alloc,
        board: &board,
        trace,
        gate: context.gate,
    };
    let done = report_segments(&cx, &mut seat, &mut carried, pending, sink, metering);
    drop(cx);
    note_order(order, board.close(seat).journal());
    done
}

// Makes the parts of a run before its first event: the exchange that its workers share, with its seat 0, the engine, a
// control memory, and a buffer pool.
fn equipped<'t, P: PathMap + Drop, C: Carrier, L: ListingKind + Send + Drop>(
    alloc: Global,
    trace: &'t Trace,
    paths: P,
    lines: &LineSink<L>,
) -> Result<
    (
        SharedExchange<'t, P>,
        Seat<'t, P>,
        SegmentResources<Seat<'t, P>, C, L>,
    ),
    AllocError,
>
    requires sound { IsSound trace.now }
    requires paths { IsUnused (trace.now.external + trace.now.bridges) (P.width paths) (P.depth paths) (P.layout paths) }
    ensures board { IfOk result (λ r. r.0.setting ≡ record { trace = trace.now; slots = P.depth paths; bound = P.bound paths }) }
    ensures seat { IfOk result (λ r. IsSeated r.0 r.1 × (r.1.known ≡ first_seat (length trace.now.events))) }
    ensures ready { IfOk result (λ r. IsReady C.carries C.next C.sizes r.0.setting [] r.2.machine.value.engine r.2.machine.value.context.tool) }
{
    let slots = paths.slots();
    let core = Core::new(alloc, trace, paths)?;
    let (board, seat) = SharedExchange::open(alloc, core)?;
    let carried = carried_first(alloc, trace, slots, lines)?;
    Ok((board, seat, carried))
}

// Makes the input of the first segment: the engine, a control memory, and a buffer pool. It is separate from the
// exchange, because each value that an early return drops is slow to prove.
fn carried_first<T: Drop, C: Carrier, L: ListingKind + Send + Drop>(
    alloc: Global,
    trace: &Trace,
    slots: u8,
    lines: &LineSink<L>,
) -> Result<SegmentResources<T, C, L>, AllocError>
    requires sound { IsSound trace.now }
    requires slots { 1 ≤ slots × (slots ≤ 59) }
    ensures ready { IfOk result (λ r. (bound : ℕ)
        → IsReady C.carries C.next C.sizes (record { trace = trace.now; slots = slots; bound = bound })
        [] r.machine.value.engine r.machine.value.context.tool) }
{
    let (external, bridges) = (trace.external, trace.bridges);
    let buffer_pool = BufferPool::new(alloc, lines)?;
    let image = Image::new(alloc, external, bridges, slots)?;
    let engine = C::new(alloc, external, bridges, slots)?;
    let machine = Machine::new(alloc, engine, Tool::Image(image));
    Ok(SegmentResources {
        machine: Box::new(alloc, machine)?,
        buffer_pool,
    })
}

// Copies the event numbers of a journal.
fn note_order(order: &mut Vec<u32>, journal: &[(u32, u32)])
    requires room { length order.old.items + length journal.now ≤ vec_capacity order.old }
    ensures { order.new.items ≡ order.old.items ++ order_of journal.now }
{
    for entry in journal {
        order.push_reserved(entry.1);
    }
}

ghost use Rattle.std.specs.Prelude.{◌≡◌, true, false, ℕ, ◌+◌, ◌-◌, ◌<◌, ◌≤◌, length, filter, is_some, IfSome};
ghost use Rattle.std.specs.List.{range_with_len};
ghost use Rattle.exchange_events.specs.Orders.{Worker, Processor, Frame_worker, IsEvent, worker_of};
ghost use Rattle.exchange_events.specs.Sound.{IsSound};
ghost use Rattle.exchange_core.specs.Working.{IsNumbered};
ghost use Rattle.exchange_events.specs.declared.trace.Event.TheVariants.{Frame};
ghost use Rattle.call_processor.specs.Parts.{events_of_segment, is_its, part_of, worker_at};

use exchange_events::{Event, Input, Trace};

/// Returns the number of a segment's first event, and the number after its last event. Segments are counted from 0,
/// events from 1.
pub fn event_range(trace: &Trace, segment: u32) -> (u32, u32)
    requires sound { IsSound trace.now }
    requires segment { segment < length trace.now.segments }
    ensures parts { (worker : Worker) → part_of trace.now segment worker ≡ filter (is_its trace.now worker) (range_with_len result.0 (result.1 - result.0)) }
    ensures events { (n : ℕ) → result.0 ≤ n → n < result.1 → IsEvent trace.now n }
    ensures all { events_of_segment trace.now segment ≡ range_with_len result.0 (result.1 - result.0) }
    ensures order { result.0 ≤ result.1 }
{
    let ends = trace.segments.as_slice();
    let last = ends[segment as usize];
    if segment == 0 {
        return (1, last + 1);
    }
    (ends[segment as usize - 1] + 1, last + 1)
}

/// Returns the call processor of an event, among n. `None` for a frame, which is the frame worker's.
pub fn processor_of(processors: u8, event: &Event) -> Option<u32>
    requires some { 0 < processors }
    ensures { worker_of processors event.now ≡ worker_at result }
{
    let line = match event {
        Event::Nail(slot, _) => slot.line,
        Event::Seat(slot, _) => slot.line,
        Event::Free(slot) => slot.line,
        Event::Message(line, _) => *line,
        Event::LinkUp(line) => *line,
        Event::LinkDown(line) => *line,
        Event::RestartLine(line) => *line,
        Event::Frame(_) => return None,
    };
    Some(u32::from(line % processors))
}

/// Returns whether the event with this number is the call processor's.
pub(crate) fn is_of_processor(trace: &Trace, processor: u32, event: u32) -> bool
    requires some { 0 < trace.now.processors }
    requires event { IsEvent trace.now event }
    ensures { result ≡ is_its trace.now (Processor processor) event }
{
    processor_of(trace.processors, trace.event(event)) == Some(processor)
}

/// Returns the call processor of the event with this number, which is not a frame.
pub(crate) fn processor_at(trace: &Trace, event: u32) -> u32
    requires some { 0 < trace.now.processors }
    requires event { IsEvent trace.now event }
    requires no_frame { is_its trace.now Frame_worker event ≡ false }
    ensures { is_its trace.now (Processor result) event ≡ true }
{
    let Some(processor) = processor_of(trace.processors, trace.event(event)) else {
        unreachable!()
    };
    processor
}

/// Returns the input of the frame with this number. `None` for an event that is not a frame.
pub(crate) fn input_of(trace: &Trace, event: u32) -> Option<&Input>
    requires event { IsEvent trace.now event }
    ensures its { is_some result ≡ is_its trace.now Frame_worker event }
    ensures input { IfSome result (λ input. IsNumbered trace.now event (Frame input.now)) }
{
    match trace.event(event) {
        Event::Frame(input) => Some(input),
        Event::Nail(_, _) => None,
        Event::Seat(_, _) => None,
        Event::Free(_) => None,
        Event::Message(_, _) => None,
        Event::LinkUp(_) => None,
        Event::LinkDown(_) => None,
        Event::RestartLine(_) => None,
    }
}

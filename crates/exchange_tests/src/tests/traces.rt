//! Traces of nails and frames.
ghost use Rattle.std.specs.Prelude.{◌≡◌, length, IfOk, All, ◌*◌, ◌+◌};
ghost use Rattle.exchange_events.specs.Sound.{IsSound, Fits};

use call_timers::Timers;
use circuit_model::{IDLE, Slot};
use exchange_events::{Changes, Event, Events, Input, Segments, Trace};
use number_plan::Plan;
use std::alloc::{AllocError, Global};
use tone_rules::Tones;

// The timers of a trace in which nothing waits.
const TIMERS: Timers = Timers {
    t301: 1,
    t302: 1,
    t303: 1,
    t305: 1,
    t308: 1,
    t309: 1,
    t310: 1,
};

fn on(line: u8, place: u8) -> Slot
    ensures { result ≡ record { line = line; place = place } }
{
    Slot { line, place }
}

// Nails of four lines: at each place in turn, lines 0 and 2 and then lines 1 and 3.
fn nails(alloc: Global) -> Result<Vec<Event>, AllocError>
    ensures count { IfOk result (λ v. length v.items ≡ 60) }
    ensures fits { IfOk result (λ v. All (Fits 4) v.items) }
{
    let mut events = Vec::with_capacity(alloc, 60)?;
    for place in 0..30 {
        events.push(Event::Nail(on(0, place), on(2, place)))?;
        events.push(Event::Nail(on(1, place), on(3, place)))?;
    }
    Ok(events)
}

// Returns the input of a frame without octets.
fn silence(alloc: Global) -> Result<Input, AllocError>
    ensures { IfOk result (λ i. length i ≡ 4) }
{
    Ok(Input::of(vec![in alloc; None; 4]?))
}

// Returns the nails, and two frames without octets.
fn nails_and_two_frames(alloc: Global) -> Result<Vec<Event>, AllocError>
    ensures count { IfOk result (λ v. length v.items ≡ 62) }
    ensures fits { IfOk result (λ v. All (Fits 4) v.items) }
{
    let mut events = nails(alloc)?;
    events.push(Event::Frame(silence(alloc)?))?;
    events.push(Event::Frame(silence(alloc)?))?;
    Ok(events)
}

/// Returns a trace of four lines: events 1 to 60 are nails, and events 61 and 62 are frames without octets.
pub fn nails_and_frames(alloc: Global) -> Result<Trace, AllocError>
    ensures sound { IfOk result IsSound }
    ensures sizes { IfOk result (λ t. (t.external ≡ 4) × (t.bridges ≡ 0)) }
    ensures count { IfOk result (λ t. length t.events ≡ 62) }
{
    let ends = vec![in alloc; 62]?;
    let events = nails_and_two_frames(alloc)?;
    Ok(Trace {
        external: 4,
        bridges: 0,
        processors: 2,
        plan: Plan::new(alloc),
        tones: Tones::empty(alloc),
        timers: TIMERS,
        events: Events::of(events),
        segments: Segments::of(ends),
        changes: Changes::of(Vec::new(alloc)),
    })
}

// Returns the octets of a line with this octet in its first place.
fn first_octet(octet: u8) -> Option<[u8; 30]> {
    let mut row = [IDLE; 30];
    row[0] = octet;
    Some(row)
}

// Returns the input of a frame of two lines, with an octet in the first place of each.
fn two_octets(alloc: Global, zero: u8, one: u8) -> Result<Input, AllocError>
    ensures { IfOk result (λ i. length i ≡ 2) }
{
    let mut lines = Vec::with_capacity(alloc, 2)?;
    lines.push_reserved(first_octet(zero));
    lines.push_reserved(first_octet(one));
    Ok(Input::of(lines))
}

// Five frames, in which line 0 sends the octets 1 to 5, and line 1 the octets 129 to 133.
fn push_frames(alloc: Global, events: &mut Vec<Event>) -> Result<(), AllocError>
    requires fits { All (Fits 2) events.old.items }
    ensures count { IfOk result (λ u. length events.new.items ≡ length events.old.items + 5) }
    ensures fits { IfOk result (λ u. All (Fits 2) events.new.items) }
{
    for number in 1..6 {
        events.push(Event::Frame(two_octets(alloc, number, 128 + number)?))?;
    }
    Ok(())
}

// Returns a nail, and five frames.
fn nail_and_frames(alloc: Global) -> Result<Vec<Event>, AllocError>
    ensures count { IfOk result (λ v. length v.items ≡ 6) }
    ensures fits { IfOk result (λ v. All (Fits 2) v.items) }
{
    let mut events = Vec::new(alloc);
    events.push(Event::Nail(on(0, 0), on(1, 0)))?;
    push_frames(alloc, &mut events)?;
    Ok(events)
}

/// Returns a trace of two lines and one call processor: a nail of their first slots as one segment, and then five
/// frames, in which line 0 sends the octets 1 to 5 there, and line 1 the octets 129 to 133.
pub fn nail_and_five_frames(alloc: Global) -> Result<Trace, AllocError>
    ensures sound { IfOk result IsSound }
    ensures sizes { IfOk result (λ t. (t.external ≡ 2) × (t.bridges ≡ 0) × (t.processors ≡ 1)) }
    ensures segments { IfOk result (λ t. length t.segments ≡ 2) }
{
    let ends = vec![in alloc; 1, 6]?;
    let events = nail_and_frames(alloc)?;
    Ok(Trace {
        external: 2,
        bridges: 0,
        processors: 1,
        plan: Plan::new(alloc),
        tones: Tones::empty(alloc),
        timers: TIMERS,
        events: Events::of(events),
        segments: Segments::of(ends),
        changes: Changes::of(Vec::new(alloc)),
    })
}

//! One event of a trace that is followed.
ghost use Rattle.std.specs.Prelude.{◌≡◌, ◌<◌, OnOk, OnErr};
ghost use Rattle.exchange_events.specs.Kept.{kept_of};
ghost use Rattle.exchange_events.specs.Sound.{Fits};
ghost use Rattle.call_profile.specs.CallsTold.{calls_kept};
ghost use Rattle.call_profile.specs.Step.{MovesAtMost, reply};
ghost use Rattle.lone_exchange.specs.At.{Appends};
ghost use Rattle.linked_exchange.specs.Statements.{EachDue, HappensBy, InWorlds, IsDueSome, IsInWorld, PassesBy};
ghost use Rattle.linked_exchange.specs.Stepping.{calls_at};
ghost use Rattle.linked_exchange.specs.Telling.{AreTold, AreToldFront};

use crate::telling::tell;
use control_memory::{Fabric, PathMap};
use exchange_events::Event;
use frame_engine::Carrier;
use linked_exchange::ready;
use lone_exchange::LoneExchange;
use meters::Meter;
use std::alloc::{AllocError, Global};
use std::thread::Threads;
use trace_text::Heading;

/// Makes the exchange before its first event, processes an event on it, records the calls that ended with it on the
/// meters, and appends its line to a text.
///
/// # Errors
///
/// [`AllocError`] if an allocation fails. Then the text is unchanged, and each meter recorded a prefix of the calls.
pub fn advance<P: Fabric, C: Carrier, R: Threads + Sync>(
    rt: &R,
    alloc: Global,
    heading: &Heading,
    exchange: &mut Option<LoneExchange<P, C>>,
    meters: &mut Vec<Box<dyn Meter>>,
    event: &Event,
    out: &mut Vec<u8>,
) -> Result<(), AllocError>
    requires due { IsDueSome C.Carrier P.Fabric.own heading.now exchange.old event.now }
    ensures happened { EachDue C.Carrier P.Fabric.own heading.now exchange.old event.now
        (λ told z. OnOk result (HappensBy C.Carrier P.Fabric.own ⟦<dyn Meter as Meter>⟧
        told z heading.now event.now meters.old meters.new out.old out.new exchange.new)) }
    ensures front { EachDue C.Carrier P.Fabric.own heading.now exchange.old event.now (λ told z. OnErr result
        (AreToldFront (λ m. stands m) (λ m. text m) meters.old.items meters.new.items (calls_at P.slots told z event.now))) }
    ensures kept { OnErr result (out.new.items ≡ out.old.items) }
{
    ready(alloc, heading, exchange)?;
    let Some(driver) = exchange else {
        unreachable!()
    };
    process(rt, heading, driver, meters, event, out)
}

// Processes an event on an exchange, records the calls that ended with it on the meters, and appends its line to a
// text. The line has the number of events in the heading. If an allocation fails, the text is unchanged.
fn process<P: PathMap, C: Carrier, R: Threads + Sync>(
    rt: &R,
    heading: &Heading,
    exchange: &mut LoneExchange<P, C>,
    meters: &mut Vec<Box<dyn Meter>>,
    event: &Event,
    out: &mut Vec<u8>,
) -> Result<(), AllocError>
    requires at { IsInWorld C.Carrier heading.now exchange.old }
    requires fits { Fits exchange.old.control.map.external event.now }
    requires room { exchange.old.control.map.next < 4294967295 }
    ensures world { PassesBy C.Carrier heading.now event.now exchange.old exchange.new }
    ensures bound { exchange.new.control.map.bound ≡ exchange.old.control.map.bound }
    ensures few { InWorlds C.Carrier heading.now exchange.old (λ s w. MovesAtMost exchange.old.control.map.bound (reply s w event.now)) }
    ensures line { InWorlds C.Carrier heading.now exchange.old (λ s w. OnOk result
        (Appends C.plays s w event.now heading.now.events out.old.items out.new.items)) }
    ensures told { InWorlds C.Carrier heading.now exchange.old (λ s w. OnOk result (AreTold (λ m. stands m) (λ m. text m)
        meters.old.items meters.new.items (calls_kept (kept_of (reply s w event.now))))) }
    ensures kept { OnErr result (out.new.items ≡ out.old.items) }
    ensures told_front { InWorlds C.Carrier heading.now exchange.old (λ s w. OnErr result (AreToldFront (λ m. stands m) (λ m. text m)
        meters.old.items meters.new.items (calls_kept (kept_of (reply s w event.now))))) }
{
    let timers = heading.timers();
    let response = exchange.happen(rt, heading.plan(), heading.tones(), &timers, event);
    tell(meters, exchange.records(response))?;
    exchange.append_line(out, heading.event_count(), response)
}

//! One event of a trace with data links that is followed.
ghost use Rattle.std.specs.Prelude.{◌≡◌, OnOk, OnErr, Some, length, take};
ghost use Rattle.linked_exchange.specs.Statements.{EachLinkedDue, EachLinkedReady, IsLinkedDueSome, IsLinkedReadySome, LinkedHappensBy};
ghost use Rattle.linked_exchange.specs.LinkedStepping.{calls_in, steps_at};
ghost use Rattle.linked_exchange.specs.Telling.{AreToldFront};

use crate::telling::tell;
use control_memory::Fabric;
use exchange_events::Response;
use frame_engine::Carrier;
use linked_exchange::{
    LinkedEvent, LinkedExchange, Settings, put_step, put_turn_step, ready_linked,
};
use linked_text::LinkHeading;
use meters::Meter;
use std::alloc::{AllocError, Global};
use std::thread::Threads;

/// Makes the exchange before its first event, processes an event on it, records the calls that ended with it on the
/// meters, and appends its line to a text. A frame of the exchange is followed by the turn of a link.
///
/// # Errors
///
/// [`AllocError`] if an allocation fails. Then the text is unchanged, and each meter recorded a prefix of the calls.
pub fn advance_linked<P: Fabric, C: Carrier, R: Threads + Sync>(
    rt: &R,
    alloc: Global,
    heading: &LinkHeading,
    exchange: &mut Option<LinkedExchange<P, C>>,
    meters: &mut Vec<Box<dyn Meter>>,
    event: &LinkedEvent,
    out: &mut Vec<u8>,
) -> Result<(), AllocError>
    requires due { IsLinkedDueSome C.Carrier P.Fabric.own heading.now exchange.old event.now }
    ensures happened { EachLinkedDue C.Carrier P.Fabric.own heading.now exchange.old event.now
        (λ told z. OnOk result (LinkedHappensBy C.Carrier P.Fabric.own ⟦<dyn Meter as Meter>⟧
        told z event.now meters.old meters.new out.old out.new exchange.new)) }
    ensures front { EachLinkedDue C.Carrier P.Fabric.own heading.now exchange.old event.now (λ told z. OnErr result
        (AreToldFront (λ m. stands m) (λ m. text m) meters.old.items meters.new.items (calls_in (steps_at C.plays P.slots told z event.now)))) }
    ensures kept { OnErr result (out.new.items ≡ out.old.items) }
{
    ready_linked(rt, alloc, heading, exchange)?;
    let Some(driver) = exchange else {
        unreachable!()
    };
    let start = out.len();
    let done = process_linked(rt, heading, driver, meters, event, out);
    if done.is_err() {
        out.truncate(start);
    }
    done
}

// Processes an event on an exchange, records the calls that ended with it on the meters, and appends its line to a
// text. The line has the number of events in the heading. If an allocation fails, the text may have a prefix of it.
fn process_linked<P: Fabric, C: Carrier, R: Threads + Sync>(
    rt: &R,
    heading: &LinkHeading,
    exchange: &mut LinkedExchange<P, C>,
    meters: &mut Vec<Box<dyn Meter>>,
    event: &LinkedEvent,
    out: &mut Vec<u8>,
) -> Result<(), AllocError>
    requires due { IsLinkedReadySome C.Carrier P.Fabric.own heading.now exchange.old event.now }
    ensures happened { EachLinkedReady C.Carrier P.Fabric.own heading.now exchange.old event.now
        (λ told z. OnOk result (LinkedHappensBy C.Carrier P.Fabric.own ⟦<dyn Meter as Meter>⟧
        told z event.now meters.old meters.new out.old out.new (Some exchange.new))) }
    ensures front { EachLinkedReady C.Carrier P.Fabric.own heading.now exchange.old event.now (λ told z. OnErr result
        (AreToldFront (λ m. stands m) (λ m. text m) meters.old.items meters.new.items (calls_in (steps_at C.plays P.slots told z event.now)))) }
    ensures prefix { take (length out.old.items) out.new.items ≡ out.old.items }
{
    let plain = heading.plain();
    let timers = plain.timers();
    let link_timers = heading.link_timers();
    let settings = Settings {
        plan: plain.plan(),
        tones: plain.tones(),
        timers: &timers,
        link_timers: &link_timers,
    };
    let response = put_step(rt, exchange, &settings, plain.event_count(), event, out)?;
    tell(meters, exchange.exchange.records(response))?;
    let Response::Frame(_) = response else {
        return Ok(());
    };
    put_turn_step(rt, exchange, &settings, out)?;
    tell(meters, exchange.exchange.records(Response::Sent))
}

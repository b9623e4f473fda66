//! The exchange of a trace with data links before its first event.
ghost use Rattle.std.specs.Prelude.{◌≡◌, OnOk, false, is_some};
ghost use Rattle.linked_exchange.specs.Statements.{EachLinkedHeard, IsLinkedHeardSome, LinkedRunsAfter};

use crate::{LinkedExchange, Settings};
use control_memory::Fabric;
use frame_engine::Carrier;
use linked_text::LinkHeading;
use std::alloc::{AllocError, Global};
use std::mem;
use std::thread::Threads;

/// Makes the exchange of a heading with data links before its first event. It does nothing if there is one.
///
/// # Errors
///
/// [`AllocError`] if an allocation fails.
#[inline(always)]
pub fn ready_linked<P: Fabric, C: Carrier, R: Threads + Sync>(
    rt: &R,
    alloc: Global,
    heading: &LinkHeading,
    exchange: &mut Option<LinkedExchange<P, C>>,
) -> Result<(), AllocError>
    requires heard { IsLinkedHeardSome C.Carrier P.Fabric.own heading.now exchange.old }
    ensures running { EachLinkedHeard C.Carrier P.Fabric.own heading.now exchange.old
        (λ told z. OnOk result (LinkedRunsAfter C.Carrier P.Fabric.own told z exchange.new)) }
{
    if exchange.is_none() {
        return open_linked_into(rt, alloc, heading, exchange);
    }
    Ok(())
}

// Makes the exchange of a heading with data links. It is a separate function as `open_into` is.
#[inline(never)]
fn open_linked_into<P: Fabric, C: Carrier, R: Threads + Sync>(
    rt: &R,
    alloc: Global,
    heading: &LinkHeading,
    exchange: &mut Option<LinkedExchange<P, C>>,
) -> Result<(), AllocError>
    requires none { is_some exchange.old ≡ false }
    requires heard { IsLinkedHeardSome C.Carrier P.Fabric.own heading.now exchange.old }
    ensures running { EachLinkedHeard C.Carrier P.Fabric.own heading.now exchange.old
        (λ told z. OnOk result (LinkedRunsAfter C.Carrier P.Fabric.own told z exchange.new)) }
{
    let plain = heading.plain();
    let Some(sizes) = plain.sizes() else {
        unreachable!()
    };
    let timers = plain.timers();
    let link_timers = heading.link_timers();
    let settings = Settings {
        plan: plain.plan(),
        tones: plain.tones(),
        timers: &timers,
        link_timers: &link_timers,
    };
    let row = heading.link_row(alloc, sizes.external)?;
    let paths = P::unused(alloc, sizes.external + sizes.bridges)?;
    let opened = LinkedExchange::new(
        rt,
        alloc,
        sizes.external,
        sizes.bridges,
        &settings,
        row.as_slice(),
        paths,
    )?;
    // There is no exchange that has to be dropped, and a drop would be expensive to prove.
    mem::forget(exchange.replace(opened));
    Ok(())
}

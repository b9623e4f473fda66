//! The exchange of a trace before its first event.
ghost use Rattle.std.specs.Prelude.{◌≡◌, ◌+◌, ◌≤◌, IfOk, OnOk, is_some, false};
ghost use Rattle.lone_exchange.specs.At.{StartsAt};
ghost use Rattle.linked_exchange.specs.Statements.{EachHeard, IsHeardSome, RunsAfter};

use control_memory::Fabric;
use frame_engine::Carrier;
use lone_exchange::LoneExchange;
use std::alloc::{AllocError, Global};
use std::mem;
use trace_text::{Heading, Sizes};

// Makes the exchange with the sizes and the timers of a heading, before its first event.
fn opened<P: Fabric, C: Carrier>(
    alloc: Global,
    heading: &Heading,
    sizes: Sizes,
) -> Result<LoneExchange<P, C>, AllocError>
    requires external { 1 ≤ sizes.external × (sizes.external ≤ 32) }
    requires bridges { sizes.bridges ≤ 2 }
    ensures start { IfOk result (StartsAt C.carries C.next C.sizes sizes.external sizes.bridges P.slots) }
    ensures bound { IfOk result (λ x. x.control.map.bound ≡ P.moves (sizes.external + sizes.bridges)) }
{
    let paths = P::unused(alloc, sizes.external + sizes.bridges)?;
    LoneExchange::new(
        alloc,
        sizes.external,
        sizes.bridges,
        heading.timers(),
        paths,
    )
}

/// Makes the exchange of a heading before its first event. It does nothing if there is one.
///
/// # Errors
///
/// [`AllocError`] if an allocation fails.
#[inline(always)]
pub fn ready<P: Fabric, C: Carrier>(
    alloc: Global,
    heading: &Heading,
    exchange: &mut Option<LoneExchange<P, C>>,
) -> Result<(), AllocError>
    requires heard { IsHeardSome C.Carrier P.Fabric.own heading.now exchange.old }
    ensures running { EachHeard C.Carrier P.Fabric.own heading.now exchange.old
        (λ told z. OnOk result (RunsAfter C.Carrier P.Fabric.own told z exchange.new)) }
{
    if exchange.is_none() {
        return open_into(alloc, heading, exchange);
    }
    Ok(())
}

// Makes the exchange of a heading. A separate function holds it, because a function clears its locals whenever it is
// entered, and `ready` is entered at each event.
#[inline(never)]
fn open_into<P: Fabric, C: Carrier>(
    alloc: Global,
    heading: &Heading,
    exchange: &mut Option<LoneExchange<P, C>>,
) -> Result<(), AllocError>
    requires none { is_some exchange.old ≡ false }
    requires heard { IsHeardSome C.Carrier P.Fabric.own heading.now exchange.old }
    ensures running { EachHeard C.Carrier P.Fabric.own heading.now exchange.old
        (λ told z. OnOk result (RunsAfter C.Carrier P.Fabric.own told z exchange.new)) }
{
    let Some(sizes) = heading.sizes() else {
        unreachable!()
    };
    let opened = opened(alloc, heading, sizes)?;
    // There is no exchange that has to be dropped, and a drop would be expensive to prove.
    mem::forget(exchange.replace(opened));
    Ok(())
}

//! An exchange that is made for a trace.
ghost use Rattle.std.specs.Prelude.{◌≡◌, length, IfOk};
ghost use Rattle.exchange_events.specs.Sound.{IsSound};
ghost use Rattle.seat_history.specs.Seats.{first_seat};
ghost use Rattle.shared_exchange.specs.Sharing.{IsSeated};

use exchange_core::Core;
use exchange_events::Trace;
use fabric_map::FabricMap;
use shared_exchange::{Seat, SharedExchange};
use std::alloc::{AllocError, Global};

/// Returns an exchange over the fabric of 30 internal slots for a trace of n lines without bridges, with seat 0 of it.
pub fn opened<'t>(
    alloc: Global,
    trace: &'t Trace,
    lines: u8,
) -> Result<(SharedExchange<'t, FabricMap>, Seat<'t, FabricMap>), AllocError>
    requires sound { IsSound trace.now }
    requires sizes { (trace.now.external ≡ lines) × (trace.now.bridges ≡ 0) }
    ensures board { IfOk result (λ r. r.0.setting.trace ≡ trace.now) }
    ensures slots { IfOk result (λ r. r.0.setting.slots ≡ 30) }
    ensures of { IfOk result (λ r. IsSeated r.0 r.1) }
    ensures seat { IfOk result (λ r. r.1.known ≡ first_seat (length trace.now.events)) }
{
    let paths = FabricMap::new(alloc, lines)?;
    let core = Core::new(alloc, trace, paths)?;
    SharedExchange::open(alloc, core)
}

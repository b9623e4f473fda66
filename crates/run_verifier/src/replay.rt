//! Processing one event again, and its report line.
ghost use Rattle.std.specs.Prelude.{◌≡◌, ◌++◌, ◌∷◌, [], ℕ, List, OnOk};
ghost use Rattle.exchange_events.specs.declared.trace.Event.{Event as An_event};
ghost use Rattle.exchange_events.specs.Orders.{IsEvent};
ghost use Rattle.exchange_events.specs.Sound.{IsSound};
ghost use Rattle.exchange_core.specs.Working.{IsNumbered};
ghost use Rattle.run_verifier.specs.Replaying.{HasDone, HasDoneSome, line_due};

use control_memory::PathMap;
use exchange_events::Trace;
use frame_engine::Engine;
use lone_exchange::LoneExchange;
use std::alloc::AllocError;
use std::thread::Threads;

/// Processes an event and replaces the content of `line` with its report line.
///
/// # Errors
///
/// [`AllocError`] if the allocation of the line fails.
pub(crate) fn line_of<P: PathMap, R: Threads + Sync>(
    rt: &R,
    trace: &Trace,
    exchange: &mut LoneExchange<P, Engine>,
    event: u32,
    line: &mut Vec<u8>,
) -> Result<(), AllocError>
    requires sound { IsSound trace.now }
    requires known { IsEvent trace.now event }
    requires some { HasDoneSome trace.now exchange.old }
    ensures done { (slots : ℕ) (order : List ℕ) → HasDone slots trace.now order exchange.old
        → HasDone slots trace.now (order ++ event ∷ []) exchange.new }
    ensures line { (slots : ℕ) (order : List ℕ) (e : An_event) → HasDone slots trace.now order exchange.old
        → IsNumbered trace.now event e → OnOk result (line.new.items ≡ line_due slots trace.now order event e) }
{
    let happened = trace.event(event);
    let response = exchange.happen(rt, &trace.plan, &trace.tones, &trace.timers, happened);
    line.clear();
    exchange.append_line(line, event, response)
}

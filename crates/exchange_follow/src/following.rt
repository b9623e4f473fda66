//! The call that follows a trace.
ghost use Rattle.std.specs.Prelude.{◌≡◌, []};
ghost use Rattle.std.specs.Option.{option_map};
ghost use Rattle.line_wire.specs.Following.{CountsReads, CountsWrites};
ghost use Rattle.run_verifier.specs.Fabrics.{slots_of, moves_of};
ghost use Rattle.exchange_follow.specs.Followers.{FollowEnds, ReliesBy, parties_by};
ghost use Rattle.exchange_follow.specs.Handling.{engine_returned, exchange_of};
ghost use Rattle.exchange_follow.specs.Following.{FollowsTo};

use crate::follow_loop::follow_lines;
use crate::follower::TraceFollower;
use control_memory::{Fabric, PathMap};
use fabric_map::FabricMap;
use frame_engine::Carrier;
use line_wire::{Following, Wire};
use linked_exchange::LinkedExchange;
use linked_text::LinkHeading;
use lone_exchange::LoneExchange;
use meters::Meter;
use std::alloc::Global;
use std::collections::VecDeque;
use std::mem;
use std::thread::Threads;
use strict_map::StrictMap;

/// The result of a call of [`follow`].
#[derive(Drop)]
pub struct FollowOutcome<C: Carrier> {
    /// 0: all lines were processed. 1: a line was refused, or there is no header. 3: a read failed. 4: a write failed.
    /// 5: an allocation failed.
    pub status: u8,
    /// The engine that carried the octets, if the status is 0.
    pub engine: Option<C>,
}

// The result of a call on one kind of fabric: its ending, and the engine that is returned.
#[derive(Drop)]
struct FollowEnd<C: Carrier> {
    ending: Following,
    engine: Option<C>,
}

// Returns the engine of an exchange.
fn engine_in<P: PathMap + Drop, C: Carrier>(exchange: Option<LoneExchange<P, C>>) -> Option<C>
    ensures { result ≡ option_map (λ x. x.engine) exchange }
{
    match exchange {
        Some(driver) => Some(driver.engine),
        None => None,
    }
}

// Returns the engine of an exchange, if all lines were processed. Each way out of a function with parts of an exchange
// is expensive to prove, so the parts are dropped first.
fn engine_of<P: PathMap + Drop, C: Carrier>(
    ending: Following,
    exchange: Option<LoneExchange<P, C>>,
) -> Option<C>
    ensures { result ≡ engine_returned ending (option_map (λ x. x.engine) exchange) }
{
    let engine = engine_in(exchange);
    match ending {
        Following::Completed => engine,
        Following::Refused => None,
        Following::ReadFailed => None,
        Following::WriteFailed => None,
        Following::OutOfMemory => None,
    }
}

// Returns the exchange with data links if there is one, and otherwise the exchange without them.
fn exchange_of<P: PathMap + Drop, C: Carrier>(
    exchange: Option<LoneExchange<P, C>>,
    linked: Option<LinkedExchange<P, C>>,
) -> Option<LoneExchange<P, C>>
    ensures { result ≡ exchange_of exchange linked }
{
    match linked {
        Some(driver) => Some(driver.exchange),
        None => exchange,
    }
}

// Follows the trace of a wire on one kind of fabric.
fn follow_on<W: Wire, P: Fabric, C: Carrier, R: Threads + Sync>(
    rt: &R,
    alloc: Global,
    wire: &mut W,
    meters: &mut Vec<Box<dyn Meter>>,
    spare: &mut VecDeque<Box<dyn Meter>>,
) -> FollowEnd<C>
    requires fresh { W.stands wire.old [] [] }
    requires promise { ReliesBy ⟦<dyn Meter as Meter>⟧ C.Carrier P.slots P.moves
        meters.old.items spare.old.items W.relies }
    ensures ends { FollowsTo (parties_by ⟦<dyn Meter as Meter>⟧ C.Carrier P.slots P.moves result.engine
        meters.old.items spare.old.items meters.new.items spare.new.items)
        (W.stands wire.new) (W.ended wire.new) result.ending }
    ensures reads { CountsReads result.ending (W.read_faults wire.old) (W.read_faults wire.new) }
    ensures writes { CountsWrites result.ending (W.write_faults wire.old) (W.write_faults wire.new) }
{
    let mut follower: TraceFollower<P, C, R> = TraceFollower {
        rt,
        alloc,
        heading: LinkHeading::new(alloc),
        lines: 0,
        exchange: None,
        linked: None,
        on: mem::replace(meters, Vec::new(alloc)),
        spare: mem::replace(spare, VecDeque::new(alloc)),
    };
    let ending = follow_lines(alloc, wire, &mut follower);
    let TraceFollower {
        exchange,
        linked,
        on,
        spare: left,
        ..
    } = follower;
    *meters = on;
    *spare = left;
    FollowEnd {
        ending,
        engine: engine_of(ending, exchange_of(exchange, linked)),
    }
}

/// Processes the lines of a trace when they arrive, each event in the order of its line, and writes the report line of
/// each event. Before each read it has written everything that is due for the lines read so far, and nothing else.
///
/// The numbers in the report count the events in the order of the lines. `sync` has no effect. At a change the first
/// active meter writes its summary and is dropped, and the first of `spare` becomes active after the others. The fabric
/// has 30 internal slots. If `strict` is true, it has 59, and no path ever moves.
///
/// A line that fails a check is refused, and so are a line of more than 65,535 octets and a line after 4,294,967,294
/// others. The report of the lines before it remains, the refusal is written after it, and the call ends. A trace without
/// a header is refused at its end. A last line without its line feed is a line.
///
/// The octets of a frame are the output of the engine of type `C`. The engine is returned if the status is 0.
pub fn follow<W: Wire, C: Carrier, R: Threads + Sync>(
    rt: &R,
    alloc: Global,
    strict: bool,
    wire: &mut W,
    meters: &mut Vec<Box<dyn Meter>>,
    spare: &mut VecDeque<Box<dyn Meter>>,
) -> FollowOutcome<C>
    requires fresh { W.stands wire.old [] [] }
    // At each read the other side may rely on the output: it is exactly the text of the lines so far, and each new path
    // has moved few live paths.
    requires promise { ReliesBy ⟦<dyn Meter as Meter>⟧ C.Carrier (slots_of strict) (moves_of strict)
        meters.old.items spare.old.items W.relies }
    // The ending of the call. Statuses 3 and 4 occur only after an error was counted, and no other status hides one.
    ensures ends { FollowEnds W.Wire wire.old wire.new
        (parties_by ⟦<dyn Meter as Meter>⟧ C.Carrier (slots_of strict) (moves_of strict) result.engine
        meters.old.items spare.old.items meters.new.items spare.new.items) result.status }
{
    let ended = if strict {
        follow_on::<W, StrictMap, C, R>(rt, alloc, wire, meters, spare)
    } else {
        follow_on::<W, FabricMap, C, R>(rt, alloc, wire, meters, spare)
    };
    FollowOutcome {
        status: ended.ending.status(),
        engine: ended.engine,
    }
}

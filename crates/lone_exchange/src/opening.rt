//! The parts of an exchange before its first event. Each early return drops at most one value, because each drop is
//! expensive to prove.
ghost use Rattle.std.specs.Prelude.{◌≡◌, ◌+◌, ◌≤◌, [], IfOk, length, replicate, ◌*◌, None};
ghost use Rattle.circuit_model.specs.Holding.{empty};
ghost use Rattle.circuit_model.specs.Ports.{free_ports};
ghost use Rattle.circuit_map.specs.Connections.{Represents};
ghost use Rattle.call_profile.specs.Legs.{no_legs};
ghost use Rattle.control_memory.specs.Unused.{IsUnused};
ghost use Rattle.lone_exchange.specs.At.{AreUnused, HoldsNothing, IsFrameTool, idle_lines, size};

use call_control::CallControl;
use call_timers::Timers;
use circuit_map::CircuitMap;
use circuit_model::IDLE;
use control_memory::{Image, PathMap};
use exchange_core::Tool;
use frame_engine::Carrier;
use leg_table::LegTable;
use std::alloc::{AllocError, Global};

/// Returns the circuits and legs of an exchange before its first event.
pub(crate) fn lines_of<P: PathMap + Drop>(
    alloc: Global,
    external: u8,
    bridges: u8,
    timers: Timers,
    paths: P,
) -> Result<CallControl<P>, AllocError>
    requires external { 1 ≤ external × (external ≤ 32) }
    requires bridges { bridges ≤ 2 }
    requires paths { IsUnused (external + bridges) (P.width paths) (P.depth paths) (P.layout paths) }
    ensures begins { IfOk result (λ c. HoldsNothing external bridges (P.depth paths) c.map c.legs) }
    ensures bound { IfOk result (λ c. c.map.bound ≡ P.bound paths) }
{
    Ok(CallControl {
        legs: LegTable::new(alloc, external, timers)?,
        map: CircuitMap::new(alloc, paths, external, bridges)?,
    })
}

/// Returns an engine before its first frame, the control memory of the first frame, and the buffer for its octets.
pub(crate) fn frame_parts<C: Carrier>(
    alloc: Global,
    external: u8,
    bridges: u8,
    slots: u8,
) -> Result<(C, Tool, Vec<[u8; 30]>), AllocError>
    requires external { 1 ≤ external × (external ≤ 32) }
    requires bridges { bridges ≤ 2 }
    requires slots { 1 ≤ slots × (slots ≤ 59) }
    ensures ready { IfOk result (λ r. AreUnused C.carries C.next C.sizes (size external bridges slots) r.0 r.1) }
    ensures lines { IfOk result (λ r. length r.2.items ≡ external) }
    ensures idle { IfOk result (λ r. r.2.items ≡ idle_lines external) }
{
    let (tool, octets) = frame_buffers(alloc, external, bridges, slots)?;
    Ok((C::new(alloc, external, bridges, slots)?, tool, octets))
}

// Returns the control memory of the first frame, and the buffer for its octets.
#[tactic(auto, unfolding(crate::specs::At::idle_lines))]
fn frame_buffers(
    alloc: Global,
    external: u8,
    bridges: u8,
    slots: u8,
) -> Result<(Tool, Vec<[u8; 30]>), AllocError>
    requires external { 1 ≤ external × (external ≤ 32) }
    requires bridges { bridges ≤ 2 }
    requires slots { 1 ≤ slots × (slots ≤ 59) }
    ensures tool { IfOk result (λ r. IsFrameTool (size external bridges slots) r.0) }
    ensures lines { IfOk result (λ r. length r.1.items ≡ external) }
    ensures idle { IfOk result (λ r. r.1.items ≡ idle_lines external) }
{
    let octets = vec![in alloc; [IDLE; 30]; usize::from(external)]?;
    let image = Image::new(alloc, external, bridges, slots)?;
    Ok((Tool::Image(image), octets))
}

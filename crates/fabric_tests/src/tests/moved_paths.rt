//! Paths on 30 internal slots.
ghost use Rattle.std.specs.Prelude.{◌≡◌, ◌<◌};

use circuit_model::Slot;
use control_memory::PathMap;
use fabric_map::FabricMap;
use std::alloc::AllocError;

// Connects two slots if both are free.
fn connect_free(map: &mut FabricMap, from: Slot, to: Slot) -> Option<u32>
    requires lines { map.old.lines ≡ 2 }
    requires from { (from.line < 2) × (from.place < 30) }
    requires to { (to.line < 2) × (to.place < 30) }
    ensures lines { map.new.lines ≡ 2 }
{
    if map.inlet_free(from) && map.outlet_free(to) {
        Some(map.connect(from, to))
    } else {
        None
    }
}

// Returns whether each path takes the lowest slot that both of its lines have free, on two lines without paths.
fn takes_common_slots(map: &mut FabricMap) -> bool
    requires lines { map.old.lines ≡ 2 }
{
    let near = Slot { line: 0, place: 0 };
    let far = Slot { line: 1, place: 0 };
    let next = Slot { line: 0, place: 1 };
    let beside = Slot { line: 1, place: 1 };
    connect_free(map, near, far) == Some(0)
        && connect_free(map, near, beside).is_none()
        && connect_free(map, next, beside) == Some(0)
        && map.slot_of(near) == Some(0)
        && map.slot_of(next) == Some(1)
        && connect_free(map, far, near) == Some(0)
        && map.slot_of(far) == Some(0)
}

#[test]
fn the_lowest_common_slot_is_taken(rt: HostRuntime) -> Result<(), AllocError> {
    let mut map = FabricMap::new(rt.alloc(), 2)?;
    assert!(rt; takes_common_slots(&mut map));
    Ok(())
}

//! Full lines, on which a path takes the last internal slot.
ghost use Rattle.std.specs.Prelude.{◌≡◌, ◌<◌};
ghost use Rattle.control_memory.specs.Layout.{IsSlot};

use circuit_model::Slot;
use control_memory::PathMap;
use std::alloc::AllocError;
use strict_map::StrictMap;

fn on(line: u8, place: u8) -> Slot
    ensures line { result.line ≡ line }
    ensures place { result.place ≡ place }
{
    Slot { line, place }
}

// Connects two slots if both are free. Returns whether the path gets the expected slot, and no path moved.
fn gets(map: &mut StrictMap, from: Slot, to: Slot, slot: u8) -> bool
    requires from { IsSlot map.old.lines from }
    requires to { IsSlot map.old.lines to }
    ensures lines { map.new.lines ≡ map.old.lines }
{
    map.inlet_free(from)
        && map.outlet_free(to)
        && map.connect(from, to) == 0
        && map.slot_of(from) == Some(slot)
}

// Does the same as `gets` for a path that is released again.
fn gets_for_a_while(map: &mut StrictMap, from: Slot, to: Slot, slot: u8) -> bool
    requires from { IsSlot map.old.lines from }
    requires to { IsSlot map.old.lines to }
    ensures lines { map.new.lines ≡ map.old.lines }
{
    if !map.inlet_free(from) || !map.outlet_free(to) {
        return false;
    }
    map.connect(from, to);
    let right = map.slot_of(from) == Some(slot);
    map.disconnect(from, to);
    right
}

// Connects the first places of a line, each to the outlet of the same number, in the slots from 0 up.
fn fill(map: &mut StrictMap, line: u8, places: u8) -> bool
    requires lines { map.old.lines ≡ 34 }
    requires line { line < 34 }
    requires places { places < 30 }
    ensures lines { map.new.lines ≡ 34 }
{
    for place in 0..places {
        if !gets(map, on(line, place), on(line, place), place) {
            return false;
        }
    }
    true
}

// Adds 29 paths of outgoing line 31 in the slots 29 to 57: each is the last of an incoming line whose other paths use
// the slots below.
fn fill_column(map: &mut StrictMap) -> bool
    requires lines { map.old.lines ≡ 34 }
    ensures lines { map.new.lines ≡ 34 }
{
    for line in 1..30 {
        if !fill(map, line, 29) || !gets(map, on(line, 29), on(31, line - 1), line + 28) {
            return false;
        }
    }
    true
}

// Adds 28 paths of incoming line 0 in the slots 0 to 28 except 3, which outgoing line 30 has from another line.
fn fill_row(map: &mut StrictMap) -> bool
    requires lines { map.old.lines ≡ 34 }
    ensures lines { map.new.lines ≡ 34 }
{
    if !fill(map, 32, 3) || !gets(map, on(32, 3), on(30, 29), 3) {
        return false;
    }
    for place in 0..29 {
        if place != 3 && !gets(map, on(0, place), on(30, place), place) {
            return false;
        }
    }
    true
}

// Returns whether the path of the worst case gets the last slot.
fn takes_the_last_slot(map: &mut StrictMap) -> bool
    requires lines { map.old.lines ≡ 34 }
{
    fill_column(map)
        && fill_row(map)
        && gets_for_a_while(map, on(0, 29), on(31, 29), 3)
        && gets(map, on(0, 3), on(33, 0), 3)
        && gets_for_a_while(map, on(0, 29), on(31, 29), 58)
        && gets(map, on(33, 0), on(0, 29), 0)
        && gets(map, on(0, 29), on(31, 29), 58)
}

#[test]
fn the_worst_case_takes_the_last_slot(rt: HostRuntime) -> Result<(), AllocError> {
    let mut map = StrictMap::new(rt.alloc(), 34)?;
    assert!(rt; takes_the_last_slot(&mut map));
    Ok(())
}

// Returns whether a line without paths connects with itself, each slot once.
fn connects_with_itself(map: &mut StrictMap) -> bool
    requires lines { map.old.lines ≡ 1 }
{
    gets_for_a_while(map, on(0, 0), on(0, 1), 0)
        && gets(map, on(0, 1), on(0, 0), 0)
        && gets(map, on(0, 0), on(0, 1), 1)
        && !gets(map, on(0, 0), on(0, 2), 2)
}

#[test]
fn a_line_connects_with_itself(rt: HostRuntime) -> Result<(), AllocError> {
    let mut map = StrictMap::new(rt.alloc(), 1)?;
    assert!(rt; connects_with_itself(&mut map));
    Ok(())
}

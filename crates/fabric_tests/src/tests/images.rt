//! The contents of a control memory after it was written.
ghost use Rattle.std.specs.Prelude.{◌≡◌};
ghost use Rattle.control_memory.specs.Layout.{IsSlot};

use circuit_model::{Kind, Slot};
use control_memory::{Heard, Image, PathMap};
use fabric_map::{FabricMap, INTERNAL_SLOTS};
use std::alloc::AllocError;

const PORT: Slot = Slot { line: 2, place: 4 };

// Writes one path, the octets for a port, and the member at the port.
fn write(image: &mut Image, frame: u32)
    requires sizes { (image.old.external ≡ 2) × (image.old.bridges ≡ 1) × (image.old.slots ≡ 5) }
    ensures sizes { (image.new.external ≡ 2) × (image.new.bridges ≡ 1) × (image.new.slots ≡ 5) }
{
    image.clear_all(frame);
    image.set_path(Slot { line: 0, place: 9 }, Slot { line: 1, place: 29 }, 3);
    image.set_heard(PORT, Heard::Path { since: 6 });
    image.set_room(PORT, 40, 6);
}

// Returns whether the written entries are read, and no others.
fn is_written(image: &Image, frame: u32) -> bool
    requires sizes { (image.now.external ≡ 2) × (image.now.bridges ≡ 1) × (image.now.slots ≡ 5) }
{
    image.frame() == frame
        && image.incoming(0, 3) == Some(9)
        && image.incoming(1, 3).is_none()
        && image.space(1, 3) == Some(0)
        && image.space(0, 3).is_none()
        && image.outgoing(1, 29) == Some(3)
        && image.outgoing(0, 9).is_none()
        && image.heard(PORT) == Heard::Path { since: 6 }
        && image.room(PORT) == Some((40, 6))
}

// Returns whether nothing of it is read.
fn is_cleared(image: &Image) -> bool
    requires sizes { (image.now.external ≡ 2) × (image.now.bridges ≡ 1) × (image.now.slots ≡ 5) }
{
    image.incoming(0, 3).is_none()
        && image.space(1, 3).is_none()
        && image.outgoing(1, 29).is_none()
        && image.heard(PORT) == Heard::Silent
        && image.room(PORT).is_none()
}

#[test]
fn one_path_is_written_into_three_tables(rt: HostRuntime) -> Result<(), AllocError> {
    let mut image = Image::new(rt.alloc(), 2, 1, 5)?;
    write(&mut image, 7);
    assert!(rt; is_written(&image, 7));
    image.clear_all(8);
    assert!(rt; is_cleared(&image));
    Ok(())
}

// Returns a slot of the first line.
fn on(place: u8) -> Slot
    ensures { (result.line ≡ 0) × (result.place ≡ place) }
{
    Slot { line: 0, place }
}

// Connects two slots if both are free, permanently or for a while. Returns whether they are.
fn connect(map: &mut FabricMap, from: Slot, to: Slot, for_good: bool) -> bool
    requires from { IsSlot map.old.lines from }
    requires to { IsSlot map.old.lines to }
    ensures lines { map.new.lines ≡ map.old.lines }
{
    if !map.inlet_free(from) || !map.outlet_free(to) {
        return false;
    }
    map.connect(from, to);
    if !for_good {
        map.disconnect(from, to);
    }
    true
}

// Connects two slots permanently, in internal slot 0, and two for a while, in internal slot 1. Returns whether they are
// free.
fn connect_two(map: &mut FabricMap) -> bool
    requires lines { map.old.lines ≡ 1 }
    ensures lines { map.new.lines ≡ map.old.lines }
{
    connect(map, on(17), on(3), true) && connect(map, on(16), on(4), false)
}

const TONE: Heard = Heard::Tone {
    kind: Kind::Busy,
    since: 1,
};

// Returns whether the tables of a map with one path are complete, and the circuits of the slots are unchanged.
fn are_taken_over(image: &Image) -> bool
    requires sizes { (image.now.external ≡ 1) × (image.now.bridges ≡ 0) × (image.now.slots ≡ 30) }
{
    image.incoming(0, 0) == Some(17)
        && image.incoming(0, 1).is_none()
        && image.space(0, 0) == Some(0)
        && image.space(0, 1).is_none()
        && image.outgoing(0, 3) == Some(0)
        && image.outgoing(0, 17).is_none()
        && image.outgoing(0, 4).is_none()
        && image.heard(on(0)) == TONE
}

#[test]
fn tables_are_taken_over_whole(rt: HostRuntime) -> Result<(), AllocError> {
    let mut map = FabricMap::new(rt.alloc(), 1)?;
    let mut image = Image::new(rt.alloc(), 1, 0, INTERNAL_SLOTS)?;
    let connected = connect_two(&mut map);
    image.set_heard(on(0), TONE);
    map.write_tables(&mut image);
    assert!(rt; connected && are_taken_over(&image));
    Ok(())
}

//! The commands of a trace: nail, seat and free, and the boundary of a frame.
ghost use Rattle.std.specs.Prelude.{◌≡◌, ◌<◌, ℕ, None, List, Option, IsTrue};
ghost use Rattle.control_memory.specs.Image.{SameSizes as SameImageSizes};
ghost use Rattle.control_memory.specs.Shown.{Shows};
ghost use Rattle.circuit_map.specs.Connections.{SameSizes, hears_at};
ghost use Rattle.exchange_events.specs.declared.trace.Event.TheVariants as event;
ghost use Rattle.exchange_events.specs.Responses.{reply_of};
ghost use Rattle.exchange_events.specs.Sizes.{Dimensions};
ghost use Rattle.exchange_events.specs.declared.outbox.Outbox.{Outbox};
ghost use Rattle.exchange_events.specs.Sound.{Fits};
ghost use Rattle.call_control.specs.Standing.{Holds, EachHeld};
ghost use Rattle.call_profile.specs.Step.{reply, next, may_nail, MovesAtMost};
ghost use Rattle.call_profile.specs.World.{World, pass};

use call_control::CallControl;
use circuit_model::Slot;
use control_memory::{Image, PathMap};
use exchange_events::Response;

/// Connects two slots if both are idle.
pub(crate) fn nail<P: PathMap>(control: &mut CallControl<P>, x: Slot, y: Slot) -> Response
    requires fits { Fits control.old.map.external (event.Nail x y) }
    ensures reply { (o : Outbox) → EachHeld control.old.map control.old.legs (λ s w. reply_of result o ≡ reply s w (event.Nail x y)) }
    ensures world { EachHeld control.old.map control.old.legs (λ s w. Holds s.dimensions control.new.map control.new.legs (next s w (event.Nail x y))) }
    ensures few { (o : Outbox) → MovesAtMost control.old.map.bound (reply_of result o) }
    ensures sizes { SameSizes control.old.map control.new.map }
{
    if !may_nail(control, x, y) {
        return Response::Busy;
    }
    let (there, back) = control.pair(x, y);
    Response::Granted(there, back)
}

// Returns whether both slots are idle.
fn may_nail<P: PathMap>(control: &CallControl<P>, x: Slot, y: Slot) -> bool
    requires fits { Fits control.now.map.external (event.Nail x y) }
    ensures may { (d : Dimensions) (w : World) → Holds d control.now.map control.now.legs w → result ≡ may_nail w x y }
    ensures silent { IsTrue result → (hears_at control.now.map x ≡ None) × (hears_at control.now.map y ≡ None) }
{
    control.is_idle(x) && control.is_idle(y)
}

/// Adds a slot to a room if the slot is idle and a conference port is free.
pub(crate) fn seat<P: PathMap>(control: &mut CallControl<P>, x: Slot, room: u8) -> Response
    requires fits { Fits control.old.map.external (event.Seat x room) }
    ensures reply { (o : Outbox) → EachHeld control.old.map control.old.legs (λ s w. reply_of result o ≡ reply s w (event.Seat x room)) }
    ensures world { EachHeld control.old.map control.old.legs (λ s w. Holds s.dimensions control.new.map control.new.legs (next s w (event.Seat x room))) }
    ensures few { (o : Outbox) → MovesAtMost control.old.map.bound (reply_of result o) }
    ensures sizes { SameSizes control.old.map control.new.map }
{
    if !control.is_idle(x) {
        return Response::Busy;
    }
    let Ok((there, back)) = control.map.seat(x, room) else {
        return Response::NoPort;
    };
    Response::Seated(there, back)
}

/// Releases the nail or the seat of a slot, if it has one and no leg holds it.
pub(crate) fn free<P: PathMap>(control: &mut CallControl<P>, x: Slot) -> Response
    requires fits { Fits control.old.map.external (event.Free x) }
    ensures reply { (o : Outbox) → EachHeld control.old.map control.old.legs (λ s w. reply_of result o ≡ reply s w (event.Free x)) }
    ensures world { EachHeld control.old.map control.old.legs (λ s w. Holds s.dimensions control.new.map control.new.legs (next s w (event.Free x))) }
    ensures few { (o : Outbox) → MovesAtMost control.old.map.bound (reply_of result o) }
    ensures sizes { SameSizes control.old.map control.new.map }
{
    if control.map.idle(x) || control.legs.get(x).is_some() {
        return Response::NotNailed;
    }
    control.clear(x);
    Response::Freed
}

/// Writes the control memory of the next frame, and returns the frame's number.
pub(crate) fn boundary<P: PathMap>(control: &mut CallControl<P>, image: &mut Image) -> u32
    requires room { control.old.map.next < 4294967295 }
    requires external { image.old.external ≡ control.old.map.external }
    requires bridges { image.old.bridges ≡ control.old.map.bridges }
    requires slots { image.old.slots ≡ control.old.map.slots }
    ensures number { (d : Dimensions) (w : World) → Holds d control.old.map control.old.legs w → result ≡ w.holding.next }
    ensures world { (d : Dimensions) (w : World) (input : List (Option (List ℕ))) → Holds d control.old.map control.old.legs w
        → Holds d control.new.map control.new.legs (pass w input) }
    ensures shows { (d : Dimensions) (w : World) → Holds d control.old.map control.old.legs w → Shows image.new w.holding.circuits w.ports w.holding.next }
    ensures image { SameImageSizes image.old image.new }
    ensures sizes { SameSizes control.old.map control.new.map }
{
    control.map.boundary(image)
}

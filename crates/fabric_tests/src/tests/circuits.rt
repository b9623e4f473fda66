//! Steps of the map of circuits over both fabrics, and the result of each.
ghost use Rattle.std.specs.Prelude.{◌≡◌, ◌≤◌};
ghost use Rattle.control_memory.specs.Layout.{IsBare};
ghost use Rattle.control_memory.specs.Image.{SameSizes as SameImageSizes};
ghost use Rattle.circuit_map.specs.Connections.{SameSizes};

use circuit_map::{CircuitMap, NoPort};
use circuit_model::{Circuit, Kind, Slot};
use control_memory::{Heard, Image, PathMap};
use fabric_map::FabricMap;
use std::alloc::{AllocError, Global};
use std::process::Abort;
use std::test::Fail;
use strict_map::StrictMap;

/// One step of a worked example, over two external lines and one bridge line.
#[derive(Clone, Copy)]
enum Step {
    Pair(Slot, Slot),
    Seat(Slot, u8),
    Tone(Slot, Kind),
    Clear(Slot),
    /// Clears a slot and connects it with another one, as when a call is answered.
    Answer(Slot, Slot),
    /// The circuit by which a slot receives.
    Circuit(Slot),
    /// A boundary.
    Frame,
    /// The octet that a slot receives in the last frame.
    Hears(Slot),
    /// The member at a port in the last frame.
    Sits(Slot),
}

/// The result of a step.
#[derive(Clone, Copy, PartialEq, Eq)]
enum Told {
    Done,
    Busy,
    Full,
    /// n live paths moved in each direction.
    Moved(u32, u32),
    Number(u32),
    Heard(Heard),
    Room(Option<(u8, u32)>),
    By(Option<Circuit>),
}

use Step::{Answer, Clear, Frame, Hears, Pair, Seat, Sits, Tone};
use Told::{Busy, By, Done, Full, Moved, Number, Room};

const SILENT: Told = Told::Heard(Heard::Silent);

const SINCE_0: Told = Told::Heard(Heard::Path { since: 0 });

const SINCE_1: Told = Told::Heard(Heard::Path { since: 1 });

const SINCE_4: Told = Told::Heard(Heard::Path { since: 4 });

fn on(line: u8, place: u8) -> Slot {
    Slot { line, place }
}

fn take<P: PathMap>(rt: &impl Abort, map: &mut CircuitMap<P>, image: &mut Image, step: Step) -> Told
    requires lines { (map.old.external ≡ 2) × (map.old.bridges ≡ 1) }
    requires image { (image.old.external ≡ 2) × (image.old.bridges ≡ 1) × (image.old.slots ≡ map.old.slots) }
    ensures sizes { SameSizes map.old map.new }
    ensures image { SameImageSizes image.old image.new }
{
    match step {
        Pair(x, y) => {
            assert!(rt; x.line < 2 && x.place < 30 && y.line < 2 && y.place < 30 && x != y);
            if !map.idle(x) || !map.idle(y) {
                return Busy;
            }
            let (there, back) = map.pair(x, y);
            Moved(there, back)
        }
        Seat(x, room) => {
            assert!(rt; x.line < 2 && x.place < 30);
            if !map.idle(x) {
                return Busy;
            }
            match map.seat(x, room) {
                Ok((there, back)) => Moved(there, back),
                Err(NoPort) => Full,
            }
        }
        Tone(x, kind) => {
            assert!(rt; x.line < 2 && x.place < 30);
            if !map.idle(x) {
                return Busy;
            }
            map.tone(x, kind);
            Done
        }
        Clear(x) => {
            assert!(rt; x.line < 2 && x.place < 30);
            map.clear(x);
            Done
        }
        Answer(x, y) => {
            assert!(rt; x.line < 2 && x.place < 30 && y.line < 2 && y.place < 30 && x != y);
            if !map.idle(y) {
                return Busy;
            }
            map.clear(x);
            let (there, back) = map.pair(x, y);
            Moved(there, back)
        }
        Step::Circuit(x) => {
            assert!(rt; x.line < 2 && x.place < 30);
            By(map.circuit_at(x))
        }
        Frame => {
            assert!(rt; map.next_frame() < 1000);
            Number(map.boundary(image))
        }
        Hears(at) => {
            assert!(rt; at.line < 3 && at.place < 30);
            Told::Heard(image.heard(at))
        }
        Sits(port) => {
            assert!(rt; port.line < 3 && port.place < 30);
            Room(image.room(port))
        }
    }
}

/// Processes the steps, and returns whether each has the expected result.
fn are_answered<P: PathMap>(
    rt: &impl Abort,
    map: &mut CircuitMap<P>,
    image: &mut Image,
    steps: &[(Step, Told)],
) -> bool
    requires lines { (map.old.external ≡ 2) × (map.old.bridges ≡ 1) }
    requires image { (image.old.external ≡ 2) × (image.old.bridges ≡ 1) × (image.old.slots ≡ map.old.slots) }
{
    for (step, answer) in steps {
        if take(rt, map, image, *step) != *answer {
            return false;
        }
    }
    true
}

/// Processes the steps over a map without circuits, on a fabric without paths, and returns whether each has the
/// expected result.
fn hold_over<P: PathMap + Drop>(
    rt: &impl Abort,
    alloc: Global,
    paths: P,
    steps: &[(Step, Told)],
) -> Result<bool, AllocError>
    requires lines { P.width paths ≡ 3 }
    requires slots { (1 ≤ P.depth paths) × (P.depth paths ≤ 59) }
    requires bare { IsBare (P.layout paths) }
{
    let slots = paths.slots();
    let mut map = CircuitMap::new(alloc, paths, 2, 1)?;
    let mut image = Image::new(alloc, 2, 1, slots)?;
    Ok(are_answered(rt, &mut map, &mut image, steps))
}

/// Does the same as `hold_over` on a fabric of 30 internal slots.
fn hold(rt: &impl Abort, alloc: Global, steps: &[(Step, Told)]) -> Result<bool, AllocError> {
    hold_over(rt, alloc, FabricMap::new(alloc, 3)?, steps)
}

/// Does the same as `hold_over` on a fabric of 59 internal slots.
fn hold_strictly(
    rt: &impl Abort,
    alloc: Global,
    steps: &[(Step, Told)],
) -> Result<bool, AllocError> {
    hold_over(rt, alloc, StrictMap::new(alloc, 3)?, steps)
}

/// Returns the steps in which half of each external line joins rooms at the bridge line, and the next two slots are
/// connected, with the number of paths that this moves.
fn between_full_lines(alloc: Global, answer: Told) -> Result<Vec<(Step, Told)>, AllocError> {
    let mut steps = Vec::new(alloc);
    for place in 0..15 {
        steps.push((Seat(on(0, place), 7), Moved(0, 0)))?;
    }
    for place in 0..15 {
        steps.push((Seat(on(1, place), 7), Moved(0, 0)))?;
    }
    steps.push((Pair(on(0, 15), on(1, 15)), answer))?;
    steps.push((Frame, Number(0)))?;
    steps.push((Hears(on(1, 15)), SINCE_0))?;
    steps.push((Hears(on(2, 29)), SINCE_0))?;
    Ok(steps)
}

#[test]
fn on_thirty_slots_paths_move(rt: HostRuntime) -> Result<(), Fail> {
    let steps = between_full_lines(rt.alloc(), Moved(2, 0))?;
    assert!(rt; hold(&rt, rt.alloc(), &steps)?);
    Ok(())
}

#[test]
fn on_fifty_nine_slots_none_moves(rt: HostRuntime) -> Result<(), Fail> {
    let steps = between_full_lines(rt.alloc(), Moved(0, 0))?;
    assert!(rt; hold_strictly(&rt, rt.alloc(), &steps)?);
    Ok(())
}

const NEAR: Slot = Slot { line: 0, place: 0 };

const FAR: Slot = Slot { line: 1, place: 29 };

const BESIDE: Slot = Slot { line: 0, place: 1 };

const CONNECTION: [(Step, Told); 19] = [
    (Frame, Number(0)),
    (Hears(NEAR), SILENT),
    (Pair(NEAR, FAR), Moved(0, 0)),
    (Hears(NEAR), SILENT),
    (Frame, Number(1)),
    (Pair(BESIDE, FAR), Busy),
    (Tone(NEAR, Kind::Busy), Busy),
    (Frame, Number(2)),
    (Hears(NEAR), SINCE_1),
    (Hears(FAR), SINCE_1),
    (Hears(BESIDE), SILENT),
    (Clear(FAR), Done),
    (Frame, Number(3)),
    (Hears(NEAR), SILENT),
    (Hears(FAR), SILENT),
    (Pair(BESIDE, FAR), Moved(0, 0)),
    (Frame, Number(4)),
    (Hears(NEAR), SILENT),
    (Hears(FAR), SINCE_4),
];

#[test]
fn a_connection_is_heard_both_ways_until_it_is_cleared(rt: HostRuntime) -> Result<(), Fail> {
    assert!(rt; hold(&rt, rt.alloc(), &CONNECTION)?);
    Ok(())
}

const RUNG: Slot = Slot { line: 1, place: 7 };

const RINGING: Told = Told::Heard(Heard::Tone {
    kind: Kind::Ringback,
    since: 0,
});

const TONE: [(Step, Told); 8] = [
    (Tone(RUNG, Kind::Ringback), Done),
    (Seat(RUNG, 5), Busy),
    (Frame, Number(0)),
    (Hears(RUNG), RINGING),
    (Clear(RUNG), Done),
    (Clear(RUNG), Done),
    (Frame, Number(1)),
    (Hears(RUNG), SILENT),
];

#[test]
fn a_tone_sounds_until_it_is_cleared(rt: HostRuntime) -> Result<(), Fail> {
    assert!(rt; hold(&rt, rt.alloc(), &TONE)?);
    Ok(())
}

const CALLER: Slot = Slot { line: 0, place: 4 };

const CALLED: Slot = Slot { line: 1, place: 9 };

const RINGING_CIRCUIT: Circuit = Circuit::Tone {
    kind: Kind::Ringback,
    to: CALLER,
    since: 0,
};

const ANSWERED_CIRCUIT: Circuit = Circuit::Pair {
    from: CALLED,
    to: CALLER,
    since: 1,
};

const ANSWERED: [(Step, Told); 11] = [
    (Tone(CALLER, Kind::Ringback), Done),
    (Step::Circuit(CALLER), By(Some(RINGING_CIRCUIT))),
    (Frame, Number(0)),
    (Answer(CALLER, CALLED), Moved(0, 0)),
    (Step::Circuit(CALLER), By(Some(ANSWERED_CIRCUIT))),
    (Answer(CALLED, CALLER), Busy),
    (Frame, Number(1)),
    (Hears(CALLER), SINCE_1),
    (Hears(CALLED), SINCE_1),
    (Clear(CALLED), Done),
    (Step::Circuit(CALLER), By(None)),
];

#[test]
fn an_answered_call_takes_its_ringing_away_at_once(rt: HostRuntime) -> Result<(), Fail> {
    assert!(rt; hold(&rt, rt.alloc(), &ANSWERED)?);
    Ok(())
}

const MEMBER: Slot = Slot { line: 0, place: 3 };

const OTHER: Slot = Slot { line: 1, place: 3 };

const FIRST_PORT: Slot = Slot { line: 2, place: 0 };

const SECOND_PORT: Slot = Slot { line: 2, place: 1 };

const SEATED: [(Step, Told); 20] = [
    (Seat(MEMBER, 5), Moved(0, 0)),
    (Frame, Number(0)),
    (Seat(OTHER, 63), Moved(0, 0)),
    (Frame, Number(1)),
    (Hears(MEMBER), SINCE_0),
    (Hears(FIRST_PORT), SINCE_0),
    (Sits(FIRST_PORT), Room(Some((5, 0)))),
    (Hears(OTHER), SINCE_1),
    (Hears(SECOND_PORT), SINCE_1),
    (Sits(SECOND_PORT), Room(Some((63, 1)))),
    (Sits(OTHER), Room(None)),
    (Clear(MEMBER), Done),
    (Frame, Number(2)),
    (Hears(MEMBER), SILENT),
    (Hears(FIRST_PORT), SILENT),
    (Sits(FIRST_PORT), Room(None)),
    (Sits(SECOND_PORT), Room(Some((63, 1)))),
    (Seat(MEMBER, 6), Moved(0, 0)),
    (Frame, Number(3)),
    (Sits(FIRST_PORT), Room(Some((6, 3)))),
];

#[test]
fn a_member_sits_in_the_lowest_free_port(rt: HostRuntime) -> Result<(), Fail> {
    assert!(rt; hold(&rt, rt.alloc(), &SEATED)?);
    Ok(())
}

// Returns the steps of all 30 members of a bridge line, and one more that finds no port until one of them is cleared.
fn around_a_full_line(alloc: Global) -> Result<Vec<(Step, Told)>, AllocError> {
    let mut steps = Vec::new(alloc);
    for place in 0..30 {
        steps.push((Seat(on(0, place), 7), Moved(0, 0)))?;
    }
    steps.extend_from_slice(&FULL)?;
    Ok(steps)
}

const LATE: Slot = Slot { line: 1, place: 0 };

const LAST_PORT: Slot = Slot { line: 2, place: 29 };

const FIFTH: Slot = Slot { line: 0, place: 4 };

const FIFTH_PORT: Slot = Slot { line: 2, place: 4 };

const FULL: [(Step, Told); 8] = [
    (Seat(LATE, 7), Full),
    (Frame, Number(0)),
    (Hears(LATE), SILENT),
    (Sits(LAST_PORT), Room(Some((7, 0)))),
    (Clear(FIFTH), Done),
    (Seat(LATE, 8), Moved(0, 0)),
    (Frame, Number(1)),
    (Sits(FIFTH_PORT), Room(Some((8, 1)))),
];

#[test]
fn thirty_members_fill_a_bridge_line(rt: HostRuntime) -> Result<(), Fail> {
    let steps = around_a_full_line(rt.alloc())?;
    assert!(rt; hold(&rt, rt.alloc(), &steps)?);
    Ok(())
}

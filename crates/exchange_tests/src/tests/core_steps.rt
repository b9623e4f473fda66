//! A core that processes a nail and a frame, and the control memory of that frame.
ghost use Rattle.std.specs.Prelude.{◌≡◌, ◌≤◌, [], length};
ghost use Rattle.exchange_events.specs.Sound.{IsSound};

use super::work::{Outcome, answer_of, event_numbered};
use circuit_model::Slot;
use control_memory::{Heard, Image};
use exchange_core::{Core, Tool};
use exchange_events::{Event, Trace};
use fabric_map::FabricMap;
use std::alloc::{AllocError, Global};

const NEAR: Slot = Slot { line: 0, place: 0 };

const FAR: Slot = Slot { line: 1, place: 0 };

// Processes the nail. Returns whether it is granted without a control memory.
fn is_granted(core: &mut Core<FabricMap>, trace: &Trace) -> bool
    requires trace { core.old.trace ≡ trace.now }
    requires begun { core.old.journal ≡ [] }
    ensures trace { core.new.trace ≡ trace.now }
    ensures slots { core.new.slots ≡ core.old.slots }
    ensures journal { length core.new.journal ≤ 1 }
{
    match event_numbered(trace, 1) {
        Some(Event::Nail(_, _)) => {
            let mut tool = Tool::Nothing;
            let reply = core.step(3, 1, &mut tool);
            answer_of(&reply) == Outcome::Granted(0, 0) && tool.image().is_none()
        }
        _ => false,
    }
}

// Processes the first frame. Returns whether it is frame 0, and its control memory shows the nail.
fn is_shown(core: &mut Core<FabricMap>, trace: &Trace, image: Image) -> bool
    requires trace { core.old.trace ≡ trace.now }
    requires lines { (trace.now.external ≡ 2) × (trace.now.bridges ≡ 0) }
    requires slots { core.old.slots ≡ 30 }
    requires journal { length core.old.journal ≤ 1 }
    requires image { (image.external ≡ 2) × (image.bridges ≡ 0) × (image.slots ≡ 30) }
{
    match event_numbered(trace, 2) {
        Some(Event::Frame(_)) => {
            let mut tool = Tool::Image(image);
            let reply = core.step(4, 2, &mut tool);
            answer_of(&reply) == Outcome::Frame(0) && has_nail(&mut tool)
        }
        _ => false,
    }
}

// Returns whether the control memory is of frame 0, and has the two slots joined since then, each path in internal slot
// 0.
fn has_nail(tool: &mut Tool) -> bool {
    let Some(image) = tool.image() else {
        return false;
    };
    if image.external() != 2 || image.bridges() != 0 || image.slots() != 30 {
        return false;
    }
    let since = Heard::Path { since: 0 };
    let there = (
        image.incoming(0, 0),
        image.space(1, 0),
        image.outgoing(1, 0),
    );
    let back = (
        image.incoming(1, 0),
        image.space(0, 0),
        image.outgoing(0, 0),
    );
    image.frame() == 0
        && image.heard(NEAR) == since
        && image.heard(FAR) == since
        && there == (Some(0), Some(0), Some(0))
        && back == (Some(0), Some(1), Some(0))
}

/// Processes the nail and the first frame of a trace of two lines. Returns whether the nail is granted and shown, and
/// the journal has both.
pub fn nail_is_shown(alloc: Global, trace: &Trace) -> Result<bool, AllocError>
    requires sound { IsSound trace.now }
    requires lines { (trace.now.external ≡ 2) × (trace.now.bridges ≡ 0) }
{
    let image = Image::new(alloc, 2, 0, 30)?;
    let paths = FabricMap::new(alloc, 2)?;
    let mut core = Core::new(alloc, trace, paths)?;
    let granted = is_granted(&mut core, trace);
    let shown = is_shown(&mut core, trace, image);
    let journal = core.into_journal();
    Ok(granted && shown && journal.as_slice() == [(3, 1), (4, 2)].as_slice())
}

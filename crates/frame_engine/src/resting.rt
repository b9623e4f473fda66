//! When an engine rests: all its octets are idle, and none arrives.

ghost use Rattle.std.specs.Prelude.{◌≡◌, ℕ, ◌<◌, None, IfSome, IsTrue, length, slice_index_or};
ghost use Rattle.circuit_model.specs.FrameInput.{octet_in, idle_octet};
ghost use Rattle.frame_engine.specs.Resting.{IsQuiet, FadesTo, SendsNothing};

use control_memory::Image;

// The number of frames after which all octets are idle, if none arrives: one to cross, one to be read out, and one in
// which the octets that were read out last are replaced.
const MAX_LIVE: u8 = 3;

// Returns the number of frames after this one until all octets are idle, if none arrives. Returns `None` if the engine
// rests in this frame: all octets are idle, and none arrives in it. An engine with a member at a conference port never
// rests, because a room in which all members are silent has mixes that are not idle.
pub(crate) fn live_after(live: u8, image: &Image, input: &[Option<[u8; 30]>]) -> Option<u8>
    ensures rests { result ≡ None → (live ≡ 0) × IsQuiet image.now input.now }
    ensures lives { IfSome result (λ after. FadesTo live after image.now input.now) }
{
    if !sends_nothing(input) || !are_vacant(image.port_members()) {
        return Some(MAX_LIVE);
    }
    if live == 0 {
        return None;
    }
    Some(live - 1)
}

// Returns whether no conference port has a member. The lowest free port gets the next member, so the search for one is
// short.
fn are_vacant(members: &[Option<(u8, u32)>]) -> bool
    ensures { IsTrue result → (k : ℕ) → k < length members.now → slice_index_or members.now k None ≡ None }
{
    for port in 0..members.len() {
        if let Some(_) = &members[port] {
            return false;
        }
    }
    true
}

// Returns whether no line sends octets.
fn sends_nothing(input: &[Option<[u8; 30]>]) -> bool
    ensures { IsTrue result → SendsNothing input.now }
{
    for line in 0..input.len() {
        if let Some(_) = &input[line] {
            return false;
        }
    }
    true
}

//! Setting up and releasing the paths between two slots, both ways.
ghost use Rattle.std.specs.Prelude.{◌≡◌, ◌≢◌, ◌≤◌, ◌↔◌, ◌⊎◌};
ghost use Rattle.circuit_model.specs.declared.channel.Slot.{Slot};
ghost use Rattle.control_memory.specs.Layout.{Legal, IsSlot, Joins};
ghost use Rattle.control_memory.specs.Connecting.{connect, without_path, moved};
ghost use Rattle.circuit_map.specs.Connections.{AreJoined, CanBeJoined, both_connected};

use circuit_model::Slot;
use control_memory::PathMap;

/// Connects two slots at which no path begins or ends: x to y, and then y to x.
///
/// Returns the number of live paths that each of the two connects moved.
#[inline(always)]
pub(crate) fn connect_both<P: PathMap>(map: &mut P, x: Slot, y: Slot) -> (u32, u32)
    requires { CanBeJoined (P.width map.old) (P.layout map.old) x y }
    ensures layout { P.layout map.new ≡ both_connected (P.width map.old) (P.depth map.old) (P.layout map.old) x y }
    ensures pairs { (a b : Slot) → IsSlot (P.width map.old) a →
        Joins (P.layout map.new) a b ↔ ((Joins (P.layout map.old) a b ⊎ ((a ≡ x) × (b ≡ y))) ⊎ ((a ≡ y) × (b ≡ x))) }
    ensures there { result.0 ≡ moved (P.layout map.old) (connect (P.width map.old) (P.depth map.old) (P.layout map.old) x y) }
    ensures back { result.1 ≡ moved (connect (P.width map.old) (P.depth map.old) (P.layout map.old) x y) (P.layout map.new) }
    ensures few { (result.0 ≤ P.bound map.old) × (result.1 ≤ P.bound map.old) }
    ensures width { P.width map.new ≡ P.width map.old }
    ensures depth { P.depth map.new ≡ P.depth map.old }
    ensures bound { P.bound map.new ≡ P.bound map.old }
    ensures legal { Legal (P.width map.new) (P.depth map.new) (P.layout map.new) }
{
    let there = map.connect(x, y);
    let back = map.connect(y, x);
    (there, back)
}

/// Releases the path from x to y, and then the one back.
#[inline(always)]
pub(crate) fn disconnect_both<P: PathMap>(map: &mut P, x: Slot, y: Slot)
    requires joined { AreJoined (P.width map.old) (P.layout map.old) x y }
    requires legal { Legal (P.width map.old) (P.depth map.old) (P.layout map.old) }
    ensures layout { P.layout map.new ≡ without_path (without_path (P.layout map.old) x) y }
    ensures pairs { (a b : Slot) → IsSlot (P.width map.old) a →
        Joins (P.layout map.new) a b ↔ (Joins (P.layout map.old) a b × (a ≢ x) × (a ≢ y)) }
    ensures width { P.width map.new ≡ P.width map.old }
    ensures depth { P.depth map.new ≡ P.depth map.old }
    ensures bound { P.bound map.new ≡ P.bound map.old }
    ensures legal { Legal (P.width map.new) (P.depth map.new) (P.layout map.new) }
{
    map.disconnect(x, y);
    map.disconnect(y, x);
}

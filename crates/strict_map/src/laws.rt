// Theorems on the definitions only: these functions do nothing, and their contracts are the theorems.
ghost use Rattle.circuit_model.specs.declared.channel.Slot.{Slot};
ghost use Rattle.control_memory.specs.Paths.{Fabric};
ghost use Rattle.strict_map.specs.Strict.{Strict, MovesNothing, GetsASlot};
ghost use Rattle.path_memory.specs.Memory.{CanConnect};

/// On 59 internal slots the rule of connection, which every fabric has, moves no path: the other paths of the two
/// lines, at most 29 each, leave a slot free in both.
pub fn nothing_moves()
    ensures unmoved { (f : Fabric) (from to : Slot) → Strict f → CanConnect f from to → MovesNothing f from to }
    ensures slot { (f : Fabric) (from to : Slot) → Strict f → CanConnect f from to → GetsASlot f from to }
{}

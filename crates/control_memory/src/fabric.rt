//! A map of paths that is created for a number of lines.
ghost use Rattle.std.specs.Prelude.{◌≡◌, ◌<◌, ◌≤◌, ℕ, IfOk};
ghost use Rattle.control_memory.specs.Unused.{IsUnused};

use crate::path_map::PathMap;
use std::alloc::{AllocError, Global};

/// A path map that is created for a number of lines. All maps of one type have the same number of internal slots.
pub trait Fabric: PathMap + Sized + Drop {
    /// The number of internal slots.
    ghost slots: { ℕ };

    /// The maximum number of live paths that a new path moves, by the number of lines.
    ghost moves: { ℕ → ℕ };

    /// Returns a map of this many lines, without paths.
    ///
    /// # Errors
    ///
    /// [`AllocError`] if an allocation fails.
    fn unused(alloc: Global, lines: u8) -> Result<Self, AllocError>
        requires { (0 < lines) × (lines ≤ 34) }
        ensures unused { IfOk result (λ m. IsUnused lines (Self.width m) (Self.depth m) (Self.layout m)) }
        ensures depth { IfOk result (λ m. Self.depth m ≡ slots) }
        ensures bound { IfOk result (λ m. Self.bound m ≡ moves lines) };
}

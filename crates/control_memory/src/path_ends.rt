//! The two ends of a path.
use circuit_model::Slot;

/// The two ends of a path: its inlet and its outlet.
#[derive(Clone, Copy, Debug, PartialEq, Eq)]
pub struct PathEnds {
    /// The inlet.
    pub from: Slot,
    /// The outlet.
    pub to: Slot,
}

impl Default for PathEnds {
    ghost use Rattle.std.specs.Prelude.{◌≡◌};

    // Both are the first slot of all.
    ghost is_default = { λ ends. (ends.from ≡ record { line = 0; place = 0 }) × (ends.to ≡ record { line = 0; place = 0 }) };

    fn default() -> Self {
        let at = Slot { line: 0, place: 0 };
        PathEnds { from: at, to: at }
    }
}

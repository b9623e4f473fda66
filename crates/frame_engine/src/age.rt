//! The age from which a slot receives by a circuit.

ghost use Rattle.std.specs.Prelude.{◌≡◌};
ghost use Rattle.circuit_model.specs.Hears.{is_through};

// Returns whether a circuit that has existed since a frame is two frames old in another one. Before that, the octet
// that is read out for it was sent by an earlier circuit.
pub(crate) fn is_through(since: u32, frame: u32) -> bool
    ensures { result ≡ is_through since frame }
{
    since < frame.saturating_sub(1)
}

//! The source of a slot's octets.
use circuit_model::Kind;

/// The source of a slot's octets in a frame.
#[derive(Clone, Copy, Debug, PartialEq, Eq)]
pub enum Heard {
    /// Nothing: the idle octet.
    Silent,
    /// The octets of a path through the network. `since` is the first frame that it exists in.
    Path { since: u32 },
    /// A tone. `since` is the first frame that it sounds in.
    Tone { kind: Kind, since: u32 },
}

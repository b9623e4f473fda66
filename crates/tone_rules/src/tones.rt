//! The tones that a trace gives.

ghost use Rattle.std.specs.Prelude.{◌≡◌, ◌%◌, ◌<◌, ℕ, [], length, slice_index_or};
ghost use Rattle.circuit_model.specs.FrameInput.{idle_octet};
ghost use Rattle.circuit_model.specs.Hears.{tone_octet};

use circuit_model::Kind;
use std::alloc::Global;
use std::marker::Model;

/// The octets of a tone, one for each frame, which repeat. Contracts see their list.
#[derive(Debug, Drop)]
pub struct ToneOctets {
    octets: Vec<u8>,
}

impl Model for ToneOctets {
    ghost use Rattle.std.specs.Prelude.{List, ℕ};

    ghost Value = { List ℕ };

    ghost view = { λ t. t.octets.items };
}

impl ToneOctets {
    /// Takes these octets.
    pub fn of(items: Vec<u8>) -> ToneOctets
        ensures { result ≡ items.items }
    {
        ToneOctets { octets: items }
    }

    /// Returns the octets in order.
    pub fn as_slice(&self) -> &[u8]
        ensures { result.now ≡ self.now }
    {
        self.octets.as_slice()
    }

    /// Returns the octet of the tone after it has sounded for n frames.
    pub fn octet(&self, frames: u32) -> u8
        requires { 0 < length self.now }
        ensures { result ≡ tone_octet self.now frames }
    {
        let octets = self.octets.as_slice();
        octets[frames as usize % octets.len()]
    }
}

/// The tones that a trace gives. A tone that is not given has no octets.
#[derive(Debug, Drop)]
pub struct Tones {
    /// Ringing tone: the called party is being alerted.
    pub ringback: ToneOctets,
    /// Busy tone: the called party cannot be reached.
    pub busy: ToneOctets,
}

impl Tones {
    ghost use Rattle.std.specs.Prelude.{◌≡◌, ◌↔◌, ℕ, IsTrue};
    ghost use Rattle.tone_rules.specs.Tables.{IsGiven, no_tones, table_of, with_octets};
    ghost use Rattle.tone_rules.specs.CallTones.{is_given};

    /// Returns the octets of a tone. A tone that is not given has none.
    pub fn get(&self, kind: Kind) -> &ToneOctets
        ensures { result.now ≡ table_of self.now kind }
    {
        match kind {
            Kind::Ringback => &self.ringback,
            Kind::Busy => &self.busy,
        }
    }

    /// Stores the octets of a tone.
    pub fn set(&mut self, kind: Kind, octets: ToneOctets)
        ensures { self.new ≡ with_octets self.old kind octets }
    {
        match kind {
            Kind::Ringback => self.ringback = octets,
            Kind::Busy => self.busy = octets,
        }
    }

    /// Returns whether the trace gives a tone. A tone that is not given has no octets.
    pub fn is_given(&self, kind: Kind) -> bool
        ensures given { IsTrue result ↔ IsGiven self.now kind }
        ensures computed { result ≡ is_given self.now kind }
    {
        !self.get(kind).as_slice().is_empty()
    }

    /// Returns whether no tone is given.
    pub fn is_empty(&self) -> bool
        ensures { IsTrue result ↔ ((kind : Kind) → ¬ IsGiven self.now kind) }
    {
        !self.is_given(Kind::Ringback) && !self.is_given(Kind::Busy)
    }

    /// Returns tones of which none is given.
    pub fn empty(alloc: Global) -> Tones
        ensures none { result ≡ no_tones }
        ensures ringback { result.ringback ≡ [] }
        ensures busy { result.busy ≡ [] }
    {
        Tones {
            ringback: ToneOctets::of(Vec::new(alloc)),
            busy: ToneOctets::of(Vec::new(alloc)),
        }
    }
}

//! What the tests share: the frames received and sent, and random numbers.
use link_frames::{Sender, read_frame};
use link_procedures::{FrameOutbox, Indication, Link, LinkTimers};

/// The usual values of T200 and T203: 1 and 10 seconds.
pub const USUAL: LinkTimers = LinkTimers {
    t200: 8_000,
    t203: 80_000,
};

/// Passes the octets of a frame of the user to a link in a frame of the exchange, or nothing if they are discarded.
pub fn receive(
    link: &mut Link,
    octets: &[u8],
    at: u32,
    out: &mut FrameOutbox,
) -> Option<Indication> {
    out.clear();
    let frame = read_frame(Sender::User, octets)?;
    let told = link.received(&frame, at, out);
    link.finished(at, out);
    told
}

/// Submits a message of at most 112 octets to a link in a frame of the exchange.
pub fn submit(link: &mut Link, octets: &[u8], at: u32, out: &mut FrameOutbox) {
    out.clear();
    if octets.len() <= 112 {
        link.submitted(octets, at, out);
    }
}

/// Returns whether exactly these frames were sent.
pub fn is_sent(out: &FrameOutbox, wanted: &[&[u8]]) -> bool {
    let frames = out.as_slice();
    if frames.len() != wanted.len() {
        return false;
    }
    for (frame, octets) in frames.iter().zip(wanted.iter()) {
        if frame.as_slice() != *octets {
            return false;
        }
    }
    true
}

/// Random numbers: a linear congruential generator.
#[derive(Drop)]
pub struct Random {
    state: u64,
}

impl Random {
    /// Returns the generator with this seed.
    pub fn new(seed: u64) -> Random {
        Random {
            state: seed.wrapping_mul(2_862_933_555_777_941_757),
        }
    }

    /// Returns the next octet.
    pub fn octet(&mut self) -> u8 {
        self.state = self
            .state
            .wrapping_mul(6_364_136_223_846_793_005)
            .wrapping_add(1_442_695_040_888_963_407);
        (self.state / 1_099_511_627_776 % 256) as u8
    }

    /// Returns true in `parts` of 256 cases.
    pub fn is_within(&mut self, parts: u8) -> bool {
        self.octet() < parts
    }
}

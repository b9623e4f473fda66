//! Pseudo-random draws.
ghost use Rattle.std.specs.Prelude.{◌≡◌, ◌<◌};
ghost use Rattle.traffic_gen.specs.Draws.{drawn, next_state, octets_drawn, state_after};

// The constants of Knuth's MMIX.
const MULTIPLIER: u64 = 6364136223846793005;

const INCREMENT: u64 = 1442695040888963407;

/// A linear congruential generator on 64 bits.
#[derive(Drop)]
pub struct Draws {
    state: u64,
}

impl Draws {
    pub fn from_seed(seed: u64) -> Draws
        ensures { result.state ≡ seed }
    {
        Draws { state: seed }
    }

    /// Draws a number below a bound.
    pub fn draw(&mut self, bound: u64) -> u64
        requires { 0 < bound }
        ensures state { self.new.state ≡ next_state self.old.state }
        ensures value { result ≡ drawn bound self.new.state }
        ensures below { result < bound }
    {
        self.state = self.state.wrapping_mul(MULTIPLIER).wrapping_add(INCREMENT);
        (self.state >> 33) % bound
    }

    /// Draws the octets of a line in a frame.
    pub fn octets(&mut self) -> [u8; 30]
        ensures octets { result ≡ octets_drawn 30 self.old.state }
        ensures state { self.new.state ≡ state_after 30 self.old.state }
    {
        let mut octets = [0; 30];
        for place in 0..30 {
            octets[place] = self.draw(256) as u8;
        }
        octets
    }
}

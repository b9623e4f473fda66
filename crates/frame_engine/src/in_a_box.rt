//! The engine in a box: moving it moves one word.

ghost use Rattle.circuit_model.specs.Hears.{hears};
ghost use Rattle.frame_engine.specs.Carries.{EngineCarries};

use crate::carrier::Carrier;
use crate::engine::Engine;
use control_memory::Image;
use std::alloc::{AllocError, Global};
use std::thread::Threads;
use tone_rules::Tones;

impl Carrier for Box<Engine> {
    ghost sizes = { λ b. record { external = b.value.external; bridges = b.value.bridges; slots = b.value.slots } };

    ghost next = { λ b. b.value.next };

    ghost carries = { λ b inputs held ports. EngineCarries b.value inputs held ports };

    ghost plays = { hears };

    ghost sounding = { λ b. b.value.sounding };

    ghost counted = { λ b inputs held ports carried. carried.counted };

    fn new(alloc: Global, external: u8, bridges: u8, slots: u8) -> Result<Self, AllocError> {
        let engine = Engine::new(alloc, external, bridges, slots)?;
        Ok(Box::new(alloc, engine)?)
    }

    fn sounding(&self) -> usize {
        self.as_ref().sounding()
    }

    fn frame<R: Threads + Sync>(
        &mut self,
        rt: &R,
        image: &mut Image,
        tones: &Tones,
        input: &[Option<[u8; 30]>],
        out: &mut [[u8; 30]],
    ) {
        self.as_mut().frame(rt, image, tones, input, out);
    }
}

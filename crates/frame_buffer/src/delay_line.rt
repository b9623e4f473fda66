//! A delay line of two frames for every slot of the external lines.

ghost use Rattle.std.specs.Prelude.{◌≡◌, ℕ, ◌<◌, EachIndex, slice_get, slice_index_or, List, [], ◌∷◌, ◌++◌, length, replicate, All, IfOk, vec_len};
ghost use Rattle.circuit_model.specs.FrameInput.{Input, idle_octet, octet_at, line_of};
ghost use Rattle.frame_buffer.specs.Delay.{Delay, Carries, octet_back, octet_of_row};

use circuit_model::{IDLE, Slot};
use std::alloc::{AllocError, Global};
use std::marker::Model;
use std::mem;

const IDLE_ROW: [u8; 30] = [IDLE; 30];

/// A delay line of two frames: an octet that arrives in frame f leaves in frame f+2.
///
/// In frame f call `back_two` first, and then `push` the octets that arrive in f. Two frames of storage are then
/// enough. After the push it would return the octets of frame f-1.
#[derive(Debug, Drop)]
pub struct DelayLine {
    external: u8,
    latest: Vec<[u8; 30]>,
    earlier: Vec<[u8; 30]>,
}

impl Model for DelayLine {
    ghost use Rattle.std.specs.Prelude.{◌≡◌, length};
    ghost use Rattle.frame_buffer.specs.Delay.{Delay};

    ghost Value = { Delay };

    ghost view = { λ d. record { external = d.external; latest = d.latest.items; earlier = d.earlier.items } };

    ghost invariant = { λ d. (length d.latest.items ≡ d.external) × (length d.earlier.items ≡ d.external) };
}

impl DelayLine {
    /// Returns a line for n external lines, on which nothing has arrived yet: every slot is idle.
    pub fn new(alloc: Global, external: u8) -> Result<DelayLine, AllocError>
        ensures external { IfOk result (λ d. d.external ≡ external) }
        ensures empty { IfOk result (λ d. Carries d []) }
    {
        Ok(DelayLine {
            external,
            latest: idle_rows(alloc, external)?,
            earlier: idle_rows(alloc, external)?,
        })
    }

    /// Stores the octets of one frame: for each external line its 30 octets by place, or none, which is idle.
    pub fn push(&mut self, input: &[Option<[u8; 30]>])
        requires { length input.now ≡ self.old.external }
        ensures external { self.new.external ≡ self.old.external }
        ensures carries { (inputs : List Input) → Carries self.old inputs → Carries self.new (inputs ++ input.now ∷ []) }
    {
        mem::swap(&mut self.latest, &mut self.earlier);
        take_in(&mut self.latest, input);
    }

    /// Returns the octet that arrived on a slot two frames before the next one. After f pushed frames this is the octet
    /// of frame f-2, or idle if there is no such frame.
    pub fn back_two(&self, at: Slot) -> u8
        requires line { at.line < self.now.external }
        requires place { at.place < 30 }
        ensures { (inputs : List Input) → Carries self.now inputs → result ≡ octet_back 2 inputs at }
    {
        self.earlier[usize::from(at.line)][usize::from(at.place)]
    }
}

// Returns a row of idle octets for each line.
fn idle_rows(alloc: Global, lines: u8) -> Result<Vec<[u8; 30]>, AllocError>
    ensures len { IfOk result (λ rows. vec_len rows ≡ lines) }
    ensures idle { IfOk result (λ rows. All (λ row. row ≡ replicate 30 idle_octet) rows.items) }
{
    let mut rows = Vec::with_capacity(alloc, usize::from(lines))?;
    for _ in 0..lines {
        rows.push_reserved(IDLE_ROW);
    }
    Ok(rows)
}

// Writes each line's octets over its row, or the idle octet if the line sends nothing.
fn take_in(rows: &mut [[u8; 30]], input: &[Option<[u8; 30]>])
    requires { length rows.old ≡ length input.now }
    ensures { EachIndex rows.new (λ line. (place : ℕ) → octet_of_row rows.new line place ≡ octet_at place (line_of (slice_get input.now line))) }
{
    for (line, row) in rows.iter_mut().enumerate() {
        *row = octets_sent(&input[line]);
    }
}

// Returns the octets that a line sends in a frame.
fn octets_sent(octets: &Option<[u8; 30]>) -> [u8; 30]
    ensures { (place : ℕ) → slice_index_or result place idle_octet ≡ octet_at place octets.now }
{
    match octets {
        Some(octets) => *octets,
        None => IDLE_ROW,
    }
}

//! The legs by the slots that they hold, with the keys and bounds that find them.
ghost use Rattle.std.specs.Prelude.{◌≡◌, ◌+◌, ◌*◌, ◌<◌, ◌≤◌, false, length, replicate, slice_set, slice_index_or, All, IfOk, IfSome, None, Some};
ghost use Rattle.control_memory.specs.Layout.{number_of};
ghost use Rattle.call_states.specs.Status.{FitsMessages};
ghost use Rattle.leg_table.specs.DueBounds.{NoneDue};
ghost use Rattle.leg_table.specs.LegKeys.{IsRowOf};

use crate::due_bounds::{BOUNDS, NEVER, due_from, due_from_at, lower};
use crate::leg_keys::{NO_KEY, ROW, key_of};
use call_states::Leg;
use call_timers::Timers;
use circuit_model::{CHANNELS_PER_LINE, Slot};
use std::alloc::{AllocError, Global};
use std::marker::Model;

/// The legs by the slots that they hold. Contracts see for each external slot, by its number, the leg that
/// holds it.
///
/// Each line has a row of keys, by which a message finds its leg in loops without a branch. Each place has a frame
/// before which no leg there is due. Contracts see neither, so a proof about a table of legs does not mention keys.
#[derive(Debug, Drop)]
pub(crate) struct KeyedLegs {
    lines: u8,
    legs: Vec<Option<Leg>>,
    // The key of the leg at each place of each line.
    keys: Vec<u32>,
    timers: Timers,
    // For each place, a frame before which nothing is due at the legs there. Storing a leg lowers it, and a scan of the
    // legs there raises it, so each scan is paid by a leg that was stored.
    bounds: [u32; BOUNDS],
}

impl Model for KeyedLegs {
    ghost use Rattle.std.specs.Prelude.{List, Option};
    ghost use Rattle.call_states.specs.declared.leg.Leg.{Leg};
    ghost use Rattle.leg_table.specs.KeyedLegs.{AreKeyed};

    ghost Value = { List (Option Leg) };

    ghost view = { λ t. t.legs.items };

    ghost invariant = { λ t. AreKeyed t.lines t.timers t.legs.items t.keys.items t.bounds };
}

impl KeyedLegs {
    /// Returns a table without legs on the slots of n external lines, in an exchange with these timers.
    pub(crate) fn new(alloc: Global, external: u8, timers: Timers) -> Result<KeyedLegs, AllocError>
        ensures { IfOk result (λ t. t ≡ replicate (30 * external) None) }
    {
        let lines = usize::from(external);
        Ok(KeyedLegs {
            lines: external,
            legs: vec![in alloc; None; usize::from(CHANNELS_PER_LINE) * lines]?,
            keys: vec![in alloc; NO_KEY; ROW * lines]?,
            timers,
            bounds: [NEVER; BOUNDS],
        })
    }

    /// Returns the leg that holds the slot with a number.
    pub(crate) fn get(&self, number: usize) -> Option<Leg>
        ensures found { result ≡ slice_index_or self.now number None }
        ensures inside { IfSome result (λ _. number < length self.now) }
        ensures told { IfSome result FitsMessages }
    {
        match self.legs.get(number) {
            Some(leg) => *leg,
            None => None,
        }
    }

    /// Stores a leg at a slot, instead of any other.
    #[inline(always)]
    pub(crate) fn put(&mut self, x: Slot, leg: Leg)
        requires inside { number_of x < length self.old }
        requires place { x.place < 30 }
        requires told { FitsMessages leg }
        ensures { self.new ≡ slice_set self.old (number_of x) (Some leg) }
    {
        lower(&mut self.bounds, x.place, due_from(leg, &self.timers));
        self.legs[x.to_index()] = Some(leg);
        self.keys[key_index(x)] = key_of(leg);
    }

    /// Removes the leg of a slot.
    pub(crate) fn remove(&mut self, x: Slot)
        requires inside { number_of x < length self.old }
        requires place { x.place < 30 }
        ensures { self.new ≡ slice_set self.old (number_of x) None }
    {
        self.legs[x.to_index()] = None;
        self.keys[key_index(x)] = NO_KEY;
    }

    /// Returns whether a leg at this place may be due in a frame, by these timers.
    pub(crate) fn may_be_due(&self, place: u8, frame: u32, timers: &Timers) -> bool
        requires place { place < 30 }
        ensures { result ≡ false → NoneDue timers.now self.now place frame }
    {
        if self.timers != *timers {
            return true;
        }
        self.bounds[usize::from(place)] <= frame
    }

    /// Scans the legs at a place, and records the first frame in which one of them may be due.
    pub(crate) fn update_due_frame(&mut self, place: u8)
        requires place { place < 30 }
        ensures { self.new ≡ self.old }
    {
        let first = due_from_at(&self.legs, self.lines, place, &self.timers);
        self.bounds[usize::from(place)] = first;
    }

    /// Returns the keys of a line's legs.
    pub(crate) fn row(&self, line: u8) -> &[u32]
        requires { 30 * line + 30 ≤ length self.now }
        ensures row { IsRowOf self.now line result.now }
        ensures told { All (λ leg. IfSome leg FitsMessages) self.now }
    {
        let start = ROW * usize::from(line);
        &self.keys[start..start + ROW]
    }
}

// Returns the place of a slot's key.
fn key_index(x: Slot) -> usize
    ensures { result ≡ 32 * x.line + x.place }
{
    ROW * usize::from(x.line) + usize::from(x.place)
}

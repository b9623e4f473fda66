//! The legs of all calls, by the slots that they hold.
ghost use Rattle.std.specs.Prelude.{◌≡◌, ◌≢◌, ◌+◌, ◌*◌, ◌<◌, ◌≤◌, true, false, ℕ, List, length, slice_set, slice_index_or, All, IfOk, IfSome, None, Some};
ghost use Rattle.std.specs.Option.{option_copied};
ghost use Rattle.control_memory.specs.Layout.{number_of};
ghost use Rattle.q931_codec.specs.CallStates.{overlap_sending};
ghost use Rattle.call_states.specs.Acts.{is_among};
ghost use Rattle.call_states.specs.Status.{FitsMessages};
ghost use Rattle.call_profile.specs.KeptMessages.{awaiting_answer};
ghost use Rattle.call_profile.specs.LinkChanges.{restarts_interface};
ghost use Rattle.leg_table.specs.KeptNumbers.{counting_all, keeping_all};
ghost use Rattle.leg_table.specs.DueBounds.{NoneDue};
ghost use Rattle.leg_table.specs.LegKeys.{IsRowOf};
ghost use Rattle.call_profile.specs.Legs.{no_legs, leg_at, pending_at, kept_at, with_leg, with_link, with_waiting, with_kept, without_leg, awaits_restart, is_down, is_unconfirmed, leg_named, held_at, lowest_free_reference};
ghost use Rattle.leg_table.specs.declared.notes.SlotData.TheVariants as A_datum;

use crate::keyed_legs::KeyedLegs;
use crate::leg_keys::{first_place_with, key_named, references_in};
use crate::notes::SlotData;
use call_states::{Condition, HeldLeg, Leg, Pending};
use call_timers::Timers;
use circuit_model::{CHANNELS_PER_LINE, Slot};
use exchange_events::Encoded;
use q931_codec::states::{CALL_PRESENT, OVERLAP_SENDING, RELEASE_REQUEST};
use std::alloc::{AllocError, Global};
use std::marker::Model;

/// The legs of all calls, by the slots that they hold. Contracts see for each external slot, by its number, the leg
/// that holds it, the number that is pending there, the message that is stored there, and the condition of the channel
/// since its last leg was removed. They also see for each external line whether its data link is down.
#[derive(Debug, Drop)]
pub struct LegTable {
    legs: KeyedLegs,
    // The data of each slot, whose space is reserved before the first event. It counts by the state of the slot's leg,
    // so a leg that leaves the state clears nothing.
    notes: Vec<SlotData>,
    // For each slot the condition of its channel since its last leg was removed. It counts where no leg is.
    conditions: Vec<Condition>,
    // For each line whether its data link is down.
    down: Vec<bool>,
}

impl Model for LegTable {
    ghost use Rattle.std.specs.Prelude.{◌≡◌, ◌*◌, length};
    ghost use Rattle.leg_table.specs.KeptNumbers.{legs_kept};
    ghost use Rattle.call_profile.specs.Legs.{Legs};

    ghost Value = { Legs };

    ghost view = { λ t. legs_kept t.legs t.notes.items t.conditions.items t.down.items };

    ghost invariant = { λ t. (length t.notes.items ≡ length t.legs) × (length t.conditions.items ≡ length t.legs) × (30 * length t.down.items ≡ length t.legs) };
}

impl LegTable {
    /// Returns a table without legs on the slots of n external lines, in an exchange with these timers.
    pub fn new(alloc: Global, external: u8, timers: Timers) -> Result<LegTable, AllocError>
        ensures { IfOk result (λ t. t ≡ no_legs external) }
    {
        let slots = usize::from(CHANNELS_PER_LINE) * usize::from(external);
        Ok(LegTable {
            down: vec![in alloc; false; usize::from(external)]?,
            conditions: vec![in alloc; Condition::Idle; slots]?,
            legs: KeyedLegs::new(alloc, external, timers)?,
            notes: vec![in alloc; SlotData::Number(Pending::default()); slots]?,
        })
    }

    /// Returns the leg that holds a slot.
    pub fn get(&self, x: Slot) -> Option<Leg>
        ensures found { result ≡ leg_at self.now x }
        ensures inside { IfSome result (λ _. number_of x < length self.now.held) }
        ensures told { IfSome result FitsMessages }
    {
        self.legs.get(x.to_index())
    }

    /// Returns the number that is pending at a slot.
    pub fn pending(&self, x: Slot) -> Option<&Pending>
        ensures { option_copied result ≡ pending_at self.now x }
    {
        number_at(&self.legs, &self.notes, x.to_index())
    }

    /// Returns the message that is stored at a slot for retransmission.
    pub fn kept_message(&self, x: Slot) -> Option<&Encoded>
        ensures { option_copied result ≡ kept_at self.now x }
    {
        message_at(&self.legs, &self.notes, x.to_index())
    }

    /// Returns whether the data link of a line is down.
    pub fn is_down(&self, line: u8) -> bool
        ensures { result ≡ is_down self.now line }
    {
        match self.down.get(usize::from(line)) {
            Some(down) => *down,
            None => false,
        }
    }

    /// Stores whether the data link of a line is down.
    pub fn set_link(&mut self, line: u8, down: bool)
        requires line { 30 * line + 30 ≤ length self.old.held }
        ensures { self.new ≡ with_link self.old line down }
    {
        self.down[usize::from(line)] = down;
    }

    /// Stores a leg at a slot, instead of any other. No number is pending there then, and no message stored.
    pub fn put(&mut self, x: Slot, leg: Leg)
        requires inside { number_of x < length self.old.held }
        requires place { x.place < 30 }
        requires told { FitsMessages leg }
        requires state { leg.state ≢ overlap_sending }
        requires unanswered { is_among awaiting_answer leg.state ≡ false }
        ensures { self.new ≡ with_leg self.old x leg }
    {
        self.legs.put(x, leg);
    }

    /// Stores a leg at a slot, instead of any other, which waits there with its number.
    pub fn put_pending(&mut self, x: Slot, leg: Leg, pending: Pending)
        requires inside { number_of x < length self.old.held }
        requires place { x.place < 30 }
        requires told { FitsMessages leg }
        requires state { leg.state ≡ overlap_sending }
        ensures { self.new ≡ with_waiting self.old x leg pending }
    {
        keep(&mut self.notes, x, SlotData::Number(pending));
        self.legs.put(x, leg);
    }

    /// Stores a leg at a slot, instead of any other, with the message whose reply it waits for.
    pub fn put_awaiting(&mut self, x: Slot, leg: Leg, message: &Encoded)
        requires inside { number_of x < length self.old.held }
        requires place { x.place < 30 }
        requires told { FitsMessages leg }
        requires state { is_among awaiting_answer leg.state ≡ true }
        ensures { self.new ≡ with_kept self.old x leg message.now }
    {
        keep_message(&mut self.notes, x, message);
        self.legs.put(x, leg);
    }

    /// Stores a leg at a slot, instead of any other, which still waits for the reply to the message that is stored
    /// there.
    pub fn restart_wait(&mut self, x: Slot, leg: Leg)
        requires inside { number_of x < length self.old.held }
        requires place { x.place < 30 }
        requires told { FitsMessages leg }
        requires state { is_among awaiting_answer leg.state ≡ true }
        ensures { (octets : List ℕ) → kept_at self.old x ≡ Some octets → self.new ≡ with_kept self.old x leg octets }
    {
        self.legs.put(x, leg);
    }

    /// Removes the leg of a slot, if there is one. No number is pending there then, and no message stored. Stores the
    /// condition of its channel.
    pub fn remove(&mut self, x: Slot, condition: Condition)
        requires inside { number_of x < length self.old.held }
        requires place { x.place < 30 }
        ensures { self.new ≡ without_leg self.old x condition }
    {
        self.legs.remove(x);
        self.conditions[x.to_index()] = condition;
    }

    /// Returns whether the establishment of the data link sends RESTART for a slot: no leg holds it, and its user is owed
    /// one, or has not confirmed that it is idle.
    pub fn awaits_restart(&self, x: Slot) -> bool
        ensures { result ≡ awaits_restart self.now x }
    {
        match self.conditions.get(x.to_index()) {
            None | Some(Condition::Idle) => false,
            Some(Condition::Unconfirmed | Condition::Owed) => {
                self.legs.get(x.to_index()).is_none()
            }
        }
    }

    /// Returns whether no leg holds a slot, and its user has not confirmed that it is idle.
    pub fn is_unconfirmed(&self, x: Slot) -> bool
        ensures { result ≡ is_unconfirmed self.now x }
    {
        match self.conditions.get(x.to_index()) {
            Some(Condition::Unconfirmed) => self.legs.get(x.to_index()).is_none(),
            None | Some(Condition::Idle | Condition::Owed) => false,
        }
    }

    /// Returns whether the whole interface of a line is to be restarted when its data link comes up: no leg holds a slot
    /// of the line, and one of them awaits RESTART.
    pub fn restarts_interface(&self, line: u8) -> bool
        ensures { result ≡ restarts_interface self.now line }
    {
        let mut awaited = false;
        let mut held = false;
        for place in 0..CHANNELS_PER_LINE {
            let x = Slot { line, place };
            awaited |= self.awaits_restart(x);
            held |= self.get(x).is_some();
        }
        awaited && !held
    }

    /// Returns whether a leg at this place may be due in a frame, by these timers.
    pub fn may_be_due(&self, place: u8, frame: u32, timers: &Timers) -> bool
        requires place { place < 30 }
        ensures { result ≡ false → NoneDue timers.now self.now.held place frame }
    {
        self.legs.may_be_due(place, frame, timers)
    }

    /// Scans the legs at a place, and records the first frame in which one of them may be due. Before it no leg is
    /// examined.
    pub fn update_due_frame(&mut self, place: u8)
        requires place { place < 30 }
        ensures { self.new ≡ self.old }
    {
        self.legs.update_due_frame(place);
    }

    /// Returns the leg of a line that a message with this flag and call reference value is for.
    #[inline(always)]
    pub fn find(&self, line: u8, flag: bool, reference: u16) -> Option<HeldLeg>
        requires line { 30 * line + 30 ≤ length self.now.held }
        ensures { result ≡ leg_named self.now line flag reference }
    {
        let place = first_place_with(self.row(line), key_named(flag, reference))?;
        self.held(Slot { line, place })
    }

    // Returns the leg that holds a slot, with the slot.
    fn held(&self, slot: Slot) -> Option<HeldLeg>
        ensures { result ≡ held_at self.now slot }
    {
        let leg = self.get(slot)?;
        Some(HeldLeg { slot, leg })
    }

    /// Returns the call reference value of a new called leg of a line: the lowest from 1 up that none of the line's
    /// called legs has. It finds the values in use from the keys, once a call. A stored list would need a search for
    /// another leg with the same value whenever a leg goes.
    pub fn lowest_free_reference(&self, line: u8) -> u16
        requires line { 30 * line + 30 ≤ length self.now.held }
        ensures reference { result ≡ lowest_free_reference self.now line }
        ensures few { result ≤ 31 }
    {
        let used = references_in(self.row(line));
        // No call has the value 0. If the first 30 are used, the result is the next.
        (!(used | 1) | 1 << 31).trailing_zeros() as u16
    }

    // Returns the keys of a line's legs.
    fn row(&self, line: u8) -> &[u32]
        requires { 30 * line + 30 ≤ length self.now.held }
        ensures row { IsRowOf self.now.held line result.now }
        ensures told { All (λ leg. IfSome leg FitsMessages) self.now.held }
    {
        self.legs.row(line)
    }
}

// Returns the number that is pending at the slot with this number. Its data counts in overlap sending only.
fn number_at<'a>(legs: &KeyedLegs, notes: &'a [SlotData], number: usize) -> Option<&'a Pending>
    requires { length notes.now ≡ length legs.now }
    ensures { option_copied result ≡ slice_index_or (counting_all legs.now notes.now) number None }
{
    let leg = legs.get(number)?;
    if leg.state != OVERLAP_SENDING {
        return None;
    }
    match &notes[number] {
        SlotData::Number(pending) => Some(pending),
        SlotData::Message(_) => None,
    }
}

// Returns the message that is stored at the slot with this number. It counts if the leg waits for the reply to it.
fn message_at<'a>(legs: &KeyedLegs, notes: &'a [SlotData], number: usize) -> Option<&'a Encoded>
    requires { length notes.now ≡ length legs.now }
    ensures { option_copied result ≡ slice_index_or (keeping_all legs.now notes.now) number None }
{
    let leg = legs.get(number)?;
    if !awaits_answer(leg.state) {
        return None;
    }
    match &notes[number] {
        SlotData::Message(octets) => Some(octets),
        SlotData::Number(_) => None,
    }
}

// Returns whether a leg in this state waits for the reply to a stored message.
fn awaits_answer(state: u8) -> bool
    ensures { result ≡ is_among awaiting_answer state }
{
    matches!(state, CALL_PRESENT | RELEASE_REQUEST)
}

// Stores the data of a slot.
fn keep(notes: &mut Vec<SlotData>, x: Slot, note: SlotData)
    requires { number_of x < length notes.old.items }
    ensures items { notes.new.items ≡ slice_set notes.old.items (number_of x) note }
    ensures count { length notes.new.items ≡ length notes.old.items }
{
    notes[x.to_index()] = note;
}

// Stores a message at a slot. It overwrites an earlier message, because a new one would move the capacity of the
// longest message.
fn keep_message(notes: &mut Vec<SlotData>, x: Slot, message: &Encoded)
    requires { number_of x < length notes.old.items }
    ensures items { notes.new.items ≡ slice_set notes.old.items (number_of x) (A_datum.Message message.now) }
    ensures count { length notes.new.items ≡ length notes.old.items }
{
    match &mut notes[x.to_index()] {
        SlotData::Message(kept) => kept.copy_from(message),
        other => *other = SlotData::Message(message.copied()),
    }
}

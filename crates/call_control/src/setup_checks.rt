//! The checks of a SETUP: its elements, the slots of its call, and the cause of a refusal.
ghost use Rattle.std.specs.Prelude.{◌≡◌, ◌<◌, true, false, Some, None, Ok, is_some, IfSome, IfOk, IfErr, OnOk};
ghost use Rattle.call_profile.specs.Legs.{is_down};
ghost use Rattle.call_profile.specs.Setup.{digits_in, lacks_number, slot_of, slot_asked, element_checks, is_cut_off, number_checks, first_cause, caller_slot, is_taken, is_unknown, slot_checks, refusal, target_of};
ghost use Rattle.q931_codec.specs.Contents.{called_received, channel_in, complete_in};
ghost use Rattle.circuit_model.specs.Extent.{IsExternal};
ghost use Rattle.call_control.specs.Choices.{IsReached, IsWithin, at_slot, called_side, idle_beside};
ghost use Rattle.call_profile.specs.IdleSlots.{lowest_idle, lowest_idle_beside, lowest_called, hunted};
ghost use Rattle.exchange_events.specs.Sizes.{Setting, Dimensions};
ghost use Rattle.exchange_events.specs.Sound.{line_exists};
ghost use Rattle.std.specs.List.{list_all};
ghost use Rattle.call_control.specs.Standing.{Holds};
ghost use Rattle.call_profile.specs.World.{World};

use crate::operations::CallControl;
use crate::preparsing::DialledNumber;
use circuit_model::{CHANNELS_PER_LINE, Slot, slot_of_channel};
use control_memory::PathMap;
use number_plan::Found;
use q931_codec::causes::{
    BEARER_CAPABILITY_NOT_IMPLEMENTED, DESTINATION_OUT_OF_ORDER, INVALID_ELEMENT_CONTENTS,
    INVALID_NUMBER_FORMAT, MANDATORY_ELEMENT_MISSING, NO_CHANNEL_AVAILABLE,
    REQUESTED_CHANNEL_NOT_AVAILABLE, SWITCHING_EQUIPMENT_CONGESTION, UNALLOCATED_NUMBER,
};
use q931_codec::{BearerCapability, ChannelIdentification, Message, is_called_number};

/// The called side of a call that passes its checks.
#[derive(Clone, Copy)]
pub(crate) enum CalledSide {
    /// An idle slot of the called line.
    Line(Slot),
    /// A conference room that has a free port.
    Room(u8),
    /// The number needs further digits.
    More,
}

/// The slots of a call whose SETUP passes its checks.
#[derive(Clone, Copy)]
pub(crate) struct Admitted {
    /// The caller's slot.
    pub slot: Slot,
    /// The called side.
    pub called: CalledSide,
}

impl<P: PathMap> CallControl<P> {
    /// Returns the lowest idle slot of a line.
    fn lowest_idle(&self, line: u8) -> Option<Slot>
        requires external { line < self.now.map.external }
        ensures slot { (d : Dimensions) (w : World) → Holds d self.now.map self.now.legs w → result ≡ lowest_idle w line }
        ensures external { IfSome result (IsExternal self.now.map.external) }
    {
        for place in 0..CHANNELS_PER_LINE {
            let slot = Slot { line, place };
            if self.is_idle(slot) {
                return Some(slot);
            }
        }
        None
    }

    /// Returns the lowest idle slot of a line, other than this slot.
    pub(crate) fn lowest_idle_beside(&self, beside: Slot, line: u8) -> Option<Slot>
        requires external { line < self.now.map.external }
        ensures slot { (d : Dimensions) (w : World) → Holds d self.now.map self.now.legs w → result ≡ lowest_idle_beside w beside line }
        ensures external { IfSome result (IsExternal self.now.map.external) }
    {
        for place in 0..CHANNELS_PER_LINE {
            let slot = Slot { line, place };
            if self.idle_beside(beside, slot) {
                return Some(slot);
            }
        }
        None
    }

    // Returns the lowest idle slot of a called line, other than this slot. Returns `None` if its data link is down.
    fn lowest_called(&self, beside: Slot, line: u8) -> Option<Slot>
        requires external { line < self.now.map.external }
        ensures slot { (d : Dimensions) (w : World) → Holds d self.now.map self.now.legs w → result ≡ lowest_called w beside line }
        ensures external { IfSome result (IsExternal self.now.map.external) }
    {
        if self.legs.is_down(line) {
            return None;
        }
        self.lowest_idle_beside(beside, line)
    }

    // Returns whether the data link of each of these lines is down.
    fn are_down(&self, lines: &[u8]) -> bool
        requires lines { list_all (line_exists self.now.map.external) lines.now ≡ true }
        ensures { result ≡ list_all (is_down self.now.legs) lines.now }
    {
        let mut all = true;
        for tried in lines {
            all &= self.legs.is_down(*tried);
        }
        all
    }

    // Returns whether the data link of each called line is down.
    fn is_cut_off(&self, target: &Found) -> bool
        requires reached { IsReached self.now.map.external target.now }
        ensures { (d : Dimensions) (w : World) → Holds d self.now.map self.now.legs w → result ≡ is_cut_off w target.now }
    {
        match target {
            Found::Line(line) => self.legs.is_down(*line),
            Found::Lines(lines) => self.are_down(lines.as_slice()),
            Found::Room(_) | Found::More | Found::Nothing => false,
        }
    }

    // Returns the lowest idle slot, other than this slot, of the first of these lines that has one. A line whose data link
    // is down has none.
    fn hunted(&self, beside: Slot, lines: &[u8]) -> Option<Slot>
        requires lines { list_all (line_exists self.now.map.external) lines.now ≡ true }
        ensures slot { (d : Dimensions) (w : World) → Holds d self.now.map self.now.legs w → result ≡ hunted w beside lines.now }
        ensures external { IfSome result (IsExternal self.now.map.external) }
    {
        for line in lines {
            let slot = self.lowest_called(beside, *line);
            if slot.is_some() {
                return slot;
            }
        }
        None
    }

    // Returns whether a slot is idle and is not this one.
    fn idle_beside(&self, beside: Slot, slot: Slot) -> bool
        requires external { IsExternal self.now.map.external slot }
        ensures { (d : Dimensions) (w : World) → Holds d self.now.map self.now.legs w → result ≡ idle_beside w beside slot }
    {
        self.is_idle(slot) && slot != beside
    }

    /// Returns the caller's slot: the requested one if it is idle, otherwise the lowest idle slot of the line. An
    /// exclusive channel needs no case, because the check for it comes first.
    pub(crate) fn caller_slot(
        &self,
        line: u8,
        channel: Option<ChannelIdentification>,
    ) -> Option<Slot>
        requires external { line < self.now.map.external }
        ensures slot { (d : Dimensions) (w : World) → Holds d self.now.map self.now.legs w → result ≡ caller_slot w line channel }
        ensures external { IfSome result (IsExternal self.now.map.external) }
    {
        match slot_asked(line, channel) {
            Some(slot) if self.is_idle(slot) => Some(slot),
            _ => self.lowest_idle(line),
        }
    }

    // Returns whether the slot of the one requested channel is not idle.
    fn is_taken(&self, line: u8, channel: Option<ChannelIdentification>) -> bool
        requires external { line < self.now.map.external }
        ensures { (d : Dimensions) (w : World) → Holds d self.now.map self.now.legs w → result ≡ is_taken w line channel }
    {
        let Some(ChannelIdentification::Exclusive(_)) = channel else {
            return false;
        };
        match slot_asked(line, channel) {
            Some(slot) => !self.is_idle(slot),
            None => true,
        }
    }

    // Returns the slots of a call, by the requested channel and the target of the number, or the cause of the first
    // check of slots and ports that fails.
    fn slots_for(
        &self,
        line: u8,
        channel: Option<ChannelIdentification>,
        target: &Found,
    ) -> Result<Admitted, u8>
        requires external { line < self.now.map.external }
        requires reached { IsReached self.now.map.external target.now }
        requires known { is_unknown target.now ≡ false }
        ensures refused { (d : Dimensions) (w : World) → Holds d self.now.map self.now.legs w
            → IfErr result (λ cause. first_cause (slot_checks d w line channel target.now) ≡ Some cause) }
        ensures passed { (d : Dimensions) (w : World) → Holds d self.now.map self.now.legs w
            → OnOk result (first_cause (slot_checks d w line channel target.now) ≡ None) }
        ensures caller { (d : Dimensions) (w : World) → Holds d self.now.map self.now.legs w
            → IfOk result (λ a. caller_slot w line channel ≡ Some a.slot) }
        ensures called { (d : Dimensions) (w : World) → Holds d self.now.map self.now.legs w
            → IfOk result (λ a. called_side d w a.slot target.now ≡ Ok a.called) }
        ensures within { IfOk result (λ a. IsExternal self.now.map.external a.slot × IsWithin self.now.map.external a.called) }
    {
        if self.is_taken(line, channel) {
            return Err(REQUESTED_CHANNEL_NOT_AVAILABLE);
        }
        let Some(slot) = self.caller_slot(line, channel) else {
            return Err(NO_CHANNEL_AVAILABLE);
        };
        match self.called_side(slot, target) {
            Ok(called) => Ok(Admitted { slot, called }),
            Err(cause) => Err(cause),
        }
    }

    /// Returns the called side for a caller at a slot, by the target of its number. Returns a cause if the data link of
    /// each called line is down, if no called line has another idle slot, or if no conference port is free.
    pub(crate) fn called_side(&self, caller: Slot, target: &Found) -> Result<CalledSide, u8>
        requires reached { IsReached self.now.map.external target.now }
        ensures side { (d : Dimensions) (w : World) → Holds d self.now.map self.now.legs w → result ≡ called_side d w caller target.now }
        ensures within { IfOk result (IsWithin self.now.map.external) }
    {
        if self.is_cut_off(target) {
            return Err(DESTINATION_OUT_OF_ORDER);
        }
        match target {
            Found::Line(line) => at_slot(self.lowest_called(caller, *line)),
            Found::Lines(lines) => at_slot(self.hunted(caller, lines.as_slice())),
            Found::Room(_) if self.map.is_full() => Err(SWITCHING_EQUIPMENT_CONGESTION),
            Found::Room(room) => Ok(CalledSide::Room(*room)),
            Found::More => Ok(CalledSide::More),
            Found::Nothing => Err(UNALLOCATED_NUMBER),
        }
    }

    /// Returns the slots of the call that a SETUP with this number requests, or the cause of the first check that
    /// fails.
    pub(crate) fn admit(
        &self,
        line: u8,
        message: &Message,
        number: &DialledNumber,
    ) -> Result<Admitted, u8>
        requires external { line < self.now.map.external }
        requires readable { number.now.is_readable ≡ is_some (digits_in message.now) }
        requires reached { IsReached self.now.map.external number.now.target }
        ensures refused { (s : Setting) (w : World) → target_of s message.now ≡ number.now.target → Holds s.dimensions self.now.map self.now.legs w
            → IfErr result (λ cause. refusal s w line message.now ≡ Some cause) }
        ensures passed { (s : Setting) (w : World) → target_of s message.now ≡ number.now.target → Holds s.dimensions self.now.map self.now.legs w
            → OnOk result (refusal s w line message.now ≡ None) }
        ensures caller { (d : Dimensions) (w : World) → Holds d self.now.map self.now.legs w
            → IfOk result (λ a. caller_slot w line (channel_in message.now.elements) ≡ Some a.slot) }
        ensures called { (d : Dimensions) (w : World) → Holds d self.now.map self.now.legs w
            → IfOk result (λ a. called_side d w a.slot number.now.target ≡ Ok a.called) }
        ensures within { IfOk result (λ a. IsExternal self.now.map.external a.slot × IsWithin self.now.map.external a.called) }
    {
        let channel = message.channel();
        if let Some(cause) = element_cause(message, channel, number.is_readable) {
            return Err(cause);
        }
        if let Some(cause) = number_cause(&number.target, message) {
            return Err(cause);
        }
        self.slots_for(line, channel, &number.target)
    }
}

// Returns the called side at the slot that was found, or the cause if there is none.
fn at_slot(slot: Option<Slot>) -> Result<CalledSide, u8>
    ensures { result ≡ at_slot slot }
{
    match slot {
        Some(slot) => Ok(CalledSide::Line(slot)),
        None => Err(NO_CHANNEL_AVAILABLE),
    }
}

// Returns the slot that a channel identification of a line refers to.
fn slot_asked(line: u8, channel: Option<ChannelIdentification>) -> Option<Slot>
    ensures slot { result ≡ slot_asked line channel }
    ensures line { IfSome result (λ x. x.line ≡ line) }
    ensures place { IfSome result (λ x. x.place < 30) }
{
    match channel? {
        ChannelIdentification::Preferred(channel) => slot_of(line, channel),
        ChannelIdentification::Exclusive(channel) => slot_of(line, channel),
        ChannelIdentification::Any | ChannelIdentification::Invalid => None,
    }
}

// Returns the slot of a bearer channel of a line.
fn slot_of(line: u8, channel: u8) -> Option<Slot>
    ensures slot { result ≡ slot_of line channel }
    ensures line { IfSome result (λ x. x.line ≡ line) }
    ensures place { IfSome result (λ x. x.place < 30) }
{
    let place = slot_of_channel(channel)?;
    Some(Slot { line, place })
}

// Returns the cause of the first check that the elements of a SETUP fail. `is_readable` states whether the dialled
// number has only digits.
fn element_cause(
    message: &Message,
    channel: Option<ChannelIdentification>,
    is_readable: bool,
) -> Option<u8>
    requires channel { channel ≡ channel_in message.now.elements }
    requires readable { is_readable ≡ is_some (digits_in message.now) }
    ensures { result ≡ first_cause (element_checks message.now) }
{
    let Some(bearer) = message.bearer() else {
        return Some(MANDATORY_ELEMENT_MISSING);
    };
    match BearerCapability::from_contents(bearer) {
        BearerCapability::Invalid => return Some(INVALID_ELEMENT_CONTENTS),
        BearerCapability::NotCarried => return Some(BEARER_CAPABILITY_NOT_IMPLEMENTED),
        BearerCapability::Carried => {}
    }
    if channel == Some(ChannelIdentification::Invalid) {
        return Some(INVALID_ELEMENT_CONTENTS);
    }
    if lacks_number(message) || !is_readable {
        return Some(INVALID_NUMBER_FORMAT);
    }
    None
}

// Returns whether a SETUP has an invalid called party number, or none although it is complete.
fn lacks_number(message: &Message) -> bool
    ensures { result ≡ lacks_number (called_received message.now.elements) (complete_in message.now.elements) }
{
    match message.called_contents() {
        Some(contents) => !is_called_number(contents),
        None => message.is_sending_complete(),
    }
}

/// Returns the cause of the first check of its number that a message fails, for this target of the number.
pub(crate) fn number_cause(target: &Found, message: &Message) -> Option<u8>
    ensures { result ≡ first_cause (number_checks target.now (complete_in message.now.elements)) }
{
    match target {
        Found::Nothing => Some(UNALLOCATED_NUMBER),
        Found::More if message.is_sending_complete() => Some(INVALID_NUMBER_FORMAT),
        Found::More | Found::Line(_) | Found::Lines(_) | Found::Room(_) => None,
    }
}

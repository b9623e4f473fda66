//! Further digits of a number in overlap sending.
ghost use Rattle.std.specs.Prelude.{◌≡◌, ◌≤◌, ◌+◌, ◌++◌, [], None, Some, Ok, IfSome, IfOk, IfErr, OnOk, is_none, length};
ghost use Rattle.circuit_map.specs.Connections.{SameSizes};
ghost use Rattle.circuit_model.specs.Extent.{IsExternal};
ghost use Rattle.q931_codec.specs.CallStates.{overlap_sending};
ghost use Rattle.q931_codec.specs.Contents.{called_received};
ghost use Rattle.call_states.specs.Pending.{FitsElements};
ghost use Rattle.exchange_events.specs.Sizes.{Setting, Dimensions};
ghost use Rattle.call_profile.specs.Digits.{octets_added, adds_wrongly, asked_with, on_digits};
ghost use Rattle.call_profile.specs.Legs.{leg_at};
ghost use Rattle.call_profile.specs.Operations.{making_at, making_after_all};
ghost use Rattle.call_profile.specs.Setup.{first_cause};
ghost use Rattle.call_profile.specs.World.{World};
ghost use Rattle.call_control.specs.AtWork.{IsAtWork, EachAtWork};
ghost use Rattle.call_control.specs.Choices.{IsReached, IsWithin, called_side, dialled_checks};
ghost use Rattle.call_control.specs.Standing.{Holds, HasMade};

use crate::asked::asked_in;
use crate::new_call::Caller;
use crate::operations::CallControl;
use crate::preparsing::{DialledNumber, look_up};
use crate::setup_checks::{CalledSide, number_cause};
use call_states::{Contents, HeldLeg, Pending};
use circuit_model::Slot;
use control_memory::PathMap;
use exchange_events::Outbox;
use number_plan::Plan;
use q931_codec::Message;
use q931_codec::causes::INVALID_NUMBER_FORMAT;
use tone_rules::Tones;

/// The maximum number of octets in a called party number.
pub(crate) const MAX_CALLED: usize = 21;

impl<P: PathMap> CallControl<P> {
    /// Adds further digits to the number of a caller in overlap sending. Its leg waits for more, or its call is
    /// accepted. If a check fails, the leg is cleared with the cause of that check.
    pub(crate) fn on_digits(
        &mut self,
        out: &mut Outbox,
        plan: &Plan,
        tones: &Tones,
        held: &HeldLeg,
        message: &Message,
    )
        requires work { (s : Setting) × (w : World) × (s.plan ≡ plan.now) × (s.tones ≡ tones.now) × IsAtWork s self.old.map self.old.legs w }
        requires external { IsExternal self.old.map.external held.now.slot }
        requires held { leg_at self.old.legs held.now.slot ≡ Some held.now.leg }
        requires waits { held.now.leg.state ≡ overlap_sending }
        requires fresh { (out.old.sends ≡ []) × (out.old.moved ≡ None) }
        ensures makes { EachAtWork plan.now tones.now self.old.map self.old.legs (λ s w.
            HasMade s self.new.map self.new.legs out.new (making_after_all s.dimensions (making_at w) (on_digits s w held.now message.now))) }
        ensures few { IfSome out.new.moved (λ moves. (moves.0 ≤ self.old.map.bound) × (moves.1 ≤ self.old.map.bound)) }
        ensures sizes { SameSizes self.old.map self.new.map }
    {
        let Some(number) = self.legs.pending(held.slot) else {
            return;
        };
        let Some(number) = dialled_on(number, message) else {
            self.clear_leg(out, tones, held, INVALID_NUMBER_FORMAT);
            return;
        };
        let dialled = look_up(plan, number.called.as_slice());
        match self.called_by_digits(held.slot, message, &dialled) {
            Err(cause) => self.clear_leg(out, tones, held, cause),
            Ok(called) => {
                let caller = Caller {
                    slot: held.slot,
                    reference: held.leg.reference,
                    first: false,
                };
                self.accept(out, caller, &asked_in(&number), called);
            }
        }
    }

    // Returns the called side of a number in overlap sending, or the cause of the first check that fails. The called
    // slot is another one than the caller's, as for a SETUP. The caller's slot is not idle, so this is the lowest idle
    // slot of the line, and one rule serves both.
    fn called_by_digits(
        &self,
        x: Slot,
        message: &Message,
        dialled: &DialledNumber,
    ) -> Result<CalledSide, u8>
        requires reached { IsReached self.now.map.external dialled.now.target }
        ensures refused { (d : Dimensions) (w : World) → Holds d self.now.map self.now.legs w
            → IfErr result (λ cause. first_cause (dialled_checks d w x message.now dialled.now.is_readable dialled.now.target) ≡ Some cause) }
        ensures passed { (d : Dimensions) (w : World) → Holds d self.now.map self.now.legs w
            → OnOk result (first_cause (dialled_checks d w x message.now dialled.now.is_readable dialled.now.target) ≡ None) }
        ensures called { (d : Dimensions) (w : World) → Holds d self.now.map self.now.legs w
            → IfOk result (λ called. called_side d w x dialled.now.target ≡ Ok called) }
        ensures within { IfOk result (IsWithin self.now.map.external) }
    {
        if !dialled.is_readable {
            return Err(INVALID_NUMBER_FORMAT);
        }
        if let Some(cause) = number_cause(&dialled.target, message) {
            return Err(cause);
        }
        self.called_side(x, &dialled.target)
    }
}

// Returns the pending number with the digits of a message. Returns `None` if the message has no called party number, or
// if there would be too many digits.
fn dialled_on(number: &Pending, message: &Message) -> Option<Pending>
    requires { FitsElements number.now }
    ensures none { is_none result ≡ adds_wrongly number.now.called message.now }
    ensures added { IfSome result (λ p. p ≡ asked_with number.now message.now) }
    ensures few { IfSome result (λ p. length p.called ≤ 21) }
{
    if matches!(message.called_contents(), Some([])) {
        return None;
    }
    let called = number.called.as_slice();
    let more = octets_added(called, message);
    if called.len() + more.len() > MAX_CALLED {
        return None;
    }
    Some(Pending {
        bearer: Contents::of(number.bearer.as_slice()),
        calling: Contents::of(number.calling.as_slice()),
        called: joined(called, more),
        low: Contents::of(number.low.as_slice()),
        high: Contents::of(number.high.as_slice()),
    })
}

// Returns the octets that a message adds to a called party number.
fn octets_added<'a>(called: &[u8], message: &Message<'a>) -> &'a [u8]
    ensures { result.now ≡ octets_added called.now (called_received message.now.elements) }
{
    match (message.called_contents(), called) {
        (None, _) => &[],
        (Some(contents), []) => contents,
        (Some([_, digits @ ..]), _) => digits,
        (Some([]), _) => &[],
    }
}

// Returns the octets of both lists, in this order.
fn joined(first: &[u8], second: &[u8]) -> Contents<MAX_CALLED>
    requires { length first.now + length second.now ≤ 21 }
    ensures { result ≡ first.now ++ second.now }
{
    let mut contents = Contents::of(first);
    contents.extend_from_slice(second);
    contents
}

//! Theorems on calls.
ghost use Rattle.std.specs.Prelude.{◌≡◌, ◌≢◌, ◌↔◌, [], ◌∷◌, ℕ, Bool, List, All, None, Some, is_some};
ghost use Rattle.circuit_model.specs.declared.channel.Slot.{Slot};
ghost use Rattle.q931_codec.specs.Outgoing.{encoding};
ghost use Rattle.q931_codec.specs.Causes.{no_channel_available, switching_equipment_congestion};
ghost use Rattle.call_states.specs.Acts.{act_on};
ghost use Rattle.call_states.specs.declared.act.Act.TheVariants as act;
ghost use Rattle.call_states.specs.declared.leg.Leg.{Leg};
ghost use Rattle.call_profile.specs.Digits.{called_with, digits_refusal, WantsSlot, WantsPort};
ghost use Rattle.call_profile.specs.IdleSlots.{lowest_idle, lowest_idle_beside, hunted};
ghost use Rattle.call_profile.specs.Hunting.{IsFull, IsFirstIdle, IsIdleOnOne};
ghost use Rattle.call_profile.specs.Setup.{accept, called_checks};
ghost use Rattle.number_plan.specs.declared.target.Found.TheVariants as found;
ghost use Rattle.call_states.specs.declared.pending.Pending.{Pending};
ghost use Rattle.exchange_events.specs.Sizes.{Dimensions};
ghost use Rattle.call_profile.specs.Legs.{leg_at};
ghost use Rattle.control_memory.specs.Layout.{Layout};
ghost use Rattle.call_profile.specs.Answered.{IsAnswered, GetsBothPaths, with_layout};
ghost use Rattle.call_profile.specs.Calls.{For_leg, after_message, answer_to, outcome_for};
ghost use Rattle.q931_codec.specs.declared.message.Message.{Message};
ghost use Rattle.exchange_events.specs.declared.trace.Event.{Event};
ghost use Rattle.exchange_events.specs.declared.trace.Event.TheVariants as event;
ghost use Rattle.circuit_model.specs.FrameInput.{Input};
ghost use Rattle.call_laws.specs.ExpiryBounds.{SendsFew, RecordsFew, NoneElseChanges, NoneIsLost, UntimedStay, ConversationsStay, LayoutStays, PortsStay, EachStaysOrBegins};
ghost use Rattle.call_profile.specs.Expiring.{outcome_of_frame};
ghost use Rattle.call_laws.specs.Fabrics.{without_paths};
ghost use Rattle.call_profile.specs.IsMade.{IsMade};
ghost use Rattle.call_profile.specs.KeptMessages.{EachBegan, EachIsKept, NoneElseIsKept};
ghost use Rattle.call_profile.specs.LegStanding.{CallsStand};
ghost use Rattle.call_states.specs.declared.leg.HeldLeg.{HeldLeg};
ghost use Rattle.exchange_events.specs.Sizes.{Setting};
ghost use Rattle.exchange_events.specs.Sound.{Fits, IsPlanned};
ghost use Rattle.call_profile.specs.Refused.{IsRefused, refusal_reply};
ghost use Rattle.call_profile.specs.ReleaseTones.{release_with, EachReleaseSounds};
ghost use Rattle.call_profile.specs.Step.{reply, next, world_after_all};
ghost use Rattle.call_profile.specs.Waiting.{EachWaits, NoneElsePends};
ghost use Rattle.call_profile.specs.World.{World, start};

/// The only reply to a refused SETUP is RELEASE COMPLETE with the cause of its refusal, on its call reference. It
/// changes no slot, no leg and no path.
pub fn law_of_refused_calls()
    ensures answer { (s : Setting) (w : World) (line : ℕ) (octets : List ℕ) (setup : Message) (cause : ℕ) → IsRefused s w line octets setup cause
        → reply s w (event.Message line octets) ≡ refusal_reply line setup cause }
    ensures world { (s : Setting) (w : World) (line : ℕ) (octets : List ℕ) (setup : Message) (cause : ℕ) → IsRefused s w line octets setup cause
        → after_message s w line octets ≡ w }
{}

/// The layout of the paths decides only how many paths move. In another layout, a message and a frame send
/// and record the same and leave the same circuits, ports and legs. A message has a number of moved paths in
/// both layouts or in neither.
pub fn law_of_paths()
    ensures sends { (s : Setting) (w : World) (layout : Layout) (line : ℕ) (octets : List ℕ)
        → (answer_to s (with_layout w layout) line octets).sends ≡ (answer_to s w line octets).sends }
    ensures records { (s : Setting) (w : World) (layout : Layout) (line : ℕ) (octets : List ℕ)
        → (answer_to s (with_layout w layout) line octets).records ≡ (answer_to s w line octets).records }
    ensures circuits { (s : Setting) (w : World) (layout : Layout) (line : ℕ) (octets : List ℕ)
        → (after_message s (with_layout w layout) line octets).holding ≡ (after_message s w line octets).holding }
    ensures legs { (s : Setting) (w : World) (layout : Layout) (line : ℕ) (octets : List ℕ)
        → (after_message s (with_layout w layout) line octets).legs ≡ (after_message s w line octets).legs }
    ensures ports { (s : Setting) (w : World) (layout : Layout) (line : ℕ) (octets : List ℕ)
        → (after_message s (with_layout w layout) line octets).ports ≡ (after_message s w line octets).ports }
    ensures moved { (s : Setting) (w : World) (layout : Layout) (line : ℕ) (octets : List ℕ)
        → is_some (answer_to s (with_layout w layout) line octets).moved ≡ is_some (answer_to s w line octets).moved }
    ensures frame_sends { (s : Setting) (w : World) (layout : Layout) (input : Input)
        → (outcome_of_frame s (with_layout w layout) input).making.sends ≡ (outcome_of_frame s w input).making.sends }
    ensures frame_records { (s : Setting) (w : World) (layout : Layout) (input : Input)
        → (outcome_of_frame s (with_layout w layout) input).recorded ≡ (outcome_of_frame s w input).recorded }
    ensures frame_world { (s : Setting) (w : World) (layout : Layout) (input : Input)
        → without_paths (outcome_of_frame s (with_layout w layout) input).making.world ≡ without_paths (outcome_of_frame s w input).making.world }
{}

/// An answered call always gets both paths. Its two slots are silent once the caller's is cleared, whatever else
/// exists, so that they can be connected, and then they are.
pub fn law_of_answered_calls()
    ensures { (s : Setting) (w : World) (line : ℕ) (octets : List ℕ) (h : HeldLeg) → IsAnswered s w line octets h → GetsBothPaths s w line octets h }
{}

/// Every event, and so every run, preserves the consistency of the legs. Peers refer to each other, in states that go
/// together. The state of a leg determines the circuit by which its slot receives, and a call reference identifies one
/// leg.
///
/// A leg in overlap sending is a caller's, without a peer. Its slot is silent, and its number is pending, whose digits
/// are a proper prefix of a number of the plan. In no other state a number is pending.
///
/// A leg has waited in its state since a frame that is at most the next one. The octets of its SETUP or RELEASE are
/// stored in call present and in release request, and in no other state. The stored RELEASE decides the tone in release
/// request. One with a cause has the cause with which the leg was cleared. The slot then receives the tone of
/// disconnect indication with this cause, if the trace gives it, and otherwise nothing.
pub fn law_of_legs()
    ensures begins { (s : Setting) → CallsStand s (start s.dimensions) }
    ensures kept { (s : Setting) (w : World) (e : Event) → IsPlanned s → Fits s.dimensions.external e → CallsStand s w
        → CallsStand s (next s w e) }
    ensures always { (s : Setting) (es : List Event) → IsPlanned s → All (Fits s.dimensions.external) es
        → CallsStand s (world_after_all s (start s.dimensions) es) }
    ensures waiting { (s : Setting) (w : World) → CallsStand s w → EachWaits s w }
    ensures pending { (s : Setting) (w : World) → CallsStand s w → NoneElsePends s w }
    ensures since { (s : Setting) (w : World) → CallsStand s w → EachBegan s.dimensions.external w }
    ensures kept_messages { (s : Setting) (w : World) → CallsStand s w → EachIsKept s.dimensions.external w }
    ensures none_kept { (s : Setting) (w : World) → CallsStand s w → NoneElseIsKept s.dimensions.external w }
    ensures releases { (s : Setting) (w : World) → CallsStand s w → EachReleaseSounds s.dimensions.external s.tones w }
    ensures told_apart { (leg : Leg) (cause : ℕ) → encoding (release_with leg None) ≢ encoding (release_with leg (Some cause)) }
{}

/// A number that is routed to a list of lines gets the lowest idle slot of the first line that has one, other than the
/// caller's (`first`). It gets none if and only if each line is full (`none`). The caller's line is tried like any
/// other line. The slot is idle, is not the caller's, and is on a line of the list (`idle`). A list of one line passes
/// the checks of that line and gives its operations (`checks`, `one`).
pub fn law_of_hunting()
    ensures first { (w : World) (x : Slot) (lines : List ℕ) (y : Slot) → (hunted w x lines ≡ Some y) ↔ IsFirstIdle w x lines y }
    ensures none { (w : World) (x : Slot) (lines : List ℕ) → (hunted w x lines ≡ None) ↔ All (IsFull w x) lines }
    ensures idle { (w : World) (x : Slot) (lines : List ℕ) (y : Slot) → hunted w x lines ≡ Some y → IsIdleOnOne w x lines y }
    ensures checks { (d : Dimensions) (w : World) (x : Slot) (line : ℕ)
        → called_checks d w (Some x) (found.Lines (line ∷ [])) ≡ called_checks d w (Some x) (found.Line line) }
    ensures one { (first : Bool) (w : World) (own : ℕ) (asked : Pending) (x : Slot) (line : ℕ)
        → accept first w own asked x (found.Lines (line ∷ [])) ≡ accept first w own asked x (found.Line line) }
{}

/// A call with further digits gets the called line's lowest idle slot, as for a SETUP, since a slot with a leg is not
/// idle. It is refused with cause 34 only if the data link of each called line is down or the line has no idle slot, and
/// with cause 42 only if there is no free port. Further digits end no call, so that nothing is recorded.
pub fn law_of_digits()
    ensures choice { (w : World) (x : Slot) (leg : Leg) (line : ℕ) → leg_at w.legs x ≡ Some leg → lowest_idle_beside w x line ≡ lowest_idle w line }
    ensures no_slot { (s : Setting) (w : World) (h : HeldLeg) (called : List ℕ) (m : Message) → leg_at w.legs h.slot ≡ Some h.leg
        → digits_refusal s w h.slot called m ≡ Some no_channel_available → WantsSlot s w (called_with called m) }
    ensures no_port { (s : Setting) (w : World) (x : Slot) (called : List ℕ) (m : Message)
        → digits_refusal s w x called m ≡ Some switching_equipment_congestion → WantsPort s w (called_with called m) }
    ensures unrecorded { (s : Setting) (w : World) (line : ℕ) (h : HeldLeg) (m : Message) → act_on h.leg.state m ≡ act.Digits
        → (outcome_for s w line (For_leg h m)).recorded ≡ [] }
{}

/// The turn of a frame sends at most two messages for each external line, and records at most one call for each. The
/// limit of 64 messages a step is therefore enough for 32 lines. A frame event changes or removes a leg only if the
/// timer of that leg, or of its peer, expires in the frame. The wait of a changed leg restarts in the frame after. If no
/// leg's T309 expires in the frame, the legs of a call whose called user has answered are unchanged, and so is each
/// connection, each membership, each path and each port.
pub fn law_of_expiries()
    ensures sends { (s : Setting) (w : World) (input : Input) → SendsFew s w input }
    ensures records { (s : Setting) (w : World) (input : Input) → CallsStand s w → RecordsFew s w input }
    ensures others { (s : Setting) (w : World) (input : Input) → CallsStand s w → NoneElseChanges s w input }
    ensures untimed { (s : Setting) (w : World) (input : Input) → CallsStand s w → NoneIsLost s.timers w.holding.next w.legs
        → UntimedStay s w input }
    ensures conversations { (s : Setting) (w : World) (input : Input) → CallsStand s w → NoneIsLost s.timers w.holding.next w.legs
        → ConversationsStay s w input }
    ensures layout { (s : Setting) (w : World) (input : Input) → CallsStand s w → NoneIsLost s.timers w.holding.next w.legs
        → LayoutStays s w input }
    ensures ports { (s : Setting) (w : World) (input : Input) → CallsStand s w → NoneIsLost s.timers w.holding.next w.legs
        → IsMade s.dimensions s.tones w → PortsStay s w input }
    ensures since { (s : Setting) (w : World) (input : Input) → CallsStand s w → EachStaysOrBegins s w input }
{}

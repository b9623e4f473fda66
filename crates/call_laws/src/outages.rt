//! Theorems on the outage of a data link: on T309, which runs while the link is down, and on what a user is asked or owed.
ghost use Rattle.std.specs.Prelude.{◌≡◌, ◌≢◌, ℕ, false, All, List, Contains, Some};
ghost use Rattle.circuit_model.specs.declared.channel.Slot.{Slot};
ghost use Rattle.circuit_model.specs.Extent.{IsExternal};
ghost use Rattle.circuit_model.specs.FrameInput.{Input};
ghost use Rattle.q931_codec.specs.CallStates.{active};
ghost use Rattle.q931_codec.specs.declared.message.Message.{Message};
ghost use Rattle.call_timers.specs.declared.expiry.Expiry.TheVariants as expiry;
ghost use Rattle.call_states.specs.declared.leg.HeldLeg.{HeldLeg};
ghost use Rattle.call_states.specs.declared.leg.Leg.{Leg};
ghost use Rattle.number_plan.specs.declared.target.Found.{Found};
ghost use Rattle.exchange_events.specs.declared.record.CallRecord.{CallRecord};
ghost use Rattle.exchange_events.specs.declared.trace.Event.{Event};
ghost use Rattle.exchange_events.specs.declared.trace.Event.TheVariants.{Frame, LinkDown, RestartLine};
ghost use Rattle.exchange_events.specs.Sizes.{Setting};
ghost use Rattle.exchange_events.specs.Sound.{Fits, IsPlanned};
ghost use Rattle.call_profile.specs.Calls.{outcome_of_octets};
ghost use Rattle.call_laws.specs.Dropped.{HasLine};
ghost use Rattle.call_laws.specs.EnquiryReplies.{confirmed, unchanged, IsClearedByReply, IsReply, IsStatus};
ghost use Rattle.call_profile.specs.Expiring.{due_of, outcome_of_frame};
ghost use Rattle.call_laws.specs.ExpiryBounds.{NoneIsLost, UntimedStay, ConversationsStay, LayoutStays, PortsStay};
ghost use Rattle.call_laws.specs.ExpiryRecords.{IsFrameRecord, IsInFrame, ComeByLine};
ghost use Rattle.call_laws.specs.Fabrics.{world_of_run};
ghost use Rattle.call_profile.specs.LegStanding.{CallsStand};
ghost use Rattle.call_profile.specs.Legs.{is_down, is_owed};
ghost use Rattle.call_laws.specs.LostLegs.{IsDisconnected, IsLeftBehind, IsLossRecorded, IsLostFirst, IsUnchanged, IsVacated, NeitherIsLost};
ghost use Rattle.call_laws.specs.Outages.{down_after_all, HasNoFailure, IsOnLineUp, NoLinkIsDown, OutagesStand};
ghost use Rattle.call_laws.specs.OwedRestarts.{AreOwedByFailure, AreOwedByFrame, AreOwedByRestart, AreStillOwed, NoMoreAreOwed, OwesNoMore};
ghost use Rattle.call_laws.specs.Reconciled.{AreReconciled};
ghost use Rattle.call_laws.specs.Recorded.{HasEnded};
ghost use Rattle.call_laws.specs.Unconfirmed.{AreUnconfirmed};
ghost use Rattle.call_profile.specs.Setup.{called_slot};
ghost use Rattle.call_profile.specs.Step.{next};
ghost use Rattle.call_profile.specs.World.{World, start};

/// T309 of a leg in state 10 runs if and only if the data link of its line is down. An enquiry of a leg in state 10 is
/// open only while that link is up. A user is owed a RESTART only while the link of its line is down. Every event, and so
/// every run, preserves this. A data link is down if and only if its last change was a failure. T309 of a leg on a
/// line whose link is up is not due. If no link is down, T309 of no leg expires in any frame. In a trace in which no
/// link fails, none is ever down, and T309 never expires.
pub fn law_of_outages()
    ensures begins { (s : Setting) → OutagesStand s.dimensions.external (start s.dimensions).legs }
    ensures kept { (s : Setting) (w : World) (e : Event) → Fits s.dimensions.external e → CallsStand s w
        → OutagesStand s.dimensions.external w.legs → OutagesStand s.dimensions.external (next s w e).legs }
    ensures always { (s : Setting) (es : List Event) → IsPlanned s → All (Fits s.dimensions.external) es
        → OutagesStand s.dimensions.external (world_of_run s es).legs }
    ensures links { (s : Setting) (es : List Event) (line : ℕ) → All (Fits s.dimensions.external) es
        → is_down (world_of_run s es).legs line ≡ down_after_all line false es }
    ensures up { (s : Setting) (w : World) (frame : ℕ) → OutagesStand s.dimensions.external w.legs → (x : Slot) (leg : Leg)
        → IsOnLineUp s w x leg → due_of s.timers frame leg ≢ Some expiry.Outage }
    ensures calm { (s : Setting) (w : World) (frame : ℕ) → CallsStand s w → OutagesStand s.dimensions.external w.legs
        → NoLinkIsDown w.legs → NoneIsLost s.timers frame w.legs }
    ensures none_fails { (s : Setting) (es : List Event) → HasNoFailure s es → NoLinkIsDown (world_of_run s es).legs }
    ensures none_is_lost { (s : Setting) (es : List Event) (frame : ℕ) → HasNoFailure s es
        → NoneIsLost s.timers frame (world_of_run s es).legs }
{}

/// In a trace in which no data link fails, a frame changes no leg in state 10, no connection, no membership, no path and
/// no port. It has the record of a call if and only if a caller's leg leaves states 3, 4 and 10 in it. The records come
/// by the line of the called slot. So [`law_of_expiries`](crate::law_of_expiries), and the clauses `calm_told`,
/// `calm_ended` and `calm_order` of [`law_of_frame_records`](crate::law_of_frame_records), need no premise on T309 there.
pub fn law_of_unfailing_links()
    ensures untimed { (s : Setting) (es : List Event) (input : Input) → HasNoFailure s es → UntimedStay s (world_of_run s es) input }
    ensures conversations { (s : Setting) (es : List Event) (input : Input) → HasNoFailure s es → ConversationsStay s (world_of_run s es) input }
    ensures layout { (s : Setting) (es : List Event) (input : Input) → HasNoFailure s es → LayoutStays s (world_of_run s es) input }
    ensures ports { (s : Setting) (es : List Event) (input : Input) → HasNoFailure s es → PortsStay s (world_of_run s es) input }
    ensures told { (s : Setting) (es : List Event) (input : Input) → HasNoFailure s es → (told : CallRecord)
        → Contains (outcome_of_frame s (world_of_run s es) input).recorded told
        → (h : HeldLeg) × IsFrameRecord s (world_of_run s es) input h told }
    ensures ended { (s : Setting) (es : List Event) (input : Input) → HasNoFailure s es → (h : HeldLeg)
        → HasEnded s.dimensions.external (world_of_run s es) (outcome_of_frame s (world_of_run s es) input).making.world h
        → IsInFrame s (world_of_run s es) input h }
    ensures order { (s : Setting) (es : List Event) (input : Input) → HasNoFailure s es
        → ComeByLine (outcome_of_frame s (world_of_run s es) input).recorded }
{}

/// If T309 of a leg expires in a frame, the leg is removed, and no circuit uses its slot. The other leg of its call is
/// cleared with cause 27, and its user is sent DISCONNECT. The frame has the record of the call with cause 27. If both
/// legs of a call are due in one frame, the leg on the lower line expires, and the other leg is cleared. Each other leg
/// in state 10 is unchanged, and so is its connection or its membership.
pub fn law_of_lost_legs()
    ensures gone { (s : Setting) (w : World) (input : Input) → CallsStand s w → (x : Slot) (leg : Leg) → IsLostFirst s w x leg
        → IsVacated (outcome_of_frame s w input).making.world x }
    ensures peer { (s : Setting) (w : World) (input : Input) → CallsStand s w → (y : Slot) (other : Leg) → IsLeftBehind s w y other
        → IsDisconnected s w input y other }
    ensures recorded { (s : Setting) (w : World) (input : Input) → CallsStand s w → (x : Slot) (leg : Leg) → IsLostFirst s w x leg
        → IsLossRecorded s w input x leg }
    ensures others { (s : Setting) (w : World) (input : Input) → CallsStand s w → (x : Slot) (leg : Leg) → NeitherIsLost s w x leg
        → IsUnchanged s w input x leg }
{}

/// The establishment of a data link accounts for each channel of the line. One without a leg is owed no RESTART, and if
/// it awaited one, a RESTART that covers it was sent. The user of each leg in state 10 was sent STATUS ENQUIRY. The user
/// of each leg in state 19 was sent its stored RELEASE again, and T308 restarts: its expiry removes the leg. At each leg
/// in state 12 T305 goes on, or it starts if the establishment cleared the leg. A leg in any other state is unchanged. No
/// call is offered on a channel that is owed a RESTART.
pub fn law_of_reconciliation()
    ensures channels { (s : Setting) (w : World) (line : ℕ) → HasLine s w line → OutagesStand s.dimensions.external w.legs → AreReconciled s w line }
    ensures offered { (s : Setting) (w : World) → OutagesStand s.dimensions.external w.legs → (x : Slot) (t : Found) (y : Slot)
        → IsExternal s.dimensions.external y → called_slot w x t ≡ Some y → is_owed w.legs y ≡ false }
{}

/// The reply to an enquiry with state 10 ends the enquiry. No other leg changes, and nothing is sent or recorded. With
/// another state that is not null, both legs of the call are cleared with cause 101, both users are sent DISCONNECT, and
/// the call is recorded. The slot of each leg is then idle, or has only the tone of the cause. At a leg whose user was not
/// asked, a STATUS that does not report the null state changes nothing.
pub fn law_of_enquiry_replies()
    ensures agrees { (s : Setting) (w : World) (line : ℕ) (octets : List ℕ) (h : HeldLeg) (m : Message) → IsReply s w line octets h m active
        → outcome_of_octets s w line octets ≡ confirmed w h }
    ensures differs { (s : Setting) (w : World) (line : ℕ) (octets : List ℕ) (h : HeldLeg) (m : Message) (reported : ℕ)
        → IsReply s w line octets h m reported → reported ≢ active → IsClearedByReply s w h (outcome_of_octets s w line octets) }
    ensures unasked { (s : Setting) (w : World) (line : ℕ) (octets : List ℕ) (h : HeldLeg) (m : Message) → IsStatus s w line octets h m
        → (h.leg.state ≡ active → h.leg.enquired ≡ false) → outcome_of_octets s w line octets ≡ unchanged w }
{}

/// A channel is unconfirmed after an event if and only if the event leaves it so, or it was and the event neither settles
/// it nor gives it a leg. An establishment of the data link leaves each channel so that awaited RESTART, the restart of a
/// line each of its channels if its data link is up, and a frame each whose leg T308 removes while that link is up. RESTART
/// ACKNOWLEDGE settles the channels that it covers. So RESTART is repeated at each establishment until it is acknowledged
/// ([`law_of_reconciliation`]).
pub fn law_of_unconfirmed_channels()
    ensures exact { (s : Setting) (w : World) (e : Event) → Fits s.dimensions.external e → CallsStand s w
        → OutagesStand s.dimensions.external w.legs → AreUnconfirmed s.dimensions.external e w (next s w e) }
{}

/// After the failure of a data link, a channel is owed a RESTART if and only if it was owed one, or its leg was removed by
/// the failure. After a frame, if and only if it was owed one, or T309 removed its leg, or T308 did while the link of its
/// line was down. After the restart of a line, each of its channels is owed one if and only if its data link is down, and
/// each channel of another line if and only if it was. No other event adds a channel to these. The establishment of a data
/// link removes the channels of its line, and a leg removes the channel that it gets. Every other channel stays owed.
pub fn law_of_owed_restarts()
    ensures failure { (s : Setting) (w : World) (line : ℕ) → HasLine s w line → OutagesStand s.dimensions.external w.legs
        → AreOwedByFailure s.dimensions.external w (next s w (LinkDown line)) }
    ensures frame { (s : Setting) (w : World) (input : Input) → CallsStand s w → OutagesStand s.dimensions.external w.legs
        → AreOwedByFrame s.dimensions.external w (next s w (Frame input)) }
    ensures restart { (s : Setting) (w : World) (line : ℕ) → HasLine s w line → OutagesStand s.dimensions.external w.legs
        → AreOwedByRestart s.dimensions.external line w (next s w (RestartLine line)) }
    ensures others { (s : Setting) (w : World) (e : Event) → Fits s.dimensions.external e → CallsStand s w → OwesNoMore e
        → NoMoreAreOwed s.dimensions.external w (next s w e) }
    ensures still { (s : Setting) (w : World) (e : Event) → Fits s.dimensions.external e → CallsStand s w
        → OutagesStand s.dimensions.external w.legs → OwesNoMore e → AreStillOwed s.dimensions.external e w (next s w e) }
{}

//! Theorems on legs: their call references, the messages to their users, and their removal.
ghost use Rattle.std.specs.Prelude.{◌≡◌, ◌<◌, ◌≤◌, ℕ, List, length, Contains, Some};
ghost use Rattle.circuit_model.specs.declared.channel.Slot.{Slot};
ghost use Rattle.circuit_model.specs.Extent.{IsExternal};
ghost use Rattle.circuit_model.specs.FrameInput.{Input};
ghost use Rattle.q931_codec.specs.declared.message.Message.{Message};
ghost use Rattle.call_states.specs.declared.act.Act.{Act};
ghost use Rattle.call_states.specs.declared.leg.HeldLeg.{HeldLeg};
ghost use Rattle.call_timers.specs.declared.expiry.Expiry.{Expiry};
ghost use Rattle.clearing_rules.specs.declared.scope.Restart.{Restart};
ghost use Rattle.clearing_rules.specs.UnknownReference.{answer_without_call};
ghost use Rattle.tone_rules.specs.declared.tones.Tones.{Tones};
ghost use Rattle.exchange_events.specs.declared.record.CallRecord.{CallRecord};
ghost use Rattle.exchange_events.specs.Sizes.{Setting};
ghost use Rattle.call_profile.specs.ActCourse.{course_of};
ghost use Rattle.call_profile.specs.Calls.{after_message, answer_back, answer_to};
ghost use Rattle.exchange_events.specs.declared.trace.Event.TheVariants.{LinkDown, LinkUp, RestartLine};
ghost use Rattle.call_laws.specs.Dropped.{HasLine, OthersAreGone, ClearedStay, ActiveWait, OtherLinesAreLeft};
ghost use Rattle.call_laws.specs.Resumed.{LegsAreResumed};
ghost use Rattle.call_profile.specs.Step.{next};
ghost use Rattle.call_profile.specs.Expiring.{on_expiry, outcome_of_frame};
ghost use Rattle.call_laws.specs.ExpiryBounds.{NoneIsLost};
ghost use Rattle.call_laws.specs.ExpiryRecords.{ComeByExpiry, ComeByLine, IsEndRecord, IsFrameRecord, IsInFrame, IsInTurn};
ghost use Rattle.call_profile.specs.LegStanding.{CallsStand};
ghost use Rattle.call_profile.specs.Legs.{Legs, leg_at, lowest_free_reference};
ghost use Rattle.call_laws.specs.LineRestarts.{
  IsInLineRestart,
  IsLineEmpty,
  IsLineRecord,
  IsRequestSent,
  IsSentNothingElse,
  OtherLinesAreCleared,
  PeersAreDisconnected,
};
ghost use Rattle.call_profile.specs.LinkChanges.{outcome_of_line_restart, whole_line};
ghost use Rattle.call_laws.specs.Progress.{TellsOfTones};
ghost use Rattle.call_laws.specs.Recorded.{Arrive, ComeByPlace, HasEnded, IsRecordOf, IsRecorded, RestartsNothing};
ghost use Rattle.call_laws.specs.References.{HasReference, HasSlotLeft};
ghost use Rattle.call_profile.specs.Restarts.{restart_slot};
ghost use Rattle.call_laws.specs.Restarted.{IsRestart, RestartedAreEmpty, OthersAreLeft, UnheldStay};
ghost use Rattle.call_profile.specs.Setup.{course_of_setup};
ghost use Rattle.call_profile.specs.World.{World};

/// The call reference of a new called leg is the lowest from 1 up that no called leg of the line has.
pub fn law_of_references()
    ensures unused { (legs : Legs) (line : ℕ) → HasSlotLeft legs line → ¬ HasReference legs line (lowest_free_reference legs line) }
    ensures lower { (legs : Legs) (line reference : ℕ) → 1 ≤ reference → reference < lowest_free_reference legs line → HasReference legs line reference }
    ensures first { (legs : Legs) (line : ℕ) → 1 ≤ lowest_free_reference legs line }
{}

/// A user is sent a progress indicator if and only if its slot gets a tone in the same step: by an act, by a SETUP, by
/// the restart of a slot, by the expiry of a timer, and by the reply to a message on no call, which gives none.
/// Therefore no retransmitted message has one.
pub fn law_of_progress()
    ensures acts { (s : Setting) (w : World) (h : HeldLeg) (m : Message) (a : Act) → TellsOfTones (course_of s w h m a).operations }
    ensures setups { (s : Setting) (w : World) (line : ℕ) (m : Message) → TellsOfTones (course_of_setup s w line m).operations }
    ensures restarts { (tones : Tones) (r : Restart) (legs : Legs) (x : Slot) → TellsOfTones (restart_slot tones r legs x) }
    ensures answers { (line : ℕ) (m : Message) → TellsOfTones (answer_back line (answer_without_call m)) }
    ensures expiries { (s : Setting) (w : World) (h : HeldLeg) (e : Expiry) → CallsStand s w → IsExternal s.dimensions.external h.slot
        → leg_at w.legs h.slot ≡ Some h.leg → TellsOfTones (on_expiry s.tones w.legs h e) }
{}

/// After an accepted RESTART no leg holds a restarted slot. At every other slot a leg whose peer was removed is in
/// disconnect indication with cause 41, and each other leg is unchanged. A slot without a leg keeps its circuit, so
/// that nails and seats stay.
pub fn law_of_restarts()
    ensures gone { (s : Setting) (w : World) (line : ℕ) (octets : List ℕ) (r : Restart) → IsRestart s w line octets r
        → RestartedAreEmpty s.dimensions.external r line (after_message s w line octets) }
    ensures others { (s : Setting) (w : World) (line : ℕ) (octets : List ℕ) (r : Restart) → IsRestart s w line octets r
        → OthersAreLeft s.dimensions.external r line w (after_message s w line octets) }
    ensures unheld { (s : Setting) (w : World) (line : ℕ) (octets : List ℕ) (r : Restart) → IsRestart s w line octets r
        → UnheldStay s.dimensions.external w (after_message s w line octets) }
{}

/// An answer has the record of a call if and only if a caller's leg left states 3, 4 and 10 by the message, with the
/// cause that the message gives. That is every such leg, so none of them is without the other party of its call. The
/// records of a RESTART come by the place of the first restarted leg of their call, each once. Any other message has at
/// most one record.
pub fn law_of_records()
    ensures told { (s : Setting) (w : World) (line : ℕ) (octets : List ℕ) → Arrive s w line octets → (told : CallRecord)
        → Contains (answer_to s w line octets).records told → (h : HeldLeg) × IsRecordOf s w line octets h told }
    ensures ended { (s : Setting) (w : World) (line : ℕ) (octets : List ℕ) → Arrive s w line octets → (h : HeldLeg)
        → HasEnded s.dimensions.external w (after_message s w line octets) h → IsRecorded s w line octets h }
    ensures order { (s : Setting) (w : World) (line : ℕ) (octets : List ℕ) (r : Restart) → IsRestart s w line octets r
        → ComeByPlace r line (answer_to s w line octets).records }
    ensures one { (s : Setting) (w : World) (line : ℕ) (octets : List ℕ) → Arrive s w line octets
        → RestartsNothing w line octets → length (answer_to s w line octets).records ≤ 1 }
{}

/// A frame has the record of a call if and only if a caller's leg leaves states 3, 4 and 10 in it. The timer of a leg of
/// the call expired. The cause is 27 if the caller's leg was in state 10, since T309 expired. It is 19 if that leg was in
/// state 4, since the called user is then alerted, and otherwise 18. The records come by the line on which the timer
/// expired, lowest first. If T309 of both legs expires, that is the lower line. Let no leg's T309 expire in the frame.
/// Then the timer is the one of the called leg, the cause is 18 or 19, and the records come by the line of the called
/// slot.
pub fn law_of_frame_records()
    ensures told { (s : Setting) (w : World) (input : Input) → CallsStand s w → (told : CallRecord)
        → Contains (outcome_of_frame s w input).recorded told → (h : HeldLeg) × IsEndRecord s w input h told }
    ensures ended { (s : Setting) (w : World) (input : Input) → CallsStand s w → (h : HeldLeg)
        → HasEnded s.dimensions.external w (outcome_of_frame s w input).making.world h → IsInTurn s w input h }
    ensures order { (s : Setting) (w : World) (input : Input) → CallsStand s w
        → ComeByExpiry s w (outcome_of_frame s w input).recorded }
    ensures calm_told { (s : Setting) (w : World) (input : Input) → CallsStand s w → NoneIsLost s.timers w.holding.next w.legs → (told : CallRecord)
        → Contains (outcome_of_frame s w input).recorded told → (h : HeldLeg) × IsFrameRecord s w input h told }
    ensures calm_ended { (s : Setting) (w : World) (input : Input) → CallsStand s w → NoneIsLost s.timers w.holding.next w.legs → (h : HeldLeg)
        → HasEnded s.dimensions.external w (outcome_of_frame s w input).making.world h → IsInFrame s w input h }
    ensures calm_order { (s : Setting) (w : World) (input : Input) → CallsStand s w → NoneIsLost s.timers w.holding.next w.legs
        → ComeByLine (outcome_of_frame s w input).recorded }
{}

/// After the failure of a data link, each leg of the line in state 10 waits for the link, and a wait that runs goes on.
/// Each that is being cleared, in state 12 or 19, is unchanged, and each other leg of the line is removed. At the other
/// lines, a leg whose peer was removed is in disconnect indication with cause 27, and each other leg is unchanged.
pub fn law_of_link_failures()
    ensures gone { (s : Setting) (w : World) (line : ℕ) → HasLine s w line → OthersAreGone s.dimensions.external line w (next s w (LinkDown line)) }
    ensures stays { (s : Setting) (w : World) (line : ℕ) → HasLine s w line → ClearedStay s.dimensions.external line w (next s w (LinkDown line)) }
    ensures waits { (s : Setting) (w : World) (line : ℕ) → HasLine s w line → ActiveWait s.dimensions.external line w (next s w (LinkDown line)) }
    ensures others { (s : Setting) (w : World) (line : ℕ) → HasLine s w line → OtherLinesAreLeft s.dimensions.external line w (next s w (LinkDown line)) }
{}

/// After the establishment of a data link, no leg of the line in state 10 waits for the link, and an enquiry of each is
/// open. Each in state 2 is in disconnect indication with cause 41. T308 of each in state 19 restarts, as after a
/// retransmission, and every other leg is unchanged.
pub fn law_of_link_establishments()
    ensures legs { (s : Setting) (w : World) (line : ℕ) → HasLine s w line → LegsAreResumed s.dimensions.external line w (next s w (LinkUp line)) }
{}

/// After the exchange restarts a line, no leg holds a channel of the line. At the other lines, a leg whose peer was removed
/// is in disconnect indication with cause 41, and each other leg is unchanged. A slot without a leg keeps its circuit, so
/// that nails and seats stay. The user of the line is sent RESTART of the interface and nothing else. While the data link of
/// the line is down, it is sent nothing. The user of each leg whose peer was removed is sent DISCONNECT with cause 41. The
/// restart has the record of a call if and only if a caller's leg left states 3, 4 and 10 by it, with cause 41. The records
/// come by the place of the first leg of their call on the line, each once.
pub fn law_of_line_restarts()
    ensures gone { (s : Setting) (w : World) (line : ℕ) → HasLine s w line → IsLineEmpty s.dimensions.external line (next s w (RestartLine line)) }
    ensures others { (s : Setting) (w : World) (line : ℕ) → HasLine s w line → OtherLinesAreCleared s.dimensions.external line w (next s w (RestartLine line)) }
    ensures unheld { (s : Setting) (w : World) (line : ℕ) → HasLine s w line → UnheldStay s.dimensions.external w (next s w (RestartLine line)) }
    ensures sent { (s : Setting) (w : World) (line : ℕ) → IsRequestSent s w line }
    ensures only { (s : Setting) (w : World) (line : ℕ) → IsSentNothingElse s w line }
    ensures peers { (s : Setting) (w : World) (line : ℕ) → HasLine s w line → PeersAreDisconnected s w line }
    ensures told { (s : Setting) (w : World) (line : ℕ) → HasLine s w line → (told : CallRecord)
        → Contains (outcome_of_line_restart s.dimensions s.tones line w).recorded told → (h : HeldLeg) × IsLineRecord s w line h told }
    ensures ended { (s : Setting) (w : World) (line : ℕ) → HasLine s w line → (h : HeldLeg)
        → HasEnded s.dimensions.external w (next s w (RestartLine line)) h → IsInLineRestart s w line h }
    ensures order { (s : Setting) (w : World) (line : ℕ) → HasLine s w line
        → ComeByPlace whole_line line (outcome_of_line_restart s.dimensions s.tones line w).recorded }
{}

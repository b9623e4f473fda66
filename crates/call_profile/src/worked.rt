//! Worked calls.
ghost use Rattle.std.specs.Prelude.{◌≡◌, None, Some, [], ◌∷◌, option_map};
ghost use Rattle.call_profile.specs.WorkedCalls.{at, two_lines, one_line, own_line, answers, records_reply, sends_reply, whole_call, whole_call_answered, refused_or_moved, refused_or_moved_answered, clear_collision, clear_collision_answered, without_call, without_call_answered, restart_of_called, restart_of_called_answered, restart_of_both, restart_of_both_answered, restart_of_one, restart_of_one_answered, lenient_reading, lenient_reading_answered, call_to_room, call_to_room_answered, no_port_answered, unexpected, unexpected_answered, line_full, line_full_answered, hunting_lines, line_hunted_answered, sounding_lines, circuits_after, rings, rings_answered, ringing_tone, found_busy, found_busy_answered, busy_tone, found_gone, found_gone_answered, found_there, conversation};
ghost use Rattle.call_profile.specs.WorkedMessages.{refused_by_element, refused_by_element_answered, unreadable_cause, unreadable_cause_answered, null_status_received, null_status_answered, release_collision, release_collision_answered, reference_given_again, reference_given_again_answered, compatibility, compatibility_answered};
ghost use Rattle.call_profile.specs.WorkedDigits.{begun_later, ended_later, ended_later_answered, faulty_digits, faulty_digits_answered, in_other_states, in_other_states_answered, in_three_messages, in_three_messages_answered, line_full_later, line_full_later_answered, longest_numbers, longest_numbers_answered, no_port_later_answered, own_line_later, own_line_later_answered, passed_on_later, passed_on_later_answered, room_later, room_later_answered, two_digits, wrong_digit, wrong_digit_answered};
ghost use Rattle.call_profile.specs.Legs.{leg_at};
ghost use Rattle.call_profile.specs.WorkedExpiries.{cleared_with, hasty_lines, turn_of, after_turn, world_in, in_frame, nothing_in, sent_in, offered, setup_again, setup_over, proceeds, proceeding_over, both_proceed, both_over, alerted, alerting_over, alerted_again, answered_in_time, begun_on_both, digits_over, first_turn, second_turn, third_turn, released, none_left};
ghost use Rattle.exchange_events.specs.declared.trace.Event.TheVariants.{LinkUp, RestartLine};
ghost use Rattle.call_profile.specs.Step.{next, reply};
ghost use Rattle.call_profile.specs.WorkedLinks.{down_while_alerted, alerted_dropped, call_to_down, refused_as_down, own_line_down, own_line_dropped, outage, outage_over, down_again, up_again, state_enquired, reset_while_dialling, alerted_then_up, answered, answered_on_down, asked_to_release, beside_conversation, both_cleared, both_down, call_after_restart, cleared_as_it_fails, confirmed, connect_lost, conversation_restarted, down_in_conversation, lost_after_answer, offered_on_first, one_restarted, own_line_restarted, own_line_restart_answered, release_asked, release_asked_again, release_given_up, released_anew, reports, restart_of_line, restarted_conversation, restarted_while_down, up_before_given_up, up_too_late, line_restarted, lost_beside_conversation, only_enquired, second_acknowledged, third_acknowledged, whole_line_acknowledged};
ghost use Rattle.call_profile.specs.WorkedOverlap.{dialled_in_part, dialled_in_part_answered, pending_after, first_digit, refused_at_once, refused_at_once_answered, no_numbers, dials_nothing, dials_nothing_answered, given_up, given_up_answered};

/// The definitions of the operations for messages, evaluated on small exchanges.
pub fn worked_calls()
    ensures whole { answers two_lines whole_call ≡ whole_call_answered }
    ensures channel { answers two_lines refused_or_moved ≡ refused_or_moved_answered }
    ensures collision { answers two_lines clear_collision ≡ clear_collision_answered }
    ensures no_call { answers two_lines without_call ≡ without_call_answered }
    ensures lenient { answers two_lines lenient_reading ≡ lenient_reading_answered }
    ensures room { answers (one_line 1) call_to_room ≡ call_to_room_answered }
    ensures no_port { answers (one_line 0) call_to_room ≡ no_port_answered }
    ensures unexpected { answers two_lines unexpected ≡ unexpected_answered }
    ensures restart_called { answers two_lines restart_of_called ≡ restart_of_called_answered }
    ensures restart_both { answers own_line restart_of_both ≡ restart_of_both_answered }
    ensures restart_one { answers own_line restart_of_one ≡ restart_of_one_answered }
    ensures full { answers two_lines line_full ≡ line_full_answered }
    ensures hunt { answers hunting_lines line_full ≡ line_hunted_answered }
    ensures ringback { answers sounding_lines rings ≡ rings_answered }
    ensures rings { circuits_after sounding_lines rings ≡ ringing_tone }
    ensures busy { answers sounding_lines found_busy ≡ found_busy_answered }
    ensures sounds_busy { circuits_after sounding_lines found_busy ≡ busy_tone }
    ensures other_cause { answers sounding_lines found_gone ≡ found_gone_answered }
    ensures no_tone { circuits_after sounding_lines found_gone ≡ [] }
    ensures answered { circuits_after sounding_lines found_there ≡ conversation }
    ensures not_given { circuits_after two_lines rings ≡ [] }
{}

/// The definitions of the operations for messages, evaluated on more messages.
pub fn worked_messages()
    ensures refused { answers two_lines refused_by_element ≡ refused_by_element_answered }
    ensures no_cause { answers (one_line 1) unreadable_cause ≡ unreadable_cause_answered }
    ensures null_state { answers (one_line 1) null_status_received ≡ null_status_answered }
    ensures releases { answers (one_line 1) release_collision ≡ release_collision_answered }
    ensures given_again { answers two_lines reference_given_again ≡ reference_given_again_answered }
    ensures passed_on { answers two_lines compatibility ≡ compatibility_answered }
{}

/// The definitions, evaluated on calls in overlap sending.
pub fn worked_overlap()
    ensures in_part { answers two_lines dialled_in_part ≡ dialled_in_part_answered }
    ensures pends { pending_after dialled_in_part 0 ≡ first_digit }
    ensures refused { answers two_lines refused_at_once ≡ refused_at_once_answered }
    ensures no_plan { answers no_numbers dials_nothing ≡ dials_nothing_answered }
    ensures unrecorded { answers two_lines given_up ≡ given_up_answered }
    ensures dropped { pending_after given_up 0 ≡ None }
{}

/// The definitions, evaluated on calls with further digits.
pub fn worked_digits()
    ensures in_three { answers two_lines in_three_messages ≡ in_three_messages_answered }
    ensures dropped { pending_after in_three_messages 0 ≡ None }
    ensures wrong { answers two_lines wrong_digit ≡ wrong_digit_answered }
    ensures faulty { answers two_lines faulty_digits ≡ faulty_digits_answered }
    ensures longest { answers two_lines longest_numbers ≡ longest_numbers_answered }
    ensures begun { pending_after begun_later 0 ≡ two_digits }
    ensures ended { answers two_lines ended_later ≡ ended_later_answered }
    ensures passed_on { answers two_lines passed_on_later ≡ passed_on_later_answered }
    ensures full { answers two_lines line_full_later ≡ line_full_later_answered }
    ensures own_line { answers own_line own_line_later ≡ own_line_later_answered }
    ensures room { answers (one_line 1) room_later ≡ room_later_answered }
    ensures no_port { answers (one_line 0) room_later ≡ no_port_later_answered }
    ensures others { answers two_lines in_other_states ≡ in_other_states_answered }
{}

/// The definitions, evaluated on calls whose timers expire.
pub fn worked_expiries()
    ensures early { turn_of (world_in 0 offered) ≡ nothing_in 0 }
    ensures setup { turn_of (world_in 30 offered) ≡ setup_again }
    ensures waits_anew { turn_of (in_frame 31 (after_turn (world_in 30 offered))) ≡ nothing_in 31 }
    ensures setup_over { turn_of (in_frame 60 (after_turn (world_in 30 offered))) ≡ setup_over }
    ensures proceeding { turn_of (world_in 30 proceeds) ≡ proceeding_over }
    ensures two_records { turn_of (world_in 30 both_proceed) ≡ both_over }
    ensures alerting { turn_of (world_in 30 alerted) ≡ alerting_over }
    ensures alerted_again { turn_of alerted_again ≡ alerting_over }
    ensures answered { turn_of answered_in_time ≡ nothing_in 30 }
    ensures digits { turn_of (world_in 30 begun_on_both) ≡ digits_over }
    ensures release { turn_of (in_frame 60 first_turn) ≡ released 60 }
    ensures release_again { turn_of (in_frame 90 second_turn) ≡ released 90 }
    ensures gone { turn_of (in_frame 120 third_turn) ≡ nothing_in 120 }
    ensures unconfirmed { (after_turn (in_frame 120 third_turn)).legs ≡ none_left (at 1 0 ∷ at 0 0 ∷ []) }
    ensures restarted { reply hasty_lines (after_turn (in_frame 120 third_turn)) (LinkUp 1) ≡ sends_reply (restart_of_line 1 ∷ []) }
{}

/// The definitions, evaluated on calls on lines whose data links go down and come up.
pub fn worked_links()
    ensures alerted { down_while_alerted ≡ alerted_dropped }
    ensures refused { call_to_down ≡ refused_as_down }
    ensures own_line { answers own_line own_line_down ≡ own_line_dropped }
    ensures outage { turn_of (world_in 30 outage) ≡ outage_over }
    ensures again { option_map (λ leg. leg.since) (leg_at down_again.legs (at 1 0)) ≡ Some 0 }
    ensures up { reply hasty_lines (world_in 20 outage) (LinkUp 1) ≡ state_enquired }
    ensures in_time { turn_of (in_frame 30 up_again) ≡ nothing_in 30 }
    ensures reset { reset_while_dialling ≡ sends_reply (cleared_with 0 0xA9 ∷ []) }
{}

/// The definitions, evaluated on outages after which both sides have the same calls.
pub fn worked_outages()
    ensures clearing { turn_of (world_in 30 cleared_as_it_fails) ≡ sent_in 30 (asked_to_release ∷ []) }
    ensures clearing_again { turn_of (in_frame 60 release_asked) ≡ sent_in 60 (asked_to_release ∷ []) }
    ensures given_up { turn_of (in_frame 90 release_asked_again) ≡ nothing_in 90 }
    ensures restarted { reply hasty_lines release_given_up (LinkUp 1) ≡ sends_reply (restart_of_line 1 ∷ []) }
    ensures released { reply hasty_lines (in_frame 90 release_asked_again) (LinkUp 1) ≡ sends_reply (asked_to_release ∷ []) }
    ensures waits_anew { turn_of up_before_given_up ≡ nothing_in 90 }
    ensures left { option_map (λ leg. leg.state) (leg_at released_anew.legs (at 1 0)) ≡ Some 19 }
    ensures over { turn_of (in_frame 120 released_anew) ≡ nothing_in 120 }
    ensures gone { (after_turn (in_frame 120 released_anew)).legs ≡ none_left (at 1 0 ∷ []) }
    ensures alerted { alerted_then_up ≡ sends_reply (restart_of_line 1 ∷ []) }
    ensures beside { reply hasty_lines (world_in 9 beside_conversation) (LinkUp 1) ≡ one_restarted }
    ensures late { up_too_late ≡ sends_reply (restart_of_line 1 ∷ []) }
    ensures reported { reply hasty_lines (world_in 9 connect_lost) (reports 1) ≡ both_cleared }
    ensures confirmed { reply hasty_lines (world_in 9 connect_lost) (reports 10) ≡ sends_reply [] }
    ensures ended { reply hasty_lines confirmed (reports 1) ≡ sends_reply [] }
    ensures unasked { reply hasty_lines (world_in 9 answered) (reports 1) ≡ sends_reply [] }
    ensures answered { turn_of (world_in 30 answered_on_down) ≡ lost_after_answer }
    ensures both_lost { turn_of (world_in 30 both_down) ≡ lost_after_answer }
{}

/// The definitions, evaluated on lines that the exchange restarts.
pub fn worked_line_restarts()
    ensures conversation { reply hasty_lines (world_in 9 answered) (RestartLine 1)
        ≡ records_reply (cleared_with 0 0xA9 ∷ restart_of_line 1 ∷ []) restarted_conversation }
    ensures called_again { reply hasty_lines conversation_restarted call_after_restart ≡ offered_on_first 0x82 }
    ensures down { reply hasty_lines (world_in 9 down_in_conversation) (RestartLine 1)
        ≡ records_reply (cleared_with 0 0xA9 ∷ []) restarted_conversation }
    ensures up { reply hasty_lines restarted_while_down (LinkUp 1) ≡ sends_reply (restart_of_line 1 ∷ []) }
    ensures empty { reply hasty_lines (world_in 9 []) (RestartLine 1) ≡ sends_reply (restart_of_line 1 ∷ []) }
    ensures called { reply hasty_lines (world_in 9 (RestartLine 1 ∷ [])) call_after_restart ≡ offered_on_first 0x81 }
    ensures own_line { answers own_line own_line_restarted ≡ own_line_restart_answered }
{}

/// The definitions, evaluated on RESTARTs that users acknowledge, or do not acknowledge before the data link comes up.
pub fn worked_acknowledgements()
    ensures repeated { reply hasty_lines line_restarted (LinkUp 1) ≡ sends_reply (restart_of_line 1 ∷ []) }
    ensures acknowledged { reply hasty_lines (next hasty_lines line_restarted whole_line_acknowledged) (LinkUp 1) ≡ sends_reply [] }
    ensures one_acknowledged { reply hasty_lines (next hasty_lines line_restarted second_acknowledged) (LinkUp 1)
        ≡ sends_reply (restart_of_line 1 ∷ []) }
    ensures without_reply { reply hasty_lines line_restarted whole_line_acknowledged ≡ sends_reply [] }
    ensures beside_a_call { reply hasty_lines lost_beside_conversation (LinkUp 1) ≡ one_restarted }
    ensures one_confirmed { reply hasty_lines (next hasty_lines lost_beside_conversation second_acknowledged) (LinkUp 1) ≡ only_enquired }
    ensures other_confirmed { reply hasty_lines (next hasty_lines lost_beside_conversation third_acknowledged) (LinkUp 1) ≡ one_restarted }
    ensures owed { reply hasty_lines (next hasty_lines restarted_while_down whole_line_acknowledged) (LinkUp 1) ≡ sends_reply (restart_of_line 1 ∷ []) }
{}

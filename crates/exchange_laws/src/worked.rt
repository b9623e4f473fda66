//! A call over data links, and worked frames of an answered call, on which the theorems are evaluated.
ghost use Rattle.std.specs.Prelude.{◌≡◌, None, Some, [], ◌∷◌, option_map, replicate};
ghost use Rattle.exchange_events.specs.declared.trace.Event.TheVariants.{Message};
ghost use Rattle.call_profile.specs.WorkedCalls.{two_lines};
ghost use Rattle.link_table.specs.Tables.{link_of};
ghost use Rattle.linked_exchange.specs.Steps.{derived, next_joint};
ghost use Rattle.report_text.specs.Report.{on_line};
ghost use Rattle.privacy.specs.Worked.{three_lines};
ghost use Rattle.exchange_laws.specs.OtherLinks.{IsOnLink, messages_of_step};
ghost use Rattle.exchange_laws.specs.Printed.{item};
ghost use Rattle.exchange_laws.specs.Worked.{call_in_a_frame, established_links, offered, setup, usual_timers};
ghost use Rattle.exchange_laws.specs.Worked.{caller_differs, first_run, stranger_differs};

/// A frame on line 0 delivers a SETUP (`delivered`), by which call control sends a SETUP to line 1 (`sent`). So the queue of
/// the link of line 1 has this message, although the frame is not on that link (`off`, `queued`).
pub fn worked_delivery()
    ensures ended { established_links.links.receiving ≡ None }
    ensures off { ¬ IsOnLink 1 established_links call_in_a_frame }
    ensures delivered { derived usual_timers established_links call_in_a_frame ≡ Message 0 setup ∷ [] }
    ensures sent { messages_of_step two_lines usual_timers established_links call_in_a_frame 1 ≡ offered ∷ [] }
    ensures queued { option_map (λ l. l.queue.waiting)
        (link_of 1 (next_joint two_lines usual_timers established_links call_in_a_frame).links) ≡ Some (offered ∷ []) }
{}

/// The items of frame 2 of three frames after an answer. The item of the called line has the octet that the caller sent two
/// frames before (`called`). It is the same if a third line sends other octets (`stranger`), and another one if the caller
/// does (`partner`). The third line hears no slot, so it has no item (`third`).
pub fn worked_items()
    ensures called { item (λ kind. []) three_lines first_run 2 1 ≡ on_line 1 (0x11 ∷ replicate 29 0xD5) }
    ensures stranger { item (λ kind. []) three_lines stranger_differs 2 1 ≡ on_line 1 (0x11 ∷ replicate 29 0xD5) }
    ensures partner { item (λ kind. []) three_lines caller_differs 2 1 ≡ on_line 1 (0x41 ∷ replicate 29 0xD5) }
    ensures third { item (λ kind. []) three_lines first_run 2 2 ≡ [] }
{}

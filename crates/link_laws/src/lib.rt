//! Theorems on the data link of ITU-T Q.921 (09/97), over wires that lose frames and preserve their order.
//!
//! The main theorem is [`in_order_or_told`]: from their start and across establishments, two links as `link_procedures`
//! defines them deliver each other's messages at most once and in order. The wires carry their octets. An epoch is what a
//! side submits between two indications to its layer 3. Only the last messages of an epoch can be lost, and none of the
//! newest epoch while the link is up. The condition is that T200 is longer than the round trip.
//!
//! Both links are the network side here, and each reads by `reading Network`. A link of a user has the other C/R bit in
//! each frame, and differs in nothing else. `exchange_laws` proves it (`sides_are_alike`), and the main theorem for each
//! line of a running exchange and its user (`in_order_on_a_line`).
//!
//! - [`in_order`]: between two establishments each message arrives at most once and in order, and a message counts as
//!   acknowledged only if it arrived (`prefix`, `arrived`, `window`).
//! - [`numberings_agree`]: an accepted I or S frame has the numberings of its receiver, across establishments. The
//!   condition is that T200 is longer than the round trip.
//! - [`links_follow_the_handshake`]: two links, from their start and across establishments, are the sides of which
//!   `numberings_agree` speaks.
//! - [`in_order_between_links`]: between two establishments, two links deliver each other's messages at most once and in
//!   order, also if T200 is shorter.
//! - [`waiting_is_undelivered`]: between two establishments, the queue of a link without unacknowledged I frames holds
//!   exactly the messages that have not arrived.
//! - [`law_of_silent_renumbering`]: if V(R) returns to 0 without an indication, all messages go on waiting, and no frame
//!   was unacknowledged.
#![tactic(auto)]

ghost use Rattle.std.specs.Prelude.{◌+◌, ◌≤◌, ℕ, List, length};
ghost use Rattle.link_frames.specs.declared.frame.Frame.{Frame};
ghost use Rattle.link_frames.specs.Reading.{IsNumbered};
ghost use Rattle.link_procedures.specs.Links.{Step};
ghost use Rattle.link_procedures.specs.Receiving.{received};
ghost use Rattle.link_laws.specs.Renumbering.{IsSilent};
ghost use Rattle.link_laws.specs.Window.{Event, IsInOrder, after};
ghost use Rattle.link_laws.specs.Handshake as handshake;
ghost use Rattle.link_laws.specs.Numberings.{IsStart, IsTimely, FollowsSome, run as run_links};
ghost use Rattle.link_laws.specs.TwoLinks as links;
ghost use Rattle.link_laws.specs.Epochs as epochs;

/// For every loss and every time of a retransmission, the messages that arrived are a prefix of the submitted ones,
/// each once. All acknowledged messages arrived, and at most 7 more.
pub fn in_order()
    ensures prefix { (events : List Event) → IsInOrder (after events) }
    ensures arrived { (events : List Event) → (after events).acknowledged ≤ length (after events).delivered }
    ensures window { (events : List Event) → length (after events).delivered ≤ (after events).acknowledged + 7 }
{}

/// An I or S frame that arrives at a side with a link has the numbering that the side expects, for every loss. Its N(R)
/// has the numbering of the side's own frames.
pub fn numberings_agree()
    ensures { (events : List handshake.Event) → handshake.IsAgreed (handshake.run events handshake.start) }
{}

/// For every loss and every time, until a link leaves multiple frame operation: the messages that a link delivered are
/// a prefix of the messages submitted to the other one. The messages that left the sender's queue arrived, and at most
/// 7 more. The links begin with all numbers at 0, and nothing is on the wires.
pub fn in_order_between_links()
    ensures { (events : List links.Event) (p : links.Pair) → links.IsFresh p → links.IsDeliveredBothWays (links.run events p) }
{}

/// For every loss and every time, until a link leaves multiple frame operation: if a link has no unacknowledged I frame,
/// its queue holds exactly the messages that have not arrived. So a new numbering loses no message and repeats none.
pub fn waiting_is_undelivered()
    ensures { (events : List links.Event) (p : links.Pair) → links.IsFresh p → links.WaitsBothWays (links.run events p) }
{}

/// For every loss, two links establish and re-establish as the sides of the handshake do, and their wires carry its
/// frames. So [`numberings_agree`] holds of them. The premise is that T200 does not expire in state 5 while SABME or its
/// UA is on a wire.
pub fn links_follow_the_handshake()
    ensures { (events : List links.Event) (p : links.Pair) → IsStart p → IsTimely events p → FollowsSome (run_links events p) }
{}

/// If a frame that delivers nothing changes V(R) without an indication, it begins a new numbering. Then no I frame was
/// unacknowledged, and the messages go on waiting.
pub fn law_of_silent_renumbering()
    ensures { (f : Frame) (at : ℕ) (s : Step) → IsNumbered f.control → IsSilent s.link (received f at s) }
{}

/// For every loss and across establishments, each message is delivered at most once and in order. A side can lose only the
/// last messages that it submits before an indication (`order`). While a link is up, no message since the last indication
/// is lost: those that left the queue were delivered, and of the others at most the unacknowledged ones (`arrived`). A step
/// begins with a frame, a turn or neither, and layer 3 submits any messages in it. The premise is that T200 does not expire
/// in state 5 while SABME or its UA is on a wire.
pub fn in_order_or_told()
    ensures order { epochs.Always epochs.IsInOrderOrTold }
    ensures arrived { epochs.Always epochs.HasArrivedBothWays }
{}

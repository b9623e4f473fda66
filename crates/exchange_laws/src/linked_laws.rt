//! Theorems on an exchange with data links: these functions do nothing, and their contracts are the theorems.
//!
//! The exchange is the pair of its exchange state and its links, `Joint`. Each call of `LinkedExchange` changes it as
//! `next_joint` defines (`step`).
ghost use Rattle.std.specs.Prelude.{◌≡◌, Bool, List, ℕ};
ghost use Rattle.circuit_model.specs.FrameInput.{Input};
ghost use Rattle.exchange_events.specs.Sizes.{Setting};
ghost use Rattle.exchange_events.specs.Sound.{IsPlanned};
ghost use Rattle.link_frames.specs.declared.frame.Frame.{Frame};
ghost use Rattle.link_frames.specs.declared.frame.Sender.TheVariants.{Network, User};
ghost use Rattle.link_frames.specs.Reading.{reading};
ghost use Rattle.link_frames.specs.Writing.{encoding};
ghost use Rattle.link_procedures.specs.declared.state.LinkTimers.{LinkTimers};
ghost use Rattle.linked_exchange.specs.Steps.{LinkedInput};
ghost use Rattle.linked_exchange.specs.Runs.{joint_after_all, start_joint};
ghost use Rattle.exchange_laws.specs.Lasting.{LastsOnLinks};
ghost use Rattle.exchange_laws.specs.Layers.{AreInputs, LayersAgree, OwesIfDown, ReleasesFirst};
ghost use Rattle.exchange_laws.specs.Peers.{AlwaysOn, HasArrived, IsInOrderOrTold};
ghost use Rattle.exchange_laws.specs.Sides.{as_user};

/// After any inputs, a line is down for call control if and only if its link is not up and owes call control no
/// indication of a loss. A link that owes one is not up. The next change of the line that call control is informed of is a
/// release, and until then the link owes it (`first`). The line begins with a link, and no other input changes it.
pub fn layers_agree()
    ensures down { (s : Setting) (timers : LinkTimers) (linked : List Bool) (line : ℕ) (is : List LinkedInput)
        → AreInputs s linked line is → LayersAgree line (joint_after_all s timers (start_joint s linked) is) }
    ensures owing { (s : Setting) (timers : LinkTimers) (linked : List Bool) (line : ℕ) (is : List LinkedInput)
        → AreInputs s linked line is → OwesIfDown line (joint_after_all s timers (start_joint s linked) is) }
    ensures first { (s : Setting) (timers : LinkTimers) (linked : List Bool) (line : ℕ) (is : List LinkedInput)
        → AreInputs s linked line is → ReleasesFirst s timers line (joint_after_all s timers (start_joint s linked) is) }
{}

/// After any inputs, a frame changes no leg in state 10, and neither its connection nor its membership, if the data links
/// of its line and of the line of the other leg of its call are up. Both lines begin with a link, and no other input
/// changes it. The links of all other lines may fail. So T309 ends no such call.
pub fn calls_last()
    ensures { (s : Setting) (timers : LinkTimers) (linked : List Bool) (is : List LinkedInput) (input : Input)
        → IsPlanned s → LastsOnLinks s timers linked is input }
{}

/// On a line with a data link, for every loss and across establishments, each message is delivered at most once and in
/// order, both ways. Only the last messages before an indication to the sender can be lost (`order`). While a link is up,
/// no message since the last indication is lost (`arrived`). All other lines do anything.
///
/// The premises are that only the user sends on the line, that a message of call control has at most 112 octets, and
/// that T200 does not expire in state 5 while SABME or its UA is on a wire. The user has a link of `link_procedures`.
pub fn in_order_on_a_line()
    ensures order { AlwaysOn IsInOrderOrTold }
    ensures arrived { AlwaysOn HasArrived }
{}

/// The exchange reads the octets of its user as the user reads the same octets with the other C/R bit (`read`). A frame
/// of the user has this C/R bit (`written`).
pub fn sides_are_alike()
    ensures read { (octets : List ℕ) → reading User (as_user octets) ≡ reading Network octets }
    ensures written { (f : Frame) → as_user (encoding Network f) ≡ encoding User f }
{}

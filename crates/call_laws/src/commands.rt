//! Theorems on the commands of a trace.
ghost use Rattle.std.specs.Prelude.{◌≡◌, ◌↔◌, ℕ, true, Contains};
ghost use Rattle.circuit_model.specs.declared.channel.Slot.{Slot};
ghost use Rattle.exchange_events.specs.declared.reply.Reply.TheVariants.{NoPort};
ghost use Rattle.exchange_events.specs.declared.trace.Event.{Event};
ghost use Rattle.exchange_events.specs.declared.trace.Event.TheVariants.{Nail, Seat};
ghost use Rattle.exchange_events.specs.Sizes.{Setting};
ghost use Rattle.call_profile.specs.Answered.{AreNailed, IsGranted};
ghost use Rattle.call_profile.specs.IdleSlots.{idle};
ghost use Rattle.call_profile.specs.IsMade.{IsMade};
ghost use Rattle.call_profile.specs.Refused.{refuses, AllAreTaken};
ghost use Rattle.call_profile.specs.Step.{reply, next};
ghost use Rattle.call_profile.specs.World.{World, is_full};

/// A refused command changes nothing: no slot, no leg and no path. A seat is refused with `NoPort` if and only if the
/// slot is idle and the number of members equals the number of ports. In every exchange state that events make, each
/// port then has a member.
pub fn law_of_refusals()
    ensures world { (s : Setting) (w : World) (e : Event) → refuses (reply s w e) ≡ true → next s w e ≡ w }
    ensures no_port { (s : Setting) (w : World) (x : Slot) (room : ℕ)
        → (reply s w (Seat x room) ≡ NoPort) ↔ ((idle w x ≡ true) × (is_full s.dimensions w ≡ true)) }
    ensures full { (s : Setting) (w : World) → IsMade s.dimensions s.tones w
        → (is_full s.dimensions w ≡ true) ↔ AllAreTaken s.dimensions.bridges w.ports }
{}

/// A nail of two idle slots is always granted, and gets both paths: from the next frame on each slot is connected with
/// the other.
pub fn law_of_granted_nails()
    ensures granted { (s : Setting) (w : World) (x y : Slot) → idle w x ≡ true → idle w y ≡ true → IsGranted (reply s w (Nail x y)) }
    ensures both { (s : Setting) (w : World) (x y : Slot) → idle w x ≡ true → idle w y ≡ true → AreNailed w (next s w (Nail x y)) x y }
{}

//! The theorem on the ends of calls: the function does nothing, and its contract is the theorem.
ghost use Rattle.std.specs.Prelude.{◌≡◌, ◌≢◌, ◌⊎◌, ◌↔◌, ℕ, List};
ghost use Rattle.circuit_model.specs.declared.channel.Slot.{Slot};
ghost use Rattle.q931_codec.specs.CallStates.{active};
ghost use Rattle.call_states.specs.declared.leg.Leg.{Leg};
ghost use Rattle.exchange_events.specs.declared.trace.Event.TheVariants.{LinkDown, LinkUp, Message, RestartLine};
ghost use Rattle.exchange_events.specs.Sizes.{Setting};
ghost use Rattle.call_profile.specs.Step.{next};
ghost use Rattle.call_profile.specs.World.{World};
ghost use Rattle.privacy.specs.Ending.{IsEnding, Lasts};
ghost use Rattle.privacy.specs.Premises.{IsStep};
ghost use Rattle.privacy.specs.Undisturbed.{AreCalling};

/// A call of two legs lasts when a data link is established (`up`). An answered call lasts when a data link fails (`down`).
/// Of all messages for one of its two legs only DISCONNECT, RELEASE, RELEASE COMPLETE and a STATUS that reports the null
/// state end it, and so does the first STATUS after an outage, if it reports another state than active. A RESTART of one of
/// its two slots ends it too (`messages`). The restart of a line by the exchange ends a call if and only if a leg of the call
/// is on the line (`restart`).
pub fn law_of_call_ends()
    ensures up { (s : Setting) (w : World) (line : ℕ) (x y : Slot) (caller called : Leg) → IsStep s w (LinkUp line)
        → AreCalling s.dimensions.external w x y caller called → Lasts s (next s w (LinkUp line)) x y caller called }
    ensures down { (s : Setting) (w : World) (line : ℕ) (x y : Slot) (caller called : Leg) → IsStep s w (LinkDown line)
        → AreCalling s.dimensions.external w x y caller called → caller.state ≡ active
        → Lasts s (next s w (LinkDown line)) x y caller called }
    ensures messages { (s : Setting) (w : World) (line : ℕ) (octets : List ℕ) (x y : Slot) (caller called : Leg)
        → IsStep s w (Message line octets) → AreCalling s.dimensions.external w x y caller called
        → Lasts s (next s w (Message line octets)) x y caller called ⊎ IsEnding w x y line octets }
    ensures restart { (s : Setting) (w : World) (line : ℕ) (x y : Slot) (caller called : Leg) → IsStep s w (RestartLine line)
        → AreCalling s.dimensions.external w x y caller called
        → Lasts s (next s w (RestartLine line)) x y caller called ↔ ((x.line ≢ line) × (y.line ≢ line)) }
{}

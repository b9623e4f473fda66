// Theorems on the definitions only: these functions do nothing, and their contracts are the theorems.
ghost use Rattle.std.specs.Prelude.{◌≡◌, ◌<◌, ℕ, IfSome, is_some};
ghost use Rattle.circuit_model.specs.Channels.{place_of};
ghost use Rattle.q931_codec.specs.declared.message.Message.{Message};
ghost use Rattle.q931_codec.specs.Contents.{is_bearer_channel};
ghost use Rattle.q931_codec.specs.Outgoing.{IsWritable};
ghost use Rattle.call_states.specs.declared.leg.Leg.{Leg};
ghost use Rattle.call_states.specs.Acts.{act_on, cause_of_act};
ghost use Rattle.call_states.specs.Status.{status, FitsMessages};

/// The cause that a message passes on fits a message.
pub fn law_of_passed_causes()
    ensures { (state : ℕ) (m : Message) → IfSome (cause_of_act (act_on state m)) (λ cause. cause < 128) }
{}

/// A channel identification can contain the channels that have a place among the 30 of their line, and no others.
pub fn law_of_channels()
    ensures { (channel : ℕ) → is_bearer_channel channel ≡ is_some (place_of channel) }
{}

/// The STATUS to a leg can be written.
pub fn law_of_status()
    ensures { (leg : Leg) (cause : ℕ) → FitsMessages leg → cause < 128 → IsWritable (status leg cause) }
{}

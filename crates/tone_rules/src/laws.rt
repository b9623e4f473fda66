// Theorems on the definitions only: these functions do nothing, and their contracts are the theorems.
ghost use Rattle.std.specs.Prelude.{◌≡◌, [], ◌∷◌, ℕ, Some, None, IfSome};
ghost use Rattle.circuit_model.specs.declared.circuit.Kind.TheVariants.{Ringback, Busy};
ghost use Rattle.q931_codec.specs.CallStates.{active, call_delivered, call_received, disconnect_indication};
ghost use Rattle.q931_codec.specs.Causes.{normal_call_clearing, user_busy};
ghost use Rattle.tone_rules.specs.declared.tones.Tones.{Tones};
ghost use Rattle.tone_rules.specs.Tables.{IsGiven, no_tones, with_octets};
ghost use Rattle.tone_rules.specs.CallTones.{tone_for, tone_given};

/// The tones of a few states, with worked octets.
pub fn worked_tones()
    ensures alerting { (cause : ℕ) → tone_for call_delivered cause ≡ Some Ringback }
    ensures busy { tone_for disconnect_indication user_busy ≡ Some Busy }
    ensures cleared { tone_for disconnect_indication normal_call_clearing ≡ None }
    ensures called { (cause : ℕ) → tone_for call_received cause ≡ None }
    ensures talking { (cause : ℕ) → tone_for active cause ≡ None }
    ensures given { tone_given (with_octets no_tones Ringback (0x11 ∷ [])) call_delivered 0 ≡ Some Ringback }
    ensures not_given { tone_given (with_octets no_tones Ringback (0x11 ∷ [])) disconnect_indication user_busy ≡ None }
{}

/// A tone that a slot gets has octets.
pub fn law_of_given_tones()
    ensures { (tones : Tones) (state cause : ℕ) → IfSome (tone_given tones state cause) (IsGiven tones) }
{}

//! Theorems on the mix: small rooms, and the order of the places.

ghost use Rattle.std.specs.Prelude.{◌≡◌, ℕ, ◌<◌, List, [], ◌∷◌, Option, IsPermutation};
ghost use Rattle.circuit_model.specs.FrameInput.{idle_octet};
ghost use Rattle.circuit_model.specs.Hears.{sum_of_values};
ghost use Rattle.conference_mix.specs.Bridge.{others, mixed_for};

/// Theorem: a member without others receives the idle octet. One with a single other receives the octets that the other
/// sends, as on a connection of two.
pub fn law_of_small_rooms()
    ensures alone { (members : List (Option ℕ)) (k : ℕ) → others k members ≡ [] → mixed_for k members ≡ idle_octet }
    ensures pair { (members : List (Option ℕ)) (k octet : ℕ) →
        octet < 256 → others k members ≡ octet ∷ [] → mixed_for k members ≡ octet }
{}

/// Theorem: a sum of values does not depend on the order of the octets. Neither does a mix.
pub fn law_of_order()
    ensures { (before after : List ℕ) → IsPermutation before after → sum_of_values before ≡ sum_of_values after }
{}

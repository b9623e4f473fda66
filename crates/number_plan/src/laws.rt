// Theorems on the definitions.
ghost use Rattle.std.specs.Prelude.{◌≡◌, ◌↔◌, ◌⊎◌, ℕ, Bool, true, false, List};
ghost use Rattle.number_plan.specs.declared.plan.Number.{Number};
ghost use Rattle.number_plan.specs.declared.target.Target.{Target};
ghost use Rattle.number_plan.specs.Plan.{in_order, with_number, found_for, is_number_taken, AllPass, AreApart, IsHeld, PassesTest};

/// In a plan in order no number begins another. A number that is not taken joins such a plan in its place: the plan is
/// in order again, and has the earlier numbers and this one.
pub fn law_of_order()
    ensures apart { (plan : List Number) → in_order plan ≡ true → AreApart plan }
    ensures kept { (plan : List Number) (n : Number) → in_order plan ≡ true → is_number_taken plan n.digits ≡ false → in_order (with_number plan n) ≡ true }
    ensures held { (plan : List Number) (n m : Number) → IsHeld (with_number plan n) m ↔ (IsHeld plan m ⊎ (m ≡ n)) }
{}

/// If all targets of a plan and a new one pass a test, so do the targets of the plan with the new one. The target that
/// a lookup finds passes it too.
pub fn law_of_targets()
    ensures kept { (test : Target → Bool) (plan : List Number) (n : Number) → AllPass test plan → test n.target ≡ true → AllPass test (with_number plan n) }
    ensures found { (test : Target → Bool) (plan : List Number) (digits : List ℕ) → AllPass test plan → PassesTest test (found_for plan digits) }
{}

//! Laws of the types, for the proofs above. Each function does nothing; its contract is the law.
ghost use Rattle.std.specs.Prelude.{◌≡◌, ◌↔◌, true};

use crate::verdict::Verdict;

/// Lemma: `==` on verdicts is true if and only if both are of the same kind and all their fields
/// are equal.
pub fn verdicts_compare()
    ensures { (x y : Verdict) → (⟦<Verdict as PartialEq>⟧.eq x y ≡ true) ↔ (x ≡ y) }
{}

//! Laws of the cubic's definition alone, so that it is known to say what is meant. The functions do nothing.

ghost use Rattle.std.specs.Prelude.{◌≡◌, ◌↔◌, ℕ, ◌+◌, ◌*◌, ◌<◌, ◌≤◌, pos, unsigned_abs};
ghost use Rattle.easing_fixed.specs.Cubics.{CubicParts, across, IsPlace, place, cubic_value};
ghost use Rattle.anim_names.specs.declared.progress.TheConstants.{ONE};
ghost use Rattle.easing_fixed.specs.declared.TheConstants.{END};

/// Along a curve, in however many steps, each is farther across than the one before.
pub fn across_rises()
    ensures { (n x1 x2 r s : ℕ) → x1 ≤ END → x2 ≤ END → r < s → s ≤ n
        → across n x1 x2 r < across n x1 x2 s }
{}

/// There is one greatest step that is not past a progress, and the definition computes it.
pub fn place_is_greatest()
    ensures { (x1 x2 p s : ℕ) → x1 ≤ END → x2 ≤ END → (IsPlace x1 x2 p s ↔ (s ≡ place x1 x2 p)) }
{}

/// Where the curve is exactly p across at the fraction a / b of its way, the place is that fraction of the steps,
/// rounded down.
pub fn place_brackets_the_root()
    ensures { (x1 x2 p a b : ℕ) → x1 ≤ END → x2 ≤ END → a ≤ b → 1 ≤ b
        → across b x1 x2 a * ONE ≡ p * (b * b * b * END)
        → (place x1 x2 p * b ≤ ONE * a) × (ONE * a < (place x1 x2 p + 1) * b) }
{}

/// Whatever the control points are, a cubic gives 0 at 0 and 1 at 1.
pub fn ends_are_kept()
    ensures { (c : CubicParts) → unsigned_abs c.x1 ≤ END → unsigned_abs c.x2 ≤ END
        → (cubic_value c 0 ≡ pos 0) × (cubic_value c ONE ≡ pos ONE) }
{}

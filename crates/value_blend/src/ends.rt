//! A blend keeps its ends.

ghost use Rattle.std.specs.Prelude.{◌≡◌, ℕ, ℤ, pos};
ghost use Rattle.anim_names.specs.declared.progress.TheConstants.{ONE};
ghost use Rattle.value_blend.specs.Blends.{IsNumber, IsOpacity, blend_number, blend_opacity};

/// At 0 a blend is the value that it comes from, and at [`anim_names::ONE`] the value that it goes to.
pub fn ends_are_kept()
    ensures number_begin { (from to : ℤ) → IsNumber from → blend_number from to (pos 0) ≡ from }
    ensures number_end { (from to : ℤ) → IsNumber to → blend_number from to (pos ONE) ≡ to }
    ensures opacity_begin { (from to : ℕ) → IsOpacity from → blend_opacity from to (pos 0) ≡ from }
    ensures opacity_end { (from to : ℕ) → IsOpacity to → blend_opacity from to (pos ONE) ≡ to }
{}

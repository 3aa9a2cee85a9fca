//! The trait of values that a curve can have: a blend, a copy, and the laws that a blend of two keeps.

ghost use Rattle.std.specs.Prelude.{◌≡◌, ◌≤◌, ℤ, pos, unsigned_abs, Bool, false, IsOk, IfOk};
ghost use Rattle.anim_names.specs.declared.progress.TheConstants.{ONE};
ghost use Rattle.value_blend.specs.declared.TheConstants.{LARGEST_PROGRESS};

use std::alloc::AllocError;

/// A value that keys of a curve can have: between two of them there are others.
///
/// `is_value` is what is true of every value, `blended` is what a blend of two gives, and two values that look the same
/// are `alike`. A blend begins alike to the value that it comes from and ends alike to the one that it goes to.
pub trait Blend {
    /// Whether a blend or a copy may ask for memory.
    const TAKES_MEMORY: bool;

    ghost TAKES_MEMORY: { Bool };

    ghost is_value: { Self → Type 0 };

    ghost blended: { Self → Self → ℤ → Self };

    ghost alike: { Self → Self → Type 0 };

    /// The value that lies at a progress of the way from one value to the other. The progress is in units of which
    /// [`anim_names::ONE`] is the whole way; below 0 and above it the blend goes on past its ends, as far as it may.
    fn blend(from: &Self, to: &Self, progress: i64) -> Result<Self, AllocError>
        requires { unsigned_abs progress ≤ LARGEST_PROGRESS }
        ensures value { IfOk result (λ value. value ≡ blended from.now to.now progress) }
        ensures without_memory { TAKES_MEMORY ≡ false → IsOk result };

    /// An equal value.
    fn copy(&self) -> Result<Self, AllocError>
        ensures value { IfOk result (λ value. value ≡ self.now) }
        ensures without_memory { TAKES_MEMORY ≡ false → IsOk result };

    /// Does nothing. What is true of every value, its clause says of this one.
    fn vouch(&self)
        ensures { is_value self.now };

    ghost begins_alike: { (from to : Self) → is_value from → is_value to → alike (blended from to (pos 0)) from };

    ghost ends_alike: { (from to : Self) → is_value from → is_value to → alike (blended from to (pos ONE)) to };
}

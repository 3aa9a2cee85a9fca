//! One key of a curve, and the value between it and the next one. Its easing bends the way to that one alone.

ghost use Rattle.std.specs.Prelude.{◌≡◌, ◌≤◌, ◌<◌, false, IfOk, IsOk};
ghost use Rattle.micro_time.specs.declared.TheConstants.{LONGEST_DURATION};

use anim_names::ONE;
use easing_fixed::{Easing, EasingFunction, Evaluator};
use std::alloc::AllocError;
use value_blend::Blend;

/// A value at a time of a curve.
#[derive(Drop)]
pub struct Key<V> {
    /// Microseconds from the beginning of the curve.
    pub time: u64,
    /// Bends the progress from this key to the next. The last key's is kept and never used.
    pub easing: Easing,
    pub value: V,
}

impl<V> Key<V> {
    ghost use Rattle.curve_keys.specs.Curves.{progress_between};

    // How far a time between this key and the next has come, in units of which ONE is the whole way.
    pub(crate) fn progress_to(&self, next: &Key<V>, time: u64) -> u32
        requires begun { self.now.time ≤ time }
        requires not_over { time < next.now.time }
        requires short { next.now.time ≤ LONGEST_DURATION }
        ensures value { result ≡ progress_between self.now next.now time }
        ensures within { result ≤ ONE }
    {
        ((time - self.time) * u64::from(ONE) / (next.time - self.time)) as u32
    }
}

impl<V: Blend> Key<V> {
    ghost use Rattle.easing_fixed.specs.Easings.{eased};
    ghost use Rattle.curve_keys.specs.Curves.{progress_between};

    // The value at a time between this key and the next.
    pub(crate) fn value_before<E: EasingFunction>(
        &self,
        next: &Key<V>,
        time: u64,
        evaluator: &Evaluator<E>,
    ) -> Result<V, AllocError>
        requires begun { self.now.time ≤ time }
        requires not_over { time < next.now.time }
        requires short { next.now.time ≤ LONGEST_DURATION }
        ensures value { IfOk result (λ value. value
            ≡ V.blended self.now.value next.now.value (eased self.now.easing (progress_between self.now next.now time))) }
        ensures without_memory { V.TAKES_MEMORY ≡ false → IsOk result }
    {
        let progress = evaluator.ease(&self.easing, self.progress_to(next, time));
        V::blend(&self.value, &next.value, progress)
    }
}

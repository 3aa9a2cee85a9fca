//! A stored function for easings, behind a trait that names its contract. Every stored function gives what the easing
//! gives, so only the time that it takes differs.

ghost use Rattle.std.specs.Prelude.{◌≡◌, ℕ, ◌*◌, ◌≤◌, ℤ, unsigned_abs};
ghost use Rattle.std.specs.Borrow.{Bor};
ghost use Rattle.easing_fixed.specs.declared.easing.Easing.{Easing};
ghost use Rattle.easing_fixed.specs.Easings.{eased};
ghost use Rattle.easing_fixed.specs.Evaluators.{MayEase, Eases};

use crate::Easing;
use anim_names::ONE;
use std::marker::Model;

/// A function of an easing and a progress: any `Fn(&Easing, u32) -> i64`.
///
/// `asks` is what a call needs, and `answers` what it may give. The trait only gives these two a name.
pub trait EasingFunction {
    ghost asks: { Self → Bor Easing → ℕ → Type 0 };

    ghost answers: { Self → Bor Easing → ℕ → ℤ → Type 0 };

    /// Calls the function.
    fn answer(&self, easing: &Easing, p: u32) -> i64
        requires { asks self.now easing p }
        ensures { answers self.now easing.entry p result };
}

impl<E: Fn(&Easing, u32) -> i64> EasingFunction for E {
    ghost asks = { λ f easing p. E.pre f easing p };

    ghost answers = { λ f easing p value. E.post f easing p value };

    fn answer(&self, easing: &Easing, p: u32) -> i64 {
        self(easing, p)
    }
}

/// A stored function that evaluates easings, whichever one the program prefers.
///
/// It can only be made of a function that gives what the definitions say, so every evaluator answers alike. It keeps
/// nothing of earlier calls. A contract sees nothing of it.
#[derive(Drop)]
pub struct Evaluator<E: EasingFunction> {
    function: E,
}

impl<E: EasingFunction> Model for Evaluator<E> {
    ghost use Rattle.easing_fixed.specs.Evaluators.{MayEase, Eases};

    ghost Value = { Unit {0} };

    ghost view = { λ e. tt };

    ghost invariant = { λ e. MayEase (E.asks e.function) × Eases (E.answers e.function) };
}

impl<E: EasingFunction> Evaluator<E> {
    /// Stores a function that may be called at every easing and every progress from 0 to [`ONE`], and gives there what
    /// the easing gives.
    pub fn new(function: E) -> Evaluator<E>
        requires may_be_called { MayEase (E.asks function) }
        requires exact { Eases (E.answers function) }
    {
        Evaluator { function }
    }

    /// What the easing gives at a progress p from 0 to [`ONE`], by the stored function.
    pub fn ease(&self, easing: &Easing, p: u32) -> i64
        requires { p ≤ ONE }
        ensures value { result ≡ eased easing.now p }
        ensures size { unsigned_abs result ≤ 10 * ONE }
    {
        easing.vouch();
        self.function.answer(easing, p)
    }
}

//! The function that main asks about each event, behind a trait that names its contract. The delegate gives a
//! verdict; main's tree drops the model.

ghost use Rattle.std.specs.Prelude.{◌≡◌};
ghost use Rattle.std.specs.Borrow.{Bor};
ghost use Rattle.anim_names.specs.declared.event.AnimEvent.{AnimEvent};
ghost use Rattle.anim_delegate.specs.declared.policy.Policy.{Policy};
ghost use Rattle.anim_delegate.specs.declared.verdict.Verdict.{Verdict};
ghost use Rattle.anim_delegate.specs.Table.{verdict_on};
ghost use Rattle.anim_delegate.specs.Delegates.{MayAsk, FollowsTable};

use crate::{Policy, Verdict};
use anim_names::AnimEvent;
use std::marker::Model;

/// A function of a policy and an event: any `Fn(Policy, &AnimEvent) -> Verdict`.
///
/// `asks` is what a call needs, and `answers` what it may give. The trait only gives these two a name.
pub trait VerdictFunction {
    ghost asks: { Self → Policy → Bor AnimEvent → Type 0 };

    ghost answers: { Self → Policy → Bor AnimEvent → Verdict → Type 0 };

    /// Calls the function.
    fn answer(&self, policy: Policy, event: &AnimEvent) -> Verdict
        requires { asks self.now policy event }
        ensures { answers self.now policy event.entry result };
}

impl<F: Fn(Policy, &AnimEvent) -> Verdict> VerdictFunction for F {
    ghost asks = { λ f policy event. F.pre f policy event };

    ghost answers = { λ f policy event verdict. F.post f policy event verdict };

    fn answer(&self, policy: Policy, event: &AnimEvent) -> Verdict {
        self(policy, event)
    }
}

/// A stored function that main asks what becomes of a model of which it hears an event.
///
/// It can only be made of a function that follows the table, so every delegate answers alike. It keeps nothing of
/// earlier calls, and drops no model itself. A contract sees nothing of it.
#[derive(Drop)]
pub struct Delegate<F: VerdictFunction> {
    function: F,
}

impl<F: VerdictFunction> Model for Delegate<F> {
    ghost use Rattle.anim_delegate.specs.Delegates.{MayAsk, FollowsTable};

    ghost Value = { Unit {0} };

    ghost view = { λ d. tt };

    ghost invariant = { λ d. MayAsk (F.asks d.function) × FollowsTable (F.answers d.function) };
}

impl<F: VerdictFunction> Delegate<F> {
    /// Stores a function that may be called at every policy and event, and gives there what the table says.
    pub fn new(function: F) -> Delegate<F>
        requires may_be_called { MayAsk (F.asks function) }
        requires exact { FollowsTable (F.answers function) }
    {
        Delegate { function }
    }

    /// What becomes of a model of this policy once main hears the event, by the stored function.
    pub fn ask(&self, policy: Policy, event: &AnimEvent) -> Verdict
        ensures { result ≡ verdict_on policy event.now }
    {
        self.function.answer(policy, event)
    }
}

//! Which event retires a model.

ghost use Rattle.anim_delegate.specs.Delegates.{MayAsk, FollowsTable};

use crate::sharing::expect_shared;
use anim_delegate::{Delegate, Policy, Verdict, VerdictFunction};
use anim_names::{AnimEvent, GroupId, ModelId};
use std::process::Abort;

fn expect_table<F: VerdictFunction + Send + Sync + Drop>(rt: &impl Abort, function: F)
    requires may_be_called { MayAsk (F.asks function) }
    requires exact { FollowsTable (F.answers function) }
{
    let delegate = Delegate::new(function);
    expect_shared(&delegate);
    let model = ModelId(1);
    let started = AnimEvent::Started {
        model,
        group: GroupId(1),
        at: 5,
        start: 5,
    };
    let finished = AnimEvent::Finished { model, at: 9 };
    let aborted = AnimEvent::Aborted { model, commit: 2 };
    let rows = [
        (Policy::Auto, Verdict::Retire, Verdict::Retire),
        (Policy::FinishedOnly, Verdict::Retire, Verdict::Keep),
        (Policy::Manual, Verdict::Keep, Verdict::Keep),
    ];
    for (policy, after_finish, after_abort) in rows {
        assert!(rt; delegate.ask(policy, &started) == Verdict::Keep);
        assert!(rt; delegate.ask(policy, &finished) == after_finish);
        assert!(rt; delegate.ask(policy, &aborted) == after_abort);
    }
}

#[test]
fn a_delegate_asks_the_stored_function(rt: HostRuntime) {
    expect_table(&rt, Policy::verdict_on);
    expect_table(
        &rt,
        |policy: Policy, event: &AnimEvent| policy.verdict_on(event),
    );
}

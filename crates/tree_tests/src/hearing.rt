//! Main's tree hears events.

ghost use Rattle.anim_delegate.specs.Delegates.{MayAsk, FollowsTable};

use crate::samples::{self, Names};
use anim_delegate::{Delegate, Policy, VerdictFunction};
use anim_names::{AnimEvent, ModelId, Property};
use main_tree::MainTree;
use std::alloc::Global;
use std::process::Abort;
use std::test::Fail;
use tree_commit::{Edit, EditFault, EditRefusal};

#[test]
fn a_finished_model_is_retired_and_an_aborted_one_stays(rt: HostRuntime) -> Result<(), Fail> {
    let mut main = MainTree::new(rt.alloc())?;
    fill(&rt, rt.alloc(), &mut main)?;
    expect_hearing(&rt, &mut main, Policy::verdict_on);
    expect_removals(&rt, &mut main);
    Ok(())
}

// Models 1 and 2, each in a group of its own and dropped once it finished.
fn fill(rt: &impl Abort, alloc: Global, main: &mut MainTree) -> Result<(), Fail> {
    make(rt, main, samples::add_timeline(1)?);
    make(rt, main, fading(rt, alloc, 1)?);
    make(rt, main, fading(rt, alloc, 2)?);
    Ok(())
}

fn make(rt: &impl Abort, main: &mut MainTree, edit: Edit) {
    assert!(rt; main.edit(&edit) == Ok(true));
}

fn fading(rt: &impl Abort, alloc: Global, id: u32) -> Result<Edit, Fail> {
    let (names, policy) = (Names(id, id, 1, 1), Policy::FinishedOnly);
    let spec = samples::model_under(rt, alloc, policy, names, None, Property::Opacity)?;
    Ok(Edit::AddModel { spec })
}

fn expect_hearing<F: VerdictFunction + Drop>(rt: &impl Abort, main: &mut MainTree, function: F)
    requires may_be_called { MayAsk (F.asks function) }
    requires exact { FollowsTable (F.answers function) }
{
    let delegate = Delegate::new(function);
    let finished = AnimEvent::Finished {
        model: ModelId(1),
        at: 5,
    };
    let aborted = AnimEvent::Aborted {
        model: ModelId(2),
        commit: 1,
    };
    assert!(rt; main.hear(&finished, &delegate));
    assert!(rt; !main.hear(&aborted, &delegate));
}

fn expect_removals(rt: &impl Abort, main: &mut MainTree) {
    expect_removal(rt, main, 2, Ok(true));
    expect_removal(rt, main, 1, Ok(false));
    expect_removal(
        rt,
        main,
        9,
        Err(EditFault::Refused(EditRefusal::ModelUnknown)),
    );
}

fn expect_removal(rt: &impl Abort, main: &mut MainTree, id: u32, answer: Result<bool, EditFault>) {
    let edit = Edit::RemoveModel { id: ModelId(id) };
    assert!(rt; main.edit(&edit) == answer);
}

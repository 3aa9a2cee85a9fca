//! What the table of elements is told as commits change, and as groups start.

ghost use Rattle.std.specs.Prelude.{◌≡◌, ◌⊎◌, ◌≤◌, ℕ, true, false, length, None, Some, OnOk};
ghost use Rattle.host_tables.specs.Elements.{AreSet};
ghost use Rattle.anim_names.specs.declared.lane.Tree.TheVariants as tree;
ghost use Rattle.anim_names.specs.declared.property.Property as kinds;
ghost use Rattle.element_anims.specs.Elements.{IsSetBlocker, SaysTheSame, blocker_of, is_known, is_present};
ghost use Rattle.tree_commit.specs.Trees.{has_element};

use anim_names::{ElementId, GroupId, Property, Tree};
use element_anims::ElementAnims;
use std::alloc::AllocError;
use tree_commit::Commit;

/// The elements of the commit are in the pending tree.
pub fn announce(table: &mut ElementAnims, commit: &Commit)
    requires room { length commit.now.tree.elements ≤ table.old.room }
    ensures { AreSet tree.Pending commit.now.tree.elements true table.old table.new }
{
    for index in 0..commit.element_count() {
        let (element, _) = commit.element_at(index);
        table.set_present(Tree::Pending, element, true);
    }
}

// The elements of the pending commit are in the active tree.
fn promote(table: &mut ElementAnims, commit: &Commit)
    requires known { (e : ℕ) → has_element commit.now.tree e ≡ true → is_present table.old tree.Pending e ≡ true }
    ensures { AreSet tree.Active commit.now.tree.elements true table.old table.new }
{
    for index in 0..commit.element_count() {
        let (element, _) = commit.element_at(index);
        table.set_present(Tree::Active, element, true);
    }
}

// The elements of the commit are in this tree no more.
fn dismiss(table: &mut ElementAnims, commit: &Commit, tree: Tree)
    ensures { AreSet tree commit.now.tree.elements false table.old table.new }
{
    for index in 0..commit.element_count() {
        let (element, _) = commit.element_at(index);
        table.set_present(tree, element, false);
    }
}

/// The elements of the active commit are those of the pending one, and none is pending.
pub fn swap(table: &mut ElementAnims, active: &Commit, pending: &Commit)
    requires active { (e : ℕ) → is_present table.old tree.Active e ≡ has_element active.now.tree e }
    requires pending { (e : ℕ) → is_present table.old tree.Pending e ≡ has_element pending.now.tree e }
    ensures active { (e : ℕ) → is_present table.new tree.Active e ≡ has_element pending.now.tree e }
    ensures pending { (e : ℕ) → is_present table.new tree.Pending e ≡ false }
    ensures blocks { (e : ℕ) (p : kinds.Property) → blocker_of table.new e p ≡ blocker_of table.old e p }
{
    dismiss(table, active, Tree::Active);
    promote(table, pending);
    dismiss(table, pending, Tree::Pending);
}

/// Takes memory for the elements of the commit.
pub fn reserve(table: &mut ElementAnims, commit: &Commit) -> Result<(), AllocError>
    ensures room { OnOk result (length commit.now.tree.elements ≤ table.new.room) }
    ensures same { SaysTheSame table.old table.new }
{
    match u32::try_from(commit.element_count()) {
        Ok(count) => table.reserve(count),
        Err(_) => Err(AllocError),
    }
}

/// The group blocks the property of the element, which is free or its own.
pub fn block(table: &mut ElementAnims, element: ElementId, property: Property, group: GroupId)
    requires free { (blocker_of table.old element property ≡ None) ⊎ (blocker_of table.old element property ≡ Some group) }
    requires known { is_known table.old element ≡ true }
    ensures { IsSetBlocker element property (Some group) table.old table.new }
{
    if table.blocked_by(element, property).is_none() {
        table.block(element, property, group);
    }
}

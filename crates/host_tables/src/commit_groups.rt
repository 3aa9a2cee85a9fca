//! A commit's models sorted by their groups, so that the models of a group are found without a look at the others.

ghost use Rattle.std.specs.Prelude.{◌≡◌, ◌<◌, true, [], ℕ, List, Some, None, IfOk, OnOk, is_some, map, nat_eq, slice_get, length};
ghost use Rattle.std.specs.Map.{lookup};
ghost use Rattle.host_tables.specs.CommitGroups.{group_entry, indices_in, commit_groups, with_index};

use anim_names::GroupId;
use indexmap::IndexMap;
use keyframe_model::ModelSpec;
use std::alloc::{AllocError, Global};
use std::marker::Model;
use tree_commit::Commit;

/// The groups of a commit, in the order of their first models, each with the indices of its models in the commit.
///
/// It is made once for a commit, which never changes. A contract sees the list of groups with their indices.
pub struct CommitGroups {
    groups: IndexMap<GroupId, Vec<usize>>,
}

impl Drop for CommitGroups {
    fn drop(self) {
        let CommitGroups { groups: _groups } = self;
    }
}

impl Model for CommitGroups {
    ghost use Rattle.std.specs.Prelude.{ℕ, List, map};
    ghost use Rattle.host_tables.specs.CommitGroups.{group_entry};

    ghost Value = { List (ℕ × List ℕ) };

    ghost view = { λ s. map group_entry s.groups.entries };
}

impl CommitGroups {
    /// The groups of commit 0, which has no groups.
    pub fn empty(alloc: Global) -> CommitGroups
        ensures { result ≡ [] }
    {
        CommitGroups {
            groups: IndexMap::new(alloc),
        }
    }

    /// The groups of a commit.
    pub fn of(alloc: Global, commit: &Commit) -> Result<CommitGroups, AllocError>
        ensures { IfOk result (λ groups. groups ≡ commit_groups commit.now.tree.models) }
    {
        let mut groups = IndexMap::new(alloc);
        for index in 0..commit.model_count() {
            add_index(&mut groups, commit.model_at(index).group(), index)?;
        }
        Ok(CommitGroups { groups })
    }

    /// How many groups there are.
    pub fn group_count(&self) -> usize
        ensures { result ≡ length self.now }
    {
        self.groups.len()
    }

    /// The group at an index, from 0.
    pub fn group_at(&self, i: usize) -> GroupId
        requires { i < length self.now }
        ensures { slice_get (map (λ entry. entry.0) self.now) i ≡ Some result }
    {
        let (group, _) = self.groups.get_index(i).unwrap();
        *group
    }

    /// Whether the commit has a model of the group.
    pub fn has_group(&self, group: GroupId) -> bool
        ensures { result ≡ is_some (lookup (nat_eq group) self.now) }
    {
        self.groups.contains_key(&group)
    }

    /// The indices of the group's models, in order; none where the commit has no model of the group.
    pub fn indices(&self, group: GroupId) -> &[usize]
        ensures { result.now ≡ indices_in self.now group }
    {
        match self.groups.get(&group) {
            Some(indices) => indices,
            None => &[],
        }
    }
}

// The groups with a model at this index, in its group.
fn add_index(
    groups: &mut IndexMap<GroupId, Vec<usize>>,
    group: GroupId,
    index: usize,
) -> Result<(), AllocError>
    ensures { OnOk result (map group_entry groups.new.entries ≡ with_index index group (map group_entry groups.old.entries)) }
{
    if groups.contains_key(&group) {
        add_further(groups, group, index)
    } else {
        add_first(groups, group, index)
    }
}

fn add_further(
    groups: &mut IndexMap<GroupId, Vec<usize>>,
    group: GroupId,
    index: usize,
) -> Result<(), AllocError>
    requires { is_some (lookup (nat_eq group) groups.old.entries) ≡ true }
    ensures { OnOk result (map group_entry groups.new.entries ≡ with_index index group (map group_entry groups.old.entries)) }
{
    let indices = groups.get_mut(&group).unwrap();
    indices.push(index)?;
    Ok(())
}

fn add_first(
    groups: &mut IndexMap<GroupId, Vec<usize>>,
    group: GroupId,
    index: usize,
) -> Result<(), AllocError>
    requires { lookup (nat_eq group) groups.old.entries ≡ None }
    ensures { OnOk result (map group_entry groups.new.entries ≡ with_index index group (map group_entry groups.old.entries)) }
{
    let alloc = *groups.allocator();
    let mut indices = Vec::new(alloc);
    indices.push(index)?;
    groups.insert(group, indices)?;
    Ok(())
}

//! A commit's models sorted by the element that they animate, so that a frame looks only at those of its elements. No
//! model is evaluated here.

ghost use Rattle.std.specs.Prelude.{◌≡◌, ℕ, ◌==◌, [], ◌∷◌, ◌++◌, nat_eq, if◌then◌else◌, unwrap_or, IfOk, IsSome, OnOk, None};
ghost use Rattle.std.specs.Map.{lookup};
ghost use Rattle.std.specs.Option.{option_copied};
ghost use Rattle.active_tree.specs.ElementModels.{AreListsOf, listed_for};

use crate::model_list::ModelList;
use anim_names::ElementId;
use indexmap::IndexMap;
use keyframe_model::ModelSpec;
use std::alloc::{AllocError, Global};
use std::marker::Model;
use std::sync::Arc;
use tree_commit::Commit;

/// The models of a commit by the elements that they animate, a list for each element that one animates.
///
/// It is made once for a commit, which never changes. A contract sees the lists by element.
pub(crate) struct ElementModels {
    lists: IndexMap<ElementId, ModelList>,
}

impl Drop for ElementModels {
    fn drop(self) {
        let ElementModels { lists: _lists } = self;
    }
}

impl Model for ElementModels {
    ghost use Rattle.std.specs.Prelude.{ℕ, List};
    ghost use Rattle.keyframe_model.specs.Models.{Spec};

    ghost Value = { List (ℕ × List Spec) };

    ghost view = { λ t. t.lists.entries };
}

impl ElementModels {
    /// The models of this commit by their elements. It looks at each model once.
    pub(crate) fn of(alloc: Global, commit: &Commit) -> Result<ElementModels, AllocError>
        ensures { IfOk result (λ table. AreListsOf commit.now.tree.models table) }
    {
        let mut table = ElementModels::empty(alloc);
        table.add_all(commit)?;
        Ok(table)
    }

    /// The models that animate an element, in the commit's order. There is no list where there are none.
    pub(crate) fn get(&self, element: ElementId) -> Option<&ModelList>
        ensures { unwrap_or (option_copied result) [] ≡ listed_for element self.now }
    {
        self.lists.get(&element)
    }

    fn empty(alloc: Global) -> ElementModels
        ensures { result ≡ [] }
    {
        ElementModels {
            lists: IndexMap::new(alloc),
        }
    }

    // Adds all models of a commit.
    fn add_all(&mut self, commit: &Commit) -> Result<(), AllocError>
        requires { self.old ≡ [] }
        ensures { OnOk result (AreListsOf commit.now.tree.models self.new) }
    {
        for i in 0..commit.model_count() {
            self.add(commit.model_at(i))?;
        }
        Ok(())
    }

    // Adds a model to the list of its element.
    fn add(&mut self, model: &Arc<ModelSpec>) -> Result<(), AllocError>
        ensures { OnOk result ((element : ℕ) → listed_for element self.new
            ≡ (if element == model.now.value.element then listed_for element self.old ++ model.now.value ∷ [] else listed_for element self.old)) }
    {
        if self.lists.contains_key(&model.element()) {
            self.add_further(model)
        } else {
            self.add_first(model)
        }
    }

    // Adds a model of an element that has a list.
    fn add_further(&mut self, model: &Arc<ModelSpec>) -> Result<(), AllocError>
        requires { IsSome (lookup (nat_eq model.now.value.element) self.old) }
        ensures { OnOk result ((element : ℕ) → listed_for element self.new
            ≡ (if element == model.now.value.element then listed_for element self.old ++ model.now.value ∷ [] else listed_for element self.old)) }
    {
        let list = self.lists.get_mut(&model.element()).unwrap();
        list.push(model)?;
        Ok(())
    }

    // Adds the first model of an element.
    fn add_first(&mut self, model: &Arc<ModelSpec>) -> Result<(), AllocError>
        requires { lookup (nat_eq model.now.value.element) self.old ≡ None }
        ensures { OnOk result ((element : ℕ) → listed_for element self.new
            ≡ (if element == model.now.value.element then listed_for element self.old ++ model.now.value ∷ [] else listed_for element self.old)) }
    {
        let mut list = ModelList::new(*self.lists.allocator());
        list.push(model)?;
        self.lists.insert(model.element(), list)?;
        Ok(())
    }
}

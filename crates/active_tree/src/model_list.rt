//! A list of models that are shared with their commit. It takes memory only as it grows, and leaves models as they
//! are.

ghost use Rattle.std.specs.Prelude.{◌≡◌, ◌<◌, [], ◌∷◌, ◌++◌, length, slice_get, OnOk, OnErr, Some};

use keyframe_model::ModelSpec;
use std::alloc::{AllocError, Global};
use std::marker::Model;
use std::sync::Arc;

/// Models of one element, in the order of their commit, which they are shared with.
///
/// A contract sees the list of models.
pub(crate) struct ModelList {
    models: Vec<Arc<ModelSpec>>,
}

impl Drop for ModelList {
    fn drop(self) {
        let ModelList { models: _models } = self;
    }
}

impl Model for ModelList {
    ghost use Rattle.std.specs.Prelude.{List, map};
    ghost use Rattle.keyframe_model.specs.Models.{Spec};

    ghost Value = { List Spec };

    ghost view = { λ l. map (λ model. model.value) l.models.items };
}

impl ModelList {
    /// The list of no models. It takes no memory yet.
    pub(crate) fn new(alloc: Global) -> ModelList
        ensures { result ≡ [] }
    {
        ModelList {
            models: Vec::new(alloc),
        }
    }

    /// Puts a model last. Where there is no memory, the list stays as it was.
    pub(crate) fn push(&mut self, model: &Arc<ModelSpec>) -> Result<(), AllocError>
        ensures pushed { OnOk result (self.new ≡ self.old ++ model.now.value ∷ []) }
        ensures err { OnErr result (self.new ≡ self.old) }
    {
        let model = model.clone()?;
        self.models.push(model)?;
        Ok(())
    }

    /// How many models there are.
    pub(crate) fn len(&self) -> usize
        ensures { result ≡ length self.now }
    {
        self.models.len()
    }

    /// The model at an index, from 0.
    pub(crate) fn at(&self, i: usize) -> &ModelSpec
        requires { i < length self.now }
        ensures { slice_get self.now i ≡ Some result.now }
    {
        &self.models[i]
    }
}

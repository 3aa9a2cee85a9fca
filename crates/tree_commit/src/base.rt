//! What an element shows by itself.

ghost use Rattle.std.specs.Prelude.{◌≡◌};
ghost use Rattle.keyframe_model.specs.Views.{shared_value_of};
ghost use Rattle.tree_commit.specs.Trees.{set_own};
ghost use Rattle.tree_commit.specs.Views.{look_of};

use keyframe_model::SharedValue;
use std::alloc::AllocError;
use std::sync::Arc;
use transform_ops::TransformList;
use value_blend::Opacity;

/// What an element shows: a value of each property. In a tree it is what the element shows where no keyframe model
/// animates it, in a row of a frame what it shows at the frame's tick.
///
/// The list is shared: every commit and every row that has it points to one list.
pub struct Base {
    pub opacity: Opacity,
    pub transform: Arc<TransformList>,
}

impl Drop for Base {
    fn drop(self) {
        let Base {
            opacity: _,
            transform: _transform,
        } = self;
    }
}

impl Clone for Base {
    ghost use Rattle.tree_commit.specs.Views.{look_of};

    ghost is_clone = { λ base copy. look_of copy ≡ look_of base };

    /// The same again, with the same list.
    fn clone(&self) -> Result<Base, AllocError> {
        Ok(Base {
            opacity: self.opacity,
            transform: self.transform.clone()?,
        })
    }
}

impl Base {
    /// Takes this value in the place of that of its property. It takes no memory.
    pub fn set_own(&mut self, value: SharedValue)
        ensures { look_of self.new ≡ set_own (look_of self.old) (shared_value_of value) }
    {
        match value {
            SharedValue::Opacity(opacity) => self.opacity = opacity,
            SharedValue::Transform(list) => self.transform = list,
        }
    }
}

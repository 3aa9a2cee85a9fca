//! What a frame needs to know of the starts of keyframe models.

ghost use Rattle.std.specs.Prelude.{◌≡◌, ℕ, Option};
ghost use Rattle.tree_commit.specs.declared.shown.Shown.{Shown};

use anim_names::ModelId;
use tree_commit::Shown;

/// What a frame asks of whoever keeps the starts of models: a map from models to what is shown of them.
///
/// A model that has not started, or was aborted, is not in the map. The table does not know values or curves.
pub trait StartTable {
    ghost starts: { Self → ℕ → Option Shown };

    /// What is shown of a model. There is none exactly where the table has no entry for it.
    fn shown(&self, model: ModelId) -> Option<Shown>
        ensures { result ≡ starts self.now model };
}

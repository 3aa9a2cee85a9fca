//! A blend of two lists keeps its ends.

ghost use Rattle.std.specs.Prelude.{List, pos};
ghost use Rattle.anim_names.specs.declared.progress.TheConstants.{ONE};
ghost use Rattle.transform_ops.specs.Lists.{IsAlike, IsList, blend_lists};
ghost use Rattle.transform_ops.specs.declared.op.TransformOp.{TransformOp};

/// At 0 a blend moves like the list that it comes from, and at `ONE` like the list that it goes to.
pub fn ends_are_alike()
    ensures begin { (from to : List TransformOp) → IsList from → IsAlike (blend_lists from to (pos 0)) from }
    ensures end { (from to : List TransformOp) → IsList to → IsAlike (blend_lists from to (pos ONE)) to }
{}

//! Laws of the rows, which the check proves from the definitions.

ghost use Rattle.keyframe_effect.specs.Rule.{RowsFollowTheRule};

/// A group is ready by its row exactly where it is ready by its models, if the row tells the truth of them.
pub fn rows_follow_the_rule()
    ensures { RowsFollowTheRule }
{}

//! The names of causes, as a refusal gives them.

ghost use Rattle.std.specs.Prelude.{◌≡◌};
ghost use Rattle.anim_top.specs.Answers.{cause_text, edit_text, limit_text};

use anim_names::LimitName;
use frame_script::Cause;
use tree_commit::EditRefusal;

pub(crate) fn cause_text(cause: Cause) -> &'static str
    ensures { result.now ≡ cause_text cause }
{
    match cause {
        Cause::Edit(refusal) => edit_text(refusal),
        Cause::BadHeader => "BadHeader",
        Cause::BadLine => "BadLine",
        Cause::BadNumber => "BadNumber",
        Cause::BadCurve => "BadCurve",
        Cause::BadTiming => "BadTiming",
        Cause::BadEasing => "BadEasing",
        Cause::TimeBack => "TimeBack",
        Cause::BadWord => "BadWord",
        Cause::MissingPart => "MissingPart",
        Cause::TooLong => "TooLong",
    }
}

fn edit_text(refusal: EditRefusal) -> &'static str
    ensures { result.now ≡ edit_text refusal }
{
    match refusal {
        EditRefusal::ElementThere => "ElementThere",
        EditRefusal::ElementNotThere => "ElementNotThere",
        EditRefusal::ModelIdUsed => "ModelIdUsed",
        EditRefusal::ModelUnknown => "ModelUnknown",
        EditRefusal::TimelineThere => "TimelineThere",
        EditRefusal::TimelineUnknown => "TimelineUnknown",
        EditRefusal::GroupClosed => "GroupClosed",
        EditRefusal::GroupMixed => "GroupMixed",
        EditRefusal::Limit(name) => limit_text(name),
    }
}

fn limit_text(name: LimitName) -> &'static str
    ensures { result.now ≡ limit_text name }
{
    match name {
        LimitName::Steps => "Limit Steps",
        LimitName::Commits => "Limit Commits",
        LimitName::Elements => "Limit Elements",
        LimitName::Models => "Limit Models",
        LimitName::Timelines => "Limit Timelines",
        LimitName::Frames => "Limit Frames",
    }
}

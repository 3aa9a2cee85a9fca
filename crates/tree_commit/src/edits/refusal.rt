//! Why an edit is refused.

use anim_names::LimitName;
use std::error::Error;
use std::fmt;
use std::fmt::{Display, Formatter, Write};

/// Why an edit is refused: the first of these that is so.
#[derive(Clone, Copy, Debug, PartialEq, Eq)]
pub enum EditRefusal {
    /// An element is added that is in the tree.
    ElementThere,
    /// An element is removed or changed that is not in the tree.
    ElementNotThere,
    /// A model is added under an id that was ever used.
    ModelIdUsed,
    /// A model is removed that was never added.
    ModelUnknown,
    /// A timeline is added that is in the tree.
    TimelineThere,
    /// A model is added on a timeline that is not in the tree.
    TimelineUnknown,
    /// A model is added to a group whose first model came before the last commit.
    GroupClosed,
    /// A model is added whose element, timeline or given start is not its group's, or whose property the group has.
    GroupMixed,
    /// There would be more of something than a script may have.
    Limit(LimitName),
}

impl Display for EditRefusal {
    fn fmt<W: Write>(&self, f: &mut Formatter<W>) -> fmt::Result {
        f.write_str(match self {
            EditRefusal::ElementThere => "the element is there already",
            EditRefusal::ElementNotThere => "the element is not there",
            EditRefusal::ModelIdUsed => "the model's id was used before",
            EditRefusal::ModelUnknown => "the model was never there",
            EditRefusal::TimelineThere => "the timeline is there already",
            EditRefusal::TimelineUnknown => "the timeline is not there",
            EditRefusal::GroupClosed => "the group was committed before",
            EditRefusal::GroupMixed => "the model does not go with its group",
            EditRefusal::Limit(_) => "there are too many",
        })
    }
}

impl Error for EditRefusal {}

//! The causes for which a field is refused, which tell a wrong form from a number that is out of range.

use thiserror::Error;

/// What is wrong with a field.
#[derive(Clone, Copy, Debug, Error)]
pub enum FieldFault {
    /// It is none of the keywords that may stand there, or it has other parts.
    #[error("the field is not of a form that may stand there")]
    BadForm,
    /// A number is not spelled as one, or it is out of range.
    #[error("a number is not spelled as one, or out of range")]
    BadNumber,
}

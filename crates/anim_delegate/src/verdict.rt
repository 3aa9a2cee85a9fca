//! The two answers of the table of policies: a model stays in main's tree or leaves it.

/// What becomes of a model of which main hears an event.
#[derive(Clone, Copy, PartialEq, Eq)]
pub enum Verdict {
    /// It stays in main's tree.
    Keep,
    /// It leaves main's tree.
    Retire,
}

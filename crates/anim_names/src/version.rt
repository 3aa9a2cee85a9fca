//! The versions of the language of scripts.

/// The version of the language that a script is written in.
#[derive(Clone, Copy, PartialEq, Eq)]
pub enum Version {
    /// Version 1, of the header `anim 1`.
    One,
}

//! Tests of main's tree, of commits and frames, of the compositor's trees, and of the board between the lanes.
//!
//! They need models, edits and commits. The builders of these stand here once, and so the tests stand here and not in
//! the crates that they try. The library itself is empty.
#![tactic(auto)]

#[cfg(test)]
mod board;
#[cfg(test)]
mod both;
#[cfg(test)]
mod commits;
#[cfg(test)]
mod edits;
#[cfg(test)]
mod hearing;
#[cfg(test)]
mod samples;
#[cfg(test)]
mod sharing;
#[cfg(test)]
mod trees;

//! Tests of the compositor's host and of an active tree beside it, over the commits of scripts.
//!
//! A test is a script of the compositor's steps: pull, activate, tick, and expect the news and what a frame shows. What
//! the host asks of a commit is looked at in code. The library itself is empty.
#![tactic(auto)]

#[cfg(test)]
mod frames;
#[cfg(test)]
mod host;
#[cfg(test)]
mod rows;
#[cfg(test)]
mod second_commit;
#[cfg(test)]
mod sharing;
#[cfg(test)]
mod steps;
#[cfg(test)]
mod tables;
#[cfg(test)]
mod two_commits;

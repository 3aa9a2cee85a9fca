//! Tests of the program's calls, over sources and sinks that fail where they are told, and over gates.
//!
//! What a script is to be answered stands as text. The library itself is empty.
#![tactic(auto)]

#[cfg(test)]
mod answers;
#[cfg(test)]
mod calls;
#[cfg(test)]
mod faults;
#[cfg(test)]
mod running;
#[cfg(test)]
mod sharing;
#[cfg(test)]
mod texts;
#[cfg(test)]
mod turns;

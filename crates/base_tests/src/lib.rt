//! Tests of the crates below the trees and beside them: timing, easing, blends, curves, models, the small tables, the
//! lock between the lanes, the streams of bytes and the gates.
//!
//! A crate is proved once more for each crate that holds its tests, so these stand together and not each beside what it
//! tries. The library itself is empty.
#![tactic(auto)]

#[cfg(test)]
mod blends;
#[cfg(test)]
mod builders;
#[cfg(test)]
mod curves;
#[cfg(test)]
mod delegates;
#[cfg(test)]
mod diary;
#[cfg(test)]
mod easings;
#[cfg(test)]
mod edges;
#[cfg(test)]
mod effects;
#[cfg(test)]
mod elements;
#[cfg(test)]
mod events;
#[cfg(test)]
mod gates;
#[cfg(test)]
mod lanes;
#[cfg(test)]
mod lock;
#[cfg(test)]
mod models;
#[cfg(test)]
mod names;
#[cfg(test)]
mod sharing;
#[cfg(test)]
mod timelines;
#[cfg(test)]
mod timing;
#[cfg(test)]
mod transforms;

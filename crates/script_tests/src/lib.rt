//! Tests of scripts that are read, printed and made, of their lines and fields, and of reports that are printed.
//!
//! A crate is proved once more for each crate that holds its tests, so these stand together and not each beside what it
//! tries. The library itself is empty.
#![tactic(auto)]

#[cfg(test)]
mod fields;
#[cfg(test)]
mod generated;
#[cfg(test)]
mod lines;
#[cfg(test)]
mod reading;
#[cfg(test)]
mod reports;
#[cfg(test)]
mod scripts;
#[cfg(test)]
mod sharing;

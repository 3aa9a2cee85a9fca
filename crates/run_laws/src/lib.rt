//! Laws of every run: what every report promises, and what the parts of a compositor may rely on.
//!
//! Each law is the clause of a function with an empty body, for every script and every word of it: most for each list
//! of letters, since a letter whose lane has no step left changes nothing. Where a law asks for a well-formed script
//! its clause says so. They speak of the definitions of `run_rules` alone: no code is meant, and nothing runs here.
#![tactic(auto)]

pub mod active_commit;
pub mod ends;
pub mod following;
pub mod groups;
pub mod growth;
pub mod hearing;
pub mod main_tree;
pub mod numbers;
pub mod shown;
pub mod words;

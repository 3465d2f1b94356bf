//! The instructions that a run begins, and how many of them pass a test.
//!
//! At speedup 0 the number of starts of a run is the number of its beginnings whose instruction is
//! selected, and what is selected changes nothing else. So one run, with nothing selected, gives
//! the starts of each line.
//!
//! The definitions stand in `specs/`. `Tallies` are the counts that such a run keeps.
#![tactic(auto)]

mod tallies;

pub use tallies::{Tallies, Tally, add, no_tallies};

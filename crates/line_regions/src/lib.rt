//! Regions: the lines of one path with the numbers of a range, found among the lines of a program.
#![tactic(auto)]

mod claims;
mod endings;
mod lines;
mod points;
mod regions;
mod tree;

pub use lines::{Lines, Region};

//! The functions of a program, and the sequences of the line unit in which each is one line.
#![tactic(auto)]

mod labels;
mod program;
mod symbols;

pub use labels::function_sequence;
pub use program::{bytes_in, sequences, sequences_are_one};
pub use symbols::{Functions, functions};

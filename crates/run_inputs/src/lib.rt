//! The files of a command that runs a program, and what such a command's verdict is made of.
#![tactic(auto)]

mod inputs;

pub use inputs::{Inputs, MAX_INPUT, read_inputs};

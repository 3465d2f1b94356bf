//! The program that writes a program with a line table in which each function is one line.
#![tactic(auto)]

mod answer;
mod fault;
mod fault_line;
mod help;
mod judge;
mod parse;
mod regions;
mod top;
mod words;
mod written;

pub use top::{serve_functions, verdicts_are_one};

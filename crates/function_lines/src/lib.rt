//! Writes a program with a line table in which each function is one line.
#![tactic(auto)]

mod file;
mod relined;
mod same_program;

pub use file::{FunctionsError, answers_are_one, by_function, by_marks};
pub use relined::{LinesError, with_lines};

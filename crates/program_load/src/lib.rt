//! The steps that commands share: a program with its lines, and the lines that arguments name;
//! and why nothing is printed.
#![tactic(auto)]

mod fault;
mod fault_lines;
mod kinds;
mod line_table;
mod program;
mod selection;

pub use fault::Fault;
pub use program::{Program, read_program};
pub use selection::{
    bytes_of, line_named, listed_lines, points_of, progress_points, selected_lines,
};

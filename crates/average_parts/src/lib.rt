//! Averages the profiles in files: the paths that the arguments name, what their files hold, and
//! what is printed.
#![tactic(auto)]

mod answer;
mod chosen;
mod fault;
mod fault_line;
mod help;
mod judge;
mod likeness;
mod part;
mod parts;
mod same;
mod table;
mod words;

pub use answer::answer_of;
pub use fault::{Fault, UnlikeKind};
pub use help::help_text;
pub use table::Table;

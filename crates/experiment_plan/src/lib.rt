//! Lines, lists of lines and numbers, as arguments spell them; the lines of a program that a list
//! selects; and the plan of a profile: each selected line at each speedup.
#![tactic(auto)]

mod by_line;
mod experiment;
mod joining;
mod line;
mod number;
mod planning;
mod selection;

pub use experiment::{Experiment, Plan, PlanError};
pub use joining::{joined, places_among};
pub use line::{first_piece, is_line, is_list, line_parts};
pub use number::number_in;
pub use planning::{plan, rising_speedups};
pub use selection::{SelectError, line_found, select};

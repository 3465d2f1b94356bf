//! Steps of curves of several profiles of one program's lines, whose machines differ in their
//! seeds: means of the seeds' values against the base of all profiles, and their standard errors.
#![tactic(auto)]

mod average_step;
mod base;
mod paces;
mod present;
mod steps;
mod totals;

pub use average_step::AverageStep;
pub use base::{Base, base_of};
pub use paces::first_pace;
pub use steps::{line_steps, value_in};
pub use totals::{area, area_error};

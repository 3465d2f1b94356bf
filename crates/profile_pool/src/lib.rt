//! The runs of a plan's experiments by workers, and what a profile keeps of each.
#![tactic(auto)]

mod claimed;
mod known;
mod outcomes;
mod plain;
mod pool;
mod summary;
mod work;
mod worth;

pub use known::{KnownOutput, no_output};
pub use pool::run_plan;
pub use summary::summarise;

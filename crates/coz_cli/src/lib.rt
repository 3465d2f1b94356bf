//! The top call of the profiler.
#![tactic(auto)]

mod answer;
mod top;

pub use top::serve;

//! The answer of each command: a text and its status, or a fault.
#![tactic(auto)]

mod answer;
mod experiment;
mod latency;
mod lines;
mod measuring;
mod path;
mod plot;
mod profile;
mod runs;
mod source;
mod trial;

pub use answer::Answer;
pub use experiment::{judge_really, judge_run};
pub use latency::judge_latency;
pub use lines::judge_lines;
pub use path::judge_path;
pub use plot::judge_plot;
pub use profile::{judge_profile, judge_profile_on};
pub use source::judge_source;
pub use trial::judge_trial;

//! A profile.
use coz_types::{Items, Label, Summary};

/// A profile: the budget, the progress points, and the summary of each run.
#[derive(Drop)]
pub struct Profile {
    /// The number of instructions that each run may retire.
    pub budget: u64,
    /// The labels of the progress points, by point.
    pub points: Items<Label>,
    /// The summary of each experiment.
    pub summaries: Items<Summary>,
}

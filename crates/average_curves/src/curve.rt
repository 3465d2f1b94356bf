//! A curve of averages: what each speedup of a line does to a progress point over several seeds.
use average_steps::AverageStep;
use coz_types::{Items, Label};

/// Whether the exact schedule shows what the average shows.
#[derive(Clone, Copy, Debug, PartialEq, Eq)]
pub enum Exactness {
    /// There is no profile of the exact schedule.
    Absent,
    /// At each speedup its value is within three errors of the average, or within 2 per cent.
    Smooth,
    /// At some speedup it is not.
    Rough,
}

/// The averages of the speedups of a line at a progress point. All numbers are in hundredths of a
/// per cent.
#[derive(Drop)]
pub struct AverageCurve {
    /// The progress point, by its position.
    pub point: u32,
    /// The label of the line.
    pub selected: Label,
    /// The mean of the values at speedups over 0, rounded down. None if there are none, or one is
    /// absent.
    pub area: Option<i128>,
    /// The standard error of the area. None without an area, or for fewer than two seeds or
    /// profiles.
    pub error: Option<u128>,
    /// What the line costs, as a part of the net time of the base, rounded down. None if no run
    /// of the line has a speedup over 0, or the base has no net time.
    pub cost: Option<u128>,
    /// Whether the exact schedule shows the same.
    pub exact: Exactness,
    /// A step for each speedup, by speedup.
    pub steps: Items<AverageStep>,
}

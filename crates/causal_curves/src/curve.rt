//! A curve: what each speedup of a line does to a progress point.
use coz_types::{Items, Label};

/// The effect of the speedups of a line on a progress point.
#[derive(Drop)]
pub struct Curve {
    /// The progress point, by its position.
    pub point: u32,
    /// The label of the line.
    pub selected: Label,
    /// The greatest value at a speedup over 0.
    pub gain: Option<i128>,
    /// A step for each experiment on the line, by speedup.
    pub steps: Items<CurveStep>,
}

/// The effect of one speedup.
#[derive(Clone, Copy, PartialEq, Eq)]
pub struct CurveStep {
    /// The speedup in per cent.
    pub speedup: u8,
    /// The net time that a visit takes less than at speedup 0, in hundredths of a per cent,
    /// rounded down. None if either run has no visit of the point, or the run at 0 has no net
    /// time.
    pub value: Option<i128>,
}

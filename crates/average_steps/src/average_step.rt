//! A step: what one speedup of a line does to a progress point, over several seeds.

/// The effect of one speedup.
#[derive(Clone, Copy)]
pub struct AverageStep {
    /// The speedup in per cent.
    pub speedup: u8,
    /// The mean of the seeds' values, in hundredths of a per cent, rounded down. None if one of
    /// them has none.
    pub value: Option<i128>,
    /// The standard error of that mean. None for fewer than two seeds or profiles.
    pub error: Option<u128>,
}

//! The ranges of profiles.
ghost use Rattle.join_cli.specs.Ranges.{ProfilesAreRight};

/// Every profile of a program's lines is within the ranges and orders of profiles: each run ends,
/// its time and its numbers are at most 10^17, its delay is no more than its time, and the labels
/// and blocks rise.
pub fn profiles_right()
    ensures { ProfilesAreRight }
{}

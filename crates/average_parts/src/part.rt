//! A profile and its machine.
use profile_book::Profile;
use timing_model::Timing;

/// What a file holds: a profile, and the machine of its runs.
#[derive(Drop)]
pub struct Part {
    /// The machine.
    pub timing: Timing,
    /// The profile.
    pub profile: Profile,
}

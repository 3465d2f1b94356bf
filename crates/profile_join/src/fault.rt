//! Why profiles are not parts of one profile.
ghost use Rattle.std.specs.Prelude.{◌≡◌};
ghost use Rattle.profile_join.specs.declared.fault.JoinError.TheVariants.{Memory};

use coz_types::Label;
use std::alloc::AllocError;

/// Why a part cannot be joined to the parts before it.
#[derive(Drop)]
pub enum PartKind {
    /// The budget of the part is not that of the first part.
    Budget,
    /// The progress points of the part are not those of the first part.
    Points,
    /// One of its labels has other speedups than the first label of the first part that has one.
    Speedups,
    /// One of its blocks at speedup 0 differs from the first block at speedup 0 of all parts in
    /// more than its label and its starts: the parts come from different programs or inputs.
    Baseline,
    /// A block of this label is in an earlier part too.
    Twice(Label),
}

/// A part that doesn't belong to the same profile as the parts before it.
#[derive(Drop)]
pub struct PartFault {
    /// The kind of the fault.
    pub kind: PartKind,
    /// The number of the part, from 0 in the order given.
    pub part: usize,
}

/// Why there is no joined profile.
#[derive(Drop)]
pub enum JoinError {
    /// A part doesn't belong to the same profile as the parts before it.
    Unlike(PartFault),
    /// Out of memory.
    Memory,
}

impl From<AllocError> for JoinError {
    ghost from_gives = { λ _ e. e ≡ Memory };

    fn from(_: AllocError) -> JoinError {
        JoinError::Memory
    }
}

//! Why something could not be made: its first fault, or out of memory.
#![tactic(auto)]

ghost use Rattle.std.specs.Prelude.{◌≡◌};
ghost use Rattle.failures.specs.declared.Failure.TheVariants.{Memory};

use std::alloc::{AllocError, AllocFailed};

/// Why something isn't loaded, read or assembled.
#[derive(Clone, Copy, Debug, PartialEq, Eq)]
pub enum Failure<F> {
    /// The first fault that it has.
    Fault(F),
    /// Out of memory.
    Memory,
}

impl<F> From<AllocError> for Failure<F> {
    ghost from_gives = { λ _ failure. failure ≡ Memory };

    fn from(_: AllocError) -> Failure<F> {
        Failure::Memory
    }
}

impl<F, T: Drop> From<AllocFailed<T>> for Failure<F> {
    ghost from_gives = { λ _ failure. failure ≡ Memory };

    fn from(_: AllocFailed<T>) -> Failure<F> {
        Failure::Memory
    }
}

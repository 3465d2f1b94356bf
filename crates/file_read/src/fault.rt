//! The faults of a program that reads files.
ghost use Rattle.std.specs.Prelude.{◌≡◌};
ghost use Rattle.file_read.specs.declared.fault.FileFault.TheVariants.{Memory};

use std::alloc::{AllocError, AllocFailed};

/// Why a program prints nothing, whatever its files contain.
#[derive(Clone, Copy)]
pub enum FileFault<'a> {
    /// The arguments are no request.
    Usage,
    /// The file of this path could not be read.
    Read(&'a str),
    /// The output could not be written.
    Write,
    /// The file of this path is longer than such a file may be.
    Long(&'a str),
    /// Out of memory.
    Memory,
}

impl<'a> From<AllocError> for FileFault<'a> {
    ghost from_gives = { λ _ fault. fault ≡ Memory };

    fn from(_: AllocError) -> FileFault<'a> {
        FileFault::Memory
    }
}

impl<'a, T: Drop> From<AllocFailed<T>> for FileFault<'a> {
    ghost from_gives = { λ _ fault. fault ≡ Memory };

    fn from(_: AllocFailed<T>) -> FileFault<'a> {
        FileFault::Memory
    }
}

//! Why there are no averages.
ghost use Rattle.std.specs.Prelude.{◌≡◌};
ghost use Rattle.file_read.specs.declared.fault.FileFault.TheVariants.{Memory};
ghost use Rattle.average_parts.specs.declared.fault.Fault.TheVariants.{File};

use file_read::FileFault;
use profile_reader::BookFault;
use std::alloc::{AllocError, AllocFailed};

/// In what a profile is unlike those before it.
#[derive(Clone, Copy, PartialEq, Eq)]
pub enum UnlikeKind {
    /// It is of another machine than the first one, also without the seed.
    Timing,
    /// Its seed is that of one before it.
    Seed,
    /// It has another budget than the first one.
    Budget,
    /// It has other progress points than the first one.
    Points,
    /// It has other lines or speedups than the first one that has a speedup over 0.
    Pairs,
}

/// Why there are no averages.
#[derive(Drop)]
pub enum Fault<'a> {
    /// The words, a file that is read, the output or memory is the cause.
    File(FileFault<'a>),
    /// The text in the file of this path is no profile's.
    Profile(BookFault, &'a str),
    /// The profile in the file of this path is unlike those before it.
    Unlike(UnlikeKind, &'a str),
}

impl<'a> From<FileFault<'a>> for Fault<'a> {
    ghost from_gives = { λ of fault. fault ≡ File of };

    fn from(fault: FileFault<'a>) -> Fault<'a> {
        Fault::File(fault)
    }
}

impl<'a> From<AllocError> for Fault<'a> {
    ghost from_gives = { λ _ fault. fault ≡ File Memory };

    fn from(_: AllocError) -> Fault<'a> {
        Fault::File(FileFault::Memory)
    }
}

impl<'a, T: Drop> From<AllocFailed<T>> for Fault<'a> {
    ghost from_gives = { λ _ fault. fault ≡ File Memory };

    fn from(_: AllocFailed<T>) -> Fault<'a> {
        Fault::File(FileFault::Memory)
    }
}

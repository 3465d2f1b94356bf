//! Why there is no joined profile.
ghost use Rattle.std.specs.Prelude.{◌≡◌};
ghost use Rattle.file_read.specs.declared.fault.FileFault.TheVariants.{Memory};
ghost use Rattle.join_parts.specs.declared.fault.Fault.TheVariants.{File};

use file_read::FileFault;
use profile_join::PartKind;
use profile_reader::BookFault;
use std::alloc::{AllocError, AllocFailed};

/// Why there is no joined profile.
#[derive(Drop)]
pub enum Fault<'a> {
    /// The words, a file that is read, the output or memory is the cause.
    File(FileFault<'a>),
    /// The text in the file of this path is no profile's.
    Profile(BookFault, &'a str),
    /// The profile in the file of this path doesn't belong to the same profile as those before it.
    Parts(PartKind, &'a str),
    /// The profile in the file of this path is of another machine than the first one.
    Timing(&'a str),
}

impl<'a> From<FileFault<'a>> for Fault<'a> {
    ghost from_gives = { λ of fault. fault ≡ File of };

    fn from(fault: FileFault<'a>) -> Fault<'a> {
        Fault::File(fault)
    }
}

impl<'a> From<AllocError> for Fault<'a> {
    ghost from_gives = { λ _ fault. fault ≡ File Memory };

    fn from(_: AllocError) -> Fault<'a> {
        Fault::File(FileFault::Memory)
    }
}

impl<'a, T: Drop> From<AllocFailed<T>> for Fault<'a> {
    ghost from_gives = { λ _ fault. fault ≡ File Memory };

    fn from(_: AllocFailed<T>) -> Fault<'a> {
        Fault::File(FileFault::Memory)
    }
}

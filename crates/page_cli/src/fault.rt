//! Why there is no page.
ghost use Rattle.std.specs.Prelude.{◌≡◌};
ghost use Rattle.file_read.specs.declared.fault.FileFault.TheVariants.{Memory};
ghost use Rattle.page_cli.specs.Answer.{profile_fault};
ghost use Rattle.page_cli.specs.declared.fault.Fault.TheVariants.{File};

use file_read::FileFault;
use profile_reader::{BookError, BookFault};
use std::alloc::AllocError;

/// Why there is no page.
#[derive(Clone, Copy)]
pub enum Fault<'a> {
    /// The words, the file, the output or memory is the cause.
    File(FileFault<'a>),
    /// The text is no profile's.
    Profile(BookFault),
}

impl<'a> From<FileFault<'a>> for Fault<'a> {
    ghost from_gives = { λ of fault. fault ≡ File of };

    fn from(fault: FileFault<'a>) -> Fault<'a> {
        Fault::File(fault)
    }
}

impl<'a> From<AllocError> for Fault<'a> {
    ghost from_gives = { λ _ fault. fault ≡ File Memory };

    fn from(_: AllocError) -> Fault<'a> {
        Fault::File(FileFault::Memory)
    }
}

impl<'a> From<BookError> for Fault<'a> {
    ghost from_gives = { λ error fault. fault ≡ profile_fault error };

    fn from(error: BookError) -> Fault<'a> {
        match error {
            BookError::Fault(fault) => Fault::Profile(fault),
            BookError::Memory => Fault::File(FileFault::Memory),
        }
    }
}

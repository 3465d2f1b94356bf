//! Why nothing is printed, by the errors of the layers below.
ghost use Rattle.std.specs.Prelude.{◌≡◌};
ghost use Rattle.file_read.specs.declared.fault.FileFault.TheVariants.{Memory};
ghost use Rattle.program_load.specs.declared.fault.Fault.TheVariants.{File};
ghost use Rattle.program_load.specs.Causes.{assembling_fault, loading_fault, planning_fault, points_fault, profile_fault, reading_fault};

use dwarf_lines::{LineError, LineFault};
use elf_load::{ElfFault, LoadError};
use experiment_plan::PlanError;
use file_read::FileFault;
use profile_reader::{BookError, BookFault};
use progress_points::PointsError;
use rv_asm::{AsmError, AsmFault};
use std::alloc::AllocError;

/// Why nothing is printed.
#[derive(Clone, Copy)]
pub enum Fault<'a> {
    /// The words, a file that is read, the output or memory is the cause.
    File(FileFault<'a>),
    /// The file is no program.
    Program(ElfFault),
    /// The program's line table can't be read.
    Lines(LineFault),
    /// A line that is named is none of the program's.
    NoLine(&'a [u8]),
    /// The number of progress points, which exceeds 64.
    ManyPoints(u64),
    /// The number of runs of the plan, which exceeds 100,000.
    ManyExperiments(u64),
    /// The source isn't assembled.
    Source(AsmFault),
    /// The text is no profile's.
    Profile(BookFault),
}

impl<'a> From<FileFault<'a>> for Fault<'a> {
    ghost from_gives = { λ of fault. fault ≡ File of };

    fn from(fault: FileFault<'a>) -> Fault<'a> {
        Fault::File(fault)
    }
}

impl<'a> From<AllocError> for Fault<'a> {
    ghost from_gives = { λ _ fault. fault ≡ File Memory };

    fn from(_: AllocError) -> Fault<'a> {
        Fault::File(FileFault::Memory)
    }
}

impl<'a> From<LoadError> for Fault<'a> {
    ghost from_gives = { λ error fault. fault ≡ loading_fault error };

    fn from(error: LoadError) -> Fault<'a> {
        match error {
            LoadError::Fault(fault) => Fault::Program(fault),
            LoadError::Memory => Fault::File(FileFault::Memory),
        }
    }
}

impl<'a> From<LineError> for Fault<'a> {
    ghost from_gives = { λ error fault. fault ≡ reading_fault error };

    fn from(error: LineError) -> Fault<'a> {
        match error {
            LineError::Fault(fault) => Fault::Lines(fault),
            LineError::Memory => Fault::File(FileFault::Memory),
        }
    }
}

impl<'a> From<PointsError> for Fault<'a> {
    ghost from_gives = { λ error fault. fault ≡ points_fault error };

    fn from(error: PointsError) -> Fault<'a> {
        match error {
            PointsError::TooMany(count) => Fault::ManyPoints(count),
            PointsError::Memory => Fault::File(FileFault::Memory),
        }
    }
}

impl<'a> From<PlanError> for Fault<'a> {
    ghost from_gives = { λ error fault. fault ≡ planning_fault error };

    fn from(error: PlanError) -> Fault<'a> {
        match error {
            PlanError::TooMany(count) => Fault::ManyExperiments(count),
            PlanError::Memory => Fault::File(FileFault::Memory),
        }
    }
}

impl<'a> From<AsmError> for Fault<'a> {
    ghost from_gives = { λ error fault. fault ≡ assembling_fault error };

    fn from(error: AsmError) -> Fault<'a> {
        match error {
            AsmError::Fault(fault) => Fault::Source(fault),
            AsmError::Memory => Fault::File(FileFault::Memory),
        }
    }
}

impl<'a> From<BookError> for Fault<'a> {
    ghost from_gives = { λ error fault. fault ≡ profile_fault error };

    fn from(error: BookError) -> Fault<'a> {
        match error {
            BookError::Fault(fault) => Fault::Profile(fault),
            BookError::Memory => Fault::File(FileFault::Memory),
        }
    }
}

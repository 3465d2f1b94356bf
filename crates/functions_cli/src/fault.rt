//! Why nothing is written.
ghost use Rattle.std.specs.Prelude.{◌≡◌, Some};
ghost use Rattle.functions_cli.specs.Answer.{IsMemoryFault, IsOfFunctions, IsReadFault, fault_verdict};
ghost use Rattle.functions_cli.specs.Verdict.{error_verdict};

use file_read::FileFault;
use function_lines::FunctionsError;
use program_load::Fault as StepFault;

/// Why a program has no file in which each function is one line, if such a file isn't too long.
#[derive(Clone, Copy)]
pub enum Refusal {
    /// The program has no function.
    NoFunctions,
    /// The program has no section `.debug_line`.
    NoLines,
    /// The header of this section lies among bytes that must not change.
    Overlap,
}

/// Why nothing is written.
#[derive(Clone, Copy)]
pub enum Fault<'a> {
    /// The arguments, a file, the program, its lines, their selection, a length, the output or
    /// memory is the cause.
    Step(StepFault<'a>),
    /// The program has no such file.
    Functions(Refusal),
}

/// The fault that an error is, of the program of this path.
pub fn fault_of<'a>(error: FunctionsError, target: &'a str) -> Fault<'a>
    ensures verdict { (IsMemoryFault result → ⊥)
        → error_verdict target.now error ≡ Some (fault_verdict result) }
    ensures of { IsOfFunctions target.now result }
{
    match error {
        FunctionsError::NoFunctions => Fault::Functions(Refusal::NoFunctions),
        FunctionsError::NoLines => Fault::Functions(Refusal::NoLines),
        FunctionsError::Overlap => Fault::Functions(Refusal::Overlap),
        FunctionsError::Much => Fault::Step(StepFault::File(FileFault::Long(target))),
        FunctionsError::Memory => Fault::Step(StepFault::File(FileFault::Memory)),
    }
}

//! The files of a command that runs a program: the program and its input.
ghost use Rattle.std.specs.Prelude.{◌≡◌, ◌≤◌, ℕ, List, length, IfErr, IfOk, IfSome, IfNone};
ghost use Rattle.coz_types.specs.declared.TheConstants.{MAX_PROGRAM};
ghost use Rattle.coz_files.specs.Faults.{Rose};
ghost use Rattle.program_load.specs.Verdict.{Verdict};
ghost use Rattle.program_load.specs.Answer.{IsMemory, FailedToRead, SettlesThen};
ghost use Rattle.run_inputs.specs.Answer.{IsOfFiles};
ghost use Rattle.run_inputs.specs.Verdict.{bytes_verdict};

use coz_files::Files;
use coz_types::MAX_PROGRAM;
use coz_words::Request;
use file_read::read_file;
use program_load::Fault;
use std::alloc::Global;

/// The most bytes of an input.
pub const MAX_INPUT: u64 = 0x100_0000;

/// The bytes of a program's file and of its input.
#[derive(Drop)]
pub struct Inputs {
    /// The program's file, of at most `MAX_PROGRAM` bytes.
    pub program: Vec<u8>,
    /// The input of the program, of at most `MAX_INPUT` bytes; empty if the request names none.
    pub input: Vec<u8>,
}

/// Reads the program that a request names, and then its input.
/// Err says which file can't be read or is too long, or that it is out of memory.
pub fn read_inputs<'r, F: Files>(
    alloc: Global,
    request: &'r Request,
    files: &mut F,
) -> Result<Inputs, Fault<'r>>
    ensures same { F.held files.new ≡ F.held files.old }
    ensures short { IfOk result (λ inputs. length inputs.program.items ≤ MAX_PROGRAM) }
    ensures of_files { IfErr result (IsOfFiles request.now) }
    ensures verdict { IfSome (F.held files.old) (λ held.
        (IsMemory result → ⊥) → (next : List ℕ → List ℕ → Verdict) →
        SettlesThen (λ inputs. next inputs.program.items inputs.input.items)
        (bytes_verdict request.now held next)
        (F.faults files.old) (F.faults files.new) result) }
    ensures read_fault_has_cause { FailedToRead result
        → IfNone (F.held files.old) (Rose (F.faults files.old) (F.faults files.new)) }
    ensures no_fault { (FailedToRead result → ⊥) → F.faults files.new ≡ F.faults files.old }
{
    let program = read_file(alloc, files, request.target.text(), MAX_PROGRAM)?;
    let Some(path) = &request.input else {
        return Ok(Inputs {
            program,
            input: Vec::new(alloc),
        });
    };
    let input = read_file(alloc, files, path.text(), MAX_INPUT)?;
    Ok(Inputs { program, input })
}

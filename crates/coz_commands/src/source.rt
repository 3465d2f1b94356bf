//! The command `asm`: reads the source, assembles it with `rv_asm::assemble`, and makes the ELF file
//! with `image_write::write_elf`.
ghost use Rattle.std.specs.Prelude.{◌≡◌, ◌≤◌, length, IfSome, IfNone};
ghost use Rattle.asm_tokens.specs.declared.TheConstants.{MAX_SOURCE};
ghost use Rattle.coz_files.specs.Faults.{Rose};
ghost use Rattle.image_write.specs.File.{IsName, IsVersion};
ghost use Rattle.coz_words.specs.declared.command.Command.TheVariants.{Asm};
ghost use Rattle.rv_asm.specs.Assembled.{assembled};
ghost use Rattle.coz_commands.specs.Verdict.{command_verdict, source_verdict};
ghost use Rattle.coz_commands.specs.Answer.{verdict_of, IsMemory, FailedToRead, Suits, Settles};

use crate::answer::Answer;
use asm_tokens::MAX_SOURCE;
use command_texts::{Printed, Text};
use coz_files::Files;
use coz_words::Request;
use file_read::read_file;
use image_write::write_elf;
use rv_asm::assemble;
use std::alloc::Global;

/// The file that is assembled of the source that the request names.
/// Err is the first fault of the file or of the source, or out of memory.
pub fn judge_source<'r, F: Files>(alloc: Global, request: &'r Request, files: &mut F) -> Answer<'r>
    requires named { IsName request.now.target }
    requires version { IsVersion request.now.dwarf }
    ensures same { F.held files.new ≡ F.held files.old }
    ensures fault_of_request { Suits request.now result }
    ensures verdict { IfSome (F.held files.old) (λ held. (IsMemory result → ⊥) →
        Settles (command_verdict Asm request.now held)
        (F.faults files.old) (F.faults files.new) result) }
    ensures read_fault_has_cause { FailedToRead result
        → IfNone (F.held files.old) (Rose (F.faults files.old) (F.faults files.new)) }
    ensures no_fault { (FailedToRead result → ⊥) → F.faults files.new ≡ F.faults files.old }
{
    let source = read_file(alloc, files, request.target.text(), MAX_SOURCE)?;
    source_answer(alloc, &source, request.target.text(), request.dwarf)
}

/// The program file of an assembled source, with the source's name in it and a line
/// table of this version.
fn source_answer<'r>(alloc: Global, source: &[u8], name: &str, version: u8) -> Answer<'r>
    requires short { length source.now ≤ MAX_SOURCE }
    requires named { IsName name.now }
    requires version { IsVersion version }
    ensures no_read { FailedToRead result → ⊥ }
    ensures verdict { (IsMemory result → ⊥)
        → verdict_of result ≡ source_verdict name.now version (assembled source.now) }
{
    let assembled = assemble(alloc, source)?;
    let text = write_elf(alloc, &assembled, name.as_bytes(), version)?;
    Ok(Printed {
        status: 0,
        text: Text::Bytes(text),
    })
}

//! The program that a file is, with its lines.
ghost use Rattle.std.specs.Prelude.{◌≡◌, ◌≤◌, length, Ok, IfOk};
ghost use Rattle.coz_types.specs.declared.TheConstants.{MAX_PROGRAM};
ghost use Rattle.coz_types.specs.Image.{ImageParts};
ghost use Rattle.elf_load.specs.Loaded.{load_answer};
ghost use Rattle.dwarf_lines.specs.Registers.{Table, view};
ghost use Rattle.line_index.specs.Index.{IsIndex};
ghost use Rattle.program_load.specs.LineTable.{table_in};
ghost use Rattle.program_load.specs.Verdict.{Verdict, program_verdict};
ghost use Rattle.program_load.specs.Answer.{verdict_after, IsMemory, FailedToRead};

use crate::fault::Fault;
use crate::line_table::read_table;
use coz_types::Image;
use dwarf_lines::LineTable;
use elf_load::load;
use line_index::{LineIndex, build};
use std::alloc::Global;

/// A program, its line table and the index of its lines.
#[derive(Drop)]
pub struct Program<'f> {
    /// The image of the program's file.
    pub image: Image<'f>,
    /// The line table of the program, as it was read.
    pub table: LineTable<'f>,
    /// The lines that it has.
    pub index: LineIndex,
}

/// The program that a file is, if it is one and has a line table.
pub fn read_program<'a, 'f>(alloc: Global, file: &'f [u8]) -> Result<Program<'f>, Fault<'a>>
    requires { length file.now ≤ MAX_PROGRAM }
    ensures no_read { FailedToRead result → ⊥ }
    ensures verdict { (IsMemory result → ⊥) → (next : ImageParts → Table → Verdict) →
        verdict_after result (λ program. next program.image (view program.table))
        ≡ program_verdict file.now next }
    ensures loads { IfOk result (λ program. load_answer file.now ≡ Ok program.image) }
    ensures reads { IfOk result (λ program. table_in file.now ≡ Ok (view program.table)) }
    ensures indexed { IfOk result (λ program.
        IsIndex (view program.table) program.image.areas program.index) }
{
    let image = load(alloc, file)?;
    let table = read_table(alloc, &image)?;
    let index = build(alloc, &table, &image)?;
    Ok(Program {
        image,
        table,
        index,
    })
}

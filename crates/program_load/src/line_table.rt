//! The line table of a program.
ghost use Rattle.std.specs.Prelude.{◌≡◌, ◌≤◌, length, None, IfOk};
ghost use Rattle.coz_types.specs.declared.TheConstants.{MAX_PROGRAM};
ghost use Rattle.elf_load.specs.Faults.{fault};
ghost use Rattle.dwarf_lines.specs.Registers.{view};
ghost use Rattle.failures.specs.Answers.{Gives};
ghost use Rattle.program_load.specs.LineTable.{bytes_in, table_in};

use coz_types::Image;
use dwarf_lines::{LineError, LineTable, read_lines};
use elf_load::section;
use std::alloc::Global;

/// The bytes of a program's section of this name, none if it has no such section.
#[tactic(auto, using(crate::proofs::Sections::section_fits))]
fn bytes_in<'a>(image: &Image<'a>, name: &[u8]) -> &'a [u8]
    requires { fault image.now.file ≡ None }
    ensures bytes { result.now ≡ bytes_in image.now.file name.now }
    ensures short { length result.now ≤ length image.now.file }
{
    match section(image, name) {
        Some(bytes) => bytes,
        None => &[],
    }
}

/// The line table of a program, read with the two sections of its texts.
/// Err is the table's first fault, or out of memory.
#[tactic(auto, unfolding(crate::specs::LineTable::table_in))]
pub fn read_table<'a>(alloc: Global, image: &Image<'a>) -> Result<LineTable<'a>, LineError>
    requires right { fault image.now.file ≡ None }
    requires short { length image.now.file ≤ MAX_PROGRAM }
    ensures exact { Gives view result (table_in image.now.file) }
    ensures few_rows { IfOk result (λ table. length table.rows ≤ MAX_PROGRAM) }
    ensures few_files { IfOk result (λ table. length table.files ≤ MAX_PROGRAM) }
{
    let lines = bytes_in(image, b".debug_line");
    let general = bytes_in(image, b".debug_str");
    let texts = bytes_in(image, b".debug_line_str");
    read_lines(alloc, lines, general, texts)
}

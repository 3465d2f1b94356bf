//! The header of the unit (DWARF 4, section 6.2.4).

ghost use Rattle.std.specs.Prelude.{◌≡◌, ◌++◌, ◌≤◌, length, IfOk};
ghost use Rattle.line_write.specs.declared.Sequence.{Sequence};
ghost use Rattle.line_write.specs.Unit.{view, views, file_entry, header};

use crate::Sequence;
use std::alloc::{AllocError, Global};

/// minimum_instruction_length, maximum_operations_per_instruction, default_is_stmt, line_base,
/// line_range, opcode_base, the lengths of the opcodes from 1 to 12, and the end of the
/// directories.
const NUMBERS: [u8; 19] = [4, 1, 1, 0xFB, 14, 13, 0, 1, 1, 1, 1, 0, 0, 0, 1, 0, 0, 1, 0];

/// The end of the name of a file, and its directory, its time and its length, all unknown.
const UNKNOWN: [u8; 4] = [0; 4];

/// Appends the file of a sequence.
fn push_file(out: &mut Vec<u8>, sequence: &Sequence) -> Result<(), AllocError>
    ensures { IfOk result (λ _. out.new.items ≡ out.old.items ++ file_entry (view sequence.now)) }
{
    out.extend_from_slice(&sequence.path)?;
    out.extend_from_slice(&UNKNOWN)
}

/// The header's bytes after its length.
pub fn header(alloc: Global, sequences: &[Sequence]) -> Result<Vec<u8>, AllocError>
    ensures { IfOk result (λ v. v.items ≡ header (views sequences.now)) }
{
    let mut out = Vec::from_slice(alloc, &NUMBERS)?;
    for sequence in sequences {
        push_file(&mut out, sequence)?;
    }
    out.push(0)?;
    Ok(out)
}

//! Fields of headers of ELF files (ELF64), and a file with a unit behind its bytes.

ghost use Rattle.std.specs.Prelude.{◌≡◌, ◌≤◌, ◌+◌, ◌++◌, length, IfOk};
ghost use Rattle.byte_write.specs.Files.{header_places, with_section};

use crate::numbers::push_doubles;
use elf_load::codes::{EHDR_SIZE, SH_OFFSET, SH_SIZE};
use std::alloc::{AllocError, Global};

/// Appends the entry, the offset of the program headers and that of the section headers, as they
/// stand in the header of a file. The program headers follow that header.
pub fn push_places(out: &mut Vec<u8>, entry: u64, sections: u64) -> Result<(), AllocError>
    ensures { IfOk result (λ _. out.new.items ≡ out.old.items ++ header_places entry sections) }
{
    push_doubles(out, &[entry, EHDR_SIZE as u64, sections])
}

/// Returns the file and after it the unit, which the section header at an offset names.
pub fn with_section(
    alloc: Global,
    file: &[u8],
    unit: &[u8],
    offset: usize,
) -> Result<Vec<u8>, AllocError>
    requires { offset + 64 ≤ length file.now }
    ensures { IfOk result (λ v. v.items ≡ with_section file.now unit.now offset) }
{
    let mut out = Vec::from_slice(alloc, &file[..offset + SH_OFFSET])?;
    push_doubles(&mut out, &[file.len() as u64, unit.len() as u64])?;
    out.extend_from_slice(&file[offset + SH_SIZE + 8..])?;
    out.extend_from_slice(unit)?;
    Ok(out)
}

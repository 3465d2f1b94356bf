//! A file with another line table after its bytes.

ghost use Rattle.std.specs.Prelude.{◌≡◌, ◌&&◌, true, None, Some, codes, IfOk, IfErr};
ghost use Rattle.std.specs.Option.{option_copied};
ghost use Rattle.elf_load.specs.Faults.{fault};
ghost use Rattle.elf_load.specs.Loaded.{load_answer, section};
ghost use Rattle.function_lines.specs.SameProgram.{is_same_image, is_same_program};
ghost use Rattle.function_lines.specs.WithLines.{IsCause, has_lines, is_section, with_lines};
ghost use Rattle.function_lines.specs.declared.relined.LinesError.TheVariants.{Memory};

use crate::same_program::same_image;
use byte_write::with_section;
use coz_types::Image;
use elf_load::{LoadError, load, section, section_place};
use std::alloc::{AllocError, Global};

/// Why a program has no file with other lines.
#[derive(Clone, Copy)]
pub enum LinesError {
    /// The file has no section `.debug_line`.
    NoLines,
    /// The header of that section cannot be changed: with it the program, or what the file's
    /// sections are, would change.
    Overlap,
    /// Out of memory.
    Memory,
}

impl From<AllocError> for LinesError {
    ghost from_gives = { λ _ error. error ≡ Memory };

    fn from(_: AllocError) -> LinesError {
        LinesError::Memory
    }
}

/// The name of the section of the line table.
pub const LINES: &[u8] = b".debug_line";

/// Whether a section is there and has these bytes.
fn is_section(found: Option<&[u8]>, unit: &[u8]) -> bool
    ensures { result ≡ is_section (option_copied found.entry) unit.now }
{
    match found {
        Some(bytes) => bytes == unit,
        None => false,
    }
}

/// Whether an image is of the same program, and its file has this unit as its line table.
fn is_relined(image: &Image, unit: &[u8], other: &Image) -> bool
    requires { fault other.now.file ≡ None }
    ensures { result ≡ (is_same_image image.now other.now
        && is_section (section other.now.file (codes ".debug_line")) unit.now) }
{
    same_image(image, other) && is_section(section(other, LINES), unit)
}

/// Whether the file is the program of an image with this unit as its line table.
#[tactic(auto, using(crate::proofs::Loaded::relined, crate::proofs::Loaded::not_loaded))]
fn has_lines(alloc: Global, image: &Image, unit: &[u8], file: &[u8]) -> Result<bool, AllocError>
    ensures { IfOk result (λ same. same ≡ has_lines image.now unit.now file.now) }
{
    match load(alloc, file) {
        Ok(other) => Ok(is_relined(image, unit, &other)),
        Err(LoadError::Fault(_)) => Ok(false),
        Err(LoadError::Memory) => Err(AllocError),
    }
}

/// Returns the file of a program with another line table: the unit follows the file's bytes,
/// and the header of the section `.debug_line` names it. All other bytes are as they were. The
/// image is that of a file without a fault.
///
/// Fails if the program has no such section, or if the header lies among the program's own bytes
/// or among those by which the file is read.
pub fn with_lines(alloc: Global, image: &Image, unit: &[u8]) -> Result<Vec<u8>, LinesError>
    requires { fault image.now.file ≡ None }
    ensures file { IfOk result (λ v. with_lines image.now.file unit.now ≡ Some v.items) }
    ensures same_program { IfOk result (λ v.
        is_same_program image.now (load_answer v.items) ≡ true) }
    ensures lines { IfOk result (λ v.
        section v.items (codes ".debug_line") ≡ Some unit.now) }
    ensures cause { IfErr result (IsCause image.now unit.now) }
{
    let offset = match section_place(image, LINES) {
        Some(offset) => offset as usize,
        None => return Err(LinesError::NoLines),
    };
    let file = with_section(alloc, image.file(), unit, offset)?;
    if !has_lines(alloc, image, unit, &file)? {
        return Err(LinesError::Overlap);
    }
    Ok(file)
}

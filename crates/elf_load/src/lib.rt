//! Reads an ELF64 file of a static RISC-V program: its image, or the first thing
//! that is wrong with it.
//!
//! ```text
//! let image = load(alloc, &file)?;
//! image.entry();                   // the address of the first instruction
//! section(&image, b".debug_line"); // Some(bytes), or None
//! ```
#![tactic(auto)]

mod areas;
pub mod codes;
mod faults;
mod fields;
mod header;
mod pages;
mod sections;
mod tables;

ghost use Rattle.std.specs.Prelude.{◌≡◌, ◌≤◌, ◌+◌, None, IfOk, IfSome, length};
ghost use Rattle.std.specs.Option.{option_copied};
ghost use Rattle.failures.specs.declared.Failure.TheVariants.{Fault};
ghost use Rattle.elf_load.specs.Faults.{fault};
ghost use Rattle.elf_load.specs.Loaded.{Loads, load_answer, section, section_place};

use crate::areas::{headers, image_areas, load_areas};
use crate::codes::{E_ENTRY, E_PHNUM};
use crate::faults::check_tables;
use crate::fields::{double_at, half_at};
use crate::header::check_header;
use crate::sections::{named_section, section_of};
use crate::tables::{read_sections, read_segments};
use coz_types::Image;
use failures::Failure;
use std::alloc::Global;

/// Why a file is rejected, in the order in which faults are looked for.
#[derive(Clone, Copy, Debug, PartialEq, Eq)]
pub enum ElfKind {
    /// The file has no ELF header: it is shorter than 64 bytes, or e_ident does not begin with ELFMAG.
    NotElf,
    /// e_ident[EI_CLASS] is not ELFCLASS64: it is no file of 64 bits.
    NotClass64,
    /// e_ident[EI_DATA] is not ELFDATA2LSB: its numbers don't have their lowest byte first.
    NotLittle,
    /// e_type is not ET_EXEC: it is no executable file of fixed addresses.
    NotExec,
    /// e_machine is not EM_RISCV: it is for another machine.
    NotRiscv,
    /// e_flags has EF_RISCV_RVC: it may have compressed instructions.
    Compressed,
    /// A table of headers, or the bytes that an entry names, do not lie in the file; or
    /// e_phentsize, e_shentsize, e_phnum or e_shstrndx is not valid.
    HeaderOut,
    /// A section `.debug_line`, `.debug_str` or `.debug_line_str` is compressed.
    PackedLines,
    /// A program header has the type PT_INTERP: the file asks for an interpreter.
    Interp,
    /// The p_filesz of a PT_LOAD exceeds its p_memsz.
    SizeOrder,
    /// A load area is not within 0x1000 to 0x20_0000_0000.
    AddressOut,
    /// The p_flags of a PT_LOAD have PF_W and PF_X.
    WritableCode,
    /// A load area has a page of an earlier one.
    SharedPage,
    /// The load areas up to this one have more than 64 MiB.
    TooMuch,
    /// e_entry is no multiple of 4 in an executable PT_LOAD.
    EntryOut,
}

/// A fault, and its place: the offset of the field or of the table entry that has it, in bytes
/// from the file's start.
#[derive(Clone, Copy, Debug, PartialEq, Eq)]
pub struct ElfFault {
    /// The kind of the fault.
    pub kind: ElfKind,
    /// The offset in the file.
    pub place: u64,
}

/// Why a file is not loaded.
pub type LoadError = Failure<ElfFault>;

impl From<ElfFault> for LoadError {
    ghost from_gives = { λ fault e. e ≡ Fault fault };

    fn from(fault: ElfFault) -> LoadError {
        LoadError::Fault(fault)
    }
}

/// The image of an ELF64 file for RISC-V, or the first fault that it has (ELF-64 Object File
/// Format, version 1.5). The areas are those of its program headers, in their order. Err may be out
/// of memory in place of either.
pub fn load<'a>(alloc: Global, file: &'a [u8]) -> Result<Image<'a>, LoadError>
    ensures answer { Loads result (load_answer file.now) }
    ensures faultless { IfOk result (λ image. fault image.file ≡ None) }
{
    check_header(file)?;
    let segments = read_segments(alloc, file)?;
    let sections = read_sections(alloc, file)?;
    let areas = load_areas(alloc, &segments)?;
    check_tables(alloc, file, &segments, &sections, &areas)?;
    let headers = headers(file, &segments);
    let areas = image_areas(alloc, file, &areas)?;
    let entry = double_at(file, E_ENTRY);
    let count = half_at(file, E_PHNUM);
    Ok(Image::new(file, areas, entry, headers, count))
}

/// The bytes of the first section of that name, for an image whose file has no fault.
/// NULL and NOBITS sections are not found.
pub fn section<'a>(image: &Image<'a>, name: &[u8]) -> Option<&'a [u8]>
    requires { fault image.now.file ≡ None }
    ensures { option_copied result ≡ section image.now.file name.now }
{
    section_of(image.file(), name)
}

/// The offset in the file of the header of the first section of that name, 64 bytes long, for an
/// image whose file has no fault. NULL and NOBITS sections are not found.
#[tactic(auto, unfolding(crate::specs::Loaded::section_place))]
pub fn section_place(image: &Image, name: &[u8]) -> Option<u64>
    requires { fault image.now.file ≡ None }
    ensures place { result ≡ section_place image.now.file name.now }
    ensures within { IfSome result (λ place. place + 64 ≤ length image.now.file) }
{
    match named_section(image.file(), name) {
        Some(section) => Some(section.place),
        None => None,
    }
}

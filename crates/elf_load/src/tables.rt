//! Program headers and section headers.

ghost use Rattle.std.specs.Prelude.{◌≡◌, ◌<◌, ◌≤◌, ◌+◌, ◌*◌, length, IfOk};
ghost use Rattle.elf_load.specs.Tables.{has_bit, phoff, phnum, shoff, shnum, segment_at, segments, section_at, sections, bytes_of, names};
ghost use Rattle.elf_load.specs.Faults.{HasHeaders};
ghost use Rattle.elf_load.specs.declared.codes.TheConstants.{PHDR_SIZE, SHDR_SIZE};

use crate::codes::{
    E_PHNUM, E_PHOFF, E_SHNUM, E_SHOFF, E_SHSTRNDX, P_FILESZ, P_FLAGS, P_MEMSZ, P_OFFSET, P_TYPE,
    P_VADDR, PF_R, PF_W, PF_X, PHDR_SIZE, PT_INTERP, PT_LOAD, SH_FLAGS, SH_NAME, SH_OFFSET,
    SH_SIZE, SH_TYPE, SHDR_SIZE, SHF_COMPRESSED, SHT_NOBITS, SHT_NULL,
};
use crate::fields::{double_at, half_at, word_at};
use coz_types::PAGE;
use std::alloc::{AllocError, Global};

/// A program header, and its offset in the file.
#[derive(Clone, Copy)]
pub struct Segment {
    /// The offset of the header in the file.
    pub place: u64,
    /// p_type.
    pub kind: u32,
    /// p_flags.
    pub flags: u32,
    /// p_offset: where its bytes begin in the file.
    pub offset: u64,
    /// p_vaddr: where they begin in memory.
    pub vaddr: u64,
    /// p_filesz: how many bytes it has in the file.
    pub filesz: u64,
    /// p_memsz: how many it has in memory.
    pub memsz: u64,
}

/// A section header, and its offset in the file.
#[derive(Clone, Copy)]
pub struct Section {
    /// The offset of the header in the file.
    pub place: u64,
    /// sh_name: where its name begins among the names.
    pub name: u32,
    /// sh_type.
    pub kind: u32,
    /// sh_flags.
    pub flags: u64,
    /// sh_offset: where its bytes begin in the file.
    pub offset: u64,
    /// sh_size: how many they are.
    pub size: u64,
}

fn has_bit(bit: u32, flags: u64) -> bool
    requires { bit ≤ 63 }
    ensures { result ≡ has_bit bit flags }
{
    (flags >> bit) % 2 == 1
}

impl Segment {
    ghost use Rattle.std.specs.Prelude.{◌≡◌, ◌≤◌, ◌^◌};
    ghost use Rattle.elf_load.specs.Tables.{is_load, is_interp, is_executable, is_writable, is_readable, is_area, first_page, end_page, has_address, has_place};

    /// Whether its bytes are loaded (PT_LOAD).
    pub fn is_load(&self) -> bool
        ensures { result ≡ is_load self.now }
    {
        self.kind == PT_LOAD
    }

    /// Whether it asks for an interpreter (PT_INTERP).
    pub fn is_interp(&self) -> bool
        ensures { result ≡ is_interp self.now }
    {
        self.kind == PT_INTERP
    }

    /// Whether its bytes may be executed.
    pub fn is_executable(&self) -> bool
        ensures { result ≡ is_executable self.now }
    {
        has_bit(PF_X, self.flags as u64)
    }

    /// Whether they may be written.
    pub fn is_writable(&self) -> bool
        ensures { result ≡ is_writable self.now }
    {
        has_bit(PF_W, self.flags as u64)
    }

    /// Whether they may be read.
    pub fn is_readable(&self) -> bool
        ensures { result ≡ is_readable self.now }
    {
        has_bit(PF_R, self.flags as u64)
    }

    /// Whether it takes memory.
    pub fn is_area(&self) -> bool
        ensures { result ≡ is_area self.now }
    {
        self.is_load() && self.memsz != 0
    }

    /// The number of its first page.
    pub fn first_page(&self) -> u64
        ensures { result ≡ first_page self.now }
    {
        self.vaddr / PAGE
    }

    /// The number of the page after its last one.
    pub fn end_page(&self) -> u64
        ensures page { result ≡ end_page self.now }
        ensures small { result ≤ 2 ^ 53 }
    {
        ((self.vaddr as u128 + self.memsz as u128 + (PAGE as u128 - 1)) / PAGE as u128) as u64
    }

    /// Whether its memory has the address.
    pub fn has_address(&self, address: u64) -> bool
        ensures { result ≡ has_address address self.now }
    {
        self.vaddr <= address && address - self.vaddr < self.memsz
    }

    /// Whether its bytes in the file include the offset.
    pub fn has_place(&self, place: u64) -> bool
        ensures { result ≡ has_place place self.now }
    {
        self.offset <= place && place - self.offset < self.filesz
    }
}

impl Section {
    ghost use Rattle.std.specs.Prelude.{◌≡◌};
    ghost use Rattle.elf_load.specs.Tables.{has_bytes, is_compressed};

    /// Whether its bytes are in the file: it is neither NULL nor NOBITS.
    pub fn has_bytes(&self) -> bool
        ensures { result ≡ has_bytes self.now }
    {
        !(self.kind == SHT_NULL || self.kind == SHT_NOBITS)
    }

    /// Whether its bytes are compressed.
    pub fn is_compressed(&self) -> bool
        ensures { result ≡ is_compressed self.now }
    {
        has_bit(SHF_COMPRESSED, self.flags)
    }
}

fn segment_at(file: &[u8], place: usize) -> Segment
    requires { place + 56 ≤ length file.now }
    ensures { result ≡ segment_at file.now place }
{
    Segment {
        place: place as u64,
        kind: word_at(file, place + P_TYPE),
        flags: word_at(file, place + P_FLAGS),
        offset: double_at(file, place + P_OFFSET),
        vaddr: double_at(file, place + P_VADDR),
        filesz: double_at(file, place + P_FILESZ),
        memsz: double_at(file, place + P_MEMSZ),
    }
}

/// The program header of a number.
#[tactic(auto, using(crate::proofs::Rows::room))]
fn nth_segment(file: &[u8], index: u16) -> Segment
    requires headers { HasHeaders file.now }
    requires within { index < phnum file.now }
    ensures { result ≡ segment_at file.now (phoff file.now + PHDR_SIZE * index) }
{
    let first = double_at(file, E_PHOFF) as usize;
    segment_at(file, first + PHDR_SIZE * index as usize)
}

/// The program headers, in their order.
#[tactic(auto, using(crate::proofs::Rows::room))]
pub fn read_segments(alloc: Global, file: &[u8]) -> Result<Vec<Segment>, AllocError>
    requires { HasHeaders file.now }
    ensures { IfOk result (λ read. read.items ≡ segments file.now) }
{
    let count = half_at(file, E_PHNUM);
    let mut segments = Vec::with_capacity(alloc, count as usize)?;
    for index in 0..count {
        segments.push(nth_segment(file, index))?;
    }
    Ok(segments)
}

fn section_at(file: &[u8], place: usize) -> Section
    requires { place + 64 ≤ length file.now }
    ensures { result ≡ section_at file.now place }
{
    Section {
        place: place as u64,
        name: word_at(file, place + SH_NAME),
        kind: word_at(file, place + SH_TYPE),
        flags: double_at(file, place + SH_FLAGS),
        offset: double_at(file, place + SH_OFFSET),
        size: double_at(file, place + SH_SIZE),
    }
}

/// The section header of a number.
#[tactic(auto, using(crate::proofs::Rows::room))]
pub fn nth_section(file: &[u8], index: u16) -> Section
    requires headers { HasHeaders file.now }
    requires within { index < shnum file.now }
    ensures { result ≡ section_at file.now (shoff file.now + SHDR_SIZE * index) }
{
    let first = double_at(file, E_SHOFF) as usize;
    section_at(file, first + SHDR_SIZE * index as usize)
}

/// The section headers, in their order.
#[tactic(auto, using(crate::proofs::Rows::room))]
pub fn read_sections(alloc: Global, file: &[u8]) -> Result<Vec<Section>, AllocError>
    requires { HasHeaders file.now }
    ensures { IfOk result (λ read. read.items ≡ sections file.now) }
{
    let count = half_at(file, E_SHNUM);
    let mut sections = Vec::with_capacity(alloc, count as usize)?;
    for index in 0..count {
        sections.push(nth_section(file, index))?;
    }
    Ok(sections)
}

/// The bytes of a section, as far as the file has them.
pub fn bytes_of<'a>(file: &'a [u8], section: &Section) -> &'a [u8]
    ensures { result.now ≡ bytes_of file.now section.now }
{
    let start = section.offset.min(file.len() as u64);
    let rest = &file[start as usize..];
    let size = section.size.min(rest.len() as u64);
    &rest[..size as usize]
}

/// The bytes of the section that holds the names.
#[tactic(auto, using(crate::proofs::Rows::room))]
pub fn names(file: &[u8]) -> &[u8]
    requires { HasHeaders file.now }
    ensures { result.now ≡ names file.now }
{
    let index = half_at(file, E_SHSTRNDX);
    if index == 0 || index >= half_at(file, E_SHNUM) {
        return &[];
    }
    let section = nth_section(file, index);
    if section.has_bytes() {
        bytes_of(file, &section)
    } else {
        &[]
    }
}

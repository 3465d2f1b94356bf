//! Where the parts of a written file lie, and its headers (ELF64).

ghost use Rattle.std.specs.Prelude.{◌≡◌, ◌<◌, ◌≤◌, ◌+◌, ◌^◌, ◌++◌, length, IfOk};
ghost use Rattle.rv_asm.specs.Assembled.{view};
ghost use Rattle.image_write.specs.File.{IsWritable, has_content, whole_pages, text_room, content_place, unit_place, names_place, names_end, headers_place, segment_count, file_header, segment, segments, section, sections};

use asm_values::up_to_multiple;
use byte_write::{push_doubles, push_half, push_places, push_word};
use coz_types::PAGE;
use elf_load::codes::{
    EHDR_SIZE, ELFCLASS64, ELFDATA2LSB, EM_RISCV, ET_EXEC, PHDR_SIZE, PT_LOAD, SHDR_SIZE,
};
use rv_asm::{Assembled, TEXT_START};
use std::alloc::{AllocError, Global};

/// The names of the sections, each followed by a zero.
pub const NAMES: [u8; 35] = *b"\0.text\0.data\0.debug_line\0.shstrtab\0";

// The places of the names.

/// The offset of `.text` in `NAMES`.
const TEXT_NAME: u32 = 1;
/// The offset of `.data` in `NAMES`.
const DATA_NAME: u32 = 7;
/// The offset of `.debug_line` in `NAMES`.
const LINES_NAME: u32 = 13;
/// The offset of `.shstrtab` in `NAMES`.
const NAMES_NAME: u32 = 25;

/// The version of the format (ELF64).
const EV_CURRENT: u8 = 1;

// The parts of the header of the file that are the same in each.

/// e_ident, of a file of 64 bits with the lowest byte first; e_type, e_machine and e_version.
const IDENTITY: [u8; 24] = [
    0x7F,
    b'E',
    b'L',
    b'F',
    ELFCLASS64,
    ELFDATA2LSB,
    EV_CURRENT,
    0,
    0,
    0,
    0,
    0,
    0,
    0,
    0,
    0,
    ET_EXEC as u8,
    0,
    EM_RISCV as u8,
    0,
    EV_CURRENT,
    0,
    0,
    0,
];

/// No e_flags; e_ehsize and e_phentsize.
const SIZES: [u8; 8] = [0, 0, 0, 0, EHDR_SIZE as u8, 0, PHDR_SIZE as u8, 0];

/// e_shentsize; e_shnum, with the null section; and e_shstrndx, the number of the section of the
/// names.
const SECTION_HEADERS: [u8; 6] = [SHDR_SIZE as u8, 0, 5, 0, 4, 0];

/// PF_R and PF_X.
const TEXT_RIGHTS: u32 = 5;

/// PF_R and PF_W.
const DATA_RIGHTS: u32 = 6;

// The types of sections.

/// The program's own bytes.
const SHT_PROGBITS: u32 = 1;
/// Names.
const SHT_STRTAB: u32 = 3;

/// SHF_ALLOC and SHF_EXECINSTR.
const TEXT_FLAGS: u64 = 6;

/// SHF_WRITE and SHF_ALLOC.
const DATA_FLAGS: u64 = 3;

fn has_content(assembled: &Assembled) -> bool
    ensures { result ≡ has_content (view assembled.now) }
{
    0 < assembled.content.len()
}

/// The text's length in whole pages.
fn whole_pages(assembled: &Assembled) -> u64
    requires { IsWritable (view assembled.now) }
    ensures value { result ≡ whole_pages (view assembled.now) }
    ensures small { result < 2 ^ 21 }
    ensures above { length (view assembled.now).text ≤ result }
{
    up_to_multiple(PAGE, assembled.text.len() as u64)
}

/// The number of bytes of the text with the zeros before the data.
pub fn text_room(assembled: &Assembled) -> u64
    requires { IsWritable (view assembled.now) }
    ensures value { result ≡ text_room (view assembled.now) }
    ensures small { result < 2 ^ 21 }
    ensures above { length (view assembled.now).text ≤ result }
{
    if has_content(assembled) {
        whole_pages(assembled)
    } else {
        assembled.text.len() as u64
    }
}

fn content_place(assembled: &Assembled) -> u64
    requires { IsWritable (view assembled.now) }
    ensures value { result ≡ content_place (view assembled.now) }
    ensures small { result < 2 ^ 22 }
{
    PAGE + text_room(assembled)
}

fn unit_place(assembled: &Assembled) -> u64
    requires { IsWritable (view assembled.now) }
    ensures value { result ≡ unit_place (view assembled.now) }
    ensures small { result < 2 ^ 23 }
{
    content_place(assembled) + assembled.content.len() as u64
}

fn names_place(assembled: &Assembled, unit: &[u8]) -> u64
    requires writable { IsWritable (view assembled.now) }
    requires unit { length unit.now < 2 ^ 33 }
    ensures value { result ≡ names_place unit.now (view assembled.now) }
    ensures small { result < 2 ^ 34 }
{
    unit_place(assembled) + unit.len() as u64
}

/// The offset at which the names of the sections end in the file.
pub fn names_end(assembled: &Assembled, unit: &[u8]) -> u64
    requires writable { IsWritable (view assembled.now) }
    requires unit { length unit.now < 2 ^ 33 }
    ensures value { result ≡ names_end unit.now (view assembled.now) }
    ensures small { result < 2 ^ 35 }
{
    names_place(assembled, unit) + 35
}

/// The offset of the section headers in the file.
pub fn headers_place(assembled: &Assembled, unit: &[u8]) -> u64
    requires writable { IsWritable (view assembled.now) }
    requires unit { length unit.now < 2 ^ 33 }
    ensures value { result ≡ headers_place unit.now (view assembled.now) }
    ensures within { result < names_end unit.now (view assembled.now) + 8 }
    ensures above { names_end unit.now (view assembled.now) ≤ result }
{
    up_to_multiple(8, names_end(assembled, unit))
}

/// The number of segments of the file.
pub fn segment_count(assembled: &Assembled) -> u16
    ensures { result ≡ segment_count (view assembled.now) }
{
    if has_content(assembled) { 2 } else { 1 }
}

/// The header of the file: its entry, the offset of the section headers,
/// and how many segments there are.
#[tactic(auto, unfolding(crate::specs::File::file_header))]
pub fn file_header(
    alloc: Global,
    entry: u64,
    headers: u64,
    segments: u16,
) -> Result<Vec<u8>, AllocError>
    ensures { IfOk result (λ v. v.items ≡ file_header entry headers segments) }
{
    let mut out = Vec::from_slice(alloc, &IDENTITY)?;
    push_places(&mut out, entry, headers)?;
    out.extend_from_slice(&SIZES)?;
    push_half(&mut out, segments)?;
    out.extend_from_slice(&SECTION_HEADERS)?;
    Ok(out)
}

/// Appends the header of a segment.
#[tactic(auto, unfolding(crate::specs::File::segment))]
fn push_segment(
    out: &mut Vec<u8>,
    flags: u32,
    offset: u64,
    address: u64,
    size: u64,
) -> Result<(), AllocError>
    ensures { IfOk result (λ _. out.new.items ≡ out.old.items ++ segment flags offset address size) }
{
    push_word(out, PT_LOAD)?;
    push_word(out, flags)?;
    push_doubles(out, &[offset, address, address, size, size, PAGE])
}

/// Appends the headers of the segments: the text, and the data if there is any.
#[tactic(auto, unfolding(crate::specs::File::segments))]
pub fn push_segments(out: &mut Vec<u8>, assembled: &Assembled) -> Result<(), AllocError>
    requires { IsWritable (view assembled.now) }
    ensures { IfOk result (λ _. out.new.items ≡ out.old.items ++ segments (view assembled.now)) }
{
    push_segment(
        out,
        TEXT_RIGHTS,
        PAGE,
        TEXT_START,
        assembled.text.len() as u64,
    )?;
    if has_content(assembled) {
        let pages = whole_pages(assembled);
        let size = assembled.content.len() as u64;
        push_segment(out, DATA_RIGHTS, PAGE + pages, TEXT_START + pages, size)?;
    }
    Ok(())
}

/// Appends the header of a section.
#[tactic(auto, unfolding(crate::specs::File::section))]
fn push_section(
    out: &mut Vec<u8>,
    name: u32,
    kind: u32,
    flags: u64,
    offset: u64,
    size: u64,
    align: u64,
) -> Result<(), AllocError>
    ensures { IfOk result (λ _.
        out.new.items ≡ out.old.items ++ section name kind flags offset size align) }
{
    push_word(out, name)?;
    push_word(out, kind)?;
    // No address; no link and no further information, which have four bytes each; no entries.
    push_doubles(out, &[flags, 0, offset, size, 0, align, 0])
}

/// Appends the headers of the sections.
#[tactic(auto, unfolding(crate::specs::File::sections))]
pub fn push_sections(
    out: &mut Vec<u8>,
    assembled: &Assembled,
    unit: &[u8],
) -> Result<(), AllocError>
    requires writable { IsWritable (view assembled.now) }
    requires unit { length unit.now < 2 ^ 33 }
    ensures { IfOk result (λ _.
        out.new.items ≡ out.old.items ++ sections unit.now (view assembled.now)) }
{
    let text = assembled.text.len() as u64;
    let content = assembled.content.len() as u64;
    push_section(out, 0, 0, 0, 0, 0, 0)?;
    push_section(out, TEXT_NAME, SHT_PROGBITS, TEXT_FLAGS, PAGE, text, 4)?;
    push_section(
        out,
        DATA_NAME,
        SHT_PROGBITS,
        DATA_FLAGS,
        content_place(assembled),
        content,
        8,
    )?;
    push_section(
        out,
        LINES_NAME,
        SHT_PROGBITS,
        0,
        unit_place(assembled),
        unit.len() as u64,
        1,
    )?;
    push_section(
        out,
        NAMES_NAME,
        SHT_STRTAB,
        0,
        names_place(assembled, unit),
        35,
        1,
    )
}

//! The rows of the table of faults on program headers and sections.

ghost use Rattle.std.specs.Prelude.{◌≡◌, ◌&&◌, ◌||◌, ◌*◌, ◌%◌, ◌==◌, not, nat_lt, option_map, codes, All, true};
ghost use Rattle.std.specs.Option.{option_copied};
ghost use Rattle.std.specs.List.{list_any};
ghost use Rattle.elf_load.specs.Tables.{entry, has_bytes, has_address, has_name, is_text, is_area, is_compressed, is_executable, is_interp, is_load, is_writable, holds_lines, line_names, runs_past, first_page, end_page};
ghost use Rattle.elf_load.specs.Faults.{HasHeaders, Judges, JudgesOrFails, row, entry_row, first_row, first_section, first_segment, rows_on};

use crate::codes::E_ENTRY;
use crate::fields::{double_at, runs_past};
use crate::pages::{no_shared_page, not_too_much};
use crate::tables::{Section, Segment, names};
use crate::{ElfFault, ElfKind, LoadError};
use coz_types::{LOAD_END, PAGE};
use std::alloc::Global;

/// The least page that a load area may have: the one at 0 stays free.
const FIRST_PAGE: u64 = 0x1000 / PAGE;

/// The page that ends the load areas.
const END_PAGE: u64 = LOAD_END / PAGE;

/// The fault at a program header, if one was found.
pub fn at_segment(kind: ElfKind, found: Option<&Segment>) -> Result<(), ElfFault>
    ensures { Judges result
        (entry_row kind (option_map (λ s. s.place) (option_copied found.entry))) }
{
    match found {
        Some(header) => Err(ElfFault {
            kind,
            place: header.place,
        }),
        None => Ok(()),
    }
}

/// The fault at a section header, if one was found.
fn at_section(kind: ElfKind, found: Option<&Section>) -> Result<(), ElfFault>
    ensures { Judges result
        (entry_row kind (option_map (λ s. s.place) (option_copied found.entry))) }
{
    match found {
        Some(header) => Err(ElfFault {
            kind,
            place: header.place,
        }),
        None => Ok(()),
    }
}

/// No file bytes of a PT_LOAD run past the file.
fn segments_in_file(file: &[u8], segments: &[Segment]) -> Result<(), ElfFault>
    ensures { Judges result (entry_row ElfKind.HeaderOut
        (first_segment (λ s. is_load s && runs_past file.now s.offset s.filesz) segments.now)) }
{
    let found = segments
        .iter()
        .find(|s| s.is_load() && runs_past(file, s.offset, s.filesz));
    at_segment(ElfKind::HeaderOut, found)
}

/// No bytes of a section run past the file.
fn sections_in_file(file: &[u8], sections: &[Section]) -> Result<(), ElfFault>
    ensures { Judges result (entry_row ElfKind.HeaderOut
        (first_section (λ s. has_bytes s && runs_past file.now s.offset s.size) sections.now)) }
{
    let found = sections
        .iter()
        .find(|s| s.has_bytes() && runs_past(file, s.offset, s.size));
    at_section(ElfKind::HeaderOut, found)
}

/// Whether the bytes before the first zero byte are this name.
fn is_text(bytes: &[u8], name: &[u8]) -> bool
    ensures { result ≡ is_text bytes.now name.now }
{
    if name.contains(&0) || bytes.len() <= name.len() {
        return false;
    }
    let (front, rest) = bytes.split_at(name.len());
    front == name && rest[0] == 0
}

/// Whether a section has this name among these.
pub fn has_name(names: &[u8], name: &[u8], section: &Section) -> bool
    ensures { result ≡ has_name names.now name.now section.now }
{
    let start = (section.name as usize).min(names.len());
    is_text(&names[start..], name)
}

/// Whether it is a section that lines are read from, by its name among these.
fn holds_lines(names: &[u8], section: &Section) -> bool
    ensures { result ≡ list_any (λ name. has_name names.now name section.now) line_names }
{
    has_name(names, b".debug_line", section)
        || has_name(names, b".debug_str", section)
        || has_name(names, b".debug_line_str", section)
}

/// The line table and its texts are not compressed.
fn lines_unpacked(file: &[u8], sections: &[Section]) -> Result<(), ElfFault>
    requires { HasHeaders file.now }
    ensures { Judges result (entry_row ElfKind.PackedLines
        (first_section (λ s. holds_lines file.now s && is_compressed s) sections.now)) }
{
    let names = names(file);
    let found = sections
        .iter()
        .find(|s| holds_lines(names, s) && s.is_compressed());
    at_section(ElfKind::PackedLines, found)
}

/// The program asks for no interpreter.
fn no_interp(segments: &[Segment]) -> Result<(), ElfFault>
    ensures { Judges result (entry_row ElfKind.Interp (first_segment is_interp segments.now)) }
{
    let found = segments.iter().find(|s| s.is_interp());
    at_segment(ElfKind::Interp, found)
}

/// No PT_LOAD has more bytes in the file than in memory.
fn sizes_in_order(segments: &[Segment]) -> Result<(), ElfFault>
    ensures { Judges result (entry_row ElfKind.SizeOrder
        (first_segment (λ s. is_load s && nat_lt s.memsz s.filesz) segments.now)) }
{
    let found = segments.iter().find(|s| s.is_load() && s.filesz > s.memsz);
    at_segment(ElfKind::SizeOrder, found)
}

/// Each load area is where a program may be.
fn areas_in_range(areas: &[Segment]) -> Result<(), ElfFault>
    ensures { Judges result (entry_row ElfKind.AddressOut (first_segment (λ s.
        nat_lt (PAGE * first_page s) 0x1000 || nat_lt LOAD_END (PAGE * end_page s)) areas.now)) }
{
    let found = areas
        .iter()
        .find(|s| s.first_page() < FIRST_PAGE || s.end_page() > END_PAGE);
    at_segment(ElfKind::AddressOut, found)
}

/// No PT_LOAD may be written and executed.
fn no_writable_code(segments: &[Segment]) -> Result<(), ElfFault>
    ensures { Judges result (entry_row ElfKind.WritableCode
        (first_segment (λ s. is_load s && is_writable s && is_executable s) segments.now)) }
{
    let found = segments
        .iter()
        .find(|s| s.is_load() && s.is_writable() && s.is_executable());
    at_segment(ElfKind::WritableCode, found)
}

/// Whether a program that begins there begins in its code.
fn is_entered(segments: &[Segment], entry: u64) -> bool
    ensures { result
        ≡ list_any (λ s. is_load s && is_executable s && has_address entry s) segments.now }
{
    segments.iter().any(|s| s.is_load() && s.is_executable() && s.has_address(entry))
}

/// The program begins with an instruction of its code.
fn entry_in_code(file: &[u8], segments: &[Segment]) -> Result<(), ElfFault>
    requires { HasHeaders file.now }
    ensures { Judges result (row ElfKind.EntryOut (not (entry file.now % 4 == 0 && list_any (λ s.
        is_load s && is_executable s && has_address (entry file.now) s) segments.now)) 24) }
{
    let entry = double_at(file, E_ENTRY);
    if entry % 4 == 0 && is_entered(segments, entry) {
        Ok(())
    } else {
        Err(ElfFault {
            kind: ElfKind::EntryOut,
            place: E_ENTRY as u64,
        })
    }
}

/// Checks the program headers and the section headers of a file. Err is their first fault, or out
/// of memory.
pub fn check_tables(
    alloc: Global,
    file: &[u8],
    segments: &[Segment],
    sections: &[Section],
    areas: &[Segment],
) -> Result<(), LoadError>
    requires headers { HasHeaders file.now }
    requires areas { All (λ s. is_area s ≡ true) areas.now }
    ensures { JudgesOrFails result
        (first_row (rows_on file.now segments.now sections.now areas.now)) }
{
    segments_in_file(file, segments)?;
    sections_in_file(file, sections)?;
    lines_unpacked(file, sections)?;
    no_interp(segments)?;
    sizes_in_order(segments)?;
    areas_in_range(areas)?;
    no_writable_code(segments)?;
    no_shared_page(alloc, areas)?;
    not_too_much(areas)?;
    entry_in_code(file, segments)?;
    Ok(())
}

//! The header of a unit (DWARF 4, 6.2.4; DWARF 5, 6.2.4).

ghost use Rattle.std.specs.Prelude.{◌≡◌, ◌+◌, ◌<◌, length};

use crate::entries::{read_directories, read_files};
use crate::fields::{byte, bytes, one_operation, positive_byte};
use crate::listed::{files_of, paths, read_listed};
use crate::strings::Sections;
use crate::{FileName, LineError, LineKind};
use leb_cursor::Cursor;
use std::alloc::Global;

/// The directories and files of a header.
#[derive(Drop)]
pub struct Names<'a> {
    /// The paths of the directories, by number.
    pub directories: Vec<&'a [u8]>,
    /// The files, by number.
    pub files: Vec<FileName<'a>>,
}

/// The fields of a unit's header that its program uses.
#[derive(Drop)]
pub struct Header<'a> {
    /// The version of the unit, 2 to 5.
    pub version: u16,
    /// By how many bytes an address advances for one step.
    pub minimum_length: u8,
    /// Whether rows begin statements at first.
    pub is_stmt: bool,
    /// The least advance of the line by a special opcode.
    pub line_base: i8,
    /// The number of advances of the line that special opcodes have.
    pub line_range: u8,
    /// The first special opcode.
    pub opcode_base: u8,
    /// The number of operands of each opcode from 1 to opcode_base - 1.
    pub lengths: Vec<u8>,
    /// The paths of the directories, by number.
    pub directories: Vec<&'a [u8]>,
    /// The files, by number.
    pub files: Vec<FileName<'a>>,
    ghost has_range: { 0 < line_range },
    ghost has_lengths: { opcode_base ≡ 1 + length lengths.items },
}

impl<'a> Header<'a> {
    ghost use Rattle.dwarf_lines.specs.Reading.{header};
    ghost use Rattle.failures.specs.Answers.{Gives};
    ghost use Rattle.dwarf_lines.specs.Views.{header_view, sections_view};

    /// The header from minimum_instruction_length on. What is left after its files is skipped.
    /// Err is its first wrong field, or out of memory.
    #[tactic(auto, unfolding(crate::specs::Reading::header))]
    pub fn read(
        alloc: Global,
        version: u16,
        sections: &mut Sections<'a>,
        mut fields: Cursor<'a>,
    ) -> Result<Header<'a>, LineError>
        ensures exact { Gives header_view result
            (header version (sections_view sections.old) fields.entry) }
        ensures kept { sections_view sections.new ≡ sections_view sections.old }
    {
        let minimum_length = byte(&mut fields)?;
        one_operation(version, &mut fields)?;
        let is_stmt = byte(&mut fields)? != 0;
        let line_base = byte(&mut fields)?.cast_signed();
        let line_range = positive_byte(LineKind::ZeroRange, &mut fields)?;
        let opcode_base = positive_byte(LineKind::OpcodeBaseZero, &mut fields)?;
        let lengths = bytes(alloc, opcode_base - 1, &mut fields)?;
        let names = Names::read(alloc, version, sections, &mut fields)?;
        Ok(Header {
            version,
            minimum_length,
            is_stmt,
            line_base,
            line_range,
            opcode_base,
            lengths,
            directories: names.directories,
            files: names.files,
        })
    }
}

impl<'a> Names<'a> {
    ghost use Rattle.std.specs.Prelude.{◌≡◌, ◌==◌};
    ghost use Rattle.dwarf_lines.specs.Reading.{WalksOver, names, names_before_5, names_5};
    ghost use Rattle.dwarf_lines.specs.Views.{names_view, sections_view};

    /// The names of a header, as its version has them.
    fn read(
        alloc: Global,
        version: u16,
        sections: &mut Sections<'a>,
        cursor: &mut Cursor<'a>,
    ) -> Result<Names<'a>, LineError>
        ensures exact { WalksOver names_view result cursor.new
            (names (version == 5) (sections_view sections.old) cursor.old) }
        ensures kept { sections_view sections.new ≡ sections_view sections.old }
    {
        if version == 5 {
            Names::read_listed(alloc, sections, cursor)
        } else {
            Names::read_ended(alloc, cursor)
        }
    }

    /// The two lists of versions 2 to 4, each up to its empty entry.
    fn read_ended(alloc: Global, cursor: &mut Cursor<'a>) -> Result<Names<'a>, LineError>
        ensures { WalksOver names_view result cursor.new (names_before_5 cursor.old) }
    {
        let directories = read_directories(alloc, cursor)?;
        let files = read_files(alloc, directories.as_slice(), cursor)?;
        Ok(Names { directories, files })
    }

    /// The two lists of version 5, each with its formats and its count.
    fn read_listed(
        alloc: Global,
        sections: &mut Sections<'a>,
        cursor: &mut Cursor<'a>,
    ) -> Result<Names<'a>, LineError>
        ensures exact { WalksOver names_view result cursor.new
            (names_5 (sections_view sections.old) cursor.old) }
        ensures kept { sections_view sections.new ≡ sections_view sections.old }
    {
        let strings = sections.lend(alloc)?;
        let directories = read_listed(alloc, &strings, cursor)?;
        let entries = read_listed(alloc, &strings, cursor)?;
        sections.take_back(strings);
        let directories = paths(alloc, directories.as_slice())?;
        let files = files_of(alloc, directories.as_slice(), entries.as_slice())?;
        Ok(Names { directories, files })
    }
}

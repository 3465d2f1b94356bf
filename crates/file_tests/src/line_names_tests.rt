//! Tests of `dwarf_lines`: units of version 5, whose files are named by entries of formats that the
//! unit describes, and in sections of strings.
ghost use Rattle.std.specs.Prelude.{◌≤◌, length};

use crate::buffer::Buffer;
use crate::checks::check_equal;
use crate::dwarf_lines_tests::{FOUR_ROWS, check_files, fault};
use dwarf_lines::{LineError, LineKind, LineTable, read_lines};
use std::alloc::Global;
use std::process::Abort;

/// A unit of version 5: the directory `.`, twice the file `one.s`, of which the rows have
/// the second. Its program begins at 56. llvm-dwarfdump prints its rows.
static FIVE: [u8; 83] = [
    // unit_length, version, address_size, segment_selector_size, header_length.
    0x4F, 0x00, 0x00, 0x00, 0x05, 0x00, 0x08, 0x00, 0x2C, 0x00, 0x00, 0x00,
    // minimum_instruction_length, maximum_operations_per_instruction, default_is_stmt, line_base,
    // line_range, opcode_base, standard_opcode_lengths.
    0x04, 0x01, 0x01, 0xFB, 0x0E, 0x0D, 0x00, 0x01, 0x01, 0x01, 0x01, 0x00, 0x00, 0x00, 0x01, 0x00,
    0x00, 0x01,
    // One directory, whose path is a string: `.`.
    0x01, 0x01, 0x08, 0x01, 0x2E, 0x00,
    // Two files, each with its path, a string, and its directory's index, one byte: `one.s` in 0.
    0x02, 0x01, 0x08, 0x02, 0x0B, 0x02, 0x6F, 0x6E, 0x65, 0x2E, 0x73, 0x00, 0x00, 0x6F, 0x6E, 0x65,
    0x2E, 0x73, 0x00, 0x00,
    // DW_LNE_set_address 0x10000, DW_LNS_copy.
    0x00, 0x09, 0x02, 0x00, 0x00, 0x01, 0x00, 0x00, 0x00, 0x00, 0x00, 0x01,
    // DW_LNS_advance_pc 1, DW_LNS_advance_line 1, DW_LNS_copy; twice.
    0x02, 0x01, 0x03, 0x01, 0x01, 0x02, 0x01, 0x03, 0x01, 0x01,
    // DW_LNS_advance_pc 1, DW_LNE_end_sequence.
    0x02, 0x01, 0x00, 0x01, 0x01,
];

// The offsets of fields in `FIVE`.
const VERSION: usize = 4;

const ADDRESS_SIZE: usize = 6;

const SEGMENT_SELECTOR_SIZE: usize = 7;

const DIRECTORY_FORMATS: usize = 30;

const DIRECTORY_CONTENT: usize = 31;

const DIRECTORY_FORM: usize = 32;

const FILE_FORMATS: usize = 36;

const SECOND_CONTENT: usize = 39;

const SECOND_FORM: usize = 40;

// Contents of fields (DWARF 5, 7.22, DW_LNCT).
const PATH: u8 = 1;

const DIRECTORY_INDEX: u8 = 2;

const TIMESTAMP: u8 = 3;

const MD5: u8 = 5;

// Forms of fields (DWARF 5, 7.5.6, DW_FORM).
const DATA2: u8 = 0x05;

const DATA4: u8 = 0x06;

const DATA8: u8 = 0x07;

const STRING: u8 = 0x08;

const BLOCK: u8 = 0x09;

const DATA1: u8 = 0x0B;

const STRP: u8 = 0x0E;

const UDATA: u8 = 0x0F;

const STRX: u8 = 0x1A;

const DATA16: u8 = 0x1E;

const LINE_STRP: u8 = 0x1F;

// Opcodes (DWARF 5, 7.22). The last two are extended: DW_LNE.
const COPY: u8 = 1;

const SET_FILE: u8 = 4;

const END_SEQUENCE: u8 = 1;

const DEFINE_FILE: u8 = 3;

/// The bytes of `.debug_str`, whose last string has no end.
const GENERAL: &[u8] = b"xy\0z";

/// The bytes of `.debug_line_str`.
const LINE: &[u8] = b"l\0";

/// No directories.
const NONE: &[u8] = &[0, 0];

/// The directories `.` and `d`, each a path, which is a string.
const TWO: &[u8] = b"\x01\x01\x08\x02.\0d\0";

/// A section. The unit is `FIVE`.
enum Section {
    /// The unit cut to each length from the first to the last of these, with a unit_length of what
    /// is left.
    Cut(usize, usize),
    /// The unit with a byte set.
    Set(usize, u8),
    /// A unit without a program, whose header has these bytes from offset 18 on: the formats of
    /// directories and the directories; the formats of files; and the files. Each list stands
    /// after its count.
    Names(&'static [u8], &'static [u8], &'static [u8]),
    /// The unit with this program.
    Program(&'static [u8]),
    /// The unit between one of version 4 and one of version 6.
    Between,
}

/// What a section is read as.
enum Expected {
    /// A fault and its offset.
    Fault(LineKind, u64),
    /// The directory and the name of each file, the file and the line of each row, and how many
    /// units are skipped.
    Table(&'static [(&'static [u8], &'static [u8])], &'static [(Option<u32>, u32)], u32),
}

/// By hand, from DWARF 5, 6.2.4 and 7.5.6, and, for the faults, docs/FORMATS.md, Line table.
static CASES: [(Section, Expected); 88] = [
    (Section::Cut(4, 5), Expected::Fault(LineKind::Short, 4)),
    (Section::Cut(6, 6), Expected::Fault(LineKind::Short, 6)),
    (Section::Cut(7, 7), Expected::Fault(LineKind::Short, 7)),
    (Section::Cut(8, 55), Expected::Fault(LineKind::Short, 8)),
    (
        Section::Cut(56, 56),
        Expected::Table(&[(b"", b"one.s"), (b"", b"one.s")], &[], 0),
    ),
    (Section::Cut(57, 57), Expected::Fault(LineKind::Short, 57)),
    (Section::Cut(58, 66), Expected::Fault(LineKind::Short, 58)),
    (
        Section::Cut(67, 67),
        Expected::Table(&[(b"", b"one.s"), (b"", b"one.s")], &[], 0),
    ),
    (Section::Cut(68, 68), Expected::Fault(LineKind::Unended, 68)),
    (Section::Cut(69, 69), Expected::Fault(LineKind::Short, 69)),
    (Section::Cut(70, 70), Expected::Fault(LineKind::Unended, 70)),
    (Section::Cut(71, 71), Expected::Fault(LineKind::Short, 71)),
    (Section::Cut(72, 72), Expected::Fault(LineKind::Unended, 72)),
    (Section::Cut(73, 73), Expected::Fault(LineKind::Unended, 73)),
    (Section::Cut(74, 74), Expected::Fault(LineKind::Short, 74)),
    (Section::Cut(75, 75), Expected::Fault(LineKind::Unended, 75)),
    (Section::Cut(76, 76), Expected::Fault(LineKind::Short, 76)),
    (Section::Cut(77, 77), Expected::Fault(LineKind::Unended, 77)),
    (Section::Cut(78, 78), Expected::Fault(LineKind::Unended, 78)),
    (Section::Cut(79, 79), Expected::Fault(LineKind::Short, 79)),
    (Section::Cut(80, 80), Expected::Fault(LineKind::Unended, 80)),
    (Section::Cut(81, 81), Expected::Fault(LineKind::Short, 81)),
    (Section::Cut(82, 82), Expected::Fault(LineKind::Short, 82)),
    // The unit whole, and with a byte set.
    (
        Section::Cut(83, 83),
        Expected::Table(
            &[(b"", b"one.s"), (b"", b"one.s")],
            &[(Some(1), 1), (Some(1), 2), (Some(1), 3), (Some(1), 3)],
            0,
        ),
    ),
    (
        Section::Set(ADDRESS_SIZE, 4),
        Expected::Fault(LineKind::AddressSize, 6),
    ),
    (
        Section::Set(SEGMENT_SELECTOR_SIZE, 1),
        Expected::Fault(LineKind::SegmentSize, 7),
    ),
    (
        Section::Set(DIRECTORY_FORM, STRX),
        Expected::Fault(LineKind::FormOut, 32),
    ),
    (
        Section::Set(DIRECTORY_FORM, STRP),
        Expected::Fault(LineKind::TextOut, 34),
    ),
    (
        Section::Set(DIRECTORY_FORM, LINE_STRP),
        Expected::Fault(LineKind::TextOut, 34),
    ),
    (
        Section::Set(DIRECTORY_CONTENT, DIRECTORY_INDEX),
        Expected::Fault(LineKind::FormOut, 32),
    ),
    (
        Section::Set(SECOND_CONTENT, TIMESTAMP),
        Expected::Table(
            &[(b"", b"one.s"), (b"", b"one.s")],
            &[(Some(1), 1), (Some(1), 2), (Some(1), 3), (Some(1), 3)],
            0,
        ),
    ),
    (
        Section::Set(SECOND_FORM, DATA2),
        Expected::Fault(LineKind::Short, 55),
    ),
    (
        Section::Set(DIRECTORY_FORMATS, 0),
        Expected::Fault(LineKind::EmptyEntries, 31),
    ),
    (
        Section::Set(FILE_FORMATS, 0),
        Expected::Fault(LineKind::EmptyEntries, 37),
    ),
    (Section::Set(VERSION, 6), Expected::Table(&[], &[], 1)),
    // Each form under a path.
    (
        Section::Names(NONE, &[1, PATH, STRING], b"\x01a\0"),
        Expected::Table(&[(b"", b"a")], &[], 0),
    ),
    (
        Section::Names(NONE, &[1, PATH, STRP], &[1, 1, 0, 0, 0]),
        Expected::Table(&[(b"", b"y")], &[], 0),
    ),
    (
        Section::Names(NONE, &[1, PATH, LINE_STRP], &[1, 0, 0, 0, 0]),
        Expected::Table(&[(b"", b"l")], &[], 0),
    ),
    (
        Section::Names(NONE, &[1, PATH, DATA1], &[1, 0]),
        Expected::Fault(LineKind::FormOut, 22),
    ),
    (
        Section::Names(NONE, &[1, PATH, DATA2], &[1, 1, 0]),
        Expected::Fault(LineKind::FormOut, 22),
    ),
    (
        Section::Names(NONE, &[1, PATH, DATA4], &[1, 7, 7, 7, 7]),
        Expected::Fault(LineKind::FormOut, 22),
    ),
    (
        Section::Names(NONE, &[1, PATH, DATA8], &[1, 7, 7, 7, 7, 7, 7, 7, 7]),
        Expected::Fault(LineKind::FormOut, 22),
    ),
    (
        Section::Names(
            NONE,
            &[1, PATH, DATA16],
            &[1, 7, 7, 7, 7, 7, 7, 7, 7, 7, 7, 7, 7, 7, 7, 7, 7],
        ),
        Expected::Fault(LineKind::FormOut, 22),
    ),
    (
        Section::Names(NONE, &[1, PATH, UDATA], &[1, 128, 1]),
        Expected::Fault(LineKind::FormOut, 22),
    ),
    (
        Section::Names(NONE, &[1, PATH, BLOCK], &[1, 2, 7, 7]),
        Expected::Fault(LineKind::FormOut, 22),
    ),
    // Each form under a directory's index, where the directories are `.` and `d`.
    (
        Section::Names(
            TWO,
            &[2, PATH, STRING, DIRECTORY_INDEX, STRING],
            b"\x01a\0a\0",
        ),
        Expected::Fault(LineKind::FormOut, 30),
    ),
    (
        Section::Names(
            TWO,
            &[2, PATH, STRING, DIRECTORY_INDEX, STRP],
            b"\x01a\0\x01\0\0\0",
        ),
        Expected::Fault(LineKind::FormOut, 30),
    ),
    (
        Section::Names(
            TWO,
            &[2, PATH, STRING, DIRECTORY_INDEX, LINE_STRP],
            b"\x01a\0\0\0\0\0",
        ),
        Expected::Fault(LineKind::FormOut, 30),
    ),
    (
        Section::Names(
            TWO,
            &[2, PATH, STRING, DIRECTORY_INDEX, DATA1],
            b"\x01a\0\x01",
        ),
        Expected::Table(&[(b"d", b"a")], &[], 0),
    ),
    (
        Section::Names(
            TWO,
            &[2, PATH, STRING, DIRECTORY_INDEX, DATA2],
            b"\x01a\0\x01\0",
        ),
        Expected::Table(&[(b"d", b"a")], &[], 0),
    ),
    (
        Section::Names(
            TWO,
            &[2, PATH, STRING, DIRECTORY_INDEX, DATA4],
            b"\x01a\0\x07\x07\x07\x07",
        ),
        Expected::Fault(LineKind::FormOut, 30),
    ),
    (
        Section::Names(
            TWO,
            &[2, PATH, STRING, DIRECTORY_INDEX, DATA8],
            b"\x01a\0\x07\x07\x07\x07\x07\x07\x07\x07",
        ),
        Expected::Fault(LineKind::FormOut, 30),
    ),
    (
        Section::Names(
            TWO,
            &[2, PATH, STRING, DIRECTORY_INDEX, DATA16],
            b"\x01a\0\x07\x07\x07\x07\x07\x07\x07\x07\x07\x07\x07\x07\x07\x07\x07\x07",
        ),
        Expected::Fault(LineKind::FormOut, 30),
    ),
    (
        Section::Names(
            TWO,
            &[2, PATH, STRING, DIRECTORY_INDEX, UDATA],
            &[1, 97, 0, 129, 0],
        ),
        Expected::Table(&[(b"d", b"a")], &[], 0),
    ),
    (
        Section::Names(
            TWO,
            &[2, PATH, STRING, DIRECTORY_INDEX, BLOCK],
            b"\x01a\0\x02\x07\x07",
        ),
        Expected::Fault(LineKind::FormOut, 30),
    ),
    // Each form under a content that is skipped.
    (
        Section::Names(NONE, &[1, MD5, STRING], b"\x01a\0"),
        Expected::Table(&[(b"", b"")], &[], 0),
    ),
    (
        Section::Names(NONE, &[1, MD5, STRP], &[1, 1, 0, 0, 0]),
        Expected::Table(&[(b"", b"")], &[], 0),
    ),
    (
        Section::Names(NONE, &[1, MD5, LINE_STRP], &[1, 0, 0, 0, 0]),
        Expected::Table(&[(b"", b"")], &[], 0),
    ),
    (
        Section::Names(NONE, &[1, MD5, DATA1], &[1, 0]),
        Expected::Table(&[(b"", b"")], &[], 0),
    ),
    (
        Section::Names(NONE, &[1, MD5, DATA2], &[1, 1, 0]),
        Expected::Table(&[(b"", b"")], &[], 0),
    ),
    (
        Section::Names(NONE, &[1, MD5, DATA4], &[1, 7, 7, 7, 7]),
        Expected::Table(&[(b"", b"")], &[], 0),
    ),
    (
        Section::Names(NONE, &[1, MD5, DATA8], &[1, 7, 7, 7, 7, 7, 7, 7, 7]),
        Expected::Table(&[(b"", b"")], &[], 0),
    ),
    (
        Section::Names(
            NONE,
            &[1, MD5, DATA16],
            &[1, 7, 7, 7, 7, 7, 7, 7, 7, 7, 7, 7, 7, 7, 7, 7, 7],
        ),
        Expected::Table(&[(b"", b"")], &[], 0),
    ),
    (
        Section::Names(NONE, &[1, MD5, UDATA], &[1, 128, 1]),
        Expected::Table(&[(b"", b"")], &[], 0),
    ),
    (
        Section::Names(NONE, &[1, MD5, BLOCK], &[1, 2, 7, 7]),
        Expected::Table(&[(b"", b"")], &[], 0),
    ),
    // Two paths, and an entry without a path, with and without a directory.
    (
        Section::Names(NONE, &[2, PATH, STRING, PATH, STRING], b"\x01a\0b\0"),
        Expected::Table(&[(b"", b"b")], &[], 0),
    ),
    (
        Section::Names(TWO, &[1, DIRECTORY_INDEX, DATA1], &[1, 1]),
        Expected::Table(&[(b"d", b"")], &[], 0),
    ),
    (
        Section::Names(NONE, &[1, MD5, DATA1], &[1, 7]),
        Expected::Table(&[(b"", b"")], &[], 0),
    ),
    // The directories 0, 1 and one past the last.
    (
        Section::Names(
            TWO,
            &[2, PATH, STRING, DIRECTORY_INDEX, DATA1],
            b"\x01a\0\0",
        ),
        Expected::Table(&[(b"", b"a")], &[], 0),
    ),
    (
        Section::Names(
            TWO,
            &[2, PATH, STRING, DIRECTORY_INDEX, DATA1],
            b"\x01a\0\x01",
        ),
        Expected::Table(&[(b"d", b"a")], &[], 0),
    ),
    (
        Section::Names(
            TWO,
            &[2, PATH, STRING, DIRECTORY_INDEX, DATA1],
            b"\x01a\0\x02",
        ),
        Expected::Table(&[(b"", b"a")], &[], 0),
    ),
    // An offset after the end of a section of strings, at its end, and of a string without a zero
    // byte; and the same offsets in the other section.
    (
        Section::Names(NONE, &[1, PATH, LINE_STRP], &[1, 3, 0, 0, 0]),
        Expected::Fault(LineKind::TextOut, 24),
    ),
    (
        Section::Names(NONE, &[1, PATH, LINE_STRP], &[1, 2, 0, 0, 0]),
        Expected::Fault(LineKind::TextOut, 24),
    ),
    (
        Section::Names(NONE, &[1, PATH, LINE_STRP], &[1, 1, 0, 0, 0]),
        Expected::Table(&[(b"", b"")], &[], 0),
    ),
    (
        Section::Names(NONE, &[1, PATH, STRP], &[1, 3, 0, 0, 0]),
        Expected::Fault(LineKind::TextOut, 24),
    ),
    (
        Section::Names(NONE, &[1, PATH, STRP], &[1, 2, 0, 0, 0]),
        Expected::Table(&[(b"", b"")], &[], 0),
    ),
    (
        Section::Names(NONE, &[1, MD5, STRP], &[1, 3, 0, 0, 0]),
        Expected::Fault(LineKind::TextOut, 24),
    ),
    // Counts of 0 and of 2^64 - 1, with and without a format.
    (
        Section::Names(NONE, &[0], &[0]),
        Expected::Table(&[], &[], 0),
    ),
    (
        Section::Names(NONE, &[1, PATH, STRING], &[0]),
        Expected::Table(&[], &[], 0),
    ),
    (
        Section::Names(
            NONE,
            &[1, PATH, STRING],
            &[255, 255, 255, 255, 255, 255, 255, 255, 255, 1, 97, 0, 98, 0],
        ),
        Expected::Fault(LineKind::Short, 37),
    ),
    (
        Section::Names(NONE, &[0], &[1]),
        Expected::Fault(LineKind::EmptyEntries, 21),
    ),
    (
        Section::Names(&[0, 1], &[0], &[0]),
        Expected::Fault(LineKind::EmptyEntries, 19),
    ),
    (
        Section::Names(
            &[0, 255, 255, 255, 255, 255, 255, 255, 255, 255, 1],
            &[0],
            &[0],
        ),
        Expected::Fault(LineKind::EmptyEntries, 19),
    ),
    // The file registers 0, 1 and 2, of which 2 is after the last file, and DW_LNE_define_file,
    // which is skipped.
    (
        Section::Program(&[SET_FILE, 0, COPY, 0, 1, END_SEQUENCE]),
        Expected::Table(
            &[(b"", b"one.s"), (b"", b"one.s")],
            &[(Some(0), 1), (Some(0), 1)],
            0,
        ),
    ),
    (
        Section::Program(&[SET_FILE, 1, COPY, 0, 1, END_SEQUENCE]),
        Expected::Table(
            &[(b"", b"one.s"), (b"", b"one.s")],
            &[(Some(1), 1), (Some(1), 1)],
            0,
        ),
    ),
    (
        Section::Program(&[SET_FILE, 2, COPY, 0, 1, END_SEQUENCE]),
        Expected::Table(
            &[(b"", b"one.s"), (b"", b"one.s")],
            &[(None, 1), (None, 1)],
            0,
        ),
    ),
    (
        Section::Program(&[
            0,
            3,
            DEFINE_FILE,
            b'b',
            0,
            SET_FILE,
            2,
            COPY,
            0,
            1,
            END_SEQUENCE,
        ]),
        Expected::Table(
            &[(b"", b"one.s"), (b"", b"one.s")],
            &[(None, 1), (None, 1)],
            0,
        ),
    ),
    // A unit of version 5 after one of version 4 and before one of version 6.
    (
        Section::Between,
        Expected::Table(
            &[(b"", b"a.s"), (b"", b"one.s"), (b"", b"one.s")],
            &[
                (Some(0), 1),
                (Some(0), 2),
                (Some(0), 5),
                (Some(0), 5),
                (Some(2), 1),
                (Some(2), 2),
                (Some(2), 3),
                (Some(2), 3),
            ],
            1,
        ),
    ),
];

/// The header of a unit without a program up to its formats: unit_length, version, address_size,
/// segment_selector_size, header_length, minimum_instruction_length,
/// maximum_operations_per_instruction, default_is_stmt, line_base, line_range, opcode_base.
const NAMES_HEADER: [u8; 18] = [0, 0, 0, 0, 5, 0, 8, 0, 0, 0, 0, 0, 4, 1, 1, 251, 14, 1];

/// A buffer with a section, of this length if the unit is cut.
fn buffer_of(section: &Section, length: usize) -> Buffer {
    let mut buffer = Buffer::new();
    match *section {
        Section::Cut(_, _) => buffer.add(&FIVE[..length.min(83)]),
        Section::Set(_, _) => buffer.add(&FIVE),
        Section::Names(directories, formats, files) => {
            buffer.add(&NAMES_HEADER);
            buffer.add(directories);
            buffer.add(formats);
            buffer.add(files);
        }
        Section::Program(program) => {
            buffer.add(&FIVE[..56]);
            buffer.add(program);
        }
        Section::Between => {
            buffer.add(&FOUR_ROWS);
            buffer.add(&FIVE);
            buffer.add(&[2, 0, 0, 0, 6, 0]);
        }
    }
    buffer
}

/// Sets the lengths that a section's bytes have, and the byte that is set.
fn set_bytes(section: &Section, buffer: &mut Buffer) {
    let length = buffer.bytes().len();
    match *section {
        Section::Set(place, byte) => buffer.set(place, byte),
        Section::Between => {}
        Section::Names(_, _, _) => {
            buffer.set(0, length.saturating_sub(4).min(255) as u8);
            buffer.set(8, length.saturating_sub(12).min(255) as u8);
        }
        _ => buffer.set(0, length.saturating_sub(4).min(255) as u8),
    }
}

/// The first length for which a section is made, and the one after the last.
fn lengths(section: &Section) -> (usize, usize) {
    match *section {
        Section::Cut(first, last) => (first, last.saturating_add(1)),
        _ => (0, 1),
    }
}

fn expected_fault(expected: &Expected) -> Option<LineError> {
    match *expected {
        Expected::Fault(kind, place) => fault(kind, place),
        Expected::Table(_, _, _) => None,
    }
}

fn check_table(rt: &impl Abort, table: &LineTable, expected: &Expected) {
    if let Expected::Table(files, rows, skipped) = expected {
        let found = (table.rows.len(), table.skipped);
        check_equal(rt, found, (rows.len(), *skipped));
        check_files(rt, table.files.as_slice(), files);
        for (row, expected) in table.rows.as_slice().iter().zip(rows.iter()) {
            check_equal(rt, (row.file, row.line), *expected);
        }
    }
}

fn check_section(rt: &impl Abort, alloc: Global, section: &[u8], expected: &Expected)
    requires { length section.now ≤ 33554432 }
{
    let fault = expected_fault(expected);
    match read_lines(alloc, section, GENERAL, LINE) {
        Ok(table) => {
            check_equal(rt, (section, None), (section, fault));
            check_table(rt, &table, expected);
            drop(table);
        }
        Err(error) => check_equal(rt, (section, Some(error)), (section, fault)),
    }
}

#[test]
fn units_of_version_5_have_their_files_and_rows_or_their_fault(rt: HostRuntime) {
    for (section, expected) in &CASES {
        let (first, end) = lengths(section);
        for length in first..end {
            let mut buffer = buffer_of(section, length);
            set_bytes(section, &mut buffer);
            check_section(&rt, rt.alloc(), buffer.bytes(), expected);
        }
    }
}

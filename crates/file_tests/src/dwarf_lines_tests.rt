//! Tests of `dwarf_lines`.
ghost use Rattle.std.specs.Prelude.{◌≤◌, length};

use crate::checks::check_equal;
use dwarf_lines::{FileName, LineError, LineFault, LineKind, Row, read_lines};
use std::alloc::Global;
use std::process::Abort;
use std::test::Fail;

/// A unit of version 4 with four rows. Its program begins at 37.
pub static FOUR_ROWS: [u8; 71] = [
    // unit_length, version, header_length.
    0x43, 0x00, 0x00, 0x00, 0x04, 0x00, 0x1B, 0x00, 0x00, 0x00,
    // minimum_instruction_length, maximum_operations_per_instruction, default_is_stmt, line_base,
    // line_range, opcode_base, standard_opcode_lengths.
    0x04, 0x01, 0x01, 0xFB, 0x0E, 0x0D, 0x00, 0x01, 0x01, 0x01, 0x01, 0x00, 0x00, 0x00, 0x01, 0x00,
    0x00, 0x01,
    // include_directories, which are none; file_names: `a.s`.
    0x00, 0x61, 0x2E, 0x73, 0x00, 0x00, 0x00, 0x00, 0x00,
    // DW_LNE_set_address 0x10000, DW_LNS_copy.
    0x00, 0x09, 0x02, 0x00, 0x00, 0x01, 0x00, 0x00, 0x00, 0x00, 0x00, 0x01,
    // DW_LNS_fixed_advance_pc 8, special opcode 0x13: line 2.
    0x09, 0x08, 0x00, 0x13,
    // DW_LNE_set_discriminator 7, which is skipped; DW_LNS_const_add_pc, advance_line 3, copy.
    0x00, 0x02, 0x04, 0x07, 0x08, 0x03, 0x03, 0x01,
    // An extended opcode 0x80, which is skipped; DW_LNS_advance_pc 2, DW_LNE_end_sequence.
    0x00, 0x03, 0x80, 0xAA, 0xBB, 0x02, 0x02, 0x00, 0x01, 0x01,
];

/// A unit of version 2 with each opcode, and one of version 6. llvm-dwarfdump prints its rows.
static EACH_OPCODE: [u8; 123] = [
    // unit_length, version, header_length.
    0x71, 0x00, 0x00, 0x00, 0x02, 0x00, 0x24, 0x00, 0x00, 0x00,
    // minimum_instruction_length, default_is_stmt, line_base, line_range, opcode_base,
    // standard_opcode_lengths.
    0x04, 0x01, 0xFD, 0x0C, 0x0E, 0x00, 0x01, 0x01, 0x01, 0x01, 0x00, 0x00, 0x00, 0x01, 0x00, 0x00,
    0x01, 0x02,
    // include_directories: `d`.
    0x64, 0x00, 0x00,
    // file_names: `a.s` in directory 1, `b.s` in 0.
    0x61, 0x2E, 0x73, 0x00, 0x01, 0x00, 0x00, 0x62, 0x2E, 0x73, 0x00, 0x00, 0x00, 0x00, 0x00,
    // DW_LNE_set_address 0x1000, DW_LNS_copy.
    0x00, 0x09, 0x02, 0x00, 0x10, 0x00, 0x00, 0x00, 0x00, 0x00, 0x00, 0x01,
    // DW_LNS_set_file 2, set_column 3, negate_stmt, set_basic_block, set_prologue_end,
    // set_epilogue_begin, set_isa 5, and 13 with two operands, which is skipped.
    0x04, 0x02, 0x05, 0x03, 0x06, 0x07, 0x0A, 0x0B, 0x0C, 0x05, 0x0D, 0x81, 0x00, 0x02,
    // DW_LNS_advance_pc 2, advance_line 9, copy.
    0x02, 0x02, 0x03, 0x09, 0x01,
    // DW_LNS_const_add_pc, fixed_advance_pc 5, advance_line -1, special opcode 0x2A.
    0x08, 0x09, 0x05, 0x00, 0x03, 0x7F, 0x2A,
    // An extended opcode 0x80, one without bytes, and DW_LNE_set_discriminator 7, which are skipped.
    0x00, 0x03, 0x80, 0xAA, 0xBB, 0x00, 0x00, 0x00, 0x02, 0x04, 0x07,
    // DW_LNE_define_file `c` in directory 1, with a byte left; DW_LNS_set_file 3, copy.
    0x00, 0x07, 0x03, 0x63, 0x00, 0x01, 0x00, 0x00, 0x99, 0x04, 0x03, 0x01,
    // DW_LNS_set_file 4, which has no entry; copy; DW_LNE_end_sequence.
    0x04, 0x04, 0x01, 0x00, 0x01, 0x01,
    // DW_LNS_copy, DW_LNE_end_sequence.
    0x01, 0x00, 0x01, 0x01,
    // unit_length and version 6.
    0x02, 0x00, 0x00, 0x00, 0x06, 0x00,
];

/// A row of the first unit that is read.
const FIRST: Row = Row {
    sequence: 0,
    address: 0x1000,
    file: Some(0),
    line: 1,
    column: 0,
    is_stmt: true,
    ends: false,
};

/// A row after column, file and is_stmt were set.
const LATER: Row = Row {
    address: 0x1065,
    line: 10,
    column: 3,
    is_stmt: false,
    ..FIRST
};

/// A row of the second unit that is read.
const NEXT: Row = Row {
    sequence: 1,
    address: 0,
    ..FIRST
};

/// The rows of `FOUR_ROWS`.
/// llvm-dwarfdump prints the same rows.
static ROWS_OF_FOUR: [Row; 4] = [
    Row {
        address: 0x10000,
        ..FIRST
    },
    Row {
        address: 0x10008,
        line: 2,
        ..FIRST
    },
    Row {
        address: 0x1004C,
        line: 5,
        ..FIRST
    },
    Row {
        address: 0x10054,
        line: 5,
        ends: true,
        ..FIRST
    },
];

/// The rows of `EACH_OPCODE`.
/// llvm-dwarfdump prints the same rows, with files that count from 1.
static ROWS_OF_EACH: [Row; 8] = [
    FIRST,
    Row {
        address: 0x1008,
        file: Some(1),
        ..LATER
    },
    Row {
        file: Some(1),
        ..LATER
    },
    Row {
        file: Some(2),
        ..LATER
    },
    Row {
        file: None,
        ..LATER
    },
    Row {
        file: None,
        ends: true,
        ..LATER
    },
    NEXT,
    Row { ends: true, ..NEXT },
];

/// The directory and the name of the file of `FOUR_ROWS`.
static FILES_OF_FOUR: [(&[u8], &[u8]); 1] = [(b"", b"a.s")];

/// The directory and the name of each file of `EACH_OPCODE`.
static FILES_OF_EACH: [(&[u8], &[u8]); 3] = [(b"d", b"a.s"), (b"", b"b.s"), (b"d", b"c")];

/// Compares files with directories and names.
pub(crate) fn check_files(rt: &impl Abort, files: &[FileName], expected: &[(&[u8], &[u8])]) {
    check_equal(rt, files.len(), expected.len());
    for (file, expected) in files.iter().zip(expected.iter()) {
        check_equal(rt, (file.directory, file.name), *expected);
    }
}

/// Reads a section, and compares its files, its rows, and how many units are skipped.
fn check_table(
    rt: &impl Abort,
    alloc: Global,
    section: &[u8],
    files: &[(&[u8], &[u8])],
    rows: &[Row],
    skipped: u32,
) -> Result<(), LineError>
    requires { length section.now ≤ 33554432 }
{
    let table = read_lines(alloc, section, &[], &[])?;
    check_equal(rt, (table.rows.as_slice(), table.skipped), (rows, skipped));
    check_files(rt, table.files.as_slice(), files);
    drop(table);
    Ok(())
}

#[test]
fn the_files_and_rows_of_each_opcode_are_read(rt: HostRuntime) -> Result<(), Fail> {
    let alloc = rt.alloc();
    check_table(&rt, alloc, &FOUR_ROWS, &FILES_OF_FOUR, &ROWS_OF_FOUR, 0)?;
    check_table(&rt, alloc, &EACH_OPCODE, &FILES_OF_EACH, &ROWS_OF_EACH, 1)?;
    Ok(())
}

pub(crate) fn fault(kind: LineKind, place: u64) -> Option<LineError> {
    Some(LineError::Fault(LineFault { kind, place }))
}

fn fault_of(alloc: Global, section: &[u8]) -> Option<LineError>
    requires { length section.now ≤ 33554432 }
{
    read_lines(alloc, section, &[], &[]).err()
}

/// The first and the last length, and the offset of what is short, if the unit of four rows is cut
/// to such a length.
/// By hand, from where the fields of the unit begin (DWARF 4, 6.2.4 and 6.2.5).
static CUTS: [(usize, usize, u64); 13] = [
    (4, 5, 4),
    (6, 36, 6),
    (38, 38, 38),
    (39, 47, 39),
    (50, 51, 50),
    (54, 54, 54),
    (55, 56, 55),
    (59, 59, 59),
    (62, 62, 62),
    (63, 65, 63),
    (67, 67, 67),
    (69, 69, 69),
    (70, 70, 70),
];

/// The fault of the unit of four rows that is cut to that length.
fn fault_of_cut(length: usize) -> Option<LineError> {
    for &(first, last, offset) in &CUTS {
        if first <= length && length <= last {
            return fault(LineKind::Short, offset);
        }
    }
    if length == 37 || length == 48 {
        return None;
    }
    fault(LineKind::Unended, length as u64)
}

#[test]
fn a_unit_that_is_cut_is_short_or_unended(rt: HostRuntime) {
    for length in 4..71usize {
        let mut section = FOUR_ROWS;
        section[0] = length as u8 - 4;
        let found = fault_of(rt.alloc(), &section[..length]);
        check_equal(&rt, (length, found), (length, fault_of_cut(length)));
    }
}

#[test]
fn a_section_that_is_cut_is_short(rt: HostRuntime) {
    for length in 1..71usize {
        let found = fault_of(rt.alloc(), &FOUR_ROWS[..length]);
        check_equal(&rt, (length, found), (length, fault(LineKind::Short, 0)));
    }
    let none = fault_of(rt.alloc(), &[]);
    let long_form = fault_of(rt.alloc(), &[0xF0, 0xFF, 0xFF, 0xFF]);
    check_equal(&rt, (none, long_form), (None, fault(LineKind::LongForm, 0)));
}

// The offsets of fields in `FOUR_ROWS`.
const HEADER_LENGTH: usize = 6;

const MAXIMUM_OPERATIONS: usize = 11;

const LINE_RANGE: usize = 14;

const OPCODE_BASE: usize = 15;

const SET_ADDRESS_LENGTH: usize = 38;

const ADVANCE_LINE: usize = 59;

const END_SEQUENCE: usize = 70;

/// The offset of a byte of the unit of four rows, what it is set to, and the fault with its offset.
/// The first two bytes are of unit_length.
/// By hand, from docs/FORMATS.md, Line table.
static SET_BYTES: [(usize, u8, LineKind, u64); 9] = [
    (0, 0x44, LineKind::Short, 0),
    (3, 0xFF, LineKind::Short, 0),
    (HEADER_LENGTH, 0x3E, LineKind::Short, 6),
    (MAXIMUM_OPERATIONS, 2, LineKind::ManyOps, 11),
    (LINE_RANGE, 0, LineKind::ZeroRange, 14),
    (OPCODE_BASE, 0, LineKind::OpcodeBaseZero, 15),
    (SET_ADDRESS_LENGTH, 8, LineKind::AddressLength, 37),
    (ADVANCE_LINE, 0x7A, LineKind::LineOut, 60),
    (END_SEQUENCE, 4, LineKind::Unended, 71),
];

/// Programs after the header of the unit of four rows, and their faults with their offsets: an
/// operand of more than 64 bits, a line below zero, and no end of the sequence.
/// By hand, from the same page and DWARF 4, 6.2.5.
static PROGRAMS: [(&[u8], LineKind, u64); 3] = [
    // DW_LNS_advance_pc with an operand of 70 bits.
    (
        b"\x02\xFF\xFF\xFF\xFF\xFF\xFF\xFF\xFF\xFF\x7F",
        LineKind::Wide,
        38,
    ),
    // DW_LNS_advance_line -2, DW_LNE_end_sequence.
    (&[3, 0x7E, 0, 1, 1], LineKind::LineOut, 39),
    // DW_LNS_copy.
    (&[1], LineKind::Unended, 38),
];

/// The unit of four rows with another program after its header. None if the program is too long.
fn fault_of_program(alloc: Global, program: &[u8]) -> Option<LineError> {
    let mut section = FOUR_ROWS;
    let end = 37 + program.len();
    if end > 71 {
        return None;
    }
    section[37..end].copy_from_slice(program);
    section[0] = end as u8 - 4;
    fault_of(alloc, &section[..end])
}

#[test]
fn a_wrong_byte_and_a_wrong_program_have_their_faults(rt: HostRuntime) {
    for &(place, byte, kind, offset) in &SET_BYTES {
        let mut section = FOUR_ROWS;
        section[place.min(70)] = byte;
        let found = fault_of(rt.alloc(), &section);
        check_equal(&rt, (place, found), (place, fault(kind, offset)));
    }
    for &(program, kind, offset) in &PROGRAMS {
        let found = fault_of_program(rt.alloc(), program);
        check_equal(&rt, (program, found), (program, fault(kind, offset)));
    }
}

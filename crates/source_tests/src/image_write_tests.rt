//! Tests of `image_write`.
ghost use Rattle.image_write.specs.File.{IsVersion};

use coz_types::Items;
use image_write::write_elf;
use rv_asm::{Assembled, assemble};
use std::alloc::{AllocError, Global};
use std::test::Fail;

// A caller of both has nothing to test in between.
#[test]
fn an_assembled_source_is_written_as_elf(rt: HostRuntime) -> Result<(), Fail> {
    let alloc = rt.alloc();
    let source = b"addi a0, x0, 0\naddi a7, x0, 93\necall\n";
    let length = match assemble(alloc, source) {
        Ok(made) => write_elf(alloc, &made, b"one.s", 4)?.len(),
        Err(_) => 0,
    };
    assert_eq!(rt; length, 4536);
    Ok(())
}

// The bytes of the small program's file are those of an implementation that was written apart from
// this one.

const HEADER: [u8; 64] = [
    // e_ident.
    0x7F, 0x45, 0x4C, 0x46, 2, 1, 1, 0, 0, 0, 0, 0, 0, 0, 0, 0,
    // e_type ET_EXEC, e_machine EM_RISCV, e_version.
    2, 0, 0xF3, 0, 1, 0, 0, 0,
    // e_entry 0x10000, e_phoff 64, e_shoff 0x1078.
    0, 0, 1, 0, 0, 0, 0, 0, 0x40, 0, 0, 0, 0, 0, 0, 0, 0x78, 0x10, 0, 0, 0, 0, 0, 0,
    // e_flags, e_ehsize, e_phentsize, e_phnum, e_shentsize, e_shnum, e_shstrndx.
    0, 0, 0, 0, 0x40, 0, 0x38, 0, 1, 0, 0x40, 0, 5, 0, 4, 0,
];

const UNIT: [u8; 66] = [
    // unit_length, version, header_length.
    0x3E, 0, 0, 0, 4, 0, 0x1D, 0, 0, 0,
    // minimum_instruction_length, maximum_operations_per_instruction, default_is_stmt, line_base,
    // line_range, opcode_base, standard_opcode_lengths.
    4, 1, 1, 0xFB, 0x0E, 0x0D, 0, 1, 1, 1, 1, 0, 0, 0, 1, 0, 0, 1,
    // include_directories, which are none; file_names: `one.s`.
    0, 0x6F, 0x6E, 0x65, 0x2E, 0x73, 0, 0, 0, 0, 0,
    // DW_LNE_set_address 0x10000, DW_LNS_copy.
    0, 9, 2, 0, 0, 1, 0, 0, 0, 0, 0, 1,
    // DW_LNS_advance_pc 1, advance_line 1, copy; twice.
    2, 1, 3, 1, 1, 2, 1, 3, 1, 1,
    // DW_LNS_advance_pc 1, DW_LNE_end_sequence.
    2, 1, 0, 1, 1,
];

const UNIT_5: [u8; 83] = [
    // unit_length, version, address_size, segment_selector_size, header_length.
    0x4F, 0, 0, 0, 5, 0, 8, 0, 0x2C, 0, 0, 0,
    // minimum_instruction_length, maximum_operations_per_instruction, default_is_stmt, line_base,
    // line_range, opcode_base, standard_opcode_lengths.
    4, 1, 1, 0xFB, 0x0E, 0x0D, 0, 1, 1, 1, 1, 0, 0, 0, 1, 0, 0, 1,
    // One directory, whose path is a string: `.`.
    1, 1, 8, 1, 0x2E, 0,
    // Two files, each with its path, a string, and its directory's index, one byte: `one.s` in 0.
    2, 1, 8, 2, 0x0B, 2, 0x6F, 0x6E, 0x65, 0x2E, 0x73, 0, 0, 0x6F, 0x6E, 0x65, 0x2E, 0x73, 0, 0,
    // DW_LNE_set_address 0x10000, DW_LNS_copy.
    0, 9, 2, 0, 0, 1, 0, 0, 0, 0, 0, 1,
    // DW_LNS_advance_pc 1, advance_line 1, copy; twice.
    2, 1, 3, 1, 1, 2, 1, 3, 1, 1,
    // DW_LNS_advance_pc 1, DW_LNE_end_sequence.
    2, 1, 0, 1, 1,
];

const TEXT: [u8; 12] = [0x13, 5, 0, 0, 0x93, 8, 0xD0, 5, 0x73, 0, 0, 0];

/// The file of the small program, whose words have the lines 1, 2 and 3.
fn small_program(alloc: Global, version: u8) -> Result<Vec<u8>, AllocError>
    requires { IsVersion version }
{
    let made = Assembled {
        text: Items::new(Vec::from_slice(alloc, &TEXT)?),
        content: Items::new(Vec::new(alloc)),
        lines: Items::new(Vec::from_slice(alloc, &[1, 2, 3])?),
        entry: 0x1_0000,
    };
    write_elf(alloc, &made, b"one.s", version)
}

/// Whether the file has its length, its header and its line unit.
fn is_small_program(file: &[u8]) -> bool {
    file.len() == 4536
        && file.get(..64) == Some(HEADER.as_slice())
        && file.get(4108..4174) == Some(UNIT.as_slice())
}

#[test]
fn a_small_program_is_written(rt: HostRuntime) -> Result<(), Fail> {
    let file = small_program(rt.alloc(), 4)?;
    assert!(rt; is_small_program(file.as_slice()));
    Ok(())
}

#[test]
fn a_small_program_is_written_with_lines_of_version_5(rt: HostRuntime) -> Result<(), Fail> {
    let file = small_program(rt.alloc(), 5)?;
    assert_eq!(rt; file.len(), 4552);
    assert!(rt; file.get(4108..4191) == Some(UNIT_5.as_slice()));
    Ok(())
}

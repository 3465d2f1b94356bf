//! The line unit of a written file (DWARF 4 and 5, section 6.2).

ghost use Rattle.std.specs.Prelude.{◌≡◌, ◌<◌, ◌^◌, ◌++◌, length, IfOk};
ghost use Rattle.image_write.specs.Unit.{numbers, ended_files, counted_files, files, unit_body, unit};

use byte_write::{push_half, push_words};
use line_write::push_counted;
use rv_asm::TEXT_START;
use std::alloc::{AllocError, Global};

/// minimum_instruction_length, maximum_operations_per_instruction, default_is_stmt, line_base,
/// line_range, opcode_base, and the lengths of the opcodes from 1 to 12.
const NUMBERS: [u8; 18] = [4, 1, 1, 0xFB, 14, 13, 0, 1, 1, 1, 1, 0, 0, 0, 1, 0, 0, 1];

/// One field, the path as a text; one directory, `.`. Then two fields, the path as a text and the
/// number of the directory as a byte; two files.
const COUNTS: [u8; 12] = [1, 1, 8, 1, b'.', 0, 2, 1, 8, 2, 11, 2];

/// The sizes of an address and of a segment.
const SIZES: [u8; 2] = [8, 0];

/// The header's numbers, its directories and its files.
fn header(alloc: Global, name: &[u8], version: u8) -> Result<Vec<u8>, AllocError>
    ensures { IfOk result (λ v. v.items ≡ numbers ++ files version name.now) }
{
    let mut out = Vec::from_slice(alloc, &NUMBERS)?;
    if version == 5 {
        push_counted_files(&mut out, name)?;
    } else {
        push_ended_files(&mut out, name)?;
    }
    Ok(out)
}

/// The directory `.`, and twice the file.
fn push_counted_files(out: &mut Vec<u8>, name: &[u8]) -> Result<(), AllocError>
    ensures { IfOk result (λ _. out.new.items ≡ out.old.items ++ counted_files name.now) }
{
    out.extend_from_slice(&COUNTS)?;
    out.extend_from_slice(name)?;
    out.extend_from_slice(&[0, 0])?;
    out.extend_from_slice(name)?;
    out.extend_from_slice(&[0, 0])
}

/// No directory, and one file.
fn push_ended_files(out: &mut Vec<u8>, name: &[u8]) -> Result<(), AllocError>
    ensures { IfOk result (λ _. out.new.items ≡ out.old.items ++ ended_files name.now) }
{
    out.push(0)?;
    out.extend_from_slice(name)?;
    // The end of the name, three numbers of one byte, and the end of the files.
    out.extend_from_slice(&[0; 5])
}

/// The unit, after its length.
fn unit_body(alloc: Global, lines: &[u32], name: &[u8], version: u8) -> Result<Vec<u8>, AllocError>
    requires lines { length lines.now < 2 ^ 20 }
    requires name { length name.now < 2 ^ 20 }
    ensures { IfOk result (λ v. v.items ≡ unit_body lines.now name.now version) }
{
    let header = header(alloc, name, version)?;
    let mut out = Vec::new(alloc);
    push_half(&mut out, u16::from(version))?;
    if version == 5 {
        out.extend_from_slice(&SIZES)?;
    }
    push_counted(&mut out, &header)?;
    push_words(&mut out, TEXT_START, lines)?;
    Ok(out)
}

/// The line unit.
#[tactic(auto, unfolding(crate::specs::Unit::unit))]
pub fn unit(alloc: Global, lines: &[u32], name: &[u8], version: u8) -> Result<Vec<u8>, AllocError>
    requires lines { length lines.now < 2 ^ 20 }
    requires name { length name.now < 2 ^ 20 }
    ensures items { IfOk result (λ v. v.items ≡ unit lines.now name.now version) }
    ensures small { IfOk result (λ v. length v.items < 2 ^ 33) }
{
    let body = unit_body(alloc, lines, name, version)?;
    let mut out = Vec::new(alloc);
    push_counted(&mut out, body.as_slice())?;
    Ok(out)
}

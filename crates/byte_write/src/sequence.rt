//! The opcodes of a sequence that is one line (DWARF 4, section 6.2.5).

ghost use Rattle.std.specs.Prelude.{◌≡◌, ◌<◌, ◌+◌, ◌^◌, ◌++◌, ◌∷◌, IfOk};
ghost use Rattle.byte_write.specs.Numbers.{leb};
ghost use Rattle.byte_write.specs.Programs.{set_address, set_line, sequence};

use crate::leb::push_leb;
use crate::numbers::push_double;
use dwarf_lines::codes::{
    DW_LNE_END_SEQUENCE, DW_LNE_SET_ADDRESS, DW_LNS_ADVANCE_LINE, DW_LNS_COPY, DW_LNS_SET_FILE,
};
use std::alloc::AllocError;

/// The end of a sequence: the extended opcode DW_LNE_end_sequence (DWARF 4, section 6.2.5.3).
pub const END_SEQUENCE: [u8; 3] = [0, 1, DW_LNE_END_SEQUENCE];

/// The first bytes of the extended opcode DW_LNE_set_address, before the eight of the address
/// (DWARF 4, section 6.2.5.3).
pub const SET_ADDRESS: [u8; 3] = [0, 9, DW_LNE_SET_ADDRESS];

/// Appends the opcode that sets the address.
pub fn push_address(out: &mut Vec<u8>, address: u64) -> Result<(), AllocError>
    ensures { IfOk result (λ _. out.new.items ≡ out.old.items ++ set_address address) }
{
    out.extend_from_slice(&SET_ADDRESS)?;
    push_double(out, address)
}

/// Appends an opcode whose operand is a LEB128 number.
fn push_operation(out: &mut Vec<u8>, opcode: u8, operand: u64) -> Result<(), AllocError>
    requires { operand < 2 ^ 34 }
    ensures { IfOk result (λ _. out.new.items ≡ out.old.items ++ (opcode ∷ leb operand)) }
{
    out.push(opcode)?;
    push_leb(out, operand)
}

/// Appends the row of a line in a file.
fn push_line(out: &mut Vec<u8>, file: u64, number: u32) -> Result<(), AllocError>
    requires file { file < 2 ^ 34 }
    requires number { 0 < number }
    ensures { IfOk result (λ _. out.new.items ≡ out.old.items ++ set_line file number) }
{
    push_operation(out, DW_LNS_SET_FILE, file)?;
    push_operation(out, DW_LNS_ADVANCE_LINE, u64::from(number) - 1)?;
    out.push(DW_LNS_COPY)?;
    Ok(())
}

/// Appends the sequence of `size` addresses from `address` on, which are line `number` of a file.
pub fn push_sequence(
    out: &mut Vec<u8>,
    file: u64,
    number: u32,
    address: u64,
    size: u64,
) -> Result<(), AllocError>
    requires file { file < 2 ^ 34 }
    requires number { 0 < number }
    requires within { address + size < 2 ^ 64 }
    ensures { IfOk result (λ _. out.new.items ≡ out.old.items ++ sequence file number address size) }
{
    push_address(out, address)?;
    push_line(out, file, number)?;
    push_address(out, address + size)?;
    out.extend_from_slice(&END_SEQUENCE)
}

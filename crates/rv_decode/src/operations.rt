//! The operation that a word's funct3 and funct7 name in the table, for each opcode.

ghost use Rattle.std.specs.Prelude.{◌≡◌, ◌*◌, ◌<◌, ◌^◌};
ghost use Rattle.rv_decode.specs.Table.{code, operation_with, branch_code, branch_ops, load_code, load_ops, store_code, store_ops, imm_code, imm_ops, shift_code, shift_ops, register_code, register_ops, atomic_code, atomic_ops};

use crate::{AtomicOp, BranchOp, ImmOp, LoadOp, RegOp, ShiftOp, StoreOp};

/// A branch by its funct3; None if the table has none.
pub(crate) fn branch_operation(funct3: u32) -> Option<BranchOp>
    ensures { result ≡ operation_with branch_code branch_ops (code 0x63 funct3 0x00) }
{
    match funct3 {
        0 => Some(BranchOp::Beq),
        1 => Some(BranchOp::Bne),
        4 => Some(BranchOp::Blt),
        5 => Some(BranchOp::Bge),
        6 => Some(BranchOp::Bltu),
        7 => Some(BranchOp::Bgeu),
        _ => None,
    }
}

/// A load by its funct3; None if the table has none.
pub(crate) fn load_operation(funct3: u32) -> Option<LoadOp>
    ensures { result ≡ operation_with load_code load_ops (code 0x03 funct3 0x00) }
{
    match funct3 {
        0 => Some(LoadOp::Lb),
        1 => Some(LoadOp::Lh),
        2 => Some(LoadOp::Lw),
        3 => Some(LoadOp::Ld),
        4 => Some(LoadOp::Lbu),
        5 => Some(LoadOp::Lhu),
        6 => Some(LoadOp::Lwu),
        _ => None,
    }
}

/// A store by its funct3; None if the table has none.
pub(crate) fn store_operation(funct3: u32) -> Option<StoreOp>
    ensures { result ≡ operation_with store_code store_ops (code 0x23 funct3 0x00) }
{
    match funct3 {
        0 => Some(StoreOp::Sb),
        1 => Some(StoreOp::Sh),
        2 => Some(StoreOp::Sw),
        3 => Some(StoreOp::Sd),
        _ => None,
    }
}

/// An operation on an immediate by its funct3; None if the table has none.
pub(crate) fn immediate_operation(funct3: u32) -> Option<ImmOp>
    ensures { result ≡ operation_with imm_code imm_ops (code 0x13 funct3 0x00) }
{
    match funct3 {
        0 => Some(ImmOp::Addi),
        2 => Some(ImmOp::Slti),
        3 => Some(ImmOp::Sltiu),
        4 => Some(ImmOp::Xori),
        6 => Some(ImmOp::Ori),
        7 => Some(ImmOp::Andi),
        _ => None,
    }
}

/// A shift of 64 bits: the lowest bit of funct7 belongs to the amount,
/// and funct6 are the bits above it.
/// None if the table has none.
pub(crate) fn shift_operation(funct3: u32, funct6: u32) -> Option<ShiftOp>
    requires { funct6 < 2 ^ 6 }
    ensures { result ≡ operation_with shift_code shift_ops (code 0x13 funct3 (funct6 * 2)) }
{
    match funct3 {
        1 if funct6 == 0x00 => Some(ShiftOp::Slli),
        5 if funct6 == 0x00 => Some(ShiftOp::Srli),
        5 if funct6 == 0x10 => Some(ShiftOp::Srai),
        _ => None,
    }
}

/// A shift of 32 bits; None if the table has none.
pub(crate) fn word_shift_operation(funct3: u32, funct7: u32) -> Option<ShiftOp>
    ensures { result ≡ operation_with shift_code shift_ops (code 0x1B funct3 funct7) }
{
    match funct3 {
        1 if funct7 == 0x00 => Some(ShiftOp::Slliw),
        5 if funct7 == 0x00 => Some(ShiftOp::Srliw),
        5 if funct7 == 0x20 => Some(ShiftOp::Sraiw),
        _ => None,
    }
}

/// An operation of 64 bits on two registers; None if the table has none.
pub(crate) fn register_operation(funct3: u32, funct7: u32) -> Option<RegOp>
    ensures { result ≡ operation_with register_code register_ops (code 0x33 funct3 funct7) }
{
    match funct7 {
        0x00 => match funct3 {
            0 => Some(RegOp::Add),
            1 => Some(RegOp::Sll),
            2 => Some(RegOp::Slt),
            3 => Some(RegOp::Sltu),
            4 => Some(RegOp::Xor),
            5 => Some(RegOp::Srl),
            6 => Some(RegOp::Or),
            7 => Some(RegOp::And),
            _ => None,
        },
        0x01 => match funct3 {
            0 => Some(RegOp::Mul),
            1 => Some(RegOp::Mulh),
            2 => Some(RegOp::Mulhsu),
            3 => Some(RegOp::Mulhu),
            4 => Some(RegOp::Div),
            5 => Some(RegOp::Divu),
            6 => Some(RegOp::Rem),
            7 => Some(RegOp::Remu),
            _ => None,
        },
        0x20 => match funct3 {
            0 => Some(RegOp::Sub),
            5 => Some(RegOp::Sra),
            _ => None,
        },
        _ => None,
    }
}

/// An operation of 32 bits on two registers; None if the table has none.
pub(crate) fn word_register_operation(funct3: u32, funct7: u32) -> Option<RegOp>
    ensures { result ≡ operation_with register_code register_ops (code 0x3B funct3 funct7) }
{
    match funct7 {
        0x00 => match funct3 {
            0 => Some(RegOp::Addw),
            1 => Some(RegOp::Sllw),
            5 => Some(RegOp::Srlw),
            _ => None,
        },
        0x01 => match funct3 {
            0 => Some(RegOp::Mulw),
            4 => Some(RegOp::Divw),
            5 => Some(RegOp::Divuw),
            6 => Some(RegOp::Remw),
            7 => Some(RegOp::Remuw),
            _ => None,
        },
        0x20 => match funct3 {
            0 => Some(RegOp::Subw),
            5 => Some(RegOp::Sraw),
            _ => None,
        },
        _ => None,
    }
}

/// An operation on memory: funct5 are the bits of funct7 above the two flags.
/// None if the table has none.
pub(crate) fn atomic_operation(funct5: u32) -> Option<AtomicOp>
    requires { funct5 < 2 ^ 5 }
    ensures { result ≡ operation_with atomic_code atomic_ops (code 0x2F 2 (funct5 * 4)) }
{
    match funct5 {
        0x00 => Some(AtomicOp::Amoadd),
        0x01 => Some(AtomicOp::Amoswap),
        0x02 => Some(AtomicOp::Lr),
        0x03 => Some(AtomicOp::Sc),
        0x04 => Some(AtomicOp::Amoxor),
        0x08 => Some(AtomicOp::Amoor),
        0x0C => Some(AtomicOp::Amoand),
        0x10 => Some(AtomicOp::Amomin),
        0x14 => Some(AtomicOp::Amomax),
        0x18 => Some(AtomicOp::Amominu),
        0x1C => Some(AtomicOp::Amomaxu),
        _ => None,
    }
}

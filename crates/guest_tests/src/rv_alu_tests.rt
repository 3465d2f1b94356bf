//! Tests of `rv_alu`.
ghost use Rattle.std.specs.Prelude.{◌≡◌, ◌^◌};
ghost use Rattle.rv_decode.specs.Instructions.{amount_bits};
ghost use Rattle.rv_alu.specs.Operations.{is_amo};

use crate::checks::check_equal;
use rv_alu::{atomic, immediate, register, shift, taken};
use rv_decode::{AtomicOp, BranchOp, ImmOp, RegOp, ShiftOp};

const MIN: u64 = 0x8000_0000_0000_0000;

const ONES: u64 = 0xFFFF_FFFF_FFFF_FFFF;

// The expected values are worked out from the text of the RISC-V manual.

/// An operation, its two operands and its result.
static REGISTERS: [(RegOp, u64, u64, u64); 82] = [
    (RegOp::Add, ONES, 1, 0),
    (RegOp::Add, MIN, MIN, 0),
    (RegOp::Sub, 0, 1, ONES),
    (RegOp::Sub, MIN, 1, 0x7FFF_FFFF_FFFF_FFFF),
    (RegOp::Sll, ONES, 0, ONES),
    (RegOp::Sll, 3, 31, 0x0001_8000_0000),
    (RegOp::Sll, 3, 32, 0x0003_0000_0000),
    (RegOp::Sll, 3, 63, MIN),
    (RegOp::Sll, 3, 64, 3),
    (RegOp::Srl, ONES, 0, ONES),
    (RegOp::Srl, MIN, 31, 0x0001_0000_0000),
    (RegOp::Srl, MIN, 32, 0x8000_0000),
    (RegOp::Srl, MIN, 63, 1),
    (RegOp::Srl, MIN, 0x7F, 1),
    (RegOp::Sra, MIN, 0, MIN),
    (RegOp::Sra, MIN, 31, 0xFFFF_FFFF_0000_0000),
    (RegOp::Sra, MIN, 32, 0xFFFF_FFFF_8000_0000),
    (RegOp::Sra, MIN, 63, ONES),
    (RegOp::Sra, MIN, 64, MIN),
    (RegOp::Slt, MIN, 0, 1),
    (RegOp::Slt, 0, ONES, 0),
    (RegOp::Sltu, MIN, 0, 0),
    (RegOp::Sltu, 0, ONES, 1),
    (RegOp::Xor, ONES, 0xF0F0, 0xFFFF_FFFF_FFFF_0F0F),
    (RegOp::Or, MIN, 0xF0F0, 0x8000_0000_0000_F0F0),
    (RegOp::And, ONES, 0xF0F0, 0xF0F0),
    (RegOp::Mul, ONES, ONES, 1),
    (RegOp::Mul, MIN, 3, MIN),
    (RegOp::Mulh, MIN, MIN, 0x4000_0000_0000_0000),
    (RegOp::Mulh, MIN, ONES, 0),
    (RegOp::Mulh, ONES, 1, ONES),
    (
        RegOp::Mulh,
        0x7FFF_FFFF_FFFF_FFFF,
        0x7FFF_FFFF_FFFF_FFFF,
        0x3FFF_FFFF_FFFF_FFFF,
    ),
    (RegOp::Mulhsu, ONES, ONES, ONES),
    (RegOp::Mulhsu, MIN, ONES, MIN),
    (
        RegOp::Mulhsu,
        0x7FFF_FFFF_FFFF_FFFF,
        ONES,
        0x7FFF_FFFF_FFFF_FFFE,
    ),
    (RegOp::Mulhu, ONES, ONES, 0xFFFF_FFFF_FFFF_FFFE),
    (RegOp::Mulhu, MIN, 2, 1),
    (RegOp::Div, MIN, ONES, MIN),
    (RegOp::Div, MIN, 0, ONES),
    (RegOp::Div, 0xFFFF_FFFF_FFFF_FFF9, 2, 0xFFFF_FFFF_FFFF_FFFD),
    (RegOp::Div, 7, 0xFFFF_FFFF_FFFF_FFFE, 0xFFFF_FFFF_FFFF_FFFD),
    (RegOp::Divu, MIN, ONES, 0),
    (RegOp::Divu, MIN, 0, ONES),
    (RegOp::Divu, ONES, 2, 0x7FFF_FFFF_FFFF_FFFF),
    (RegOp::Rem, MIN, ONES, 0),
    (RegOp::Rem, MIN, 0, MIN),
    (RegOp::Rem, 0xFFFF_FFFF_FFFF_FFF9, 2, ONES),
    (RegOp::Rem, 7, 0xFFFF_FFFF_FFFF_FFFE, 1),
    (RegOp::Remu, MIN, ONES, MIN),
    (RegOp::Remu, MIN, 0, MIN),
    (RegOp::Remu, ONES, 10, 5),
    (RegOp::Addw, 0x7FFF_FFFF, 1, 0xFFFF_FFFF_8000_0000),
    (RegOp::Addw, 0xFFFF_FFFF_0000_0001, 1, 2),
    (RegOp::Subw, 0, 1, ONES),
    (RegOp::Subw, 0x8000_0000, 1, 0x7FFF_FFFF),
    (RegOp::Sllw, 1, 0, 1),
    (RegOp::Sllw, 1, 31, 0xFFFF_FFFF_8000_0000),
    (RegOp::Sllw, 1, 32, 1),
    (RegOp::Sllw, 0x8000_0001, 1, 2),
    (RegOp::Srlw, 0xFFFF_FFFF_8000_0000, 0, 0xFFFF_FFFF_8000_0000),
    (RegOp::Srlw, 0x8000_0000, 31, 1),
    (RegOp::Srlw, 0x8000_0000, 32, 0xFFFF_FFFF_8000_0000),
    (RegOp::Sraw, 0x8000_0000, 0, 0xFFFF_FFFF_8000_0000),
    (RegOp::Sraw, 0x8000_0000, 31, ONES),
    (RegOp::Sraw, 0x8000_0000, 32, 0xFFFF_FFFF_8000_0000),
    (RegOp::Sraw, 0x8000_0000, 63, ONES),
    (RegOp::Mulw, 0xFFFF_FFFF, 0xFFFF_FFFF, 1),
    (RegOp::Mulw, 0x0001_0000, 0x8000, 0xFFFF_FFFF_8000_0000),
    (RegOp::Divw, 0x8000_0000, ONES, 0xFFFF_FFFF_8000_0000),
    (RegOp::Divw, 0x8000_0000, 0, ONES),
    (RegOp::Divw, 0xFFFF_FFF9, 2, 0xFFFF_FFFF_FFFF_FFFD),
    (RegOp::Divw, 7, 0x0001_0000_0000, ONES),
    (RegOp::Divuw, 0x8000_0000, ONES, 0),
    (RegOp::Divuw, 7, 0, ONES),
    (RegOp::Divuw, 0xFFFF_FFFF, 1, ONES),
    (RegOp::Remw, 0x8000_0000, ONES, 0),
    (RegOp::Remw, 0x8000_0000, 0, 0xFFFF_FFFF_8000_0000),
    (RegOp::Remw, 0xFFFF_FFF9, 2, ONES),
    (RegOp::Remw, 7, 0x0001_0000_0000, 7),
    (RegOp::Remuw, 0x8000_0000, ONES, 0xFFFF_FFFF_8000_0000),
    (RegOp::Remuw, 0x8000_0000, 0, 0xFFFF_FFFF_8000_0000),
    (RegOp::Remuw, 0xFFFF_FFFF, 10, 5),
];

/// An operation, its operand, its immediate and its result.
static IMMEDIATES: [(ImmOp, u64, i32, u64); 13] = [
    (ImmOp::Addi, 0, -2048, 0xFFFF_FFFF_FFFF_F800),
    (ImmOp::Addi, ONES, 2047, 0x7FE),
    (ImmOp::Slti, 0, -1, 0),
    (ImmOp::Slti, MIN, -2048, 1),
    (ImmOp::Sltiu, 0, -1, 1),
    (ImmOp::Sltiu, 0xFFFF_FFFF_FFFF_FFFE, -1, 1),
    (ImmOp::Sltiu, ONES, -1, 0),
    (ImmOp::Xori, 0xFF, -1, 0xFFFF_FFFF_FFFF_FF00),
    (ImmOp::Ori, 0xFF, -256, ONES),
    (ImmOp::Andi, ONES, -2048, 0xFFFF_FFFF_FFFF_F800),
    (ImmOp::Addiw, 0x7FFF_FFFF, 1, 0xFFFF_FFFF_8000_0000),
    (ImmOp::Addiw, 0x8000_0000, -1, 0x7FFF_FFFF),
    (ImmOp::Addiw, 0x0001_0000_0000, 0, 0),
];

/// A shift, its operand, its amount and its result.
static SHIFTS: [(ShiftOp, u64, u8, u64); 19] = [
    (ShiftOp::Slli, 3, 0, 3),
    (ShiftOp::Slli, 3, 31, 0x0001_8000_0000),
    (ShiftOp::Slli, 3, 32, 0x0003_0000_0000),
    (ShiftOp::Slli, 3, 63, MIN),
    (ShiftOp::Srli, ONES, 0, ONES),
    (ShiftOp::Srli, MIN, 31, 0x0001_0000_0000),
    (ShiftOp::Srli, MIN, 32, 0x8000_0000),
    (ShiftOp::Srli, MIN, 63, 1),
    (ShiftOp::Srai, MIN, 0, MIN),
    (ShiftOp::Srai, MIN, 31, 0xFFFF_FFFF_0000_0000),
    (ShiftOp::Srai, MIN, 32, 0xFFFF_FFFF_8000_0000),
    (ShiftOp::Srai, MIN, 63, ONES),
    (ShiftOp::Slliw, 0x8000_0000, 0, 0xFFFF_FFFF_8000_0000),
    (ShiftOp::Slliw, 1, 31, 0xFFFF_FFFF_8000_0000),
    (
        ShiftOp::Srliw,
        0xFFFF_FFFF_8000_0000,
        0,
        0xFFFF_FFFF_8000_0000,
    ),
    (ShiftOp::Srliw, 0x8000_0000, 31, 1),
    (ShiftOp::Sraiw, 0x8000_0000, 0, 0xFFFF_FFFF_8000_0000),
    (ShiftOp::Sraiw, 0x8000_0000, 31, ONES),
    (ShiftOp::Sraiw, 0x7FFF_FFFF, 30, 1),
];

/// A branch, its two operands, and whether it is taken.
static BRANCHES: [(BranchOp, u64, u64, bool); 18] = [
    (BranchOp::Beq, MIN, 0, false),
    (BranchOp::Beq, 0, MIN, false),
    (BranchOp::Beq, ONES, ONES, true),
    (BranchOp::Bne, MIN, 0, true),
    (BranchOp::Bne, 0, MIN, true),
    (BranchOp::Bne, ONES, ONES, false),
    (BranchOp::Blt, MIN, 0, true),
    (BranchOp::Blt, 0, MIN, false),
    (BranchOp::Blt, ONES, ONES, false),
    (BranchOp::Bge, MIN, 0, false),
    (BranchOp::Bge, 0, MIN, true),
    (BranchOp::Bge, ONES, ONES, true),
    (BranchOp::Bltu, MIN, 0, false),
    (BranchOp::Bltu, 0, MIN, true),
    (BranchOp::Bltu, ONES, ONES, false),
    (BranchOp::Bgeu, MIN, 0, true),
    (BranchOp::Bgeu, 0, MIN, false),
    (BranchOp::Bgeu, ONES, ONES, true),
];

/// An operation, whether it is of 8 bytes and not of 4, the old value, the operand and the value that
/// is stored.
static ATOMICS: [(AtomicOp, bool, u64, u64, u64); 36] = [
    (AtomicOp::Amoadd, true, MIN, ONES, 0x7FFF_FFFF_FFFF_FFFF),
    (AtomicOp::Amoadd, true, 1, MIN, 0x8000_0000_0000_0001),
    (
        AtomicOp::Amoadd,
        false,
        0x0001_8000_0000,
        0x7FFF_FFFF,
        0xFFFF_FFFF,
    ),
    (AtomicOp::Amoadd, false, ONES, 0x0001_8000_0000, 0x7FFF_FFFF),
    (AtomicOp::Amoswap, true, MIN, ONES, ONES),
    (AtomicOp::Amoswap, true, 1, MIN, MIN),
    (
        AtomicOp::Amoswap,
        false,
        0x0001_8000_0000,
        0x7FFF_FFFF,
        0x7FFF_FFFF,
    ),
    (
        AtomicOp::Amoswap,
        false,
        ONES,
        0x0001_8000_0000,
        0x8000_0000,
    ),
    (AtomicOp::Amoxor, true, MIN, ONES, 0x7FFF_FFFF_FFFF_FFFF),
    (AtomicOp::Amoxor, true, 1, MIN, 0x8000_0000_0000_0001),
    (
        AtomicOp::Amoxor,
        false,
        0x0001_8000_0000,
        0x7FFF_FFFF,
        0xFFFF_FFFF,
    ),
    (AtomicOp::Amoxor, false, ONES, 0x0001_8000_0000, 0x7FFF_FFFF),
    (AtomicOp::Amoor, true, MIN, ONES, ONES),
    (AtomicOp::Amoor, true, 1, MIN, 0x8000_0000_0000_0001),
    (
        AtomicOp::Amoor,
        false,
        0x0001_8000_0000,
        0x7FFF_FFFF,
        0xFFFF_FFFF,
    ),
    (AtomicOp::Amoor, false, ONES, 0x0001_8000_0000, 0xFFFF_FFFF),
    (AtomicOp::Amoand, true, MIN, ONES, MIN),
    (AtomicOp::Amoand, true, 1, MIN, 0),
    (AtomicOp::Amoand, false, 0x0001_8000_0000, 0x7FFF_FFFF, 0),
    (AtomicOp::Amoand, false, ONES, 0x0001_8000_0000, 0x8000_0000),
    (AtomicOp::Amomin, true, MIN, ONES, MIN),
    (AtomicOp::Amomin, true, 1, MIN, MIN),
    (
        AtomicOp::Amomin,
        false,
        0x0001_8000_0000,
        0x7FFF_FFFF,
        0x8000_0000,
    ),
    (AtomicOp::Amomin, false, ONES, 0x0001_8000_0000, 0x8000_0000),
    (AtomicOp::Amomax, true, MIN, ONES, ONES),
    (AtomicOp::Amomax, true, 1, MIN, 1),
    (
        AtomicOp::Amomax,
        false,
        0x0001_8000_0000,
        0x7FFF_FFFF,
        0x7FFF_FFFF,
    ),
    (AtomicOp::Amomax, false, ONES, 0x0001_8000_0000, 0xFFFF_FFFF),
    (AtomicOp::Amominu, true, MIN, ONES, MIN),
    (AtomicOp::Amominu, true, 1, MIN, 1),
    (
        AtomicOp::Amominu,
        false,
        0x0001_8000_0000,
        0x7FFF_FFFF,
        0x7FFF_FFFF,
    ),
    (
        AtomicOp::Amominu,
        false,
        ONES,
        0x0001_8000_0000,
        0x8000_0000,
    ),
    (AtomicOp::Amomaxu, true, MIN, ONES, ONES),
    (AtomicOp::Amomaxu, true, 1, MIN, MIN),
    (
        AtomicOp::Amomaxu,
        false,
        0x0001_8000_0000,
        0x7FFF_FFFF,
        0x8000_0000,
    ),
    (
        AtomicOp::Amomaxu,
        false,
        ONES,
        0x0001_8000_0000,
        0xFFFF_FFFF,
    ),
];

#[test]
fn registers_immediates_and_branches_at_their_edges(rt: HostRuntime) {
    for &(op, left, right, want) in &REGISTERS {
        let found = register(op, left, right);
        check_equal(&rt, (left, right, found), (left, right, want));
    }
    for &(op, left, value, want) in &IMMEDIATES {
        let found = immediate(op, left, value);
        check_equal(&rt, (left, value, found), (left, value, want));
    }
    for &(op, left, right, want) in &BRANCHES {
        let found = taken(op, left, right);
        check_equal(&rt, (left, right, found), (left, right, want));
    }
}

/// The first amount that a shift does not have.
fn amount_limit(op: ShiftOp) -> u8
    ensures { result ≡ 2 ^ amount_bits op }
{
    match op {
        ShiftOp::Slli | ShiftOp::Srli | ShiftOp::Srai => 64,
        ShiftOp::Slliw | ShiftOp::Srliw | ShiftOp::Sraiw => 32,
    }
}

fn computes(op: AtomicOp) -> bool
    ensures { result ≡ is_amo op }
{
    !matches!(op, AtomicOp::Lr | AtomicOp::Sc)
}

#[test]
fn shifts_and_atomics_at_their_edges(rt: HostRuntime) {
    for &(op, left, amount, want) in &SHIFTS {
        let found = if amount < amount_limit(op) {
            Some(shift(op, left, amount))
        } else {
            None
        };
        check_equal(&rt, (left, amount, found), (left, amount, Some(want)));
    }
    for &(op, wide, old, right, want) in &ATOMICS {
        let found = if computes(op) {
            Some(atomic(op, wide, old, right))
        } else {
            None
        };
        check_equal(&rt, (old, right, found), (old, right, Some(want)));
    }
}

//! What instructions compute: the operations of RV64IMA on the values of registers.
//!
//! The RISC-V unprivileged manual has them in its chapters RV32I ("Integer Computational
//! Instructions", "Conditional Branches"), RV64I, M and A. A register holds 64 bits,
//! and no operation traps.
//!
//! ```text
//! register(RegOp::Div, 7, 0);         // u64::MAX, as the manual has it for division by zero
//! immediate(ImmOp::Addi, 5, -1);      // 4
//! taken(BranchOp::Bltu, 1, u64::MAX); // true
//! ```
#![tactic(auto)]

ghost use Rattle.std.specs.Prelude.{◌≡◌, ◌^◌, ◌<◌, IsTrue};
ghost use Rattle.rv_decode.specs.Instructions.{amount_bits};
ghost use Rattle.rv_alu.specs.Operations.{low_half, extension, quotient, unsigned_quotient, remainder, unsigned_remainder, register_result, immediate_result, shift_result, is_taken, is_amo, atomic_result, stored_result};

use rv_decode::{AtomicOp, BranchOp, ImmOp, RegOp, ShiftOp};

/// The low half of a register.
#[inline]
fn low_word(n: u64) -> u32
    ensures { result ≡ low_half n }
{
    (n % 0x1_0000_0000) as u32
}

/// The register that holds a signed number of 32 bits.
#[inline]
fn sign_extended(n: u32) -> u64
    ensures { result ≡ extension 32 n }
{
    i64::from(n.cast_signed()).cast_unsigned()
}

// A division by 0 gives all ones and leaves the dividend; if the quotient overflows it is
// the dividend, and the remainder 0.

#[inline]
fn div(left: u64, right: u64) -> u64
    ensures { result ≡ quotient 64 left right }
{
    if right == 0 {
        return u64::MAX;
    }
    left.cast_signed()
        .wrapping_div(right.cast_signed())
        .cast_unsigned()
}

#[inline]
fn divu(left: u64, right: u64) -> u64
    ensures { result ≡ unsigned_quotient 64 left right }
{
    if right == 0 { u64::MAX } else { left / right }
}

#[inline]
fn rem(left: u64, right: u64) -> u64
    ensures { result ≡ remainder 64 left right }
{
    if right == 0 {
        return left;
    }
    left.cast_signed()
        .wrapping_rem(right.cast_signed())
        .cast_unsigned()
}

#[inline]
fn remu(left: u64, right: u64) -> u64
    ensures { result ≡ unsigned_remainder 64 left right }
{
    if right == 0 { left } else { left % right }
}

#[inline]
fn divw(left: u32, word: u32) -> u32
    ensures { result ≡ quotient 32 left word }
{
    if word == 0 {
        return u32::MAX;
    }
    left.cast_signed()
        .wrapping_div(word.cast_signed())
        .cast_unsigned()
}

#[inline]
fn divuw(left: u32, word: u32) -> u32
    ensures { result ≡ unsigned_quotient 32 left word }
{
    if word == 0 { u32::MAX } else { left / word }
}

#[inline]
fn remw(left: u32, word: u32) -> u32
    ensures { result ≡ remainder 32 left word }
{
    if word == 0 {
        return left;
    }
    left.cast_signed()
        .wrapping_rem(word.cast_signed())
        .cast_unsigned()
}

#[inline]
fn remuw(left: u32, word: u32) -> u32
    ensures { result ≡ unsigned_remainder 32 left word }
{
    if word == 0 { left } else { left % word }
}

/// The result of an operation on two registers.
#[inline(always)]
pub fn register(op: RegOp, left: u64, right: u64) -> u64
    ensures { result ≡ register_result op left right }
{
    let low_left = low_word(left);
    let low_right = low_word(right);
    match op {
        RegOp::Add => left.wrapping_add(right),
        RegOp::Sub => left.wrapping_sub(right),
        RegOp::Sll => left << (right % 64),
        RegOp::Srl => left >> (right % 64),
        RegOp::Sra => (left.cast_signed() >> (right % 64)).cast_unsigned(),
        RegOp::Slt => u64::from(left.cast_signed() < right.cast_signed()),
        RegOp::Sltu => u64::from(left < right),
        RegOp::Xor => left ^ right,
        RegOp::Or => left | right,
        RegOp::And => left & right,
        RegOp::Mul => left.wrapping_mul(right),
        RegOp::Mulh => ((i128::from(left.cast_signed())
            * i128::from(right.cast_signed())).cast_unsigned()
            >> 64) as u64,
        RegOp::Mulhsu => ((i128::from(left.cast_signed()) * i128::from(right)).cast_unsigned()
            >> 64) as u64,
        RegOp::Mulhu => ((u128::from(left) * u128::from(right)) >> 64) as u64,
        RegOp::Div => div(left, right),
        RegOp::Divu => divu(left, right),
        RegOp::Rem => rem(left, right),
        RegOp::Remu => remu(left, right),
        RegOp::Addw => sign_extended(low_left.wrapping_add(low_right)),
        RegOp::Subw => sign_extended(low_left.wrapping_sub(low_right)),
        RegOp::Sllw => sign_extended(low_left << (low_right % 32)),
        RegOp::Srlw => sign_extended(low_left >> (low_right % 32)),
        RegOp::Sraw => sign_extended((low_left.cast_signed() >> (low_right % 32)).cast_unsigned()),
        RegOp::Mulw => sign_extended(low_left.wrapping_mul(low_right)),
        RegOp::Divw => sign_extended(divw(low_left, low_right)),
        RegOp::Divuw => sign_extended(divuw(low_left, low_right)),
        RegOp::Remw => sign_extended(remw(low_left, low_right)),
        RegOp::Remuw => sign_extended(remuw(low_left, low_right)),
    }
}

/// The result of an operation on a register and an immediate, whose sign is extended.
#[inline(always)]
pub fn immediate(op: ImmOp, left: u64, value: i32) -> u64
    ensures { result ≡ immediate_result op left value }
{
    let right = i64::from(value).cast_unsigned();
    match op {
        ImmOp::Addi => left.wrapping_add(right),
        ImmOp::Slti => u64::from(left.cast_signed() < i64::from(value)),
        ImmOp::Sltiu => u64::from(left < right),
        ImmOp::Xori => left ^ right,
        ImmOp::Ori => left | right,
        ImmOp::Andi => left & right,
        ImmOp::Addiw => sign_extended(low_word(left).wrapping_add(low_word(right))),
    }
}

/// The result of a shift by an immediate amount. The amount is below 64,
/// and below 32 for a shift of words.
#[inline(always)]
pub fn shift(op: ShiftOp, left: u64, amount: u8) -> u64
    requires { amount < 2 ^ amount_bits op }
    ensures { result ≡ shift_result op left amount }
{
    match op {
        ShiftOp::Slli => left << amount,
        ShiftOp::Srli => left >> amount,
        ShiftOp::Srai => (left.cast_signed() >> amount).cast_unsigned(),
        ShiftOp::Slliw => sign_extended(low_word(left) << amount),
        ShiftOp::Srliw => sign_extended(low_word(left) >> amount),
        ShiftOp::Sraiw => sign_extended((low_word(left).cast_signed() >> amount).cast_unsigned()),
    }
}

/// Whether a branch on two registers is taken.
#[inline(always)]
pub fn taken(op: BranchOp, left: u64, right: u64) -> bool
    ensures { result ≡ is_taken op left right }
{
    match op {
        BranchOp::Beq => left == right,
        BranchOp::Bne => left != right,
        BranchOp::Blt => left.cast_signed() < right.cast_signed(),
        BranchOp::Bge => left.cast_signed() >= right.cast_signed(),
        BranchOp::Bltu => left < right,
        BranchOp::Bgeu => left >= right,
    }
}

/// The 8 bytes that an atomic operation stores.
#[inline]
fn wide_atomic(op: AtomicOp, old: u64, right: u64) -> u64
    requires { IsTrue (is_amo op) }
    ensures { result ≡ atomic_result op 64 old right }
{
    match op {
        AtomicOp::Amoswap => right,
        AtomicOp::Amoadd => old.wrapping_add(right),
        AtomicOp::Amoxor => old ^ right,
        AtomicOp::Amoand => old & right,
        AtomicOp::Amoor => old | right,
        AtomicOp::Amomin => old.cast_signed().min(right.cast_signed()).cast_unsigned(),
        AtomicOp::Amomax => old.cast_signed().max(right.cast_signed()).cast_unsigned(),
        AtomicOp::Amominu => old.min(right),
        AtomicOp::Amomaxu => old.max(right),
        AtomicOp::Lr | AtomicOp::Sc => unreachable!(),
    }
}

/// The 4 bytes that an atomic operation stores.
#[inline]
fn word_atomic(op: AtomicOp, old: u32, word: u32) -> u32
    requires { IsTrue (is_amo op) }
    ensures { result ≡ atomic_result op 32 old word }
{
    match op {
        AtomicOp::Amoswap => word,
        AtomicOp::Amoadd => old.wrapping_add(word),
        AtomicOp::Amoxor => old ^ word,
        AtomicOp::Amoand => old & word,
        AtomicOp::Amoor => old | word,
        AtomicOp::Amomin => old.cast_signed().min(word.cast_signed()).cast_unsigned(),
        AtomicOp::Amomax => old.cast_signed().max(word.cast_signed()).cast_unsigned(),
        AtomicOp::Amominu => old.min(word),
        AtomicOp::Amomaxu => old.max(word),
        AtomicOp::Lr | AtomicOp::Sc => unreachable!(),
    }
}

/// The value that an atomic operation, neither `lr` nor `sc`, stores: of the old value in memory
/// and that of a register, of 64 bits if it is `wide`, else of their low 32.
#[inline]
pub fn atomic(op: AtomicOp, wide: bool, old: u64, right: u64) -> u64
    requires { IsTrue (is_amo op) }
    ensures { result ≡ stored_result op wide old right }
{
    if wide {
        wide_atomic(op, old, right)
    } else {
        u64::from(word_atomic(op, low_word(old), low_word(right)))
    }
}

//! The instructions that change a hart alone.
ghost use Rattle.std.specs.Prelude.{◌≡◌, ◌<◌, ◌^◌, ◌*◌, ◌/◌};
ghost use Rattle.rv_decode.specs.Instructions.{amount_bits};
ghost use Rattle.rv_alu.specs.Operations.{upper_result, register_result, immediate_result, shift_result, is_taken};
ghost use Rattle.rv_execute.specs.Execution.{ChangesHart, register as value, address_at, with_rd, jump, branch};

use crate::hart::{HartState, Step, address_at};
use coz_types::Address;
use rv_decode::{BranchOp, ImmOp, RegOp, ShiftOp, UpperOp};

/// The result of `lui` and `auipc`.
#[inline(always)]
fn upper_result(op: UpperOp, value: u32, pc: Address) -> u64
    requires { value < 2 ^ 20 }
    ensures { result ≡ upper_result op value pc }
{
    let shifted = i64::from((value * 0x1000).cast_signed()).cast_unsigned();
    match op {
        UpperOp::Lui => shifted,
        UpperOp::Auipc => pc.wrapping_add(shifted),
    }
}

/// lui and auipc.
#[inline(always)]
pub fn upper(hart: &mut HartState, op: UpperOp, rd: u8, value: u32) -> Step
    requires rd { rd < 32 }
    requires field { value < 2 ^ 20 }
    ensures { ChangesHart hart.old hart.new result
        (with_rd rd (upper_result op value hart.old.pc)) }
{
    let result = upper_result(op, value, hart.pc);
    hart.put(rd, result)
}

/// `jal`: jumps, and keeps the address of the next instruction in rd.
#[inline(always)]
pub fn jal(hart: &mut HartState, rd: u8, offset: i32) -> Step
    requires { rd < 32 }
    ensures { ChangesHart hart.old hart.new result (jump rd (address_at hart.old.pc offset)) }
{
    let target = address_at(hart.pc, offset);
    hart.jump(rd, target)
}

/// `jalr`: jumps to a register plus an offset, and keeps the address of the next instruction in rd.
#[inline(always)]
pub fn jalr(hart: &mut HartState, rd: u8, rs1: u8, offset: i32) -> Step
    requires rd { rd < 32 }
    requires rs1 { rs1 < 32 }
    ensures { ChangesHart hart.old hart.new result
        (jump rd (address_at (value hart.old rs1) offset / 2 * 2)) }
{
    let target = address_at(hart.value(rs1), offset) / 2 * 2;
    hart.jump(rd, target)
}

/// A jump, if the test of two registers holds.
#[inline(always)]
pub fn branch(hart: &mut HartState, op: BranchOp, rs1: u8, rs2: u8, offset: i32) -> Step
    requires rs1 { rs1 < 32 }
    requires rs2 { rs2 < 32 }
    ensures { ChangesHart hart.old hart.new result
        (branch (is_taken op (value hart.old rs1) (value hart.old rs2))
        (address_at hart.old.pc offset)) }
{
    if rv_alu::taken(op, hart.value(rs1), hart.value(rs2)) {
        jal(hart, 0, offset)
    } else {
        hart.proceed()
    }
}

/// An operation on a register and an immediate.
#[inline(always)]
pub fn immediate(hart: &mut HartState, op: ImmOp, rd: u8, rs1: u8, field: i32) -> Step
    requires rd { rd < 32 }
    requires rs1 { rs1 < 32 }
    ensures { ChangesHart hart.old hart.new result
        (with_rd rd (immediate_result op (value hart.old rs1) field)) }
{
    let result = rv_alu::immediate(op, hart.value(rs1), field);
    hart.put(rd, result)
}

/// A shift by an immediate.
#[inline(always)]
pub fn shift(hart: &mut HartState, op: ShiftOp, rd: u8, rs1: u8, amount: u8) -> Step
    requires rd { rd < 32 }
    requires rs1 { rs1 < 32 }
    requires amount { amount < 2 ^ amount_bits op }
    ensures { ChangesHart hart.old hart.new result
        (with_rd rd (shift_result op (value hart.old rs1) amount)) }
{
    let result = rv_alu::shift(op, hart.value(rs1), amount);
    hart.put(rd, result)
}

/// An operation on two registers.
#[inline(always)]
pub fn register(hart: &mut HartState, op: RegOp, rd: u8, rs1: u8, rs2: u8) -> Step
    requires rd { rd < 32 }
    requires rs1 { rs1 < 32 }
    requires rs2 { rs2 < 32 }
    ensures { ChangesHart hart.old hart.new result
        (with_rd rd (register_result op (value hart.old rs1) (value hart.old rs2))) }
{
    let result = rv_alu::register(op, hart.value(rs1), hart.value(rs2));
    hart.put(rd, result)
}

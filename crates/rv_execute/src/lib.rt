//! The effect of one instruction on a hart, the memory and the reservations (RISC-V unprivileged
//! manual, chapters RV32I, RV64I, M and A).
//!
//! `specs/Execution.antt` says it instruction by instruction, and `specs/Laws.antt`
//! what a trap leaves.
#![tactic(auto)]

mod atomic;
mod hart;
mod integer;
mod memory_access;
mod reservations;

ghost use Rattle.std.specs.Prelude.{◌≡◌, ◌<◌, ◌↔◌, slice_index};
ghost use Rattle.coz_types.specs.declared.TheConstants.{HARTS};
ghost use Rattle.rv_decode.specs.Instructions.{InRange};
ghost use Rattle.rv_execute.specs.Execution.{setting, execution, execute};
ghost use Rattle.rv_execute.specs.Laws.{after_trap};

use crate::atomic::{Target, atomic};
use coz_types::{HartId, TrapCause};
use guest_memory::Memory;
pub use hart::{HartState, Step};
pub use reservations::Reservations;
use rv_decode::Instr;

/// Executes an instruction of a hart. The hart's number is below `HARTS`, and the instruction's
/// fields are in range.
///
/// Returns `Call` exactly at `ecall`, and changes nothing then: the caller serves the call, and
/// moves the pc on. With a `Fault` nothing has changed, except that an `sc` has ended its own
/// reservation. `Misaligned` is judged before `Access`. Register 0 reads as 0, and is never
/// written.
#[inline(always)]
pub fn execute(
    hart: &mut HartState,
    number: HartId,
    memory: &mut Memory,
    reservations: &mut Reservations,
    instr: Instr,
) -> Step
    requires number { number.0 < HARTS }
    requires fields { InRange instr }
    ensures effect { execution hart.new memory.new reservations.new result
        ≡ execute number.0 instr (setting hart.old memory.old reservations.old) }
    ensures call { (result ≡ Step.Call) ↔ (instr ≡ Instr.Ecall) }
    ensures called { result ≡ Step.Call →
        setting hart.new memory.new reservations.new
        ≡ setting hart.old memory.old reservations.old }
    ensures fault { (cause : TrapCause) → result ≡ Step.Fault cause →
        setting hart.new memory.new reservations.new
        ≡ after_trap number.0 instr (setting hart.old memory.old reservations.old) }
    ensures zero { slice_index hart.new.registers 0 ≡ slice_index hart.old.registers 0 }
{
    effect(hart, number, memory, reservations, instr)
}

#[inline(always)]
#[tactic(auto, unfolding(crate::specs::Execution::execute))]
fn effect(
    hart: &mut HartState,
    number: HartId,
    memory: &mut Memory,
    reservations: &mut Reservations,
    instr: Instr,
) -> Step
    requires number { number.0 < HARTS }
    requires fields { InRange instr }
    ensures { execution hart.new memory.new reservations.new result
        ≡ execute number.0 instr (setting hart.old memory.old reservations.old) }
{
    match instr {
        Instr::Upper { op, rd, value } => integer::upper(hart, op, rd, value),
        Instr::Jal { rd, offset } => integer::jal(hart, rd, offset),
        Instr::Jalr { rd, rs1, offset } => integer::jalr(hart, rd, rs1, offset),
        Instr::Branch {
            op,
            rs1,
            rs2,
            offset,
        } => integer::branch(hart, op, rs1, rs2, offset),
        Instr::Load {
            op,
            rd,
            rs1,
            offset,
        } => memory_access::load(hart, memory, op, rd, rs1, offset),
        Instr::Store {
            op,
            rs1,
            rs2,
            offset,
        } => memory_access::store(hart, memory, reservations, op, rs1, rs2, offset),
        Instr::Imm { op, rd, rs1, value } => integer::immediate(hart, op, rd, rs1, value),
        Instr::Shift {
            op,
            rd,
            rs1,
            amount,
        } => integer::shift(hart, op, rd, rs1, amount),
        Instr::Reg { op, rd, rs1, rs2 } => integer::register(hart, op, rd, rs1, rs2),
        Instr::Atomic {
            op,
            wide,
            rd,
            rs1,
            rs2,
            ..
        } => {
            let target = Target {
                wide,
                rd,
                address: hart.value(rs1),
                value: hart.value(rs2),
            };
            atomic(hart, number, memory, reservations, op, target)
        }
        Instr::Fence { .. } => hart.proceed(),
        Instr::Ecall => Step::Call,
        Instr::Ebreak => Step::Fault(TrapCause::Break),
    }
}

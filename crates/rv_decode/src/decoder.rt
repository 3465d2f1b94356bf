//! The instruction of a word: the opcode tells its form, funct3 and funct7 its operation.

ghost use Rattle.std.specs.Prelude.{◌≡◌, ◌<◌};
ghost use Rattle.rv_decode.specs.Fields.{part};
ghost use Rattle.rv_decode.specs.Instructions.{IsDecoded, IsInstructionOf, instruction_of, is_second, jump_in};
ghost use Rattle.rv_decode.specs.Forms.{jalr_of, branch_of, load_of, store_of, shift_of, imm_of, shift_or_imm_of, word_shift_of, word_shift_or_imm_of, register_of, atomic_with, atomic_of, fence_of, system_of};

use crate::fields::{
    amount, branch_offset, fence_bits, flag, funct3, funct5, funct6, funct7, immediate,
    jump_offset, opcode, rd, rs1, rs2, store_offset, upper_bits,
};
use crate::operations::{
    atomic_operation, branch_operation, immediate_operation, load_operation, register_operation,
    shift_operation, store_operation, word_register_operation, word_shift_operation,
};
use crate::{AtomicOp, ImmOp, Instr, UpperOp};

/// lui and auipc
fn upper(op: UpperOp, word: u32) -> Instr
    ensures { result ≡ Instr.Upper op (part word 7 5) (part word 12 20) }
{
    Instr::Upper {
        op,
        rd: rd(word),
        value: upper_bits(word),
    }
}

fn jump(word: u32) -> Instr
    ensures { result ≡ Instr.Jal (part word 7 5) (jump_in word) }
{
    Instr::Jal {
        rd: rd(word),
        offset: jump_offset(word),
    }
}

/// jalr
fn jump_register(word: u32) -> Option<Instr>
    ensures { result ≡ jalr_of word }
{
    match funct3(word) {
        0 => Some(Instr::Jalr {
            rd: rd(word),
            rs1: rs1(word),
            offset: immediate(word),
        }),
        _ => None,
    }
}

fn branch(word: u32) -> Option<Instr>
    ensures { result ≡ branch_of word }
{
    let op = branch_operation(funct3(word))?;
    Some(Instr::Branch {
        op,
        rs1: rs1(word),
        rs2: rs2(word),
        offset: branch_offset(word),
    })
}

fn load(word: u32) -> Option<Instr>
    ensures { result ≡ load_of word }
{
    let op = load_operation(funct3(word))?;
    Some(Instr::Load {
        op,
        rd: rd(word),
        rs1: rs1(word),
        offset: immediate(word),
    })
}

fn store(word: u32) -> Option<Instr>
    ensures { result ≡ store_of word }
{
    let op = store_operation(funct3(word))?;
    Some(Instr::Store {
        op,
        rs1: rs1(word),
        rs2: rs2(word),
        offset: store_offset(word),
    })
}

/// A shift by up to 63.
fn shift(word: u32) -> Option<Instr>
    ensures { result ≡ shift_of word }
{
    let op = shift_operation(funct3(word), funct6(word))?;
    Some(Instr::Shift {
        op,
        rd: rd(word),
        rs1: rs1(word),
        amount: amount(word),
    })
}

fn register_immediate(word: u32) -> Option<Instr>
    ensures { result ≡ imm_of word }
{
    let op = immediate_operation(funct3(word))?;
    Some(Instr::Imm {
        op,
        rd: rd(word),
        rs1: rs1(word),
        value: immediate(word),
    })
}

fn shift_or_immediate(word: u32) -> Option<Instr>
    ensures { result ≡ shift_or_imm_of word }
{
    match funct3(word) {
        1 | 5 => shift(word),
        _ => register_immediate(word),
    }
}

/// A shift of 32 bits, by up to 31.
fn word_shift(word: u32) -> Option<Instr>
    ensures { result ≡ word_shift_of word }
{
    let op = word_shift_operation(funct3(word), funct7(word))?;
    Some(Instr::Shift {
        op,
        rd: rd(word),
        rs1: rs1(word),
        amount: rs2(word),
    })
}

fn word_shift_or_immediate(word: u32) -> Option<Instr>
    ensures { result ≡ word_shift_or_imm_of word }
{
    match funct3(word) {
        0 => Some(Instr::Imm {
            op: ImmOp::Addiw,
            rd: rd(word),
            rs1: rs1(word),
            value: immediate(word),
        }),
        _ => word_shift(word),
    }
}

/// Two registers.
fn registers(word: u32) -> Option<Instr>
    ensures { result ≡ register_of 0x33 word }
{
    let op = register_operation(funct3(word), funct7(word))?;
    Some(Instr::Reg {
        op,
        rd: rd(word),
        rs1: rs1(word),
        rs2: rs2(word),
    })
}

/// The register operations on 32 bits.
fn word_registers(word: u32) -> Option<Instr>
    ensures { result ≡ register_of 0x3B word }
{
    let op = word_register_operation(funct3(word), funct7(word))?;
    Some(Instr::Reg {
        op,
        rd: rd(word),
        rs1: rs1(word),
        rs2: rs2(word),
    })
}

/// lr has no second operand: its field is 0.
fn is_operand(op: AtomicOp, rs2: u8) -> bool
    requires { rs2 < 32 }
    ensures { result ≡ is_second op rs2 }
{
    match op {
        AtomicOp::Lr => rs2 == 0,
        _ => true,
    }
}

fn atomic_of_width(wide: bool, word: u32) -> Option<Instr>
    ensures { result ≡ atomic_with wide word }
{
    let op = atomic_operation(funct5(word))?;
    let rs2 = rs2(word);
    if !is_operand(op, rs2) {
        return None;
    }
    Some(Instr::Atomic {
        op,
        wide,
        aq: flag(word, 26),
        rl: flag(word, 25),
        rd: rd(word),
        rs1: rs1(word),
        rs2,
    })
}

fn atomic(word: u32) -> Option<Instr>
    ensures { result ≡ atomic_of word }
{
    match funct3(word) {
        2 => atomic_of_width(false, word),
        3 => atomic_of_width(true, word),
        _ => None,
    }
}

/// fence, whatever its other fields; fence.i has another funct3.
fn fence(word: u32) -> Option<Instr>
    ensures { result ≡ fence_of word }
{
    match funct3(word) {
        0 => Some(Instr::Fence {
            rd: rd(word),
            rs1: rs1(word),
            bits: fence_bits(word),
        }),
        _ => None,
    }
}

/// ecall and ebreak are one word each.
fn system(word: u32) -> Option<Instr>
    ensures { result ≡ system_of word }
{
    match word {
        0x0000_0073 => Some(Instr::Ecall),
        0x0010_0073 => Some(Instr::Ebreak),
        _ => None,
    }
}

/// The instruction whose word this is, or `None` if no instruction of RV64IMA
/// has it, in constant time.
pub fn decode(word: u32) -> Option<Instr>
    // The instruction has the word; if none is answered, no instruction has it.
    ensures decoded { IsDecoded word result }

    // No other instruction has the word, and the word of an instruction decodes to it.
    ensures only { IsInstructionOf word result }

    ensures table { result ≡ instruction_of word }
{
    match opcode(word) {
        0x37 => Some(upper(UpperOp::Lui, word)),
        0x17 => Some(upper(UpperOp::Auipc, word)),
        0x6F => Some(jump(word)),
        0x67 => jump_register(word),
        0x63 => branch(word),
        0x03 => load(word),
        0x23 => store(word),
        0x13 => shift_or_immediate(word),
        0x1B => word_shift_or_immediate(word),
        0x33 => registers(word),
        0x3B => word_registers(word),
        0x2F => atomic(word),
        0x0F => fence(word),
        0x73 => system(word),
        _ => None,
    }
}

//! Tests of `rv_decode`: words that GNU as writes for riscv64, with the operands that it was given,
//! and words that no instruction of RV64IMA has, by the opcode maps of the RISC-V manual.

use crate::checks::check_equal;
use rv_decode::AtomicOp::*;
use rv_decode::BranchOp::*;
use rv_decode::ImmOp::*;
use rv_decode::LoadOp::*;
use rv_decode::RegOp::*;
use rv_decode::ShiftOp::*;
use rv_decode::StoreOp::*;
use rv_decode::UpperOp::*;
use rv_decode::{
    AtomicOp, BranchOp, ImmOp, Instr, LoadOp, RegOp, ShiftOp, StoreOp, UpperOp, decode, encode,
};
use std::process::Abort;

static UPPER: [(u32, UpperOp, u8, u32); 6] = [
    (0x00000FB7, Lui, 31, 0),
    (0xFFFFFDB7, Lui, 27, 1048575),
    (0xFFFFFEB7, Lui, 29, 1048575),
    (0x00000C97, Auipc, 25, 0),
    (0xFFFFFD97, Auipc, 27, 1048575),
    (0x00001217, Auipc, 4, 1),
];

static JUMPS: [(u32, u8, i32); 6] = [
    (0x800002EF, 5, -1048576),
    (0x7FFFF5EF, 11, 1048574),
    (0x618C9BEF, 23, 824856),
    (0xFD07CD6F, 26, -538672),
    (0x168FB3EF, 7, 1028456),
    (0xBD5F92EF, 5, -25644),
];

static REGISTER_JUMPS: [(u32, u8, u8, i32); 3] = [
    (0x800A0DE7, 27, 20, -2048),
    (0x001583E7, 7, 11, 1),
    (0x000F8B67, 22, 31, 0),
];

static BRANCHES: [(u32, BranchOp, u8, u8, i32); 14] = [
    (0x80A38063, Beq, 7, 10, -4096),
    (0x7F328FE3, Beq, 5, 19, 4094),
    (0x80461063, Bne, 12, 4, -4096),
    (0x7F431FE3, Bne, 6, 20, 4094),
    (0x8163C063, Blt, 7, 22, -4096),
    (0x7E44CFE3, Blt, 9, 4, 4094),
    (0x81E55063, Bge, 10, 30, -4096),
    (0x38BB5AE3, Bge, 22, 11, 2964),
    (0xDFEAE763, Bltu, 21, 30, -2578),
    (0x0065E163, Bltu, 11, 6, 2),
    (0x80B47063, Bgeu, 8, 11, -4096),
    (0x7EF17FE3, Bgeu, 2, 15, 4094),
    (0x45980B63, Beq, 16, 25, 1110),
    (0xD9C99FE3, Bne, 19, 28, -610),
];

static LOADS: [(u32, LoadOp, u8, u8, i32); 14] = [
    (0x80070A83, Lb, 21, 14, -2048),
    (0x7FF98783, Lb, 15, 19, 2047),
    (0x9BCD9C03, Lh, 24, 27, -1604),
    (0x7FFA1B03, Lh, 22, 20, 2047),
    (0x00052203, Lw, 4, 10, 0),
    (0x7FFFAC83, Lw, 25, 31, 2047),
    (0x800B3603, Ld, 12, 22, -2048),
    (0x57EC3203, Ld, 4, 24, 1406),
    (0x80004D83, Lbu, 27, 0, -2048),
    (0x7FFB4683, Lbu, 13, 22, 2047),
    (0x80075403, Lhu, 8, 14, -2048),
    (0x7FF1DF03, Lhu, 30, 3, 2047),
    (0x80036703, Lwu, 14, 6, -2048),
    (0x518F6703, Lwu, 14, 30, 1304),
];

static STORES: [(u32, StoreOp, u8, u8, i32); 8] = [
    (0x80F28023, Sb, 5, 15, -2048),
    (0x7F688FA3, Sb, 17, 22, 2047),
    (0x81109023, Sh, 1, 17, -2048),
    (0x57D09F23, Sh, 1, 29, 1406),
    (0x81E72023, Sw, 14, 30, -2048),
    (0x011420A3, Sw, 8, 17, 1),
    (0xD2DB3F23, Sd, 22, 13, -706),
    (0x008FB0A3, Sd, 31, 8, 1),
];

static IMMEDIATES: [(u32, ImmOp, u8, u8, i32); 14] = [
    (0x80088B93, Addi, 23, 17, -2048),
    (0x7FFC8093, Addi, 1, 25, 2047),
    (0xFFF22813, Slti, 16, 4, -1),
    (0x7FF3A813, Slti, 16, 7, 2047),
    (0x80093113, Sltiu, 2, 18, -2048),
    (0x4D1A3E93, Sltiu, 29, 20, 1233),
    (0x800E4713, Xori, 14, 28, -2048),
    (0x7FF9C213, Xori, 4, 19, 2047),
    (0x800B6593, Ori, 11, 22, -2048),
    (0x7FFFE813, Ori, 16, 31, 2047),
    (0x8003F893, Andi, 17, 7, -2048),
    (0x7FF97893, Andi, 17, 18, 2047),
    (0x8005869B, Addiw, 13, 11, -2048),
    (0x7FF4019B, Addiw, 3, 8, 2047),
];

static SHIFTS: [(u32, ShiftOp, u8, u8, u8); 12] = [
    (0x000E1113, Slli, 2, 28, 0),
    (0x03F31093, Slli, 1, 6, 63),
    (0x0002DB13, Srli, 22, 5, 0),
    (0x03FFD113, Srli, 2, 31, 63),
    (0x400DD213, Srai, 4, 27, 0),
    (0x43F5DF13, Srai, 30, 11, 63),
    (0x0002951B, Slliw, 10, 5, 0),
    (0x01F0971B, Slliw, 14, 1, 31),
    (0x000AD99B, Srliw, 19, 21, 0),
    (0x01F9D79B, Srliw, 15, 19, 31),
    (0x400FD29B, Sraiw, 5, 31, 0),
    (0x41FF551B, Sraiw, 10, 30, 31),
];

static REGISTERS: [(u32, RegOp, u8, u8, u8); 56] = [
    (0x01568BB3, Add, 23, 13, 21),
    (0x013182B3, Add, 5, 3, 19),
    (0x01701AB3, Sll, 21, 0, 23),
    (0x010994B3, Sll, 9, 19, 16),
    (0x010F2AB3, Slt, 21, 30, 16),
    (0x0006A3B3, Slt, 7, 13, 0),
    (0x004F3433, Sltu, 8, 30, 4),
    (0x014430B3, Sltu, 1, 8, 20),
    (0x00B2CC33, Xor, 24, 5, 11),
    (0x01AC4B33, Xor, 22, 24, 26),
    (0x01E659B3, Srl, 19, 12, 30),
    (0x018B57B3, Srl, 15, 22, 24),
    (0x014B6AB3, Or, 21, 22, 20),
    (0x01146AB3, Or, 21, 8, 17),
    (0x013D7CB3, And, 25, 26, 19),
    (0x00947433, And, 8, 8, 9),
    (0x413E8A33, Sub, 20, 29, 19),
    (0x406A8D33, Sub, 26, 21, 6),
    (0x40A05F33, Sra, 30, 0, 10),
    (0x40525933, Sra, 18, 4, 5),
    (0x036702B3, Mul, 5, 14, 22),
    (0x02F68A33, Mul, 20, 13, 15),
    (0x03E510B3, Mulh, 1, 10, 30),
    (0x02D49A33, Mulh, 20, 9, 13),
    (0x0317A4B3, Mulhsu, 9, 15, 17),
    (0x027D20B3, Mulhsu, 1, 26, 7),
    (0x029B34B3, Mulhu, 9, 22, 9),
    (0x027CB933, Mulhu, 18, 25, 7),
    (0x024ACDB3, Div, 27, 21, 4),
    (0x029B4EB3, Div, 29, 22, 9),
    (0x02C85533, Divu, 10, 16, 12),
    (0x022CDA33, Divu, 20, 25, 2),
    (0x0398ED33, Rem, 26, 17, 25),
    (0x03B46033, Rem, 0, 8, 27),
    (0x03A072B3, Remu, 5, 0, 26),
    (0x03577A33, Remu, 20, 14, 21),
    (0x00A5083B, Addw, 16, 10, 10),
    (0x0173093B, Addw, 18, 6, 23),
    (0x01F31DBB, Sllw, 27, 6, 31),
    (0x00F21F3B, Sllw, 30, 4, 15),
    (0x0164D0BB, Srlw, 1, 9, 22),
    (0x0098533B, Srlw, 6, 16, 9),
    (0x40E10EBB, Subw, 29, 2, 14),
    (0x405002BB, Subw, 5, 0, 5),
    (0x415453BB, Sraw, 7, 8, 21),
    (0x415358BB, Sraw, 17, 6, 21),
    (0x023E05BB, Mulw, 11, 28, 3),
    (0x02F5863B, Mulw, 12, 11, 15),
    (0x0363453B, Divw, 10, 6, 22),
    (0x025641BB, Divw, 3, 12, 5),
    (0x02F2D73B, Divuw, 14, 5, 15),
    (0x02B3573B, Divuw, 14, 6, 11),
    (0x03FE6ABB, Remw, 21, 28, 31),
    (0x0394E83B, Remw, 16, 9, 25),
    (0x03FBF53B, Remuw, 10, 23, 31),
    (0x0321F5BB, Remuw, 11, 3, 18),
];

static ATOMICS: [(u32, AtomicOp, bool, bool, bool, u8, u8, u8); 22] = [
    (0x002C2EAF, Amoadd, false, false, false, 29, 24, 2),
    (0x07353D2F, Amoadd, true, true, true, 26, 10, 19),
    (0x0DBA23AF, Amoswap, false, true, false, 7, 20, 27),
    (0x0B863C2F, Amoswap, true, false, true, 24, 12, 24),
    (0x10032B2F, Lr, false, false, false, 22, 6, 0),
    (0x160D3E2F, Lr, true, true, true, 28, 26, 0),
    (0x1CF0ACAF, Sc, false, true, false, 25, 1, 15),
    (0x1B21B0AF, Sc, true, false, true, 1, 3, 18),
    (0x21B428AF, Amoxor, false, false, false, 17, 8, 27),
    (0x2777BE2F, Amoxor, true, true, true, 28, 15, 23),
    (0x4525A12F, Amoor, false, true, false, 2, 11, 18),
    (0x42C9BEAF, Amoor, true, false, true, 29, 19, 12),
    (0x6185A7AF, Amoand, false, false, false, 15, 11, 24),
    (0x665E3C2F, Amoand, true, true, true, 24, 28, 5),
    (0x855DA1AF, Amomin, false, true, false, 3, 27, 21),
    (0x83D6392F, Amomin, true, false, true, 18, 12, 29),
    (0xA14F2DAF, Amomax, false, false, false, 27, 30, 20),
    (0xA743372F, Amomax, true, true, true, 14, 6, 20),
    (0xC4762F2F, Amominu, false, true, false, 30, 12, 7),
    (0xC36A302F, Amominu, true, false, true, 0, 20, 22),
    (0xE17BA4AF, Amomaxu, false, false, false, 9, 23, 23),
    (0xE67239AF, Amomaxu, true, true, true, 19, 4, 7),
];

/// The last has reserved fields, and is a fence whatever they are.
static FENCES: [(u32, u8, u8, u16); 4] = [
    (0x0FF0000F, 0, 0, 0x0FF),
    (0x0210000F, 0, 0, 0x021),
    (0x8330000F, 0, 0, 0x833),
    (0xFFFF8F8F, 31, 31, 0xFFF),
];

/// Words without an instruction.
static OTHERS: [u32; 62] = [
    // all bits 0, all bits 1, and two compressed instructions
    0x0000_0000,
    0xFFFF_FFFF,
    0x0000_0001,
    0x0000_4501,
    // flw, fsd, fmadd.d, fadd.d
    0x0005_A507,
    0x00A5_B027,
    0xC2C5_F543,
    0x02B5_7553,
    // csrrw, csrrs of cycle, csrrci
    0x3005_1073,
    0xC000_2573,
    0x3001_70F3,
    // fence.i, and a fence of another funct3
    0x0000_100F,
    0x0000_200F,
    // uret, sret, mret, wfi, sfence.vma
    0x0020_0073,
    0x1020_0073,
    0x3020_0073,
    0x1050_0073,
    0x1200_0073,
    // ecall and ebreak with rd, with rs1, with funct3, with funct7
    0x0000_00F3,
    0x0000_8073,
    0x0000_4073,
    0x8000_0073,
    0x0010_0FF3,
    0x0011_0073,
    // jalr of another funct3, branches, a load and a store of a reserved funct3
    0x0000_90E7,
    0x0000_2063,
    0x0000_3063,
    0x0000_7003,
    0x0000_4023,
    0x0000_7023,
    // shifts of another funct6: the bit above the amount, srai's funct6 at slli
    0x0400_1013,
    0x0400_5013,
    0x4400_5013,
    0x4000_1013,
    0x8000_5013,
    // shifts of 32 bits by 32, of srai's funct7 at slliw, and another funct3
    0x0200_101B,
    0x0200_501B,
    0x4200_501B,
    0x4000_101B,
    0x0000_201B,
    0x0000_701B,
    // operations of another funct7, and those that only 64 bits have
    0x4000_1033,
    0x0400_0033,
    0x4000_7033,
    0x8000_0033,
    0x0000_203B,
    0x0200_103B,
    0x0000_403B,
    0x4000_103B,
    // lr of a word and of a double word with rs2, whatever the flags
    0x1015_A52F,
    0x11F5_B52F,
    0x1705_A52F,
    // atomic operations of bytes, of 128 bits and of another funct5
    0x00C5_852F,
    0x00C5_C52F,
    0x28C5_A52F,
    0xF8C5_B52F,
    // opcodes that are reserved, or for more bits
    0x0000_000B,
    0x0000_002B,
    0x0000_005B,
    0x0000_006B,
    0x0000_0077,
    0x0000_0057,
];

/// Checks that the word decodes to the instruction, and that what it decodes to has the word.
fn check(rt: &impl Abort, word: u32, instr: Instr) {
    let found = decode(word);
    let has_word = match found {
        Some(instr) => encode(instr) == word,
        None => false,
    };
    check_equal(
        rt,
        (word, found == Some(instr), has_word),
        (word, true, true),
    );
}

fn upper_immediates(rt: &impl Abort) {
    for &(word, op, rd, value) in &UPPER {
        let instr = Instr::Upper { op, rd, value };
        check(rt, word, instr);
    }
}

fn jumps(rt: &impl Abort) {
    for &(word, rd, offset) in &JUMPS {
        let instr = Instr::Jal { rd, offset };
        check(rt, word, instr);
    }
}

fn register_jumps(rt: &impl Abort) {
    for &(word, rd, rs1, offset) in &REGISTER_JUMPS {
        let instr = Instr::Jalr { rd, rs1, offset };
        check(rt, word, instr);
    }
}

fn branches(rt: &impl Abort) {
    for &(word, op, rs1, rs2, offset) in &BRANCHES {
        let instr = Instr::Branch {
            op,
            rs1,
            rs2,
            offset,
        };
        check(rt, word, instr);
    }
}

fn loads(rt: &impl Abort) {
    for &(word, op, rd, rs1, offset) in &LOADS {
        let instr = Instr::Load {
            op,
            rd,
            rs1,
            offset,
        };
        check(rt, word, instr);
    }
}

fn stores(rt: &impl Abort) {
    for &(word, op, rs1, rs2, offset) in &STORES {
        let instr = Instr::Store {
            op,
            rs1,
            rs2,
            offset,
        };
        check(rt, word, instr);
    }
}

fn operations_of_immediates(rt: &impl Abort) {
    for &(word, op, rd, rs1, value) in &IMMEDIATES {
        let instr = Instr::Imm { op, rd, rs1, value };
        check(rt, word, instr);
    }
}

fn shifts(rt: &impl Abort) {
    for &(word, op, rd, rs1, amount) in &SHIFTS {
        let instr = Instr::Shift {
            op,
            rd,
            rs1,
            amount,
        };
        check(rt, word, instr);
    }
}

fn operations_of_registers(rt: &impl Abort) {
    for &(word, op, rd, rs1, rs2) in &REGISTERS {
        let instr = Instr::Reg { op, rd, rs1, rs2 };
        check(rt, word, instr);
    }
}

fn atomic_operations(rt: &impl Abort) {
    for &(word, op, wide, aq, rl, rd, rs1, rs2) in &ATOMICS {
        let instr = Instr::Atomic {
            op,
            wide,
            aq,
            rl,
            rd,
            rs1,
            rs2,
        };
        check(rt, word, instr);
    }
}

fn fences(rt: &impl Abort) {
    for &(word, rd, rs1, bits) in &FENCES {
        let instr = Instr::Fence { rd, rs1, bits };
        check(rt, word, instr);
    }
}

fn calls_and_breaks(rt: &impl Abort) {
    check(rt, 0x0000_0073, Instr::Ecall);
    check(rt, 0x0010_0073, Instr::Ebreak);
}

fn words_of_no_instruction(rt: &impl Abort) {
    for &word in &OTHERS {
        check_equal(rt, (word, decode(word).is_none()), (word, true));
    }
}

#[test]
fn words_decode_to_their_instructions_or_to_none(rt: HostRuntime) {
    upper_immediates(&rt);
    jumps(&rt);
    register_jumps(&rt);
    branches(&rt);
    loads(&rt);
    stores(&rt);
    operations_of_immediates(&rt);
    shifts(&rt);
    operations_of_registers(&rt);
    atomic_operations(&rt);
    fences(&rt);
    calls_and_breaks(&rt);
    words_of_no_instruction(&rt);
}

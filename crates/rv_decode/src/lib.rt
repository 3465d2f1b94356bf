//! The instructions of RV64IMA and their words of 32 bits.
//!
//! `specs/Table.antt` has one line for each instruction, `specs/Instructions.antt` the word of each
//! form. `encode` gives the word of an instruction, `decode` the instruction
//! of a word, each exactly.
//!
//! ```text
//! let addi = Instr::Imm { op: ImmOp::Addi, rd: 10, rs1: 10, value: 1 };
//! encode(addi);         // 0x00150513
//! decode(0x0015_0513);  // Some(addi)
//! decode(0);            // None
//! ```
//!
//! Source: The RISC-V Instruction Set Manual, Volume I, its chapters on RV32I, RV64I,
//! M and A and its listings of instructions.
#![tactic(auto)]

ghost use Rattle.std.specs.Prelude.{◌≡◌, ◌<◌, ◌≤◌, ◌^◌, IsTrue};
ghost use Rattle.rv_decode.specs.Fields.{twos_complement, is_signed};
ghost use Rattle.rv_decode.specs.Table.{upper_code, branch_code, load_code, store_code, imm_code, shift_code, register_code, atomic_code};
ghost use Rattle.rv_decode.specs.Instructions.{InRange, instruction_of, code_field, immediate_field, store_field, branch_field, jump_field, flag_field, rd_field, rs1_field, rs2_field, word_of};

mod decoder;
mod fields;
mod operations;

pub use decoder::decode;

/// An operation on the upper 20 bits.
#[derive(Clone, Copy, PartialEq, Eq)]
pub enum UpperOp {
    /// The value, with zeros below.
    Lui,
    /// The instruction's own address and that.
    Auipc,
}

/// The test of a branch.
#[derive(Clone, Copy, PartialEq, Eq)]
pub enum BranchOp {
    /// The registers are equal.
    Beq,
    /// The registers differ.
    Bne,
    /// The first is less, with signs.
    Blt,
    /// The first is not less, with signs.
    Bge,
    /// The first is less, without signs.
    Bltu,
    /// The first is not less, without signs.
    Bgeu,
}

/// A load.
#[derive(Clone, Copy, PartialEq, Eq)]
pub enum LoadOp {
    /// A byte, with its sign.
    Lb,
    /// 2 bytes, with their sign.
    Lh,
    /// 4 bytes, with their sign.
    Lw,
    /// 8 bytes.
    Ld,
    /// A byte, without a sign.
    Lbu,
    /// 2 bytes, without a sign.
    Lhu,
    /// 4 bytes, without a sign.
    Lwu,
}

/// A store.
#[derive(Clone, Copy, PartialEq, Eq)]
pub enum StoreOp {
    /// A byte.
    Sb,
    /// 2 bytes.
    Sh,
    /// 4 bytes.
    Sw,
    /// 8 bytes.
    Sd,
}

/// An operation on a register and an immediate.
#[derive(Clone, Copy, PartialEq, Eq)]
pub enum ImmOp {
    /// The sum.
    Addi,
    /// Whether the register is less, with signs.
    Slti,
    /// Whether it is less, without signs.
    Sltiu,
    /// The bits that one of both has.
    Xori,
    /// The bits that either has.
    Ori,
    /// The bits that both have.
    Andi,
    /// The sum of 32 bits.
    Addiw,
}

/// A shift by an immediate.
#[derive(Clone, Copy, PartialEq, Eq)]
pub enum ShiftOp {
    /// To the left.
    Slli,
    /// To the right, with zeros.
    Srli,
    /// To the right, with the sign.
    Srai,
    /// To the left, of 32 bits.
    Slliw,
    /// To the right, of 32 bits, with zeros.
    Srliw,
    /// To the right, of 32 bits, with the sign.
    Sraiw,
}

/// An operation on two registers.
#[derive(Clone, Copy, PartialEq, Eq)]
pub enum RegOp {
    /// The sum.
    Add,
    /// A shift to the left.
    Sll,
    /// Whether the first is less, with signs.
    Slt,
    /// Whether the first is less, without signs.
    Sltu,
    /// The bits that one of both has.
    Xor,
    /// A shift to the right, with zeros.
    Srl,
    /// The bits that either has.
    Or,
    /// The bits that both have.
    And,
    /// The difference.
    Sub,
    /// A shift to the right, with the sign.
    Sra,
    /// The lower half of the product.
    Mul,
    /// The upper half, with signs.
    Mulh,
    /// The upper half, the first with its sign and the second without.
    Mulhsu,
    /// The upper half, without signs.
    Mulhu,
    /// The quotient, with signs.
    Div,
    /// The quotient, without signs.
    Divu,
    /// The remainder, with signs.
    Rem,
    /// The remainder, without signs.
    Remu,
    /// The sum of 32 bits.
    Addw,
    /// A shift of 32 bits to the left.
    Sllw,
    /// A shift of 32 bits to the right, with zeros.
    Srlw,
    /// The difference of 32 bits.
    Subw,
    /// A shift of 32 bits to the right, with the sign.
    Sraw,
    /// The lower half of the product of 32 bits.
    Mulw,
    /// The quotient of 32 bits, with signs.
    Divw,
    /// The quotient of 32 bits, without signs.
    Divuw,
    /// The remainder of 32 bits, with signs.
    Remw,
    /// The remainder of 32 bits, without signs.
    Remuw,
}

/// An operation on memory in one step.
#[derive(Clone, Copy, PartialEq, Eq)]
pub enum AtomicOp {
    /// The sum is stored.
    Amoadd,
    /// The register is stored.
    Amoswap,
    /// Nothing is stored, and the bytes are reserved.
    Lr,
    /// The register is stored, if the bytes are still reserved.
    Sc,
    /// The bits that one of both has are stored.
    Amoxor,
    /// The bits that either has are stored.
    Amoor,
    /// The bits that both have are stored.
    Amoand,
    /// The lesser is stored, with signs.
    Amomin,
    /// The greater is stored, with signs.
    Amomax,
    /// The lesser is stored, without signs.
    Amominu,
    /// The greater is stored, without signs.
    Amomaxu,
}

/// An instruction. Registers are numbers below 32; offsets are in bytes.
#[derive(Clone, Copy, PartialEq, Eq)]
pub enum Instr {
    /// `value` is the 20 bits that stand above the lower 12.
    Upper {
        op: UpperOp,
        rd: u8,
        value: u32,
    },
    /// `offset` is even, from -2^20 to 2^20 - 2, and counts from the instruction's own address.
    Jal {
        rd: u8,
        offset: i32,
    },
    /// `offset` is from -2048 to 2047.
    Jalr {
        rd: u8,
        rs1: u8,
        offset: i32,
    },
    /// `offset` is even, from -4096 to 4094, and counts from the instruction's own address.
    Branch {
        op: BranchOp,
        rs1: u8,
        rs2: u8,
        offset: i32,
    },
    /// `offset` is from -2048 to 2047.
    Load {
        op: LoadOp,
        rd: u8,
        rs1: u8,
        offset: i32,
    },
    /// The value of `rs2` goes to the address of `rs1` plus `offset`, which is from -2048 to 2047.
    Store {
        op: StoreOp,
        rs1: u8,
        rs2: u8,
        offset: i32,
    },
    /// `value` is from -2048 to 2047.
    Imm {
        op: ImmOp,
        rd: u8,
        rs1: u8,
        value: i32,
    },
    /// `amount` is below 64, and below 32 in the forms of 32 bits.
    Shift {
        op: ShiftOp,
        rd: u8,
        rs1: u8,
        amount: u8,
    },
    /// An operation on two registers.
    Reg {
        op: RegOp,
        rd: u8,
        rs1: u8,
        rs2: u8,
    },
    /// `wide` is the form of 64 bits, `aq` and `rl` are the two flags
    /// of ordering. `rs2` of lr is 0.
    Atomic {
        op: AtomicOp,
        wide: bool,
        aq: bool,
        rl: bool,
        rd: u8,
        rs1: u8,
        rs2: u8,
    },
    /// `bits` are the upper 12 of the word, below 2^12. Nothing is reserved.
    Fence {
        rd: u8,
        rs1: u8,
        bits: u16,
    },
    /// The call of the system.
    Ecall,
    /// The breakpoint.
    Ebreak,
}

/// The opcode, funct3 and funct7 of an operation, each shifted to its position.
fn upper_fixed_bits(op: UpperOp) -> u32
    ensures code { result ≡ code_field (upper_code op) }
    ensures below { result ≤ 0x37 }
{
    match op {
        UpperOp::Lui => 0x00000037,
        UpperOp::Auipc => 0x00000017,
    }
}

/// The opcode, funct3 and funct7 of an operation, each shifted to its position.
fn branch_fixed_bits(op: BranchOp) -> u32
    ensures code { result ≡ code_field (branch_code op) }
    ensures below { result ≤ 0x7063 }
{
    match op {
        BranchOp::Beq => 0x00000063,
        BranchOp::Bne => 0x00001063,
        BranchOp::Blt => 0x00004063,
        BranchOp::Bge => 0x00005063,
        BranchOp::Bltu => 0x00006063,
        BranchOp::Bgeu => 0x00007063,
    }
}

/// The opcode, funct3 and funct7 of an operation, each shifted to its position.
fn load_fixed_bits(op: LoadOp) -> u32
    ensures code { result ≡ code_field (load_code op) }
    ensures below { result ≤ 0x6003 }
{
    match op {
        LoadOp::Lb => 0x00000003,
        LoadOp::Lh => 0x00001003,
        LoadOp::Lw => 0x00002003,
        LoadOp::Ld => 0x00003003,
        LoadOp::Lbu => 0x00004003,
        LoadOp::Lhu => 0x00005003,
        LoadOp::Lwu => 0x00006003,
    }
}

/// The opcode, funct3 and funct7 of an operation, each shifted to its position.
fn store_fixed_bits(op: StoreOp) -> u32
    ensures code { result ≡ code_field (store_code op) }
    ensures below { result ≤ 0x3023 }
{
    match op {
        StoreOp::Sb => 0x00000023,
        StoreOp::Sh => 0x00001023,
        StoreOp::Sw => 0x00002023,
        StoreOp::Sd => 0x00003023,
    }
}

/// The opcode, funct3 and funct7 of an operation, each shifted to its position.
fn imm_fixed_bits(op: ImmOp) -> u32
    ensures code { result ≡ code_field (imm_code op) }
    ensures below { result ≤ 0x701B }
{
    match op {
        ImmOp::Addi => 0x00000013,
        ImmOp::Slti => 0x00002013,
        ImmOp::Sltiu => 0x00003013,
        ImmOp::Xori => 0x00004013,
        ImmOp::Ori => 0x00006013,
        ImmOp::Andi => 0x00007013,
        ImmOp::Addiw => 0x0000001B,
    }
}

/// The opcode, funct3 and funct7 of an operation, each shifted to its position.
fn shift_fixed_bits(op: ShiftOp) -> u32
    ensures code { result ≡ code_field (shift_code op) }
    ensures below { result ≤ 0x4000501B }
{
    match op {
        ShiftOp::Slli => 0x00001013,
        ShiftOp::Srli => 0x00005013,
        ShiftOp::Srai => 0x40005013,
        ShiftOp::Slliw => 0x0000101B,
        ShiftOp::Srliw => 0x0000501B,
        ShiftOp::Sraiw => 0x4000501B,
    }
}

/// The opcode, funct3 and funct7 of an operation, each shifted to its position.
fn register_fixed_bits(op: RegOp) -> u32
    ensures code { result ≡ code_field (register_code op) }
    ensures below { result ≤ 0x4000703B }
{
    match op {
        RegOp::Add => 0x00000033,
        RegOp::Sll => 0x00001033,
        RegOp::Slt => 0x00002033,
        RegOp::Sltu => 0x00003033,
        RegOp::Xor => 0x00004033,
        RegOp::Srl => 0x00005033,
        RegOp::Or => 0x00006033,
        RegOp::And => 0x00007033,
        RegOp::Sub => 0x40000033,
        RegOp::Sra => 0x40005033,
        RegOp::Mul => 0x02000033,
        RegOp::Mulh => 0x02001033,
        RegOp::Mulhsu => 0x02002033,
        RegOp::Mulhu => 0x02003033,
        RegOp::Div => 0x02004033,
        RegOp::Divu => 0x02005033,
        RegOp::Rem => 0x02006033,
        RegOp::Remu => 0x02007033,
        RegOp::Addw => 0x0000003B,
        RegOp::Sllw => 0x0000103B,
        RegOp::Srlw => 0x0000503B,
        RegOp::Subw => 0x4000003B,
        RegOp::Sraw => 0x4000503B,
        RegOp::Mulw => 0x0200003B,
        RegOp::Divw => 0x0200403B,
        RegOp::Divuw => 0x0200503B,
        RegOp::Remw => 0x0200603B,
        RegOp::Remuw => 0x0200703B,
    }
}

/// The opcode, funct3 and funct7 of an operation, each shifted to its position.
fn atomic_fixed_bits(op: AtomicOp) -> u32
    ensures code { result ≡ code_field (atomic_code op) }
    ensures below { result ≤ 0xE000202F }
{
    match op {
        AtomicOp::Amoadd => 0x0000202F,
        AtomicOp::Amoswap => 0x0800202F,
        AtomicOp::Lr => 0x1000202F,
        AtomicOp::Sc => 0x1800202F,
        AtomicOp::Amoxor => 0x2000202F,
        AtomicOp::Amoor => 0x4000202F,
        AtomicOp::Amoand => 0x6000202F,
        AtomicOp::Amomin => 0x8000202F,
        AtomicOp::Amomax => 0xA000202F,
        AtomicOp::Amominu => 0xC000202F,
        AtomicOp::Amomaxu => 0xE000202F,
    }
}

/// The 12 bits of a signed number.
fn twelve_bits(z: i32) -> u32
    requires { IsTrue (is_signed 12 z) }
    ensures bits { result ≡ twos_complement 12 z }
    ensures below { result < 2 ^ 12 }
{
    if z < 0 {
        (z + 0x1000).cast_unsigned()
    } else {
        z.cast_unsigned()
    }
}

/// The 13 bits of a signed number.
fn thirteen_bits(z: i32) -> u32
    requires { IsTrue (is_signed 13 z) }
    ensures bits { result ≡ twos_complement 13 z }
    ensures below { result < 2 ^ 13 }
{
    if z < 0 {
        (z + 0x2000).cast_unsigned()
    } else {
        z.cast_unsigned()
    }
}

/// The 21 bits of a signed number.
fn twenty_one_bits(z: i32) -> u32
    requires { IsTrue (is_signed 21 z) }
    ensures bits { result ≡ twos_complement 21 z }
    ensures below { result < 2 ^ 21 }
{
    if z < 0 {
        (z + 0x20_0000).cast_unsigned()
    } else {
        z.cast_unsigned()
    }
}

/// The field of an immediate.
fn immediate_bits(z: i32) -> u64
    requires { IsTrue (is_signed 12 z) }
    ensures field { result ≡ immediate_field z }
    ensures below { result ≤ 0xFFF00000 }
{
    u64::from(twelve_bits(z)) * 0x10_0000
}

/// The two fields of a store's offset.
fn store_bits(z: i32) -> u64
    requires { IsTrue (is_signed 12 z) }
    ensures field { result ≡ store_field z }
    ensures below { result ≤ 0xFE000F80 }
{
    let n = u64::from(twelve_bits(z));
    n % 0x20 * 0x80 + n / 0x20 % 0x80 * 0x200_0000
}

/// The four fields of a branch's offset.
fn branch_bits(z: i32) -> u64
    requires { IsTrue (is_signed 13 z) }
    ensures field { result ≡ branch_field z }
    ensures below { result ≤ 0xFE000F80 }
{
    let n = u64::from(thirteen_bits(z));
    n / 0x800 % 2 * 0x80
        + n / 2 % 0x10 * 0x100
        + n / 0x20 % 0x40 * 0x200_0000
        + n / 0x1000 % 2 * 0x8000_0000
}

/// The four fields of a jump's offset.
fn jump_bits(z: i32) -> u64
    requires { IsTrue (is_signed 21 z) }
    ensures field { result ≡ jump_field z }
    ensures below { result ≤ 0xFFFFF000 }
{
    let n = u64::from(twenty_one_bits(z));
    n / 0x1000 % 0x100 * 0x1000
        + n / 0x800 % 2 * 0x10_0000
        + n / 2 % 0x400 * 0x20_0000
        + n / 0x10_0000 % 2 * 0x8000_0000
}

/// A flag, shifted to its position.
fn flag_bits(flag: bool, shift: u64) -> u64
    requires { shift ≤ 31 }
    ensures { result ≡ flag_field flag shift }
{
    if flag { 1 << shift } else { 0 }
}

/// The register that is written (rd), shifted to its position.
fn rd_bits(r: u8) -> u64
    requires { r < 32 }
    ensures field { result ≡ rd_field r }
    ensures below { result ≤ 0xF80 }
{
    u64::from(r) * 0x80
}

/// The first register that is read (rs1), shifted to its position.
fn rs1_bits(r: u8) -> u64
    requires { r < 32 }
    ensures field { result ≡ rs1_field r }
    ensures below { result ≤ 0xF8000 }
{
    u64::from(r) * 0x8000
}

/// The second register that is read (rs2), shifted to its position.
fn rs2_bits(r: u8) -> u64
    requires { r < 32 }
    ensures field { result ≡ rs2_field r }
    ensures below { result ≤ 0x1F00000 }
{
    u64::from(r) * 0x10_0000
}

/// The sum of the fields of an instruction, each shifted to its position.
fn sum_of_fields(instr: Instr) -> u64
    requires { InRange instr }
    ensures word { result ≡ word_of instr }
    ensures below { result < 2 ^ 32 }
{
    match instr {
        Instr::Upper { op, rd, value } => u64::from(upper_fixed_bits(op))
            + rd_bits(rd)
            + u64::from(value) * 0x1000,
        Instr::Jal { rd, offset } => 0x6F + rd_bits(rd) + jump_bits(offset),
        Instr::Jalr { rd, rs1, offset } => 0x67
            + rd_bits(rd)
            + rs1_bits(rs1)
            + immediate_bits(offset),
        Instr::Branch {
            op,
            rs1,
            rs2,
            offset,
        } => u64::from(branch_fixed_bits(op)) + rs1_bits(rs1) + rs2_bits(rs2) + branch_bits(offset),
        Instr::Load {
            op,
            rd,
            rs1,
            offset,
        } => u64::from(load_fixed_bits(op)) + rd_bits(rd) + rs1_bits(rs1) + immediate_bits(offset),
        Instr::Store {
            op,
            rs1,
            rs2,
            offset,
        } => u64::from(store_fixed_bits(op)) + rs1_bits(rs1) + rs2_bits(rs2) + store_bits(offset),
        Instr::Imm { op, rd, rs1, value } => u64::from(imm_fixed_bits(op))
            + rd_bits(rd)
            + rs1_bits(rs1)
            + immediate_bits(value),
        Instr::Shift {
            op,
            rd,
            rs1,
            amount,
        } => u64::from(shift_fixed_bits(op))
            + rd_bits(rd)
            + rs1_bits(rs1)
            + u64::from(amount) * 0x10_0000,
        Instr::Reg { op, rd, rs1, rs2 } => u64::from(register_fixed_bits(op))
            + rd_bits(rd)
            + rs1_bits(rs1)
            + rs2_bits(rs2),
        Instr::Atomic {
            op,
            wide,
            aq,
            rl,
            rd,
            rs1,
            rs2,
        } => {
            u64::from(atomic_fixed_bits(op))
                + flag_bits(wide, 12)
                + flag_bits(aq, 26)
                + flag_bits(rl, 25)
                + rd_bits(rd)
                + rs1_bits(rs1)
                + rs2_bits(rs2)
        }
        Instr::Fence { rd, rs1, bits } => 0x0F
            + rd_bits(rd)
            + rs1_bits(rs1)
            + u64::from(bits) * 0x10_0000,
        Instr::Ecall => 0x73,
        Instr::Ebreak => 0x10_0073,
    }
}

/// The word of an instruction whose fields are in range; `decode` gives the instruction back.
pub fn encode(instr: Instr) -> u32
    requires { InRange instr }
    ensures word { result ≡ word_of instr }
    ensures decodes { instruction_of result ≡ Some instr }
{
    sum_of_fields(instr) as u32
}

//! What kinds of statements there are.

use rv_decode::{AtomicOp, BranchOp, ImmOp, LoadOp, RegOp, ShiftOp, StoreOp, UpperOp};

/// The section into which a statement puts its bytes.
#[derive(Clone, Copy, PartialEq, Eq)]
pub enum Section {
    /// `.text`.
    Text,
    /// `.data`.
    Data,
}

/// The width of an atomic.
#[derive(Clone, Copy)]
pub enum Width {
    /// 4 bytes, `.w`.
    Word,
    /// 8 bytes, `.d`.
    Double,
}

/// Which accesses of memory an atomic keeps in order.
#[derive(Clone, Copy)]
pub enum Order {
    /// None.
    Relaxed,
    /// No later one comes before it, `.aq`.
    Acquire,
    /// No earlier one comes after it, `.rl`.
    Release,
    /// Neither, `.aqrl`.
    Both,
}

/// An instruction without operands.
#[derive(Clone, Copy)]
pub enum Alone {
    /// The call of the system.
    Ecall,
    /// The breakpoint.
    Ebreak,
    /// The fence of all accesses.
    Fence,
    /// An addition of 0 to x0.
    Nop,
    /// A jump to the address in ra.
    Ret,
}

/// The size of a number.
#[derive(Clone, Copy)]
pub enum Size {
    /// `.byte`.
    One,
    /// `.word`.
    Four,
    /// `.dword`.
    Eight,
}

/// Which operands a statement has, and what it is assembled to.
#[derive(Clone, Copy)]
pub enum Form {
    /// rd, rs1, rs2.
    Register(RegOp),
    /// rd, rs1, and a number of 12 bits with a sign.
    Immediate(ImmOp),
    /// rd, rs1, and an amount.
    Shift(ShiftOp),
    /// rd, and an offset with its base.
    Load(LoadOp),
    /// rd, and an offset with its base.
    Jalr,
    /// rs2, and an offset with its base.
    Store(StoreOp),
    /// rs1, rs2, and a label.
    Branch(BranchOp),
    /// rd, and a label.
    Jal,
    /// rd, and a number of 20 bits.
    Upper(UpperOp),
    /// rd, rs2 unless it is `lr`, and a base.
    Atomic(AtomicOp, Width, Order),
    /// No operands.
    Plain(Alone),
    /// `mv`: rd, and a register that is copied.
    Move,
    /// `j`: a label.
    Jump,
    /// `li`: rd, and a number.
    LoadNumber,
    /// `la`: rd, and a label.
    LoadAddress,
    /// The statements after this one are in this section.
    Enter(Section),
    /// `.globl`: a name, which is not used.
    Global,
    /// Numbers of that size, with a comma between.
    Numbers(Size),
    /// `.ascii`: a text.
    Ascii,
    /// `.zero`: how many zeros.
    Zeros,
    /// `.align`: up to a multiple of two to this power.
    Align,
}

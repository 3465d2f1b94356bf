//! The pieces that statements are assembled to.

use crate::operands::NameUse;
use asm_tokens::{Register, Section};
use rv_decode::BranchOp;

/// The bytes that a statement puts into its section.
#[derive(Drop)]
pub enum Piece<'s> {
    /// The word of an instruction.
    Encoded(u32),
    /// A branch to a label.
    Branch {
        op: BranchOp,
        rs1: Register,
        rs2: Register,
        label: NameUse<'s>,
    },
    /// A jump to a label.
    Jump {
        rd: Register,
        label: NameUse<'s>,
    },
    /// The two instructions that put a label's address into a register.
    LoadAddress {
        rd: Register,
        label: NameUse<'s>,
    },
    /// A label's address of eight bytes.
    Address(NameUse<'s>),
    /// Bytes.
    Bytes(Vec<u8>),
    /// A number of zeros.
    Zeros(u32),
}

/// A statement of a source.
#[derive(Drop)]
pub enum Statement<'s> {
    /// Puts these pieces one after the other.
    Puts(Vec<Piece<'s>>),
    /// Fills up with zeros to a multiple of two to this power.
    Aligns(u32),
    /// Goes on in this section.
    Enters(Section),
}

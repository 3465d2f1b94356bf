//! The cost of each class of instruction.
ghost use Rattle.std.specs.Prelude.{◌≡◌, ◌≤◌, Option};
ghost use Rattle.rv_decode.specs.declared.Instr.{Instr};
ghost use Rattle.cost_table.specs.Costs.{cycles_of};
ghost use Rattle.timing_model.specs.Timing.{class_of_register, class_of, cost_of, cycles_in, usual_costs, AreCosts};

use rv_decode::{Instr, RegOp};

/// The most cycles that a class of instruction may cost.
pub const MAX_COST: u16 = 10_000;

/// A class of instructions that cost the same.
#[derive(Clone, Copy, PartialEq, Eq)]
pub enum Class {
    /// All that no other class has: integer operations, branches, stores, LUI, AUIPC, EBREAK,
    /// words that encode no instruction, and failed fetches.
    Integer,
    /// JAL, JALR and FENCE.
    Jump,
    /// Loads.
    Load,
    /// Products.
    Multiply,
    /// LR, SC and AMO.
    Atomic,
    /// Quotients and remainders.
    Divide,
    /// ECALL, whether the call waits or not.
    Ecall,
}

/// The class of an operation on two registers.
#[inline]
fn class_of_register(op: RegOp) -> Class
    ensures { result ≡ class_of_register op }
{
    match op {
        RegOp::Mul | RegOp::Mulh | RegOp::Mulhsu | RegOp::Mulhu | RegOp::Mulw => Class::Multiply,
        RegOp::Div | RegOp::Divu | RegOp::Rem | RegOp::Remu => Class::Divide,
        RegOp::Divw | RegOp::Divuw | RegOp::Remw | RegOp::Remuw => Class::Divide,
        RegOp::Add | RegOp::Sll | RegOp::Slt | RegOp::Sltu | RegOp::Xor | RegOp::Srl => {
            Class::Integer
        }
        RegOp::Or | RegOp::And | RegOp::Sub | RegOp::Sra | RegOp::Addw => Class::Integer,
        RegOp::Sllw | RegOp::Srlw | RegOp::Subw | RegOp::Sraw => Class::Integer,
    }
}

/// The class of an instruction; `None` is a word that encodes none, or that can't be fetched.
#[inline]
pub fn class_of(instr: Option<Instr>) -> Class
    ensures { result ≡ class_of instr }
{
    match instr {
        None => Class::Integer,
        Some(Instr::Reg { op, .. }) => class_of_register(op),
        Some(Instr::Upper { .. }) => Class::Integer,
        Some(Instr::Branch { .. }) => Class::Integer,
        Some(Instr::Store { .. }) => Class::Integer,
        Some(Instr::Imm { .. }) => Class::Integer,
        Some(Instr::Shift { .. }) => Class::Integer,
        Some(Instr::Ebreak) => Class::Integer,
        Some(Instr::Jal { .. }) => Class::Jump,
        Some(Instr::Jalr { .. }) => Class::Jump,
        Some(Instr::Fence { .. }) => Class::Jump,
        Some(Instr::Load { .. }) => Class::Load,
        Some(Instr::Atomic { .. }) => Class::Atomic,
        Some(Instr::Ecall) => Class::Ecall,
    }
}

/// The cycles of each class of instruction, from 1 to 10,000.
#[derive(Clone, Copy, PartialEq, Eq)]
pub struct Costs {
    /// Of `Class::Integer`.
    pub integer: u16,
    /// Of `Class::Jump`.
    pub jump: u16,
    /// Of `Class::Load`.
    pub load: u16,
    /// Of `Class::Multiply`.
    pub multiply: u16,
    /// Of `Class::Atomic`.
    pub atomic: u16,
    /// Of `Class::Divide`.
    pub divide: u16,
    /// Of `Class::Ecall`.
    pub ecall: u16,
}

impl Costs {
    /// The costs of `cost_table`, instruction by instruction.
    pub fn usual() -> Costs
        ensures costs { result ≡ usual_costs }
        ensures usual { (i : Option Instr) → cycles_in result i ≡ cycles_of i }
        ensures within { AreCosts result }
    {
        Costs {
            integer: 1,
            jump: 2,
            load: 3,
            multiply: 3,
            atomic: 8,
            divide: 20,
            ecall: 40,
        }
    }

    /// The cycles of a class.
    #[inline]
    pub fn of(self, class: Class) -> u16
        ensures { result ≡ cost_of self class }
    {
        match class {
            Class::Integer => self.integer,
            Class::Jump => self.jump,
            Class::Load => self.load,
            Class::Multiply => self.multiply,
            Class::Atomic => self.atomic,
            Class::Divide => self.divide,
            Class::Ecall => self.ecall,
        }
    }

    /// The cycles of an instruction; `None` is a word that encodes none, or that can't be fetched.
    #[inline]
    pub fn cycles(self, instr: Option<Instr>) -> u64
        ensures { result ≡ cycles_in self instr }
    {
        u64::from(self.of(class_of(instr)))
    }
}

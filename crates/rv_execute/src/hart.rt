//! The registers of a hart, and what follows an instruction.
ghost use Rattle.std.specs.Prelude.{◌≡◌, ◌<◌};
ghost use Rattle.rv_execute.specs.Execution.{ChangesHart, register, with_register, address_at, next, with_rd, jump};

use coz_types::{Address, TrapCause};

/// The registers and the pc of a hart. Register 0 reads as 0 and is never written.
#[derive(Clone, Copy, PartialEq, Eq)]
pub struct HartState {
    /// By number.
    pub registers: [u64; 32],
    /// The address of the next instruction.
    pub pc: Address,
}

/// The step after an instruction.
#[derive(Clone, Copy, Debug, PartialEq, Eq)]
pub enum Step {
    /// The hart's next instruction.
    Next,
    /// The system call that the hart asks for.
    Call,
    /// A trap of the hart.
    Fault(TrapCause),
}

/// The address that lies so far from another.
#[inline(always)]
pub fn address_at(base: Address, offset: i32) -> Address
    ensures { result ≡ address_at base offset }
{
    base.wrapping_add(i64::from(offset).cast_unsigned())
}

impl HartState {
    /// The value of a register; 0 of x0.
    #[inline(always)]
    pub(crate) fn value(&self, r: u8) -> u64
        requires { r < 32 }
        ensures { result ≡ register self.now r }
    {
        if r == 0 {
            0
        } else {
            self.registers[r as usize]
        }
    }

    /// Writes a register, if it isn't register 0.
    #[inline(always)]
    fn set(&mut self, rd: u8, value: u64)
        requires { rd < 32 }
        ensures { self.new ≡ with_register rd value self.old }
    {
        if rd != 0 {
            self.registers[rd as usize] = value;
        }
    }

    /// Moves the pc on.
    #[inline(always)]
    pub(crate) fn proceed(&mut self) -> Step
        ensures { ChangesHart self.old self.new result next }
    {
        self.pc = self.pc.wrapping_add(4);
        Step::Next
    }

    /// Puts a value into a register and moves the pc on.
    #[inline(always)]
    pub(crate) fn put(&mut self, rd: u8, value: u64) -> Step
        requires { rd < 32 }
        ensures { ChangesHart self.old self.new result (with_rd rd value) }
    {
        self.set(rd, value);
        self.proceed()
    }

    /// Puts the next instruction's address into a register and moves the pc to the target.
    #[inline(always)]
    pub(crate) fn jump(&mut self, rd: u8, target: Address) -> Step
        requires { rd < 32 }
        ensures { ChangesHart self.old self.new result (jump rd target) }
    {
        if target % 4 != 0 {
            return Step::Fault(TrapCause::Misaligned);
        }
        self.set(rd, self.pc.wrapping_add(4));
        self.pc = target;
        Step::Next
    }
}

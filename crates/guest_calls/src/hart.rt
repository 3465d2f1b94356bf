//! Harts: registers, and whether they run, wait, sleep or have gone.
ghost use Rattle.std.specs.Prelude.{◌≡◌, set, replicate};
ghost use Rattle.guest_calls.specs.declared.hart.HartStatus.TheVariants.{Waiting, Sleeping, Gone};
ghost use Rattle.guest_calls.specs.Answering.{after_call, with_result};
ghost use Rattle.guest_calls.specs.Guest.{hart_from, is_gone_status, is_running_status, is_sleeping_status};

use crate::linux::{A0, SP};
use coz_types::Address;
use rv_execute::HartState;

/// The status of a hart.
#[derive(Clone, Copy, PartialEq, Eq)]
pub enum HartStatus {
    /// The hart has a next instruction.
    Running,
    /// Until another hart wakes it.
    Waiting,
    /// Until a net moment, when it is woken.
    Sleeping,
    /// The hart has exited, and never runs again.
    Gone,
}

/// A hart that was made.
#[derive(Clone, Copy)]
pub struct Hart {
    /// The registers and the pc.
    pub state: HartState,
    /// Whether the hart runs, sleeps, waits or has exited.
    pub status: HartStatus,
    /// The address that is cleared as it leaves, or 0.
    pub clear: Address,
}

impl Hart {
    /// A program's first hart.
    pub fn first(stack_pointer: Address, entry: Address) -> Hart
        ensures { result ≡ hart_from
            (record { registers = set (replicate 32 0) 2 stack_pointer; pc = entry }) 0 }
    {
        let mut registers = [0; 32];
        registers[SP] = stack_pointer;
        Hart {
            state: HartState {
                registers,
                pc: entry,
            },
            status: HartStatus::Running,
            clear: 0,
        }
    }

    /// Whether it has left.
    pub fn is_gone(&self) -> bool
        ensures { result ≡ is_gone_status self.now.status }
    {
        matches!(self.status, HartStatus::Gone)
    }

    /// Whether it runs.
    #[inline]
    pub fn is_running(&self) -> bool
        ensures { result ≡ is_running_status self.now.status }
    {
        matches!(self.status, HartStatus::Running)
    }

    /// Whether it sleeps.
    #[inline]
    pub fn is_sleeping(&self) -> bool
        ensures { result ≡ is_sleeping_status self.now.status }
    {
        matches!(self.status, HartStatus::Sleeping)
    }

    /// Moves the pc to the instruction after the call.
    pub fn proceed(&mut self)
        ensures { self.new ≡ record self.old { state = after_call self.old.state } }
    {
        self.state.pc = self.state.pc.wrapping_add(4);
    }

    /// Gives the call's result to the hart, which goes on after the call.
    pub fn answer(&mut self, value: u64)
        ensures { self.new ≡ record self.old { state = with_result value self.old.state } }
    {
        self.proceed();
        self.state.registers[A0] = value;
    }

    /// The hart waits after the call, whose result is 0.
    pub fn wait(&mut self)
        ensures { self.new
            ≡ record self.old { state = with_result 0 self.old.state; status = Waiting } }
    {
        self.answer(0);
        self.status = HartStatus::Waiting;
    }

    /// The hart sleeps after the call, whose result is 0.
    pub fn sleep(&mut self)
        ensures { self.new
            ≡ record self.old { state = with_result 0 self.old.state; status = Sleeping } }
    {
        self.answer(0);
        self.status = HartStatus::Sleeping;
    }

    /// The hart leaves after the call.
    pub fn leave(&mut self)
        ensures { self.new ≡ record self.old { state = after_call self.old.state; status = Gone } }
    {
        self.proceed();
        self.status = HartStatus::Gone;
    }
}

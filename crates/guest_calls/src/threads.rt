//! The calls of threads: they are made, wait and are woken, and leave (Linux on riscv64).
ghost use Rattle.std.specs.Prelude.{◌≡◌, ◌≤◌, ◌<◌, ◌%◌, ◌^◌, ◌++◌, [], ◌∷◌, length, map, EachIndex, slice_index, if◌then◌else◌, IsTrue};
ghost use Rattle.rv_decode.specs.Fields.{signed_bits};
ghost use Rattle.guest_areas.specs.Space.{has_power};
ghost use Rattle.guest_futex.specs.Waiters.{woken_harts};
ghost use Rattle.machines.specs.declared.Fate.TheVariants.{Waits};
ghost use Rattle.guest_calls.specs.Guest.{IsMade, is_running, is_over, with_running_each};
ghost use Rattle.guest_calls.specs.Calls as calls;
ghost use Rattle.guest_calls.specs.Calls.{retirement, with_word, with_woken};

use crate::calls::thread_id;
use crate::hart::Hart;
use crate::linux::{
    CLONE_CHILD_CLEARTID, CLONE_CHILD_SETTID, CLONE_DETACHED, CLONE_FILES, CLONE_FS,
    CLONE_PARENT_SETTID, CLONE_SETTLS, CLONE_SIGHAND, CLONE_SYSVSEM, CLONE_THREAD, CLONE_VM,
    CSIGNAL, EAGAIN, EFAULT, EINVAL, FUTEX_WAIT, FUTEX_WAIT_PRIVATE, FUTEX_WAKE,
    FUTEX_WAKE_PRIVATE, SP, TP,
};
use crate::{Fate, Guest, HartStatus};
use coz_types::{Address, Ending, HARTS, HartId};
use guest_futex::HartList;

/// A thread shares its memory, files and handlers with its parent.
const REQUIRED_FLAGS: u64 = CLONE_VM + CLONE_FS + CLONE_FILES + CLONE_SIGHAND + CLONE_THREAD;

/// A signal, CLONE_SYSVSEM and CLONE_DETACHED change nothing.
const ACCEPTED_FLAGS: u64 = CSIGNAL
    + REQUIRED_FLAGS
    + CLONE_SYSVSEM
    + CLONE_DETACHED
    + CLONE_SETTLS
    + CLONE_PARENT_SETTID
    + CLONE_CHILD_CLEARTID
    + CLONE_CHILD_SETTID;

fn is_accepted(flags: u64) -> bool
    ensures { result ≡ calls.is_accepted flags }
{
    flags & REQUIRED_FLAGS == REQUIRED_FLAGS && flags | ACCEPTED_FLAGS == ACCEPTED_FLAGS
}

fn has(flags: u64, flag: u64) -> bool
    requires { 1 ≤ flag }
    ensures { result ≡ has_power flags flag }
{
    flags / flag % 2 == 1
}

/// The number of harts that a wake takes at most: a signed number of 32 bits, if it is above 1.
fn wake_count(value: u64) -> u32
    ensures { result ≡ calls.wake_count (signed_bits 32 (value % 2 ^ 32)) }
{
    let count = (value % 0x100000000) as u32;
    if count < 0x80000000 { count.max(1) } else { 1 }
}

/// Sets these harts, of those that were made, running.
pub(crate) fn run_each(harts: &mut [Hart], woken: &[HartId])
    requires { EachIndex (map (λ hart. hart.0) woken.now) (λ k.
        slice_index (map (λ hart. hart.0) woken.now) k < length harts.old) }
    ensures { harts.new ≡ with_running_each (map (λ hart. hart.0) woken.now) harts.old }
{
    for hart in woken {
        harts[hart.0 as usize].status = HartStatus::Running;
    }
}

impl<'a> Guest<'a> {
    /// Linux: exit(2), of one thread.
    #[tactic(auto, unfolding(crate::specs::Calls::exit))]
    pub(crate) fn exit(&mut self, hart: HartId, started: &mut HartList) -> Fate
        requires running { IsTrue (is_running self.old hart.0) }
        requires started { started.old ≡ [] }
        ensures { retirement self.new result started.new ≡ calls.exit self.old hart.0 }
    {
        self.clear(hart, started);
        self.leave(hart)
    }

    /// Stores 0 at the hart's clear address and wakes the oldest hart that waits for it;
    /// if it has none, or it may not be written, nothing is done.
    fn clear(&mut self, hart: HartId, started: &mut HartList)
        requires made { IsMade self.old hart.0 }
        requires started { started.old ≡ [] }
        ensures woken { started.new ≡ (if calls.is_cleared self.old hart.0
            then calls.woken_at_exit self.old hart.0 else []) }
        ensures cleared { self.new ≡ (if calls.is_cleared self.old hart.0
            then calls.cleared self.old hart.0 else self.old) }
    {
        let address = self.hart(hart).clear;
        if address == 0 {
            return;
        }
        match self.store(address, &[0; 4]) {
            Ok(()) => self.rouse(address, 1, started),
            Err(_) => {}
        }
    }

    /// The hart leaves; if it is the last, the run ends.
    fn leave(&mut self, hart: HartId) -> Fate
        requires { IsTrue (is_running self.old hart.0) }
        ensures { retirement self.new result [] ≡ calls.leave hart.0 [] self.old }
    {
        let code = self.code(hart);
        self.remove(hart);
        if self.is_over() {
            Fate::Ends(Ending::Exited(code))
        } else {
            Fate::Leaves
        }
    }

    fn remove(&mut self, hart: HartId)
        requires { IsTrue (is_running self.old hart.0) }
        ensures { self.new ≡ calls.left_by hart.0 self.old }
    {
        self.harts[hart.0 as usize].leave();
    }

    fn is_over(&self) -> bool
        ensures { result ≡ is_over self.now }
    {
        self.harts.iter().all(|hart| hart.is_gone())
    }

    /// Linux: set_tid_address(2).
    #[tactic(auto, unfolding(crate::specs::Calls::set_tid_address))]
    pub(crate) fn set_tid_address(&mut self, hart: HartId) -> Fate
        requires { IsMade self.old hart.0 }
        ensures { retirement self.new result [] ≡ calls.set_tid_address self.old hart.0 }
    {
        let address = self.argument(hart, 0);
        self.harts[hart.0 as usize].clear = address;
        self.answer_count(hart, thread_id(hart))
    }

    /// Linux: futex(2), to wait and to wake.
    #[tactic(auto, unfolding(crate::specs::Calls::futex))]
    pub(crate) fn futex(&mut self, hart: HartId, started: &mut HartList) -> Fate
        requires running { IsTrue (is_running self.old hart.0) }
        requires started { started.old ≡ [] }
        ensures { retirement self.new result started.new ≡ calls.futex self.old hart.0 }
    {
        match self.argument(hart, 1) {
            FUTEX_WAIT | FUTEX_WAIT_PRIVATE => self.wait(hart),
            FUTEX_WAKE | FUTEX_WAKE_PRIVATE => self.wake_waiters(hart, started),
            _ => self.unsupported(hart),
        }
    }

    /// Linux: futex(2), FUTEX_WAIT without a timeout.
    #[tactic(auto, unfolding(crate::specs::Calls::wait))]
    fn wait(&mut self, hart: HartId) -> Fate
        requires { IsTrue (is_running self.old hart.0) }
        ensures { retirement self.new result [] ≡ calls.wait self.old hart.0 }
    {
        let address = self.argument(hart, 0);
        let expected = self.argument(hart, 2) % 0x100000000;
        if self.argument(hart, 3) != 0 {
            return self.unsupported(hart);
        }
        if address % 4 != 0 {
            return self.answer(hart, -EINVAL);
        }
        match self.memory.load(address, 4) {
            Err(_) => self.answer(hart, -EFAULT),
            Ok(word) if word != expected => self.answer(hart, -EAGAIN),
            Ok(_) => self.suspend(hart, address),
        }
    }

    /// The hart waits for an address from now on.
    fn suspend(&mut self, hart: HartId, address: Address) -> Fate
        requires { IsTrue (is_running self.old hart.0) }
        ensures { retirement self.new result []
            ≡ retirement (calls.waiting_for self.old hart.0 address) Waits [] }
    {
        self.queue.wait(address, hart);
        self.harts[hart.0 as usize].wait();
        Fate::Waits
    }

    /// Linux: futex(2), FUTEX_WAKE.
    #[tactic(auto, unfolding(crate::specs::Calls::wake))]
    fn wake_waiters(&mut self, hart: HartId, started: &mut HartList) -> Fate
        requires running { IsTrue (is_running self.old hart.0) }
        requires started { started.old ≡ [] }
        ensures { retirement self.new result started.new ≡ calls.wake self.old hart.0 }
    {
        let address = self.argument(hart, 0);
        let count = wake_count(self.argument(hart, 2));
        if address % 4 != 0 {
            return self.answer(hart, -EINVAL);
        }
        self.rouse(address, count, started);
        self.answer_count(hart, started.harts().len() as u64)
    }

    /// The oldest harts that wait for an address run, at most `count`; `started`
    /// gets them in order.
    fn rouse(&mut self, address: Address, count: u32, started: &mut HartList)
        requires { started.old ≡ [] }
        ensures woken { started.new ≡ woken_harts address self.old.waiters count }
        ensures running { self.new ≡ with_woken address count self.old }
    {
        self.queue.wake(address, count, started);
        run_each(&mut self.harts, started.harts());
    }

    /// Linux: clone(2), of a thread of the program.
    #[tactic(auto, unfolding(crate::specs::Calls::clone))]
    pub(crate) fn clone(&mut self, hart: HartId, started: &mut HartList) -> Fate
        requires running { IsTrue (is_running self.old hart.0) }
        requires started { started.old ≡ [] }
        ensures { retirement self.new result started.new ≡ calls.clone self.old hart.0 }
    {
        if !is_accepted(self.argument(hart, 0)) {
            return self.unsupported(hart);
        }
        if self.harts.len() >= HARTS {
            return self.answer(hart, -EAGAIN);
        }
        let child = HartId(self.harts.len() as u16);
        self.make_child(hart, child);
        started.push(child);
        self.answer_count(hart, thread_id(child))
    }

    /// Makes the next hart, the child of this one, and stores its thread id if
    /// the flags ask for it.
    fn make_child(&mut self, hart: HartId, child: HartId)
        requires made { IsMade self.old hart.0 }
        requires few { length self.old.harts < HARTS }
        requires next { child.0 ≡ length self.old.harts }
        ensures { self.new ≡ calls.cloned self.old hart.0 }
    {
        let flags = self.argument(hart, 0);
        let parent_tid = self.argument(hart, 2);
        let child_tid = self.argument(hart, 4);
        let thread = child.0 as u32 + 1;
        let made = self.child_of(hart);
        self.add(made);
        if has(flags, CLONE_PARENT_SETTID) {
            self.store_word(parent_tid, thread);
        }
        if has(flags, CLONE_CHILD_SETTID) {
            self.store_word(child_tid, thread);
        }
    }

    /// A hart's child as it begins.
    fn child_of(&self, hart: HartId) -> Hart
        requires { IsMade self.now hart.0 }
        ensures { result ≡ calls.child_hart self.now hart.0 }
    {
        let flags = self.argument(hart, 0);
        let mut child = *self.hart(hart);
        child.status = HartStatus::Running;
        child.answer(0);
        if self.argument(hart, 1) != 0 {
            child.state.registers[SP] = self.argument(hart, 1);
        }
        if has(flags, CLONE_SETTLS) {
            child.state.registers[TP] = self.argument(hart, 3);
        }
        child.clear = if has(flags, CLONE_CHILD_CLEARTID) {
            self.argument(hart, 4)
        } else {
            0
        };
        child
    }

    fn add(&mut self, hart: Hart)
        requires { length self.old.harts < HARTS }
        ensures { self.new ≡ record self.old { harts = self.old.harts ++ hart ∷ [] } }
    {
        let Ok(()) = self.harts.push(hart) else {
            unreachable!()
        };
    }

    /// Stores a word, if its 4 bytes may be written.
    fn store_word(&mut self, address: Address, word: u32)
        ensures { self.new ≡ with_word address word self.old }
    {
        let _ = self.store(address, &word.to_le_bytes());
    }
}

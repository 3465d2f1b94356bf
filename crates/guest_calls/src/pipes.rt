//! The calls of pipes: they are made, read, written and closed (Linux on riscv64).
ghost use Rattle.std.specs.Prelude.{◌≡◌, ◌≢◌, ◌≤◌, ◌++◌, [], length, take, false, Some, None, IsTrue, MatchResult, OnOk, OnErr, pos};
ghost use Rattle.guest_memory.specs.Memory.{is_readable, is_writable, bytes_at};
ghost use Rattle.machines.specs.declared.Fate.TheVariants.{Waits};
ghost use Rattle.guest_pipes.specs.declared.TheConstants.{PIPE_BYTES};
ghost use Rattle.guest_pipes.specs.declared.ends.PipeEnd.TheVariants.{Reading, Writing};
ghost use Rattle.guest_pipes.specs.Pipes.{kind_at, held, room, can_make, made, made_numbers, woken_for, taken, put, closed};
ghost use Rattle.guest_calls.specs.Guest.{IsMade, is_running, memory_of, with_stored};
ghost use Rattle.guest_calls.specs.Calls as calls;
ghost use Rattle.guest_calls.specs.Calls.{retirement, number_bytes, with_pipes};

use crate::linux::{EBADF, EFAULT, EMFILE, EPIPE, O_CLOEXEC};
use crate::threads::run_each;
use crate::{Fate, Guest, HartStatus};
use coz_types::{Address, HartId};
use guest_futex::HartList;
use guest_memory::Access;
use guest_pipes::Ready;

fn is_pipe_flags(flags: u64) -> bool
    ensures { result ≡ calls.is_pipe_flags flags }
{
    flags == 0 || flags == O_CLOEXEC
}

/// The numbers of a pipe's ends as they are stored.
fn number_bytes(reading: u32, writing: u32) -> [u8; 8]
    ensures { result ≡ number_bytes (reading, writing) }
{
    let [a, b, c, d] = reading.to_le_bytes();
    let [e, f, g, h] = writing.to_le_bytes();
    [a, b, c, d, e, f, g, h]
}

impl<'a> Guest<'a> {
    /// Whether a file number is an end of a pipe.
    pub(crate) fn is_end(&self, file: u64) -> bool
        ensures { result ≡ calls.is_end file self.now }
    {
        self.pipes.end(file).is_some()
    }

    /// The first argument, which is an end.
    fn end_number(&self, hart: HartId) -> u32
        requires made { IsMade self.now hart.0 }
        requires open { IsTrue (calls.is_end (calls.a0 self.now hart.0) self.now) }
        ensures { result ≡ calls.a0 self.now hart.0 }
    {
        let file = self.argument(hart, 0);
        match self.pipes.end(file) {
            Some(_) => file as u32,
            None => unreachable!(),
        }
    }

    /// Linux: read(2) of a pipe.
    #[tactic(auto, unfolding(crate::specs::Calls::read_pipe))]
    pub(crate) fn read_pipe(&mut self, hart: HartId, started: &mut HartList) -> Fate
        requires running { IsTrue (is_running self.old hart.0) }
        requires started { started.old ≡ [] }
        requires reads { kind_at (calls.a0 self.old hart.0) self.old.pipes ≡ Some Reading }
        ensures { retirement self.new result started.new ≡ calls.read_pipe self.old hart.0 }
    {
        let count = self.argument(hart, 2);
        if count == 0 {
            return self.answer(hart, 0);
        }
        let number = self.end_number(hart);
        match self.pipes.ready(number, count) {
            Ready::Now(ready) => self.read_now(hart, ready, started),
            Ready::Closed => self.answer(hart, 0),
            Ready::Wait => self.wait_for_pipe(hart),
        }
    }

    /// Reads `count` bytes, which the pipe has.
    #[tactic(auto, unfolding(crate::specs::Calls::read_now))]
    fn read_now(&mut self, hart: HartId, count: u32, started: &mut HartList) -> Fate
        requires running { IsTrue (is_running self.old hart.0) }
        requires started { started.old ≡ [] }
        requires reads { kind_at (calls.a0 self.old hart.0) self.old.pipes ≡ Some Reading }
        requires few { count ≤ length (held (calls.a0 self.old hart.0) self.old.pipes) }
        requires most { count ≤ PIPE_BYTES }
        ensures { retirement self.new result started.new ≡ calls.read_now self.old hart.0 count }
    {
        let number = self.end_number(hart);
        let address = self.argument(hart, 1);
        match self.read_bytes(number, count, address, started) {
            Ok(()) => self.answer_count(hart, u64::from(count)),
            Err(_) => self.answer(hart, -EFAULT),
        }
    }

    /// Stores bytes of a pipe, takes them from it, and wakes those that wait for its room. Err if
    /// some byte may not be written; then nothing is done.
    fn read_bytes(
        &mut self,
        number: u32,
        count: u32,
        address: Address,
        started: &mut HartList,
    ) -> Result<(), Access>
        requires started { started.old ≡ [] }
        requires reads { kind_at number self.old.pipes ≡ Some Reading }
        requires few { count ≤ length (held number self.old.pipes) }
        requires most { count ≤ PIPE_BYTES }
        ensures woken { OnOk result (started.new ≡ woken_for Writing number self.old.pipes) }
        ensures taken { MatchResult result
            (λ _. IsTrue (is_writable (memory_of self.old) address count)
            × (self.new ≡ with_pipes (taken number count self.old.pipes)
            (woken_for Writing number self.old.pipes)
            (with_stored address (take count (held number self.old.pipes)) self.old)))
            (λ _. (is_writable (memory_of self.old) address count ≡ false)
            × (self.new ≡ self.old)) }
        ensures nobody { OnErr result (started.new ≡ []) }
    {
        self.store_bytes(number, count, address)?;
        self.take_bytes(number, count, started);
        Ok(())
    }

    /// Stores the first bytes of a pipe, which keeps them. Err if some byte may not be written;
    /// then nothing is stored.
    fn store_bytes(&mut self, number: u32, count: u32, address: Address) -> Result<(), Access>
        requires reads { kind_at number self.old.pipes ≡ Some Reading }
        requires few { count ≤ length (held number self.old.pipes) }
        requires most { count ≤ PIPE_BYTES }
        ensures { MatchResult result
            (λ _. IsTrue (is_writable (memory_of self.old) address count)
            × (self.new ≡ with_stored address (take count (held number self.old.pipes)) self.old))
            (λ _. (is_writable (memory_of self.old) address count ≡ false)
            × (self.new ≡ self.old)) }
    {
        self.transfer_buffer
            .deliver(&self.pipes, number, count, &mut self.memory, address)?;
        self.reservations.end_at(address, u64::from(count));
        Ok(())
    }

    /// Takes bytes from a pipe, and wakes those that wait for its room.
    fn take_bytes(&mut self, number: u32, count: u32, started: &mut HartList)
        requires started { started.old ≡ [] }
        requires reads { kind_at number self.old.pipes ≡ Some Reading }
        requires few { count ≤ length (held number self.old.pipes) }
        ensures woken { started.new ≡ woken_for Writing number self.old.pipes }
        ensures taken { self.new ≡ with_pipes (taken number count self.old.pipes)
            (woken_for Writing number self.old.pipes) self.old }
    {
        self.pipes.take(number, count, started);
        run_each(&mut self.harts, started.harts());
    }

    /// Linux: write(2) to a pipe. No signal is sent.
    #[tactic(auto, unfolding(crate::specs::Calls::write_pipe))]
    pub(crate) fn write_pipe(&mut self, hart: HartId, started: &mut HartList) -> Fate
        requires running { IsTrue (is_running self.old hart.0) }
        requires started { started.old ≡ [] }
        requires writes { kind_at (calls.a0 self.old hart.0) self.old.pipes ≡ Some Writing }
        ensures { retirement self.new result started.new ≡ calls.write_pipe self.old hart.0 }
    {
        let address = self.argument(hart, 1);
        let count = self.argument(hart, 2);
        if count == 0 {
            return self.answer(hart, 0);
        }
        let number = self.end_number(hart);
        match self.pipes.ready(number, count) {
            Ready::Now(room) => {
                if !self.memory.readable(address, count) {
                    return self.answer(hart, -EFAULT);
                }
                self.write_now(hart, room, started)
            }
            Ready::Closed => self.answer(hart, -EPIPE),
            Ready::Wait => {
                if !self.memory.readable(address, count) {
                    return self.answer(hart, -EFAULT);
                }
                self.wait_for_pipe(hart)
            }
        }
    }

    /// Writes `count` bytes, for which the pipe has room.
    #[tactic(auto, unfolding(crate::specs::Calls::write_now))]
    fn write_now(&mut self, hart: HartId, count: u32, started: &mut HartList) -> Fate
        requires running { IsTrue (is_running self.old hart.0) }
        requires started { started.old ≡ [] }
        requires writes { kind_at (calls.a0 self.old hart.0) self.old.pipes ≡ Some Writing }
        requires few { count ≤ room (calls.a0 self.old hart.0) self.old.pipes }
        requires readable { IsTrue (is_readable (memory_of self.old) (calls.a1 self.old hart.0)
            count) }
        ensures { retirement self.new result started.new ≡ calls.write_now self.old hart.0 count }
    {
        let number = self.end_number(hart);
        let address = self.argument(hart, 1);
        self.put_bytes(number, count, address, started);
        self.answer_count(hart, u64::from(count))
    }

    /// Puts bytes that may be read into a pipe, and wakes those that wait for its bytes.
    fn put_bytes(&mut self, number: u32, count: u32, address: Address, started: &mut HartList)
        requires started { started.old ≡ [] }
        requires writes { kind_at number self.old.pipes ≡ Some Writing }
        requires few { count ≤ room number self.old.pipes }
        requires readable { IsTrue (is_readable (memory_of self.old) address count) }
        ensures woken { started.new ≡ woken_for Reading number self.old.pipes }
        ensures put { self.new
            ≡ with_pipes (put number (bytes_at (memory_of self.old) address count) self.old.pipes)
            (woken_for Reading number self.old.pipes) self.old }
    {
        self.transfer_buffer.send(
            &self.memory,
            address,
            count,
            &mut self.pipes,
            number,
            started,
        );
        run_each(&mut self.harts, started.harts());
    }

    /// The hart waits at an end from now on, and starts its call again once it is woken.
    fn wait_for_pipe(&mut self, hart: HartId) -> Fate
        requires running { IsTrue (is_running self.old hart.0) }
        requires open { IsTrue (calls.is_end (calls.a0 self.old hart.0) self.old) }
        ensures { retirement self.new result []
            ≡ retirement (calls.waiting_for_pipe self.old hart.0) Waits [] }
    {
        let number = self.end_number(hart);
        self.pipes.wait(number, hart);
        self.harts[hart.0 as usize].status = HartStatus::Waiting;
        Fate::Waits
    }

    /// Linux: close(2), of an end of a pipe.
    #[tactic(auto, unfolding(crate::specs::Calls::close))]
    pub(crate) fn close(&mut self, hart: HartId, started: &mut HartList) -> Fate
        requires running { IsTrue (is_running self.old hart.0) }
        requires started { started.old ≡ [] }
        ensures { retirement self.new result started.new ≡ calls.close self.old hart.0 }
    {
        let file = self.argument(hart, 0);
        if crate::calls::is_stream(file) {
            return self.unsupported(hart);
        }
        if !self.is_end(file) {
            return self.answer(hart, -EBADF);
        }
        let number = self.end_number(hart);
        self.close_end(number, started);
        self.answer(hart, 0)
    }

    /// Closes an end, and wakes all that wait for its pipe.
    fn close_end(&mut self, number: u32, started: &mut HartList)
        requires started { started.old ≡ [] }
        requires open { IsTrue (calls.is_end number self.old) }
        ensures woken { started.new ≡ woken_for Reading number self.old.pipes
            ++ woken_for Writing number self.old.pipes }
        ensures closed { self.new ≡ with_pipes (closed number self.old.pipes)
            (woken_for Reading number self.old.pipes ++ woken_for Writing number self.old.pipes)
            self.old }
    {
        self.pipes.close(number, started);
        run_each(&mut self.harts, started.harts());
    }

    /// Linux: pipe2(2), with the flag O_CLOEXEC or none.
    #[tactic(auto, unfolding(crate::specs::Calls::pipe2))]
    pub(crate) fn pipe2(&mut self, hart: HartId) -> Fate
        requires { IsMade self.old hart.0 }
        ensures { retirement self.new result [] ≡ calls.pipe2 self.old hart.0 }
    {
        let address = self.argument(hart, 0);
        let flags = self.argument(hart, 1);
        if !is_pipe_flags(flags) {
            return self.unsupported(hart);
        }
        if !self.memory.writable(address, 8) {
            return self.answer(hart, -EFAULT);
        }
        if !self.pipes.can_make() {
            return self.answer(hart, -EMFILE);
        }
        self.open_pipe(address);
        self.answer(hart, 0)
    }

    /// Makes a pipe, and stores the numbers of its ends.
    fn open_pipe(&mut self, address: Address)
        requires can { IsTrue (can_make self.old.pipes) }
        requires writable { IsTrue (is_writable (memory_of self.old) address 8) }
        ensures { self.new ≡ with_stored address (number_bytes (made_numbers self.old.pipes))
            (record self.old { pipes = made self.old.pipes }) }
    {
        let Some((reading, writing)) = self.pipes.make_pipe() else {
            unreachable!()
        };
        let Ok(()) = self.store(address, &number_bytes(reading, writing)) else {
            unreachable!()
        };
    }
}

//! The system calls, one function each.
ghost use Rattle.std.specs.Prelude.{◌≡◌, ◌≤◌, ◌<◌, ◌%◌, ◌&&◌, if◌then◌else◌, [], length, Some, false, IsTrue, MatchResult, pos};
ghost use Rattle.rv_decode.specs.declared.Instr.TheVariants.{Ecall};
ghost use Rattle.guest_memory.specs.Memory.{is_writable};
ghost use Rattle.guest_areas.specs.Answers.{bad_address, invalid_argument};
ghost use Rattle.guest_calls.specs.Guest.{IsMade, is_running, is_over, making, thread_id, memory_of, with_stored};
ghost use Rattle.guest_calls.specs.Calls as calls;
ghost use Rattle.guest_calls.specs.Calls.{retirement, number, argument, a1, a2, are_few, is_named, with_reply, with_answer, with_filled, call_of};
ghost use Rattle.guest_calls.specs.Retire.{next_of};

use crate::linux::{
    A0, A7, EBADF, EFAULT, EINVAL, ENOMEM, ENOTTY, ESPIPE, MAP_ANONYMOUS, MAP_FIXED, MAP_PRIVATE,
    MAP_SHARED, SYS_BRK, SYS_CLOCK_GETTIME, SYS_CLONE, SYS_CLOSE, SYS_EXIT, SYS_EXIT_GROUP,
    SYS_FUTEX, SYS_GETPID, SYS_GETTID, SYS_IOCTL, SYS_LSEEK, SYS_MADVISE, SYS_MMAP, SYS_MPROTECT,
    SYS_MREMAP, SYS_MUNMAP, SYS_NANOSLEEP, SYS_PIPE2, SYS_READ, SYS_READV, SYS_RT_SIGPROCMASK,
    SYS_SCHED_YIELD, SYS_SET_TID_ADDRESS, SYS_WRITE, SYS_WRITEV,
};
use crate::pieces::{PIECES, Piece, are_readable, are_writable, pieces_at};
use crate::{Fate, Guest};
use arrayvec::ArrayVec;
use coz_types::{Address, Ending, HartId, Tick};
use guest_futex::HartList;
use guest_memory::Access;
use guest_pipes::PipeEnd;

pub(crate) fn is_stream(file: u64) -> bool
    ensures { result ≡ calls.is_stream file }
{
    file < 3
}

fn is_input(file: u64) -> bool
    ensures { result ≡ calls.is_input file }
{
    file == 0
}

fn is_output(file: u64) -> bool
    ensures { result ≡ calls.is_output file }
{
    file == 1 || file == 2
}

/// Whether a mapping with these flags is anonymous, at no fixed address,
/// and either shared or private.
fn is_mapping(flags: u64) -> bool
    ensures { result ≡ calls.is_mapping flags }
{
    let kind = flags % 4;
    flags / MAP_ANONYMOUS % 2 == 1
        && flags / MAP_FIXED % 2 != 1
        && (kind == MAP_SHARED || kind == MAP_PRIVATE)
}

impl<'a> Guest<'a> {
    /// Retires the `ecall` at the pc of a running hart, at a net time.
    #[inline(never)]
    pub fn call(&mut self, hart: HartId, net: Tick, started: &mut HartList) -> Fate
        requires running { IsTrue (is_running self.old hart.0) }
        requires started { started.old ≡ [] }
        requires call { next_of self.old hart.0 ≡ Some Ecall }
        ensures effect { retirement self.new result started.new ≡ call_of self.old hart.0 net }
        ensures made { making self.new ≡ making self.old }
    {
        // The invariant of `self` is known to a proof once a field is used.
        let _ = &self.harts;
        self.call_by_number(hart, net, started)
    }

    #[inline(always)]
    fn call_by_number(&mut self, hart: HartId, net: Tick, started: &mut HartList) -> Fate
        requires running { IsTrue (is_running self.old hart.0) }
        requires started { started.old ≡ [] }
        ensures { retirement self.new result started.new ≡ call_of self.old hart.0 net }
    {
        match self.number(hart) {
            SYS_IOCTL => self.ioctl(hart),
            SYS_CLOSE => self.close(hart, started),
            SYS_PIPE2 => self.pipe2(hart),
            SYS_LSEEK => self.lseek(hart),
            SYS_READ => self.read(hart, started),
            SYS_WRITE => self.write(hart, started),
            SYS_READV => self.readv(hart),
            SYS_WRITEV => self.writev(hart),
            SYS_EXIT => self.exit(hart, started),
            SYS_EXIT_GROUP => self.exit_group(hart),
            SYS_SET_TID_ADDRESS => self.set_tid_address(hart),
            SYS_FUTEX => self.futex(hart, started),
            SYS_NANOSLEEP => self.nanosleep(hart, net),
            SYS_CLOCK_GETTIME => self.clock_gettime(hart, net),
            SYS_SCHED_YIELD => self.sched_yield(hart),
            SYS_RT_SIGPROCMASK => self.rt_sigprocmask(hart),
            SYS_GETPID => self.getpid(hart),
            SYS_GETTID => self.gettid(hart),
            SYS_BRK => self.brk(hart),
            SYS_MUNMAP => self.munmap(hart),
            SYS_MREMAP => self.mremap(hart),
            SYS_CLONE => self.clone(hart, started),
            SYS_MMAP => self.mmap(hart),
            SYS_MPROTECT => self.mprotect(hart),
            SYS_MADVISE => self.madvise(hart),
            _ => self.unsupported(hart),
        }
    }

    /// The number of the system call that a hart that was made names in a7 (Linux on riscv64),
    /// whether its next instruction is a call or not.
    #[inline]
    pub fn number(&self, hart: HartId) -> u64
        requires { IsMade self.now hart.0 }
        ensures { result ≡ number self.now hart.0 }
    {
        self.hart(hart).state.registers[A7]
    }

    pub(crate) fn argument(&self, hart: HartId, index: usize) -> u64
        requires made { IsMade self.now hart.0 }
        requires index { index < 6 }
        ensures { result ≡ argument self.now hart.0 index }
    {
        self.hart(hart).state.registers[A0 + index]
    }

    /// The hart has these 64 bits as the answer, and goes on.
    fn reply(&mut self, hart: HartId, value: u64) -> Fate
        requires { IsMade self.old hart.0 }
        ensures { retirement self.new result [] ≡ with_reply value hart.0 self.old }
    {
        self.harts[hart.0 as usize].answer(value);
        Fate::Goes
    }

    pub(crate) fn answer(&mut self, hart: HartId, value: i64) -> Fate
        requires { IsMade self.old hart.0 }
        ensures { retirement self.new result [] ≡ with_answer value hart.0 self.old }
    {
        self.reply(hart, value.cast_unsigned())
    }

    pub(crate) fn answer_count(&mut self, hart: HartId, count: u64) -> Fate
        requires { IsMade self.old hart.0 }
        ensures { retirement self.new result [] ≡ with_answer (pos count) hart.0 self.old }
    {
        self.reply(hart, count)
    }

    /// The run ends: the call, or its options, are not supported.
    pub(crate) fn unsupported(&mut self, hart: HartId) -> Fate
        requires { IsMade self.old hart.0 }
        ensures { retirement self.new result [] ≡ calls.unsupported self.old hart.0 }
    {
        Fate::Ends(Ending::Unsupported(self.number(hart)))
    }

    /// Writes bytes to the memory, as a store does. Err if some byte may not be written; then
    /// nothing is.
    pub(crate) fn store(&mut self, address: Address, bytes: &[u8]) -> Result<(), Access>
        ensures { MatchResult result
            (λ _. IsTrue (is_writable (memory_of self.old) address (length bytes.now))
            × (self.new ≡ with_stored address bytes.now self.old))
            (λ _. (is_writable (memory_of self.old) address (length bytes.now) ≡ false)
            × (self.new ≡ self.old)) }
    {
        self.memory.copy_in(address, bytes)?;
        self.reservations.end_at(address, bytes.len() as u64);
        Ok(())
    }

    /// Whether a file number is open.
    fn is_file(&self, file: u64) -> bool
        ensures { result ≡ calls.is_file file self.now }
    {
        is_stream(file) || self.is_end(file)
    }

    /// Linux: ioctl(2).
    #[tactic(auto, unfolding(crate::specs::Calls::ioctl))]
    fn ioctl(&mut self, hart: HartId) -> Fate
        requires { IsMade self.old hart.0 }
        ensures { retirement self.new result [] ≡ calls.ioctl self.old hart.0 }
    {
        if self.is_file(self.argument(hart, 0)) {
            self.answer(hart, -ENOTTY)
        } else {
            self.answer(hart, -EBADF)
        }
    }

    /// Linux: lseek(2).
    #[tactic(auto, unfolding(crate::specs::Calls::lseek))]
    fn lseek(&mut self, hart: HartId) -> Fate
        requires { IsMade self.old hart.0 }
        ensures { retirement self.new result [] ≡ calls.lseek self.old hart.0 }
    {
        if self.is_file(self.argument(hart, 0)) {
            self.answer(hart, -ESPIPE)
        } else {
            self.answer(hart, -EBADF)
        }
    }

    /// Linux: exit_group(2).
    #[tactic(auto, unfolding(crate::specs::Calls::exit_group))]
    fn exit_group(&mut self, hart: HartId) -> Fate
        requires { IsMade self.old hart.0 }
        ensures { retirement self.new result [] ≡ calls.exit_group self.old hart.0 }
    {
        Fate::Ends(Ending::Exited(self.code(hart)))
    }

    /// The low 8 bits of the first argument.
    pub(crate) fn code(&self, hart: HartId) -> u8
        requires { IsMade self.now hart.0 }
        ensures { result ≡ calls.a0 self.now hart.0 % 256 }
    {
        (self.argument(hart, 0) % 256) as u8
    }

    /// Linux: sched_yield(2).
    #[tactic(auto, unfolding(crate::specs::Calls::sched_yield))]
    fn sched_yield(&mut self, hart: HartId) -> Fate
        requires { IsMade self.old hart.0 }
        ensures { retirement self.new result [] ≡ calls.sched_yield self.old hart.0 }
    {
        self.answer(hart, 0)
    }

    /// Linux: getpid(2).
    #[tactic(auto, unfolding(crate::specs::Calls::getpid))]
    fn getpid(&mut self, hart: HartId) -> Fate
        requires { IsMade self.old hart.0 }
        ensures { retirement self.new result [] ≡ calls.getpid self.old hart.0 }
    {
        self.answer(hart, 1)
    }

    /// Linux: gettid(2).
    #[tactic(auto, unfolding(crate::specs::Calls::gettid))]
    fn gettid(&mut self, hart: HartId) -> Fate
        requires { IsMade self.old hart.0 }
        ensures { retirement self.new result [] ≡ calls.gettid self.old hart.0 }
    {
        self.answer_count(hart, thread_id(hart))
    }

    /// Stores the next `count` bytes of the input; does nothing if some byte
    /// may not be written.
    fn fill(&mut self, address: Address, count: u64) -> Result<(), Access>
        requires { count ≤ length self.old.input }
        ensures { MatchResult result
            (λ _. IsTrue (is_writable (memory_of self.old) address count)
            × (self.new ≡ with_filled address count self.old))
            (λ _. (is_writable (memory_of self.old) address count ≡ false)
            × (self.new ≡ self.old)) }
    {
        let input = self.input;
        self.store(address, &input[..count as usize])?;
        self.input = &input[count as usize..];
        Ok(())
    }

    /// Linux: read(2).
    #[tactic(auto, unfolding(crate::specs::Calls::read))]
    fn read(&mut self, hart: HartId, started: &mut HartList) -> Fate
        requires running { IsTrue (is_running self.old hart.0) }
        requires started { started.old ≡ [] }
        ensures { retirement self.new result started.new ≡ calls.read self.old hart.0 }
    {
        let file = self.argument(hart, 0);
        if is_input(file) {
            return self.read_input(hart);
        }
        match self.pipes.end(file) {
            Some(PipeEnd::Reading) => self.read_pipe(hart, started),
            _ => self.answer(hart, -EBADF),
        }
    }

    #[tactic(auto, unfolding(crate::specs::Calls::read_input))]
    fn read_input(&mut self, hart: HartId) -> Fate
        requires { IsMade self.old hart.0 }
        ensures { retirement self.new result [] ≡ calls.read_input self.old hart.0 }
    {
        let address = self.argument(hart, 1);
        let count = self.argument(hart, 2).min(self.input.len() as u64);
        match self.fill(address, count) {
            Ok(()) => self.answer_count(hart, count),
            Err(_) => self.answer(hart, -EFAULT),
        }
    }

    /// Linux: write(2).
    #[tactic(auto, unfolding(crate::specs::Calls::write))]
    fn write(&mut self, hart: HartId, started: &mut HartList) -> Fate
        requires running { IsTrue (is_running self.old hart.0) }
        requires started { started.old ≡ [] }
        ensures { retirement self.new result started.new ≡ calls.write self.old hart.0 }
    {
        let file = self.argument(hart, 0);
        if is_output(file) {
            return self.write_output(hart);
        }
        match self.pipes.end(file) {
            Some(PipeEnd::Writing) => self.write_pipe(hart, started),
            _ => self.answer(hart, -EBADF),
        }
    }

    #[tactic(auto, unfolding(crate::specs::Calls::write_output))]
    fn write_output(&mut self, hart: HartId) -> Fate
        requires { IsMade self.old hart.0 }
        ensures { retirement self.new result [] ≡ calls.write_output self.old hart.0 }
    {
        let address = self.argument(hart, 1);
        let count = self.argument(hart, 2);
        if !self.memory.readable(address, count) {
            return self.answer(hart, -EFAULT);
        }
        self.output.append(&self.memory, address, count);
        self.answer_count(hart, count)
    }

    /// The pieces that a hart's arguments name, or what the call answers if they name none.
    fn named_pieces(&self, hart: HartId) -> Result<ArrayVec<Piece, PIECES>, i64>
        requires { IsMade self.now hart.0 }
        ensures { MatchResult result
            (λ pieces. IsTrue (are_few self.now hart.0) × IsTrue (is_named self.now hart.0)
            × (pieces.items
            ≡ calls.pieces_at (memory_of self.now) (a1 self.now hart.0) (a2 self.now hart.0)))
            (λ fault. ((are_few self.now hart.0 && is_named self.now hart.0) ≡ false)
            × (fault ≡ (if are_few self.now hart.0 then bad_address else invalid_argument))) }
    {
        let address = self.argument(hart, 1);
        let count = self.argument(hart, 2);
        if count > PIECES as u64 {
            return Err(-EINVAL);
        }
        if !self.memory.readable(address, 16 * count) {
            return Err(-EFAULT);
        }
        Ok(pieces_at(&self.memory, address, count))
    }

    /// Linux: readv(2).
    #[inline(never)]
    #[tactic(auto, unfolding(crate::specs::Calls::readv))]
    fn readv(&mut self, hart: HartId) -> Fate
        requires { IsMade self.old hart.0 }
        ensures { retirement self.new result [] ≡ calls.readv self.old hart.0 }
    {
        let file = self.argument(hart, 0);
        if self.is_end(file) {
            return self.unsupported(hart);
        }
        if !is_input(file) {
            return self.answer(hart, -EBADF);
        }
        match self.named_pieces(hart) {
            Ok(pieces) => self.read_pieces(hart, pieces.as_slice()),
            Err(fault) => self.answer(hart, fault),
        }
    }

    #[tactic(auto, unfolding(crate::specs::Calls::read_pieces))]
    fn read_pieces(&mut self, hart: HartId, pieces: &[Piece]) -> Fate
        requires { IsMade self.old hart.0 }
        ensures { retirement self.new result [] ≡ calls.read_pieces self.old hart.0 pieces.now }
    {
        if !are_writable(&self.memory, pieces, self.input.len() as u64) {
            return self.answer(hart, -EFAULT);
        }
        let count = self.fill_each(pieces);
        self.answer_count(hart, count)
    }

    /// Fills pieces that may all be written with the input that is left, in order,
    /// and gives the count of the bytes.
    fn fill_each(&mut self, pieces: &[Piece]) -> u64
        requires { IsTrue (calls.is_each_writable (memory_of self.old)
            (calls.filled_parts pieces.now (length self.old.input))) }
        ensures filled { self.new
            ≡ calls.with_read (calls.filled_parts pieces.now (length self.old.input)) self.old }
        ensures count { result
            ≡ calls.total (calls.filled_parts pieces.now (length self.old.input)) }
    {
        let before = self.input_left();
        for piece in pieces {
            let count = piece.length.min(self.input_left());
            let Ok(()) = self.fill(piece.address, count) else {
                unreachable!()
            };
        }
        before - self.input_left()
    }

    /// The bytes that may still be read.
    fn input_left(&self) -> u64
        ensures { result ≡ length self.now.input }
    {
        self.input.len() as u64
    }

    /// Linux: writev(2).
    #[inline(never)]
    #[tactic(auto, unfolding(crate::specs::Calls::writev))]
    fn writev(&mut self, hart: HartId) -> Fate
        requires { IsMade self.old hart.0 }
        ensures { retirement self.new result [] ≡ calls.writev self.old hart.0 }
    {
        let file = self.argument(hart, 0);
        if self.is_end(file) {
            return self.unsupported(hart);
        }
        if !is_output(file) {
            return self.answer(hart, -EBADF);
        }
        match self.named_pieces(hart) {
            Ok(pieces) => self.write_pieces(hart, pieces.as_slice()),
            Err(fault) => self.answer(hart, fault),
        }
    }

    #[tactic(auto, unfolding(crate::specs::Calls::write_pieces))]
    fn write_pieces(&mut self, hart: HartId, pieces: &[Piece]) -> Fate
        requires { IsMade self.old hart.0 }
        ensures { retirement self.new result [] ≡ calls.write_pieces self.old hart.0 pieces.now }
    {
        if !are_readable(&self.memory, pieces) {
            return self.answer(hart, -EFAULT);
        }
        let total = self.output.append_each(&self.memory, pieces);
        self.reply(hart, total)
    }

    /// Linux: rt_sigprocmask(2). No signal is ever blocked.
    #[tactic(auto, unfolding(crate::specs::Calls::rt_sigprocmask))]
    fn rt_sigprocmask(&mut self, hart: HartId) -> Fate
        requires { IsMade self.old hart.0 }
        ensures { retirement self.new result [] ≡ calls.rt_sigprocmask self.old hart.0 }
    {
        let old = self.argument(hart, 2);
        if self.argument(hart, 3) != 8 {
            return self.answer(hart, -EINVAL);
        }
        if old == 0 {
            return self.answer(hart, 0);
        }
        match self.store(old, &[0; 8]) {
            Ok(()) => self.answer(hart, 0),
            Err(_) => self.answer(hart, -EFAULT),
        }
    }

    /// Linux: brk(2).
    #[tactic(auto, unfolding(crate::specs::Calls::brk))]
    fn brk(&mut self, hart: HartId) -> Fate
        requires { IsMade self.old hart.0 }
        ensures { retirement self.new result [] ≡ calls.brk self.old hart.0 }
    {
        let to = self.argument(hart, 0);
        let end = self.areas.brk(&mut self.memory, to);
        self.answer_count(hart, end)
    }

    /// Linux: munmap(2).
    #[tactic(auto, unfolding(crate::specs::Calls::munmap))]
    fn munmap(&mut self, hart: HartId) -> Fate
        requires { IsMade self.old hart.0 }
        ensures { retirement self.new result [] ≡ calls.munmap self.old hart.0 }
    {
        let address = self.argument(hart, 0);
        let length = self.argument(hart, 1);
        let answer = self.areas.unmap(&mut self.memory, address, length);
        self.answer(hart, answer)
    }

    /// Linux: mmap(2), of anonymous memory at no fixed address.
    #[tactic(auto, unfolding(crate::specs::Calls::mmap))]
    fn mmap(&mut self, hart: HartId) -> Fate
        requires { IsMade self.old hart.0 }
        ensures { retirement self.new result [] ≡ calls.mmap self.old hart.0 }
    {
        let length = self.argument(hart, 1);
        let protection = self.argument(hart, 2);
        if !is_mapping(self.argument(hart, 3)) {
            return self.unsupported(hart);
        }
        let answer = self.areas.map(&mut self.memory, length, protection);
        self.answer(hart, answer)
    }

    /// Linux: mprotect(2).
    #[tactic(auto, unfolding(crate::specs::Calls::mprotect))]
    fn mprotect(&mut self, hart: HartId) -> Fate
        requires { IsMade self.old hart.0 }
        ensures { retirement self.new result [] ≡ calls.mprotect self.old hart.0 }
    {
        let address = self.argument(hart, 0);
        let length = self.argument(hart, 1);
        let protection = self.argument(hart, 2);
        let answer = self
            .areas
            .protect(&mut self.memory, address, length, protection);
        self.answer(hart, answer)
    }

    /// Linux: mremap(2).
    #[tactic(auto, unfolding(crate::specs::Calls::mremap))]
    fn mremap(&mut self, hart: HartId) -> Fate
        requires { IsMade self.old hart.0 }
        ensures { retirement self.new result [] ≡ calls.mremap self.old hart.0 }
    {
        self.answer(hart, -ENOMEM)
    }

    /// Linux: madvise(2).
    #[tactic(auto, unfolding(crate::specs::Calls::madvise))]
    fn madvise(&mut self, hart: HartId) -> Fate
        requires { IsMade self.old hart.0 }
        ensures { retirement self.new result [] ≡ calls.madvise self.old hart.0 }
    {
        self.answer(hart, -EINVAL)
    }
}

/// The id of a hart's thread.
pub(crate) fn thread_id(hart: HartId) -> u64
    ensures { result ≡ thread_id hart.0 }
{
    hart.0 as u64 + 1
}

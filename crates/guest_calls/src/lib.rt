//! A guest: its harts, its memory and its system calls (Linux on riscv64).
#![tactic(auto)]

mod calls;
mod hart;
mod linux;
mod output;
mod pieces;
mod pipes;
mod threads;
mod times;
mod transfer_buffer;

ghost use Rattle.std.specs.Prelude.{◌≡◌, ◌+◌, ◌≤◌, ◌<◌, ◌^◌, ℕ, [], Some, length, IfOk, IfSome, IsTrue};
ghost use Rattle.std.specs.Result.{result_ok};
ghost use Rattle.coz_types.specs.declared.TheConstants.{MAX_OUTPUT};
ghost use Rattle.cost_table.specs.declared.TheConstants.{MAX_CYCLES};
ghost use Rattle.cost_table.specs.Costs.{cycles_of};
ghost use Rattle.guest_memory.specs.Regions.{IsLayout};
ghost use Rattle.rv_decode.specs.declared.Instr.TheVariants.{Ecall};
ghost use Rattle.rv_execute.specs.declared.hart.Step.TheVariants.{Call};
ghost use Rattle.guest_calls.specs.Guest.{IsMade, is_running, is_sleeping, with_wake, making, pc_of, hart_at, first_guest};
ghost use Rattle.guest_calls.specs.Calls.{retirement};
ghost use Rattle.guest_calls.specs.Quiet.{after_steps, moment_after, IsQuietStep, GoesOnAt};
ghost use Rattle.guest_calls.specs.Retire.{word_at, next_of, step_result, step, trap_of, retirement_after, retire};

use crate::hart::Hart;
use crate::output::Output;
use crate::transfer_buffer::TransferBuffer;
use code_words::Marks;
use cost_table::cycles;
use coz_types::{Address, Ending, HARTS, HartId, Image, Tick, Trap, TrapCause};
use guest_areas::Areas;
use guest_futex::{HartList, Queue};
use guest_memory::{Access, Layout, Memory};
use guest_pipes::Pipes;
pub use hart::HartStatus;
use hart_steps::{Advance, Code, instr_at, step_at, step_on};
pub use machines::Fate;
use rv_decode::Instr;
use rv_execute::{Reservations, Step};
use std::alloc::{AllocError, Global};
use std::marker::Model;

/// Retirements of one hart, one after another.
#[derive(Clone, Copy)]
pub struct Stretch {
    /// The number of retirements before the last one.
    pub quiet: u64,
    /// When the last one was, in net ticks.
    pub net: Tick,
    /// What followed the last one.
    pub fate: Fate,
    /// When the hart's next instruction is due, if it went on to it but for the limit: it has no
    /// mark, and may be retired too.
    pub next: Option<Tick>,
}

/// A guest. All its room is taken when it is made.
#[derive(Drop)]
pub struct Guest<'a> {
    harts: Vec<Hart>,
    memory: Memory<'a>,
    areas: Areas,
    reservations: Reservations,
    code: Code<'a>,
    queue: Queue,
    pipes: Pipes,
    transfer_buffer: TransferBuffer,
    /// The input that is left.
    input: &'a [u8],
    whole_input: &'a [u8],
    output: Output,
}

impl<'a> Model for Guest<'a> {
    ghost use Rattle.guest_calls.specs.Guest.{Guest};

    ghost Value = { Guest };

    ghost use Rattle.std.specs.Vec.{vec_capacity};
    ghost use Rattle.guest_calls.specs.Kept.{guest_of, IsKept};

    ghost view = { λ g. guest_of g.harts.items g.areas g.memory g.reservations g.queue g.pipes
        g.input.now g.whole_input.now g.output };

    ghost invariant = { λ g. IsKept g.harts.items (vec_capacity g.harts) g.queue
        g.pipes.waiters (record { regions = g.areas; code = g.code }) g.memory };
}

impl<'a> Guest<'a> {
    /// The guest that begins to run an image, with its first hart at the entry.
    /// The output's limit is from 1 to 67,108,864 bytes.
    pub fn new(
        alloc: Global,
        image: &'a Image<'a>,
        input: &'a [u8],
        output_limit: u64,
        layout: Layout,
    ) -> Result<Guest<'a>, AllocError>
        requires some_output { 1 ≤ output_limit }
        requires output { output_limit ≤ MAX_OUTPUT }
        requires layout { IsLayout layout }
        ensures { IfOk result (λ guest.
            guest ≡ first_guest image.now input.now output_limit layout) }
    {
        let queue = Queue::new(alloc)?;
        let pipes = Pipes::new(alloc)?;
        let transfer_buffer = TransferBuffer::new(alloc)?;
        let mut harts = Vec::with_capacity(alloc, HARTS)?;
        let output = Output::new(alloc, output_limit as usize)?;
        let mut code = Code::new(alloc, image, layout)?;
        // The memory has many parts: little that may fail comes after it.
        let mut memory = Memory::new(alloc, image, layout)?;
        code.decode(&memory);
        let areas = Areas::new(alloc, &mut memory, image)?;
        let Ok(()) = harts.push(Hart::first(areas.stack_pointer(), image.entry())) else {
            unreachable!()
        };
        Ok(Guest {
            harts,
            memory,
            areas,
            reservations: Reservations::new(),
            code,
            queue,
            pipes,
            transfer_buffer,
            input,
            whole_input: input,
            output,
        })
    }

    /// The next instruction of a hart that was made, or none if it can't be fetched
    /// or is not supported.
    #[inline]
    pub fn next(&self, hart: HartId) -> Option<Instr>
        requires { IsMade self.now hart.0 }
        ensures { result ≡ next_of self.now hart.0 }
    {
        instr_at(&self.memory, &self.code, self.pc(hart))
    }

    /// The cycles of the next instruction of a hart that was made; 1 if there is none.
    #[inline(always)]
    pub fn next_cycles(&self, hart: HartId) -> u64
        requires { IsMade self.now hart.0 }
        ensures cycles { result ≡ cycles_of (next_of self.now hart.0) }
        ensures few { result ≤ MAX_CYCLES }
    {
        cycles(self.next(hart))
    }

    /// The address of the next instruction of a hart that was made.
    #[inline]
    pub fn pc(&self, hart: HartId) -> Address
        requires { IsMade self.now hart.0 }
        ensures { result ≡ pc_of self.now hart.0 }
    {
        self.hart(hart).state.pc
    }

    /// The number of harts that were made.
    pub fn harts(&self) -> u32
        ensures { result ≡ length self.now.harts }
    {
        self.harts.len() as u32
    }

    /// The bytes that were written so far.
    pub fn output(&self) -> &[u8]
        ensures bytes { result.now ≡ self.now.output }
        ensures few { length result.now ≤ MAX_OUTPUT }
    {
        self.output.bytes()
    }

    /// Retires the next instruction of a running hart, at a net time. `started` gets the harts
    /// that it makes or wakes, in order.
    #[inline(always)]
    pub fn retire(&mut self, hart: HartId, net: Tick, started: &mut HartList) -> Fate
        requires running { IsTrue (is_running self.old hart.0) }
        requires started { started.old ≡ [] }
        ensures effect { retirement self.new result started.new ≡ retire self.old hart.0 net }
        ensures made { making self.new ≡ making self.old }
    {
        // The invariant of `self` is known to a proof once a field is used.
        let _ = &self.harts;
        let step = self.step(hart);
        self.follow(hart, net, step, started)
    }

    /// Retires instructions of a running hart, the first of them at a net time, and at least one.
    /// It goes on only to an instruction that has no mark and is due before `limit`, and only
    /// while it retired fewer than `most`. What the last one did is what `retire` says of it.
    #[inline(always)]
    pub fn retire_far(
        &mut self,
        hart: HartId,
        net: Tick,
        limit: Tick,
        most: u64,
        marks: &Marks,
        started: &mut HartList,
    ) -> Stretch
        requires running { IsTrue (is_running self.old hart.0) }
        requires started { started.old ≡ [] }
        requires some { 1 ≤ most }
        requires net { net ≤ 2 ^ 62 }
        requires limit { limit ≤ 2 ^ 62 }
        ensures quiet { (i : ℕ) → i < result.quiet →
            IsQuietStep marks.now limit (after_steps i self.old hart.0) hart.0
            (moment_after i self.old hart.0 net) }
        ensures few { result.quiet < most }
        ensures net { result.net ≡ moment_after result.quiet self.old hart.0 net }
        ensures next { IfSome result.next (λ next. (result.quiet + 1 < most)
            × GoesOnAt marks.now (after_steps result.quiet self.old hart.0) hart.0
            result.net next) }
        ensures effect { retirement self.new result.fate started.new
            ≡ retire (after_steps result.quiet self.old hart.0) hart.0 result.net }
        ensures made { making self.new ≡ making self.old }
    {
        // The invariant of `self` is known to a proof once a field is used.
        let _ = &self.harts;
        let done = self.step_on(hart, net, limit, most, marks);
        let fate = self.follow(hart, done.net, done.step, started);
        Stretch {
            quiet: done.quiet,
            net: done.net,
            fate,
            next: done.next,
        }
    }

    /// Makes a sleeping hart running.
    pub fn wake(&mut self, hart: HartId)
        requires { IsTrue (is_sleeping self.old hart.0) }
        ensures { self.new ≡ with_wake hart.0 self.old }
    {
        self.harts[hart.0 as usize].status = HartStatus::Running;
    }

    /// Whether a hart that was made runs.
    #[inline]
    pub fn is_running(&self, hart: HartId) -> bool
        requires { IsMade self.now hart.0 }
        ensures { result ≡ is_running self.now hart.0 }
    {
        self.hart(hart).is_running()
    }

    /// Whether a hart that was made sleeps.
    #[inline]
    pub fn is_sleeping(&self, hart: HartId) -> bool
        requires { IsMade self.now hart.0 }
        ensures { result ≡ is_sleeping self.now hart.0 }
    {
        self.hart(hart).is_sleeping()
    }

    /// Makes this guest equal to another one that was made with the same image, layout, input
    /// and output limit.
    pub fn copy_from(&mut self, other: &Guest<'a>)
        requires { making self.old ≡ making other.now }
        ensures { self.new ≡ other.now }
    {
        self.harts.clear();
        let Ok(()) = self.harts.extend_from_slice(&other.harts) else {
            unreachable!()
        };
        self.memory.copy_from(&other.memory);
        self.areas.copy_from(&other.areas);
        self.reservations.copy_from(&other.reservations);
        self.queue.copy_from(&other.queue);
        self.pipes.copy_from(&other.pipes);
        self.input = other.input;
        self.output.copy_from(&other.output);
    }

    #[inline]
    fn hart(&self, hart: HartId) -> &Hart
        requires { IsMade self.now hart.0 }
        ensures { result.now ≡ hart_at self.now hart.0 }
    {
        &self.harts[hart.0 as usize]
    }

    /// Executes a hart's next instruction.
    #[inline(never)]
    fn step(&mut self, hart: HartId) -> Step
        requires { IsMade self.old hart.0 }
        ensures { step_result self.new result ≡ step self.old hart.0 }
    {
        let state = &mut self.harts[hart.0 as usize].state;
        step_at(
            state,
            hart,
            &mut self.memory,
            &mut self.reservations,
            &self.code,
        )
    }

    /// Executes a hart's next instructions, the first of them at a net time, and at least one. It
    /// goes on as `retire_far` says.
    #[inline(always)]
    fn step_on(&mut self, hart: HartId, net: Tick, limit: Tick, most: u64, marks: &Marks) -> Advance
        requires made { IsMade self.old hart.0 }
        requires some { 1 ≤ most }
        requires net { net ≤ 2 ^ 62 }
        requires limit { limit ≤ 2 ^ 62 }
        ensures quiet { (i : ℕ) → i < result.quiet →
            IsQuietStep marks.now limit (after_steps i self.old hart.0) hart.0
            (moment_after i self.old hart.0 net) }
        ensures few { result.quiet < most }
        ensures net { result.net ≡ moment_after result.quiet self.old hart.0 net }
        ensures next { IfSome result.next (λ next. (result.quiet + 1 < most)
            × GoesOnAt marks.now (after_steps result.quiet self.old hart.0) hart.0
            result.net next) }
        ensures effect { step_result self.new result.step
            ≡ step (after_steps result.quiet self.old hart.0) hart.0 }
    {
        let state = &mut self.harts[hart.0 as usize].state;
        step_on(
            state,
            hart,
            &mut self.memory,
            &mut self.reservations,
            &self.code,
            marks,
            net,
            limit,
            most,
        )
    }

    /// Does what follows a step of a hart, which runs, at a net time.
    #[inline(always)]
    fn follow(&mut self, hart: HartId, net: Tick, step: Step, started: &mut HartList) -> Fate
        requires running { IsTrue (is_running self.old hart.0) }
        requires started { started.old ≡ [] }
        requires call { step ≡ Call → next_of self.old hart.0 ≡ Some Ecall }
        ensures { retirement self.new result started.new
            ≡ retirement_after hart.0 net (step_result self.old step) }
    {
        match step {
            Step::Next => Fate::Goes,
            Step::Call => self.call(hart, net, started),
            Step::Fault(cause) => self.trap(hart, cause),
        }
    }

    fn trap(&self, hart: HartId, cause: TrapCause) -> Fate
        requires { IsMade self.now hart.0 }
        ensures { result ≡ trap_of self.now hart.0 cause }
    {
        Fate::Ends(Ending::Trapped(Trap {
            cause,
            hart,
            pc: self.pc(hart),
        }))
    }
}

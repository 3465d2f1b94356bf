//! Pipes between the threads of a program: their ends, what they hold, and the harts that wait
//! (Linux, pipe(7)).
#![tactic(auto)]

mod ends;
mod holds;
mod waiters;

ghost use Rattle.std.specs.Prelude.{◌≡◌, ◌≢◌, ◌+◌, ◌<◌, ◌≤◌, ◌++◌, length, take, set, All, Some, None, false, IsSome, IfSome, IsTrue, IfOk, MatchOption};
ghost use Rattle.coz_types.specs.declared.TheConstants.{HARTS};
ghost use Rattle.guest_pipes.specs.declared.TheConstants.{FIRST_NUMBER, NUMBERS, PIPES};
ghost use Rattle.guest_pipes.specs.declared.ends.PipeEnd.TheVariants.{Reading, Writing};
ghost use Rattle.guest_pipes.specs.Pipes.{PipeMap, no_pipes, free_slot, with_end, end_at, kind_at, this_end, held, room, can_make, made_numbers, made, readiness, IsFew, woken_for, taken, put, waiting, closed};

use coz_types::{HARTS, HartId};
pub use ends::{End, PipeEnd};
use ends::{free_pipe, free_slot, free_slots, is_open, no_ends};
use guest_futex::HartList;
use holds::{Held, all_empty, copy_each, empty_unused};
use std::alloc::{AllocError, Global};
use std::marker::Model;
pub use waiters::PipeWaiter;
use waiters::{take_both, take_waiters};

/// The lowest number of an end.
pub const FIRST_NUMBER: u32 = 3;

/// The number of file numbers of ends.
pub const NUMBERS: usize = 128;

/// Upper bound of the number of pipes.
pub const PIPES: usize = 64;

/// The most bytes that a pipe holds.
pub const PIPE_BYTES: usize = 65536;

/// A write of no more bytes than these is never cut (POSIX, PIPE_BUF).
pub const ATOMIC_BYTES: usize = 4096;

/// Whether a read or a write of some bytes can be made, must wait, or fails.
#[derive(Clone, Copy, PartialEq, Eq)]
pub enum Ready {
    /// A number of bytes that can be taken or put now.
    Now(u32),
    /// The other end is closed, and nothing can be taken or put any more.
    Closed,
    /// There are no bytes yet, or no room.
    Wait,
}

/// Pipes with their open ends and those that wait. `new` alone can be out of memory.
#[derive(Drop)]
pub struct Pipes {
    ends: [Option<End>; NUMBERS],
    held: Vec<Held>,
    waiters: Vec<PipeWaiter>,
}

impl Model for Pipes {
    ghost use Rattle.guest_pipes.specs.Pipes.{PipeMap};
    ghost use Rattle.std.specs.Vec.{vec_capacity};
    ghost use Rattle.guest_pipes.specs.Kept.{AreKept};

    ghost Value = { PipeMap };

    ghost view = { λ p.
        record { ends = p.ends; bytes = p.held.items; waiters = p.waiters.items } };

    ghost invariant = { λ p. AreKept p.ends p.held.items p.waiters.items (vec_capacity p.waiters) };
}

impl Pipes {
    /// No pipes. Err: out of memory.
    pub fn new(alloc: Global) -> Result<Pipes, AllocError>
        ensures { IfOk result (λ pipes. pipes ≡ no_pipes) }
    {
        let held = all_empty(alloc, PIPES)?;
        let waiters = Vec::with_capacity(alloc, HARTS)?;
        Ok(Pipes {
            ends: no_ends(),
            held,
            waiters,
        })
    }

    /// Makes these pipes equal to others. Copies only the bytes that they hold.
    pub fn copy_from(&mut self, other: &Pipes)
        ensures { self.new ≡ other.now }
    {
        self.ends = other.ends;
        copy_each(&mut self.held, &other.held);
        self.waiters.clear();
        let Ok(()) = self.waiters.extend_from_slice(&other.waiters) else {
            unreachable!()
        };
    }

    /// Whether a pipe can be made.
    pub fn can_make(&self) -> bool
        ensures { result ≡ can_make self.now }
    {
        free_pipe(&self.ends) < PIPES as u8 && free_slots(&self.ends) >= 2
    }

    /// Makes a pipe and gives the numbers of its ends: the lowest free number reads, and the next
    /// lowest writes. None exactly if all pipes are in use, or fewer than two numbers are free;
    /// then nothing changes.
    pub fn make_pipe(&mut self) -> Option<(u32, u32)>
        ensures { MatchOption result
            ((can_make self.old ≡ false) × (self.new ≡ self.old))
            (λ numbers. IsTrue (can_make self.old) × (numbers ≡ made_numbers self.old)
            × (self.new ≡ made self.old)) }
    {
        if !self.can_make() {
            return None;
        }
        let pipe = free_pipe(&self.ends);
        let reading = open_end(
            &mut self.ends,
            End {
                pipe,
                kind: PipeEnd::Reading,
            },
        );
        let writing = open_end(
            &mut self.ends,
            End {
                pipe,
                kind: PipeEnd::Writing,
            },
        );
        Some((reading, writing))
    }

    /// The end that has a number. None exactly if the number is no open end.
    pub fn end(&self, number: u64) -> Option<PipeEnd>
        ensures kind { result ≡ kind_at number self.now }
        ensures low { IfSome result (λ _. number < FIRST_NUMBER + NUMBERS) }
    {
        match self.end_at(number) {
            None => None,
            Some(end) => Some(end.kind),
        }
    }

    fn end_at(&self, number: u64) -> Option<End>
        ensures end { result ≡ end_at number self.now }
        ensures low { IfSome result (λ _. number < FIRST_NUMBER + NUMBERS) }
    {
        if number < u64::from(FIRST_NUMBER) {
            return None;
        }
        let slot = number - u64::from(FIRST_NUMBER);
        if slot < NUMBERS as u64 {
            self.ends[slot as usize]
        } else {
            None
        }
    }

    fn this_end(&self, number: u32) -> End
        requires { IsSome (end_at number self.now) }
        ensures end { result ≡ this_end number self.now }
        ensures pipe { result.pipe < PIPES }
    {
        let Some(end) = self.ends[(number - FIRST_NUMBER) as usize] else {
            unreachable!()
        };
        end
    }

    /// Whether a read or a write of `count` bytes can be made, must wait, or fails.
    pub fn ready(&self, number: u32, count: u64) -> Ready
        requires open { IsSome (end_at number self.now) }
        requires some { 1 ≤ count }
        ensures answer { result ≡ readiness number count self.now }
        ensures few { IsFew result }
    {
        let end = self.this_end(number);
        let held = self.held[usize::from(end.pipe)].len();
        match end.kind {
            PipeEnd::Reading => {
                if held > 0 {
                    Ready::Now(count.min(held as u64) as u32)
                } else if is_open(
                    &self.ends,
                    End {
                        pipe: end.pipe,
                        kind: PipeEnd::Writing,
                    },
                ) {
                    Ready::Wait
                } else {
                    Ready::Closed
                }
            }
            PipeEnd::Writing => {
                let room = (PIPE_BYTES - held) as u64;
                if !is_open(
                    &self.ends,
                    End {
                        pipe: end.pipe,
                        kind: PipeEnd::Reading,
                    },
                ) {
                    Ready::Closed
                } else if room < count.min(ATOMIC_BYTES as u64) {
                    Ready::Wait
                } else {
                    Ready::Now(count.min(room) as u32)
                }
            }
        }
    }

    /// Copies the first bytes of a reading end, and takes none.
    pub fn peek(&self, number: u32, into: &mut [u8])
        requires reads { kind_at number self.now ≡ Some Reading }
        requires few { length into.old ≤ length (held number self.now) }
        ensures { into.new ≡ take (length into.old) (held number self.now) }
    {
        let end = self.this_end(number);
        self.held[usize::from(end.pipe)].peek(into);
    }

    /// Takes the first bytes of a reading end. All harts that wait for the pipe's room are
    /// appended to a list, the oldest first.
    pub fn take(&mut self, number: u32, count: u32, woken: &mut HartList)
        requires reads { kind_at number self.old ≡ Some Reading }
        requires few { count ≤ length (held number self.old) }
        requires room { length woken.old + length (woken_for Writing number self.old) ≤ HARTS }
        ensures state { self.new ≡ taken number count self.old }
        ensures woken { woken.new ≡ woken.old ++ woken_for Writing number self.old }
    {
        let pipe = self.this_end(number).pipe;
        self.held[usize::from(pipe)].take(count as usize);
        take_waiters(
            &mut self.waiters,
            End {
                pipe,
                kind: PipeEnd::Writing,
            },
            woken,
        );
    }

    /// Puts bytes at a writing end. All harts that wait for the pipe's bytes are appended
    /// to a list, the oldest first.
    pub fn put(&mut self, number: u32, bytes: &[u8], woken: &mut HartList)
        requires writes { kind_at number self.old ≡ Some Writing }
        requires few { length bytes.now ≤ room number self.old }
        requires room { length woken.old + length (woken_for Reading number self.old) ≤ HARTS }
        ensures state { self.new ≡ put number bytes.now self.old }
        ensures woken { woken.new ≡ woken.old ++ woken_for Reading number self.old }
    {
        let pipe = self.this_end(number).pipe;
        // The most that a pipe holds is known to a proof once its length is asked for.
        let _ = self.held[usize::from(pipe)].len();
        self.held[usize::from(pipe)].put(bytes);
        take_waiters(
            &mut self.waiters,
            End {
                pipe,
                kind: PipeEnd::Reading,
            },
            woken,
        );
    }

    /// Lets a hart wait, as the youngest: for bytes at a reading end, and for room
    /// at a writing one.
    pub fn wait(&mut self, number: u32, hart: HartId)
        requires open { IsSome (end_at number self.old) }
        requires low { hart.0 < HARTS }
        requires apart { All (λ waiter. waiter.hart.0 ≢ hart.0) self.old.waiters }
        ensures { self.new ≡ waiting number hart.0 self.old }
    {
        let at = self.this_end(number);
        let Ok(()) = self.waiters.push(PipeWaiter { at, hart }) else {
            unreachable!()
        };
    }

    /// Closes an end. All harts that wait for the pipe's bytes and then all that wait for its room
    /// are appended to a list, the oldest first.
    pub fn close(&mut self, number: u32, woken: &mut HartList)
        requires open { IsSome (end_at number self.old) }
        requires room { length woken.old + length (woken_for Reading number self.old
            ++ woken_for Writing number self.old) ≤ HARTS }
        ensures state { self.new ≡ closed number self.old }
        ensures woken { woken.new ≡ woken.old
            ++ (woken_for Reading number self.old ++ woken_for Writing number self.old) }
    {
        let pipe = self.this_end(number).pipe;
        self.ends[(number - FIRST_NUMBER) as usize] = None;
        empty_unused(&self.ends, &mut self.held, pipe);
        take_both(&mut self.waiters, pipe, woken);
    }
}

/// Opens an end at the lowest free slot, and gives its number.
fn open_end(ends: &mut [Option<End>], end: End) -> u32
    requires free { free_slot ends.old < length ends.old }
    requires few { length ends.old ≤ NUMBERS }
    ensures number { result ≡ FIRST_NUMBER + free_slot ends.old }
    ensures ends { ends.new ≡ with_end end ends.old }
{
    let slot = free_slot(ends);
    ends[slot] = Some(end);
    FIRST_NUMBER + slot as u32
}

//! The calls of time: clocks are read, and harts sleep (Linux on riscv64). Both know the net time
//! alone, of which 100 ticks are one nanosecond.
ghost use Rattle.std.specs.Prelude.{◌≡◌, ◌≤◌, ◌+◌, ◌^◌, [], false, IsTrue, MatchResult};
ghost use Rattle.rv_decode.specs.Fields.{signed_bits};
ghost use Rattle.guest_memory.specs.Memory.{is_readable, is_writable};
ghost use Rattle.machines.specs.declared.Fate.TheVariants.{Sleeps};
ghost use Rattle.guest_calls.specs.Guest.{IsMade, is_running, memory_of, with_stored};
ghost use Rattle.guest_calls.specs.Calls as calls;
ghost use Rattle.guest_calls.specs.Calls.{retirement};
ghost use Rattle.guest_calls.specs.Times.{span_of, span_at, wake_moment, clock_at, span_bytes};

use crate::linux::{CLOCK_MONOTONIC, EFAULT, EINVAL};
use crate::pieces::number;
use crate::{Fate, Guest};
use coz_types::{Address, Ending, HartId, Tick};
use guest_memory::{Access, Memory};

/// The nanoseconds of a second.
const SECOND: u64 = 1_000_000_000;

/// The ticks of a nanosecond.
const NANOSECOND: u64 = 100;

/// The last net moment until which a hart may sleep.
const LAST_MOMENT: u128 = 10_000_000_000_000_000;

/// A span of time, or what a clock shows.
#[derive(Clone, Copy)]
pub struct Span {
    /// Whole seconds.
    pub seconds: u64,
    /// Below 1,000,000,000.
    pub nanoseconds: u64,
}

/// The span that two numbers of 64 bits with signs give, if both are in their ranges.
fn span_of(seconds: u64, nanoseconds: u64) -> Option<Span>
    ensures { result ≡ span_of (signed_bits 64 seconds) (signed_bits 64 nanoseconds) }
{
    if seconds >= 0x8000_0000_0000_0000 || nanoseconds >= SECOND {
        return None;
    }
    Some(Span {
        seconds,
        nanoseconds,
    })
}

/// The span that stands at an address, if its numbers are in their ranges.
fn span_at(memory: &Memory, address: Address) -> Option<Span>
    requires named { IsTrue (is_readable memory.now address 16) }
    requires low { address + 16 ≤ 2 ^ 64 }
    ensures { result ≡ span_at memory.now address }
{
    span_of(number(memory, address), number(memory, address + 8))
}

/// The net moment at which a sleep that begins at a net time ends, which may be past
/// all numbers of 64 bits.
fn wake_moment(net: Tick, span: Span) -> u128
    ensures { result ≡ wake_moment net span }
{
    let nanoseconds = span.seconds as u128 * SECOND as u128 + span.nanoseconds as u128;
    net as u128 + nanoseconds * NANOSECOND as u128
}

/// The time that a clock shows at a net time.
fn clock_at(net: Tick) -> Span
    ensures { result ≡ clock_at net }
{
    Span {
        seconds: net / (SECOND * NANOSECOND),
        nanoseconds: net % (SECOND * NANOSECOND) / NANOSECOND,
    }
}

/// A span as it stands in memory.
fn bytes_of(span: Span) -> [u8; 16]
    ensures { result ≡ span_bytes span }
{
    let [s0, s1, s2, s3, s4, s5, s6, s7] = span.seconds.to_le_bytes();
    let [n0, n1, n2, n3, n4, n5, n6, n7] = span.nanoseconds.to_le_bytes();
    [
        s0, s1, s2, s3, s4, s5, s6, s7, n0, n1, n2, n3, n4, n5, n6, n7,
    ]
}

impl<'a> Guest<'a> {
    /// Linux: nanosleep(2), which no signal ends early.
    #[tactic(auto, unfolding(crate::specs::Calls::nanosleep))]
    pub(crate) fn nanosleep(&mut self, hart: HartId, net: Tick) -> Fate
        requires { IsTrue (is_running self.old hart.0) }
        ensures { retirement self.new result [] ≡ calls.nanosleep self.old hart.0 net }
    {
        let address = self.argument(hart, 0);
        if !self.memory.readable(address, 16) {
            return self.answer(hart, -EFAULT);
        }
        let Some(span) = span_at(&self.memory, address) else {
            return self.answer(hart, -EINVAL);
        };
        let moment = wake_moment(net, span);
        if moment > LAST_MOMENT {
            return Fate::Ends(Ending::Clock);
        }
        self.sleep(hart, moment as Tick)
    }

    /// The hart sleeps until a net moment.
    fn sleep(&mut self, hart: HartId, moment: Tick) -> Fate
        requires { IsTrue (is_running self.old hart.0) }
        ensures { retirement self.new result []
            ≡ retirement (calls.asleep self.old hart.0) (Sleeps moment) [] }
    {
        self.harts[hart.0 as usize].sleep();
        Fate::Sleeps(moment)
    }

    /// Stores a span, if its 16 bytes may be written.
    fn store_span(&mut self, address: Address, span: Span) -> Result<(), Access>
        ensures { MatchResult result
            (λ _. IsTrue (is_writable (memory_of self.old) address 16)
            × (self.new ≡ with_stored address (span_bytes span) self.old))
            (λ _. (is_writable (memory_of self.old) address 16 ≡ false) × (self.new ≡ self.old)) }
    {
        self.store(address, &bytes_of(span))
    }

    /// Linux: clock_gettime(2), of CLOCK_REALTIME and CLOCK_MONOTONIC, which show the same.
    #[tactic(auto, unfolding(crate::specs::Calls::clock_gettime))]
    pub(crate) fn clock_gettime(&mut self, hart: HartId, net: Tick) -> Fate
        requires { IsMade self.old hart.0 }
        ensures { retirement self.new result [] ≡ calls.clock_gettime self.old hart.0 net }
    {
        let address = self.argument(hart, 1);
        if self.argument(hart, 0) > CLOCK_MONOTONIC {
            return self.unsupported(hart);
        }
        match self.store_span(address, clock_at(net)) {
            Ok(()) => self.answer(hart, 0),
            Err(_) => self.answer(hart, -EFAULT),
        }
    }
}

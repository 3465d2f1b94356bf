//! Steps of one hart after another.
ghost use Rattle.std.specs.Prelude.{◌≡◌, ◌+◌, ◌≤◌, ◌<◌, ◌^◌, ℕ, IfSome, option_and_then};
ghost use Rattle.coz_types.specs.declared.TheConstants.{HARTS};
ghost use Rattle.guest_memory.specs.Memory.{fetch};
ghost use Rattle.rv_decode.specs.Instructions.{instruction_of};
ghost use Rattle.rv_execute.specs.Execution.{setting, execution};
ghost use Rattle.hart_steps.specs.Words.{IsWordAt};
ghost use Rattle.hart_steps.specs.Code.{IsCodeOf};
ghost use Rattle.hart_steps.specs.Steps.{step, after, moment, IsQuiet, GoesOn};

use crate::code::{Code, Word};
use code_words::Marks;
use coz_types::{Address, HartId, Tick, TrapCause};
use guest_memory::Memory;
use rv_decode::{Instr, decode};
use rv_execute::{HartState, Reservations, Step, execute};

/// Steps of a hart, one after another.
#[derive(Clone, Copy)]
pub struct Advance {
    /// The number of steps before the last one.
    pub quiet: u64,
    /// When the last one was, in net ticks.
    pub net: Tick,
    /// What follows the last one.
    pub step: Step,
    /// When the next instruction is due, if the hart went on to it but for the limit: it has no
    /// mark, and may be executed too.
    pub next: Option<Tick>,
}

/// Executes a word that stands at a hart's pc.
#[inline(always)]
fn execute_word(
    state: &mut HartState,
    number: HartId,
    memory: &mut Memory,
    reservations: &mut Reservations,
    word: &Word,
) -> Step
    requires number { number.0 < HARTS }
    requires word { IsWordAt memory.old state.old.pc word.now }
    ensures { execution state.new memory.new reservations.new result
        ≡ step number.0 (setting state.old memory.old reservations.old) }
{
    match word.instr {
        Some(instr) => execute(state, number, memory, reservations, instr),
        None => Step::Fault(TrapCause::Illegal),
    }
}

/// Fetches, decodes and executes the instruction at a hart's pc.
#[inline(never)]
fn step_once(
    state: &mut HartState,
    number: HartId,
    memory: &mut Memory,
    reservations: &mut Reservations,
) -> Step
    requires number { number.0 < HARTS }
    ensures { execution state.new memory.new reservations.new result
        ≡ step number.0 (setting state.old memory.old reservations.old) }
{
    let Ok(raw) = memory.fetch(state.pc) else {
        return Step::Fault(TrapCause::Fetch);
    };
    match decode(raw) {
        Some(instr) => execute(state, number, memory, reservations, instr),
        None => Step::Fault(TrapCause::Illegal),
    }
}

/// Fetches and decodes the instruction at an address.
#[inline(never)]
fn instr_once(memory: &Memory, address: Address) -> Option<Instr>
    ensures { result ≡ option_and_then instruction_of (fetch memory.now address) }
{
    match memory.fetch(address) {
        Ok(raw) => decode(raw),
        Err(_) => None,
    }
}

/// The instruction at an address. None if it can't be fetched or is not supported.
#[inline(always)]
pub fn instr_at(memory: &Memory, code: &Code, address: Address) -> Option<Instr>
    requires { IsCodeOf code.now memory.now }
    ensures { result ≡ option_and_then instruction_of (fetch memory.now address) }
{
    if code.is_intact(memory) {
        if let Some(word) = code.word(memory, address) {
            return word.instr;
        }
    }
    instr_once(memory, address)
}

/// Executes the instruction at a hart's pc.
#[inline(always)]
pub fn step_at(
    state: &mut HartState,
    number: HartId,
    memory: &mut Memory,
    reservations: &mut Reservations,
    code: &Code,
) -> Step
    requires number { number.0 < HARTS }
    requires code { IsCodeOf code.now memory.old }
    ensures { execution state.new memory.new reservations.new result
        ≡ step number.0 (setting state.old memory.old reservations.old) }
{
    if code.is_intact(memory) {
        if let Some(word) = code.word(memory, state.pc) {
            return execute_word(state, number, memory, reservations, word);
        }
    }
    step_once(state, number, memory, reservations)
}

/// Executes instructions of a hart, the first of them at a net time, and at least one. It goes on
/// only to an instruction that has no mark and is due before `limit`, and only while it executed
/// fewer than `most`.
#[inline(never)]
pub fn step_on(
    state: &mut HartState,
    number: HartId,
    memory: &mut Memory,
    reservations: &mut Reservations,
    code: &Code,
    marks: &Marks,
    net: Tick,
    limit: Tick,
    most: u64,
) -> Advance
    requires number { number.0 < HARTS }
    requires code { IsCodeOf code.now memory.old }
    requires some { 1 ≤ most }
    requires net { net ≤ 2 ^ 62 }
    requires limit { limit ≤ 2 ^ 62 }
    ensures quiet { (i : ℕ) → i < result.quiet → IsQuiet marks.now limit number.0
        (after i number.0 (setting state.old memory.old reservations.old))
        (moment i number.0 (setting state.old memory.old reservations.old) net) }
    ensures few { result.quiet < most }
    ensures net { result.net
        ≡ moment result.quiet number.0 (setting state.old memory.old reservations.old) net }
    ensures next { IfSome result.next (λ next. (result.quiet + 1 < most)
        × GoesOn marks.now number.0
        (after result.quiet number.0 (setting state.old memory.old reservations.old))
        result.net next) }
    ensures effect { execution state.new memory.new reservations.new result.step
        ≡ step number.0
        (after result.quiet number.0 (setting state.old memory.old reservations.old)) }
{
    if !code.is_intact(memory) {
        let step = step_once(state, number, memory, reservations);
        return Advance {
            quiet: 0,
            net,
            step,
            next: None,
        };
    }
    let Some(first) = code.word(memory, state.pc) else {
        let step = step_once(state, number, memory, reservations);
        return Advance {
            quiet: 0,
            net,
            step,
            next: None,
        };
    };
    let mut quiet = 0;
    let mut due = net;
    let mut word = first;
    loop {
        let step = execute_word(state, number, memory, reservations, word);
        if !matches!(step, Step::Next) || quiet + 1 >= most || !marks.is_quiet_at(state.pc) {
            return Advance {
                quiet,
                net: due,
                step,
                next: None,
            };
        }
        if !code.is_intact_after(word, memory) {
            return Advance {
                quiet,
                net: due,
                step,
                next: None,
            };
        }
        let Some(next) = code.word(memory, state.pc) else {
            return Advance {
                quiet,
                net: due,
                step,
                next: None,
            };
        };
        let later = due + u64::from(next.ticks);
        if later >= limit {
            return Advance {
                quiet,
                net: due,
                step,
                next: Some(later),
            };
        }
        word = next;
        due = later;
        quiet += 1;
    }
}

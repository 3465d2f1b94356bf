//! The instructions that load, change and store memory in one step.
ghost use Rattle.std.specs.Prelude.{◌≡◌, ◌<◌, ◌%◌, ◌==◌, IsTrue};
ghost use Rattle.coz_types.specs.declared.TheConstants.{HARTS};
ghost use Rattle.rv_alu.specs.Operations.{is_amo};
ghost use Rattle.guest_memory.specs.Memory.{IsSize};
ghost use Rattle.rv_execute.specs.Reservations.{is_reserved};
ghost use Rattle.rv_execute.specs.Execution.{setting, execution, atomic_size, atomic_load_value, aligned_effect, reserve, store_reserved, exchange, atomic};

use crate::hart::{HartState, Step};
use crate::memory_access::low_word_extended;
use crate::reservations::Reservations;
use coz_types::{Address, HartId, TrapCause};
use guest_memory::{Access, Memory};
use rv_decode::AtomicOp;

/// The access of an atomic instruction: 8 bytes or 4 at an address, with the value
/// of its other register.
#[derive(Clone, Copy)]
pub struct Target {
    /// Whether the access has 8 bytes, and not 4.
    pub wide: bool,
    /// The register that gets the old value.
    pub rd: u8,
    /// The address of the bytes.
    pub address: Address,
    /// The value of the other register.
    pub value: u64,
}

#[inline]
fn size_of(wide: bool) -> u8
    ensures size { result ≡ atomic_size wide }
    ensures is_size { IsSize result }
{
    if wide { 8 } else { 4 }
}

/// The value that a register gets of a loaded number.
#[inline]
fn load_value(wide: bool, number: u64) -> u64
    ensures { result ≡ atomic_load_value wide number }
{
    if wide {
        number
    } else {
        low_word_extended(number)
    }
}

#[inline]
fn is_aligned(target: Target) -> bool
    ensures { result ≡ (target.address % atomic_size target.wide == 0) }
{
    target.address % u64::from(size_of(target.wide)) == 0
}

/// Loads, and reserves the aligned 8 bytes.
fn load_reserved(
    hart: &mut HartState,
    number: HartId,
    memory: &Memory,
    reservations: &mut Reservations,
    target: Target,
) -> Step
    requires number { number.0 < HARTS }
    requires rd { target.rd < 32 }
    ensures { execution hart.new memory.now reservations.new result
        ≡ aligned_effect target.address target.wide
        (reserve number.0 target.wide target.rd target.address)
        (setting hart.old memory.now reservations.old) }
{
    if !is_aligned(target) {
        return Step::Fault(TrapCause::Misaligned);
    }
    match memory.load(target.address, size_of(target.wide)) {
        Err(Access) => Step::Fault(TrapCause::Access),
        Ok(value) => {
            reservations.reserve(number, target.address);
            hart.put(target.rd, load_value(target.wide, value))
        }
    }
}

/// Stores if the hart's reservation stood. The right to write is needed in any case.
fn store_if(
    hart: &mut HartState,
    memory: &mut Memory,
    reservations: &mut Reservations,
    reserved: bool,
    target: Target,
) -> Step
    requires { target.rd < 32 }
    ensures { execution hart.new memory.new reservations.new result
        ≡ store_reserved reserved target.wide target.rd target.address target.value
        (setting hart.old memory.old reservations.old) }
{
    let size = size_of(target.wide);
    if !reserved {
        return if memory.writable(target.address, u64::from(size)) {
            hart.put(target.rd, 1)
        } else {
            Step::Fault(TrapCause::Access)
        };
    }
    match memory.store(target.address, size, target.value) {
        Err(Access) => Step::Fault(TrapCause::Access),
        Ok(()) => {
            reservations.end_at(target.address, u64::from(size));
            hart.put(target.rd, 0)
        }
    }
}

/// Stores if the hart's reservation stands, and ends it in any case.
fn store_conditional(
    hart: &mut HartState,
    number: HartId,
    memory: &mut Memory,
    reservations: &mut Reservations,
    target: Target,
) -> Step
    requires { target.rd < 32 }
    ensures { execution hart.new memory.new reservations.new result
        ≡ atomic number.0 (AtomicOp.Sc) target.wide target.rd target.address target.value
        (setting hart.old memory.old reservations.old) }
{
    let reserved = reservations.is_reserved(number, target.address);
    reservations.end_own(number);
    if !is_aligned(target) {
        return Step::Fault(TrapCause::Misaligned);
    }
    store_if(hart, memory, reservations, reserved, target)
}

/// Loads, and stores what the operation gives.
fn exchange(
    hart: &mut HartState,
    memory: &mut Memory,
    reservations: &mut Reservations,
    op: AtomicOp,
    target: Target,
) -> Step
    requires amo { IsTrue (is_amo op) }
    requires rd { target.rd < 32 }
    ensures { execution hart.new memory.new reservations.new result
        ≡ aligned_effect target.address target.wide
        (exchange op target.wide target.rd target.address target.value)
        (setting hart.old memory.old reservations.old) }
{
    if !is_aligned(target) {
        return Step::Fault(TrapCause::Misaligned);
    }
    let size = size_of(target.wide);
    let Ok(old) = memory.load(target.address, size) else {
        return Step::Fault(TrapCause::Access);
    };
    let new = rv_alu::atomic(op, target.wide, old, target.value);
    match memory.store(target.address, size, new) {
        Err(Access) => Step::Fault(TrapCause::Access),
        Ok(()) => {
            reservations.end_at(target.address, u64::from(size));
            hart.put(target.rd, load_value(target.wide, old))
        }
    }
}

/// An operation on memory in one step.
#[inline(never)]
pub fn atomic(
    hart: &mut HartState,
    number: HartId,
    memory: &mut Memory,
    reservations: &mut Reservations,
    op: AtomicOp,
    target: Target,
) -> Step
    requires number { number.0 < HARTS }
    requires rd { target.rd < 32 }
    ensures { execution hart.new memory.new reservations.new result
        ≡ atomic number.0 op target.wide target.rd target.address target.value
        (setting hart.old memory.old reservations.old) }
{
    match op {
        AtomicOp::Lr => load_reserved(hart, number, memory, reservations, target),
        AtomicOp::Sc => store_conditional(hart, number, memory, reservations, target),
        _ => exchange(hart, memory, reservations, op, target),
    }
}

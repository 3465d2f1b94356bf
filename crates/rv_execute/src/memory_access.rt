//! Loads and stores (RISC-V unprivileged manual, RV64I).
ghost use Rattle.std.specs.Prelude.{◌≡◌, ◌<◌};
ghost use Rattle.guest_memory.specs.Memory.{IsSize};
ghost use Rattle.rv_execute.specs.Reservations.{Reservations as Reserved};
ghost use Rattle.rv_execute.specs.Execution.{setting, execution, register, address_at, load_size, load_value, load_to, store_size, store_at};

use crate::hart::{HartState, Step, address_at};
use crate::reservations::Reservations;
use coz_types::{Address, TrapCause};
use guest_memory::{Access, Memory};
use rv_decode::{LoadOp, StoreOp};

#[inline(always)]
fn load_size(op: LoadOp) -> u8
    ensures size { result ≡ load_size op }
    ensures is_size { IsSize result }
{
    match op {
        LoadOp::Lb | LoadOp::Lbu => 1,
        LoadOp::Lh | LoadOp::Lhu => 2,
        LoadOp::Lw | LoadOp::Lwu => 4,
        LoadOp::Ld => 8,
    }
}

/// The register that holds the signed number which the lowest 32 bits write.
#[inline(always)]
pub fn low_word_extended(number: u64) -> u64
    ensures { result ≡ load_value (LoadOp.Lw) number }
{
    i64::from(((number % 0x1_0000_0000) as u32).cast_signed()).cast_unsigned()
}

/// The value that a register gets of a loaded number.
#[inline(always)]
fn load_value(op: LoadOp, number: u64) -> u64
    ensures { result ≡ load_value op number }
{
    match op {
        LoadOp::Lb => i64::from(((number % 0x100) as u8).cast_signed()).cast_unsigned(),
        LoadOp::Lh => i64::from(((number % 0x1_0000) as u16).cast_signed()).cast_unsigned(),
        LoadOp::Lw => low_word_extended(number),
        LoadOp::Ld | LoadOp::Lbu | LoadOp::Lhu | LoadOp::Lwu => number,
    }
}

/// A load from an address.
#[inline(always)]
fn load_from(hart: &mut HartState, memory: &Memory, op: LoadOp, rd: u8, address: Address) -> Step
    requires { rd < 32 }
    ensures { (r : Reserved) → execution hart.new memory.now r result
        ≡ load_to op rd address (setting hart.old memory.now r) }
{
    match memory.load(address, load_size(op)) {
        Err(Access) => Step::Fault(TrapCause::Access),
        Ok(number) => hart.put(rd, load_value(op, number)),
    }
}

/// A load. Each operation has a call of its own, so its size is a constant there.
#[inline(always)]
pub fn load(hart: &mut HartState, memory: &Memory, op: LoadOp, rd: u8, rs1: u8, offset: i32) -> Step
    requires rd { rd < 32 }
    requires rs1 { rs1 < 32 }
    ensures { (r : Reserved) → execution hart.new memory.now r result
        ≡ load_to op rd (address_at (register hart.old rs1) offset)
        (setting hart.old memory.now r) }
{
    let address = address_at(hart.value(rs1), offset);
    match op {
        LoadOp::Lb => load_from(hart, memory, LoadOp::Lb, rd, address),
        LoadOp::Lh => load_from(hart, memory, LoadOp::Lh, rd, address),
        LoadOp::Lw => load_from(hart, memory, LoadOp::Lw, rd, address),
        LoadOp::Ld => load_from(hart, memory, LoadOp::Ld, rd, address),
        LoadOp::Lbu => load_from(hart, memory, LoadOp::Lbu, rd, address),
        LoadOp::Lhu => load_from(hart, memory, LoadOp::Lhu, rd, address),
        LoadOp::Lwu => load_from(hart, memory, LoadOp::Lwu, rd, address),
    }
}

/// Stores a number of `size` bytes and moves the pc on.
#[inline(always)]
fn store_at(
    hart: &mut HartState,
    memory: &mut Memory,
    reservations: &mut Reservations,
    address: Address,
    size: u8,
    value: u64,
) -> Step
    requires { IsSize size }
    ensures { execution hart.new memory.new reservations.new result
        ≡ store_at address size value (setting hart.old memory.old reservations.old) }
{
    match memory.store(address, size, value) {
        Err(Access) => Step::Fault(TrapCause::Access),
        Ok(()) => {
            reservations.end_at(address, u64::from(size));
            hart.proceed()
        }
    }
}

/// A store. Each operation has a call of its own, so its size is a constant there.
#[inline(always)]
pub fn store(
    hart: &mut HartState,
    memory: &mut Memory,
    reservations: &mut Reservations,
    op: StoreOp,
    rs1: u8,
    rs2: u8,
    offset: i32,
) -> Step
    requires rs1 { rs1 < 32 }
    requires rs2 { rs2 < 32 }
    ensures { execution hart.new memory.new reservations.new result
        ≡ store_at (address_at (register hart.old rs1) offset) (store_size op)
        (register hart.old rs2)
        (setting hart.old memory.old reservations.old) }
{
    let address = address_at(hart.value(rs1), offset);
    let value = hart.value(rs2);
    match op {
        StoreOp::Sb => store_at(hart, memory, reservations, address, 1, value),
        StoreOp::Sh => store_at(hart, memory, reservations, address, 2, value),
        StoreOp::Sw => store_at(hart, memory, reservations, address, 4, value),
        StoreOp::Sd => store_at(hart, memory, reservations, address, 8, value),
    }
}

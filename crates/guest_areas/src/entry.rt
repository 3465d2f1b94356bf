//! What a program finds on its stack at the entry (System V ABI).
ghost use Rattle.std.specs.Prelude.{◌≡◌, ◌+◌, ◌*◌, ◌%◌, ◌≤◌, IsTrue, length};
ghost use Rattle.guest_memory.specs.Memory.{rights_at, is_writable, with_bytes, with_number};
ghost use Rattle.guest_areas.specs.Entry.{with_entry, with_numbers, stack_pointer};

use crate::STACK_POINTER;
use coz_types::{Address, Image, PAGE};
use guest_memory::{Access, Memory, STACK_TOP};

/// The address of the program's name.
const NAME: Address = STACK_TOP - 32;

/// The address of the 16 bytes that the guest takes as random (AT_RANDOM). They are zeros.
const RANDOM: Address = STACK_TOP - 16;

// The auxiliary vector's keys (System V ABI).

/// AT_PHDR: the address of the program headers.
const PROGRAM_HEADERS: u64 = 3;
/// AT_PHENT: the bytes of one.
const HEADER_SIZE: u64 = 4;
/// AT_PHNUM: how many there are.
const HEADER_COUNT: u64 = 5;
/// AT_PAGESZ: the bytes of a page.
const PAGE_SIZE: u64 = 6;
/// AT_ENTRY: the address of the first instruction.
const ENTRY: u64 = 9;
/// AT_RANDOM: the address of 16 random bytes.
const RANDOM_BYTES: u64 = 25;

/// Writes what a program finds on the stack at its entry.
pub fn write_entry(memory: &mut Memory, image: &Image)
    requires { IsTrue (rights_at memory.old stack_pointer).write }
    ensures { memory.new ≡ with_entry image.now memory.old }
{
    write_bytes(memory, NAME, b"prog");
    let numbers = [
        1,
        NAME,
        0,
        0,
        PROGRAM_HEADERS,
        image.headers(),
        HEADER_SIZE,
        56,
        HEADER_COUNT,
        image.header_count() as u64,
        PAGE_SIZE,
        PAGE,
        ENTRY,
        image.entry(),
        RANDOM_BYTES,
        RANDOM,
        0,
        0,
    ];
    write_numbers(memory, STACK_POINTER, &numbers);
}

/// Writes numbers of 8 bytes in a row, all in one page.
fn write_numbers(memory: &mut Memory, address: Address, numbers: &[u64])
    requires fits { address % PAGE + 8 * length numbers.now ≤ PAGE }
    requires writable { IsTrue (rights_at memory.old address).write }
    ensures { memory.new ≡ with_numbers address numbers.now memory.old }
{
    for i in 0..numbers.len() {
        write_number(memory, address + 8 * i as u64, numbers[i]);
    }
}

fn write_number(memory: &mut Memory, address: Address, number: u64)
    requires { IsTrue (is_writable memory.old address 8) }
    ensures { memory.new ≡ with_number address 8 number memory.old }
{
    match memory.store(address, 8, number) {
        Ok(()) => {}
        Err(Access) => unreachable!(),
    }
}

fn write_bytes(memory: &mut Memory, address: Address, bytes: &[u8])
    requires { IsTrue (is_writable memory.old address (length bytes.now)) }
    ensures { memory.new ≡ with_bytes address bytes.now memory.old }
{
    match memory.copy_in(address, bytes) {
        Ok(()) => {}
        Err(Access) => unreachable!(),
    }
}

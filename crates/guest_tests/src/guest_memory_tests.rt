//! Tests of `guest_memory`.
ghost use Rattle.std.specs.Prelude.{◌≡◌, ◌+◌, ◌≤◌, ◌<◌, false, IfOk};
ghost use Rattle.guest_memory.specs.Regions.{usual, IsKnown};

use crate::checks::check_equal;
use coz_types::{Address, Area, Image, Rights};
use guest_memory::{Access, Layout, Memory};
use std::alloc::{AllocError, Global};
use std::process::Abort;
use std::test::Fail;

/// These lie on both sides of the border of the area's two pages.
const FILE: [u8; 5] = [0x13, 0x01, 0x50, 0x00, 0x73];

const BORDER: Address = 0x10FFE;

const DATA: Address = 0x20000;

const MAP_BASE: Address = 0x21_0000_0000;

const STACK: Address = 0x3F_FFF0_0000;

const STACK_TOP: Address = 0x40_0000_0000;

const BRK_BASE: Address = 0x20_0000_0000;

const MIB: u64 = 1024 * 1024;

fn program(alloc: Global) -> Result<Image<'static>, AllocError> {
    let rights = Rights {
        read: true,
        write: false,
        execute: true,
    };
    let area = Area {
        start: 0x10000,
        size: 8192,
        rights,
        vaddr: BORDER,
        offset: 0,
        filled: 5,
    };
    Ok(Image::new(&FILE, vec![in alloc; area]?, 0x10000, 0, 0))
}

fn made<'a>(alloc: Global, image: &'a Image<'a>) -> Result<Memory<'a>, AllocError>
    ensures { IfOk result (λ memory. (memory.image ≡ image.now) × (memory.layout ≡ usual)) }
{
    Memory::new(alloc, image, Layout::usual())
}

/// An address, and the number in 4 bytes there, as data.
/// By hand, as all tables of this module: docs/FORMATS.md, Memory.
static LOADS: [(Address, Result<u64, Access>); 10] = [
    (BORDER, Ok(0x0050_0113)),
    (0x11FFC, Ok(0)),
    (0x11FFD, Err(Access)),
    (0xFFFF, Err(Access)),
    (BRK_BASE, Err(Access)),
    (STACK, Ok(0)),
    (STACK - 1, Err(Access)),
    (STACK_TOP - 4, Ok(0)),
    (STACK_TOP - 3, Err(Access)),
    (u64::MAX, Err(Access)),
];

/// An address, and the number in 4 bytes there, as an instruction.
static FETCHES: [(Address, Result<u32, Access>); 3] = [
    (BORDER, Ok(0x0050_0113)),
    (0x11FFD, Err(Access)),
    (STACK, Err(Access)),
];

/// An address, a number of bytes, and whether all of them may be read and written.
static RANGES: [(Address, u64, bool, bool); 7] = [
    (0, 0, true, true),
    (0x10000, 8192, true, false),
    (0x10000, 8193, false, false),
    (STACK, MIB, true, true),
    (STACK, MIB + 1, false, false),
    (STACK, u64::MAX, false, false),
    (u64::MAX, 2, false, false),
];

fn check_new(rt: &impl Abort, memory: &Memory) {
    let found = (memory.layout(), memory.load(0x10FFC, 8));
    check_equal(rt, found, (Layout::usual(), Ok(0x0073_0050_0113_0000)));
    for &(address, number) in &LOADS {
        check_equal(rt, (address, memory.load(address, 4)), (address, number));
    }
    for &(address, word) in &FETCHES {
        check_equal(rt, (address, memory.fetch(address)), (address, word));
    }
    for &(address, count, readable, writable) in &RANGES {
        let found = (
            memory.readable(address, count),
            memory.writable(address, count),
        );
        check_equal(
            rt,
            (address, count, found),
            (address, count, (readable, writable)),
        );
    }
}

#[test]
fn a_new_memory_consists_of_the_file_and_a_stack(rt: HostRuntime) -> Result<(), Fail> {
    let image = program(rt.alloc())?;
    let memory = made(rt.alloc(), &image)?;
    check_new(&rt, &memory);
    // By a call, since a drop in place is proved part by part.
    drop(memory);
    Ok(())
}

/// Addresses, and the numbers in 4 bytes there once 8 bytes are stored over the border of two
/// pages, and not in a page that may only be read.
static STORED: [(Address, u64); 4] = [
    (BRK_BASE + 0xFFC, 0x5566_7788),
    (BRK_BASE + 0x1000, 0x1122_3344),
    (BRK_BASE + 0x1FFC, 0),
    (BRK_BASE + 0x3000, 0),
];

fn check_stores(rt: &impl Abort, memory: &mut Memory) {
    let within = memory.store(BRK_BASE + 0xFFC, 8, 0x1122_3344_5566_7788);
    let past = memory.store(BRK_BASE + 0x1FFC, 8, 7);
    let read_only = memory.store(BRK_BASE + 0x3000, 8, 7);
    check_equal(
        rt,
        (within, past, read_only),
        (Ok(()), Err(Access), Err(Access)),
    );
    for &(address, number) in &STORED {
        check_equal(
            rt,
            (address, memory.load(address, 4)),
            (address, Ok(number)),
        );
    }
}

fn check_copies_in(rt: &impl Abort, memory: &mut Memory) {
    let five = [1, 2, 3, 4, 5];
    let within = memory.copy_in(BRK_BASE + 0xFFD, &five);
    let past = memory.copy_in(BRK_BASE + 0x1FFC, &five);
    check_equal(rt, (within, past), (Ok(()), Err(Access)));
    let mut seven = [9; 7];
    let past = memory.read_at(BRK_BASE + 0x1FFC, &mut seven);
    check_equal(rt, (past, seven), (Err(Access), [9; 7]));
    let within = memory.read_at(BRK_BASE + 0xFFC, &mut seven);
    check_equal(rt, (within, seven), (Ok(()), [0x88, 1, 2, 3, 4, 5, 0x22]));
    check_equal(rt, memory.load(BRK_BASE + 0x1FFC, 4), Ok(0));
}

#[test]
fn writes_reach_each_page_of_a_range_or_nothing(rt: HostRuntime) -> Result<(), Fail> {
    let image = program(rt.alloc())?;
    let mut memory = made(rt.alloc(), &image)?;
    memory.give(BRK_BASE, 2, READ_AND_WRITE, true);
    memory.give(BRK_BASE + 0x3000, 1, READ, true);
    check_stores(&rt, &mut memory);
    check_copies_in(&rt, &mut memory);
    // By a call, since a drop in place is proved part by part.
    drop(memory);
    Ok(())
}

fn area(start: Address, size: u64, rights: Rights) -> Area
    ensures { result ≡ record {
      start = start;
      size = size;
      rights = rights;
      vaddr = start;
      offset = 0;
      filled = 0;
    } }
{
    Area {
        start,
        size,
        rights,
        vaddr: start,
        offset: 0,
        filled: 0,
    }
}

const READ_AND_WRITE: Rights = Rights {
    read: true,
    write: true,
    execute: false,
};

const READ: Rights = Rights {
    read: true,
    write: false,
    execute: false,
};

const NO_RIGHTS: Rights = Rights {
    read: false,
    write: false,
    execute: false,
};

/// Two pages of code and a page of data.
fn two_areas(alloc: Global) -> Result<Image<'static>, AllocError>
    ensures { IfOk result (λ image. IsKnown image.areas usual 17) }
{
    let code = Rights {
        read: true,
        write: false,
        execute: true,
    };
    let areas = vec![in alloc; area(0x10000, 8192, code), area(DATA, 4096, READ_AND_WRITE)]?;
    Ok(Image::new(&[], areas, 0x10000, 0, 0))
}

fn put(memory: &mut Memory, address: Address, value: u64)
    ensures image { memory.new.image ≡ memory.old.image }
    ensures layout { memory.new.layout ≡ memory.old.layout }
{
    let _ = memory.store(address, 8, value);
}

fn put_eight(memory: &mut Memory, address: Address)
    ensures image { memory.new.image ≡ memory.old.image }
    ensures layout { memory.new.layout ≡ memory.old.layout }
{
    let _ = memory.copy_in(address, &[1, 2, 3, 4, 5, 6, 7, 8]);
}

/// Gives pages of the map region rights, and zeros.
fn give_map(memory: &mut Memory, first: u64, pages: u64, rights: Rights)
    requires layout { memory.old.layout ≡ usual }
    requires pages { first + pages ≤ 12288 }
    requires rights { rights.execute ≡ false }
    ensures image { memory.new.image ≡ memory.old.image }
    ensures layout { memory.new.layout ≡ memory.old.layout }
{
    memory.give(MAP_BASE + first * 4096, pages, rights, true);
}

/// Gives the first page of the break region rights, and zeros.
fn give_brk(memory: &mut Memory)
    requires { memory.old.layout ≡ usual }
    ensures image { memory.new.image ≡ memory.old.image }
    ensures layout { memory.new.layout ≡ memory.old.layout }
{
    memory.give(BRK_BASE, 1, READ_AND_WRITE, true);
}

fn change(memory: &mut Memory)
    requires { memory.old.layout ≡ usual }
    ensures image { memory.new.image ≡ memory.old.image }
    ensures layout { memory.new.layout ≡ memory.old.layout }
{
    put(memory, DATA, 7);
    give_map(memory, 0, 3, READ_AND_WRITE);
    put_eight(memory, MAP_BASE + 0xFFC);
    give_map(memory, 2, 1, NO_RIGHTS);
}

fn change_otherwise(memory: &mut Memory)
    requires { memory.old.layout ≡ usual }
    ensures image { memory.new.image ≡ memory.old.image }
    ensures layout { memory.new.layout ≡ memory.old.layout }
{
    give_map(memory, 0, 1, READ_AND_WRITE);
    put(memory, MAP_BASE + 8, 3);
    give_map(memory, 0, 1, READ_AND_WRITE);
    put(memory, MAP_BASE, 9);
    put(memory, STACK_TOP - 8, 5);
    give_brk(memory);
}

/// In place of a number that may not be loaded. No page here holds it.
const REFUSED: u64 = u64::MAX;

/// An address, and the number in 8 bytes there at first, after `change` and after
/// `change_otherwise`.
static PLACES: [(Address, [u64; 3]); 9] = [
    (0x10000, [0, 0, 0]),
    (DATA, [0, 7, 0]),
    (MAP_BASE, [REFUSED, 0, 9]),
    (MAP_BASE + 8, [REFUSED, 0, 0]),
    (MAP_BASE + 0xFFC, [REFUSED, 0x0807_0605_0403_0201, REFUSED]),
    (MAP_BASE + 0x2000, [REFUSED, REFUSED, REFUSED]),
    (BRK_BASE, [REFUSED, REFUSED, 0]),
    (STACK_TOP - 8, [0, 0, 5]),
    (STACK, [0, 0, 0]),
];

/// Whether the memory holds the numbers of this column.
fn holds(memory: &Memory, column: usize) -> bool
    requires { column < 3 }
{
    for &(address, numbers) in &PLACES {
        if memory.load(address, 8).unwrap_or(REFUSED) != numbers[column] {
            return false;
        }
    }
    true
}

/// Checks copies of changed memories, of which `first` stays as it is.
fn check_copies<'a>(
    rt: &impl Abort,
    first: &Memory<'a>,
    left: &mut Memory<'a>,
    right: &mut Memory<'a>,
)
    requires first { first.now.layout ≡ usual }
    requires left { (left.old.image ≡ first.now.image) × (left.old.layout ≡ usual) }
    requires right { (right.old.image ≡ first.now.image) × (right.old.layout ≡ usual) }
{
    change(left);
    change_otherwise(right);
    let changed = (holds(first, 0), holds(left, 1), holds(right, 2));
    left.copy_from(right);
    let copied = holds(left, 2);
    put(left, STACK, 1);
    let apart = (holds(right, 2), holds(left, 2));
    left.copy_from(right);
    let again = holds(left, 2);
    left.copy_from(first);
    let found = (changed, copied, apart, again, holds(left, 0));
    check_equal(
        rt,
        found,
        ((true, true, true), true, (true, false), true, true),
    );
}

#[test]
fn a_copy_is_equal_and_apart(rt: HostRuntime) -> Result<(), Fail> {
    let image = two_areas(rt.alloc())?;
    let first = made(rt.alloc(), &image)?;
    let mut left = made(rt.alloc(), &image)?;
    let mut right = made(rt.alloc(), &image)?;
    check_copies(&rt, &first, &mut left, &mut right);
    // By calls, since a drop in place is proved part by part.
    drop(right);
    drop(left);
    drop(first);
    Ok(())
}

/// The pages of code that are as at first: their first address, and their bytes.
fn first_code(memory: &Memory) -> Option<(Address, u64)> {
    let pages = memory.first_code()?;
    Some((pages.start, pages.size))
}

/// Checks what is known of the code of a new memory while it changes, and in a copy of another.
fn check_first_code<'a>(rt: &impl Abort, first: &Memory<'a>, memory: &mut Memory<'a>)
    requires layout { (memory.old.layout ≡ usual) × (first.now.layout ≡ usual) }
    requires image { memory.old.image ≡ first.now.image }
    requires known { IsKnown memory.old.image.areas usual 17 }
{
    let new = first_code(memory);
    change(memory);
    let elsewhere = first_code(memory);
    memory.give(0x11000, 1, NO_RIGHTS, false);
    let taken = first_code(memory);
    memory.copy_from(first);
    let found = (new, elsewhere, taken, first_code(memory));
    let code = Some((0x10000, 8192));
    check_equal(rt, found, (code, code, None, code));
}

#[test]
fn code_is_as_at_first_until_its_rights_change(rt: HostRuntime) -> Result<(), Fail> {
    let image = two_areas(rt.alloc())?;
    let first = made(rt.alloc(), &image)?;
    let mut memory = made(rt.alloc(), &image)?;
    check_first_code(&rt, &first, &mut memory);
    // By calls, since a drop in place is proved part by part.
    drop(memory);
    drop(first);
    Ok(())
}

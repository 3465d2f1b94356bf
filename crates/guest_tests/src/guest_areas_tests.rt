//! Tests of `guest_areas`.
ghost use Rattle.std.specs.Prelude.{IfOk};
ghost use Rattle.guest_areas.specs.Space.{SharesRegions};

use crate::checks::check_equal;
use coz_types::{Address, Area, Image, Rights};
use guest_areas::Areas;
use guest_memory::{Access, Layout, Memory};
use std::alloc::{AllocError, Global};
use std::process::Abort;
use std::test::Fail;

const FILE: [u8; 4] = [0x73, 0, 0, 0];

const TEXT: Address = 0x10000;

const MIB: u64 = 1024 * 1024;

const BRK_BASE: Address = 0x20_0000_0000;

const MAP_BASE: Address = 0x21_0000_0000;

const MAPPED: i64 = 0x21_0000_0000;

/// A call of `Areas`.
#[derive(Clone, Copy)]
enum Call {
    Map(u64, u64),
    Unmap(Address, u64),
    Protect(Address, u64, u64),
}

fn program(alloc: Global) -> Result<Image<'static>, AllocError> {
    let rights = Rights {
        read: true,
        write: false,
        execute: true,
    };
    let area = Area {
        start: TEXT,
        size: 4096,
        rights,
        vaddr: TEXT,
        offset: 0,
        filled: 4,
    };
    Ok(Image::new(&FILE, vec![in alloc; area]?, TEXT, 0x10040, 2))
}

fn entered<'a>(alloc: Global, image: &'a Image<'a>) -> Result<(Areas, Memory<'a>), AllocError>
    ensures { IfOk result (λ made. SharesRegions made.0 made.1) }
{
    let mut memory = Memory::new(alloc, image, Layout::usual())?;
    let areas = Areas::new(alloc, &mut memory, image)?;
    Ok((areas, memory))
}

fn answer(areas: &mut Areas, memory: &mut Memory, call: Call) -> i64
    requires { SharesRegions areas.old memory.old }
    ensures { SharesRegions areas.new memory.new }
{
    match call {
        Call::Map(length, protection) => areas.map(memory, length, protection),
        Call::Unmap(address, length) => areas.unmap(memory, address, length),
        Call::Protect(address, length, protection) => {
            areas.protect(memory, address, length, protection)
        }
    }
}

/// An address that the break is moved to, and where the break is then. Before each move a number is
/// stored at the base, if the program has this page: it is not there once the page is given anew.
/// By hand, from docs/FORMATS.md, Memory calls.
static BREAKS: [(Address, Address); 8] = [
    (0, BRK_BASE),
    (BRK_BASE + 5000, BRK_BASE + 5000),
    (BRK_BASE - 1, BRK_BASE + 5000),
    (BRK_BASE + 16 * MIB + 1, BRK_BASE + 5000),
    (BRK_BASE + 16 * MIB, BRK_BASE + 16 * MIB),
    (BRK_BASE + 1, BRK_BASE + 1),
    (BRK_BASE, BRK_BASE),
    (BRK_BASE + 1, BRK_BASE + 1),
];

fn check_breaks(rt: &impl Abort, areas: &mut Areas, memory: &mut Memory)
    requires { SharesRegions areas.old memory.old }
{
    for &(to, end) in &BREAKS {
        let _stored = memory.store(BRK_BASE, 8, 7);
        check_equal(rt, (to, areas.brk(memory, to)), (to, end));
    }
    let page = (memory.writable(BRK_BASE, 4096), memory.load(BRK_BASE, 8));
    let next = memory.readable(BRK_BASE + 4096, 1);
    check_equal(rt, (page, next), ((true, Ok(0)), false));
}

/// Addresses of the entry stack, and the number in 8 bytes there.
/// By hand, from the psABI of RISC-V and the numbers of the auxiliary vector (getauxval(3)).
static ENTRY: [(Address, u64); 22] = [
    (0x3F_FFFF_FF50, 1),
    (0x3F_FFFF_FF58, 0x3F_FFFF_FFE0),
    (0x3F_FFFF_FF60, 0),
    (0x3F_FFFF_FF68, 0),
    (0x3F_FFFF_FF70, 3),
    (0x3F_FFFF_FF78, 0x10040),
    (0x3F_FFFF_FF80, 4),
    (0x3F_FFFF_FF88, 56),
    (0x3F_FFFF_FF90, 5),
    (0x3F_FFFF_FF98, 2),
    (0x3F_FFFF_FFA0, 6),
    (0x3F_FFFF_FFA8, 4096),
    (0x3F_FFFF_FFB0, 9),
    (0x3F_FFFF_FFB8, TEXT),
    (0x3F_FFFF_FFC0, 25),
    (0x3F_FFFF_FFC8, 0x3F_FFFF_FFF0),
    (0x3F_FFFF_FFD0, 0),
    (0x3F_FFFF_FFD8, 0),
    (0x3F_FFFF_FFE0, 0x676F_7270),
    (0x3F_FFFF_FFE8, 0),
    (0x3F_FFFF_FFF0, 0),
    (0x3F_FFFF_FFF8, 0),
];

fn check_entry(rt: &impl Abort, areas: &Areas, memory: &Memory) {
    check_equal(rt, areas.stack_pointer(), 0x3F_FFFF_FF50);
    for &(address, number) in &ENTRY {
        check_equal(
            rt,
            (address, memory.load(address, 8)),
            (address, Ok(number)),
        );
    }
}

#[test]
fn the_break_moves_within_its_region_and_the_entry_stack_is_written(
    rt: HostRuntime,
) -> Result<(), Fail> {
    let image = program(rt.alloc())?;
    let (mut areas, mut memory) = entered(rt.alloc(), &image)?;
    check_breaks(&rt, &mut areas, &mut memory);
    check_entry(&rt, &areas, &memory);
    // By calls, since a drop in place is proved part by part.
    drop(memory);
    drop(areas);
    Ok(())
}

/// Calls, one after the other, and what they answer.
/// By hand, as the rights after them: docs/FORMATS.md, Memory calls.
static CALLS: [(Call, i64); 22] = [
    (Call::Map(0, 3), -22),
    (Call::Map(1, 4), -13),
    (Call::Map(u64::MAX, 3), -12),
    (Call::Map(48 * MIB + 1, 3), -12),
    (Call::Map(4096, 3), MAPPED),
    (Call::Map(4097, 3), MAPPED + 0x1000),
    (Call::Unmap(MAP_BASE + 1, 4096), -22),
    (Call::Unmap(MAP_BASE, 0), -22),
    (Call::Unmap(MAP_BASE - 4096, 8192), -22),
    (Call::Unmap(MAP_BASE + 48 * MIB - 4096, 4097), -22),
    (Call::Unmap(MAP_BASE, u64::MAX), -22),
    (Call::Unmap(MAP_BASE, 1), 0),
    (Call::Map(8192, 1), MAPPED + 0x3000),
    (Call::Map(1, 1), MAPPED),
    (Call::Protect(MAP_BASE + 1, 4096, 3), -22),
    (Call::Protect(MAP_BASE, 0, 4), 0),
    (Call::Protect(MAP_BASE, 1, 4), -13),
    (Call::Protect(MAP_BASE, 0x6000, 3), -12),
    (Call::Protect(MAP_BASE, u64::MAX, 3), -12),
    (Call::Protect(MAP_BASE + 0x1000, 4096, 1), 0),
    (Call::Protect(TEXT, 4096, 2), 0),
    (Call::Unmap(MAP_BASE + 0x4000, 4096), 0),
];

fn check_calls(rt: &impl Abort, areas: &mut Areas, memory: &mut Memory)
    requires { SharesRegions areas.old memory.old }
{
    for (row, &(call, expected)) in CALLS.iter().enumerate() {
        check_equal(rt, (row, answer(areas, memory, call)), (row, expected));
    }
}

/// The address of a page, and whether it may be read and written after those calls.
static RIGHTS: [(Address, bool, bool); 7] = [
    (MAP_BASE, true, false),
    (MAP_BASE + 0x1000, true, false),
    (MAP_BASE + 0x2000, true, true),
    (MAP_BASE + 0x3000, true, false),
    (MAP_BASE + 0x4000, false, false),
    (MAP_BASE + 0x5000, false, false),
    (TEXT, true, true),
];

fn check_rights(rt: &impl Abort, memory: &Memory) {
    for &(page, readable, writable) in &RIGHTS {
        let found = (
            page,
            memory.readable(page, 4096),
            memory.writable(page, 4096),
        );
        check_equal(rt, found, (page, readable, writable));
    }
    let text = (memory.fetch(TEXT), memory.load(TEXT, 4));
    check_equal(rt, text, (Err(Access), Ok(0x73)));
}

#[test]
fn mappings_take_the_lowest_free_pages_and_have_their_rights(rt: HostRuntime) -> Result<(), Fail> {
    let image = program(rt.alloc())?;
    let (mut areas, mut memory) = entered(rt.alloc(), &image)?;
    check_calls(&rt, &mut areas, &mut memory);
    check_rights(&rt, &memory);
    // By calls, since a drop in place is proved part by part.
    drop(memory);
    drop(areas);
    Ok(())
}

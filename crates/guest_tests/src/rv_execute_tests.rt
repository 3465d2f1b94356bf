//! Tests of `rv_execute`.
ghost use Rattle.std.specs.Prelude.{◌≡◌};

use crate::checks::check_equal;
use coz_types::{Address, Area, HartId, Image, Rights, TrapCause};
use guest_memory::{Layout, Memory};
use rv_decode::decode;
use rv_execute::{HartState, Reservations, Step, execute};
use std::alloc::{AllocError, Global};
use std::process::Abort;
use std::test::Fail;

const TEXT: Address = 0x0001_0000;

/// Two pages that may be read and written.
const DATA: Address = 0x0001_1000;

/// A page that may only be read, right after them.
const READ_ALONE: Address = 0x0001_3000;

const HERE: Address = TEXT;

const NEXT: Address = TEXT + 4;

/// What x7 holds before each instruction.
const KEPT: u64 = 0x77;

const DONE: Step = Step::Next;

const MISALIGNED: Step = Step::Fault(TrapCause::Misaligned);

const ACCESS: Step = Step::Fault(TrapCause::Access);

const BREAK: Step = Step::Fault(TrapCause::Break);

// The words of instructions, as LLVM disassembles them.

/// lr.d.rl x7, (x5)
const LR_D: u32 = 0x1202_B3AF;

/// sc.d.rl x7, x6, (x5)
const SC_D: u32 = 0x1A62_B3AF;

/// lr.w.rl x7, (x5)
const LR_W: u32 = 0x1202_A3AF;

/// sc.w.rl x7, x6, (x5)
const SC_W: u32 = 0x1A62_A3AF;

/// amoadd.d.rl x7, x6, (x5)
const AMOADD_D: u32 = 0x0262_B3AF;

/// amomax.w.rl x7, x6, (x5)
const AMOMAX_W: u32 = 0xA262_A3AF;

/// lb x7, 0(x5)
const LB: u32 = 0x0002_8383;

/// lbu x7, 0(x5)
const LBU: u32 = 0x0002_C383;

/// lh x7, 0(x5)
const LH: u32 = 0x0002_9383;

/// lhu x7, 0(x5)
const LHU: u32 = 0x0002_D383;

/// lw x7, 0(x5)
const LW: u32 = 0x0002_A383;

/// lwu x7, 0(x5)
const LWU: u32 = 0x0002_E383;

/// ld x7, 0(x5)
const LD: u32 = 0x0002_B383;

/// sb x6, 7(x5)
const SB_AT_7: u32 = 0x0062_83A3;

/// sw x6, 0(x5)
const SW: u32 = 0x0062_A023;

/// sd x6, 0(x5)
const SD: u32 = 0x0062_B023;

/// jalr x7, 5(x7)
const JALR: u32 = 0x0053_83E7;

/// jal x7, -8
const JAL_BACK: u32 = 0xFF9F_F3EF;

/// jal x7, 2
const JAL_BY_2: u32 = 0x0020_03EF;

/// beq x5, x6, 2
const BEQ_BY_2: u32 = 0x0062_8163;

/// lui x7, 0x80000
const LUI: u32 = 0x8000_03B7;

/// auipc x7, 0x80000
const AUIPC: u32 = 0x8000_0397;

/// addi x7, x5, -1
const ADDI: u32 = 0xFFF2_8393;

/// addi x0, x5, -1
const ADDI_TO_X0: u32 = 0xFFF2_8013;

/// sraiw x7, x5, 31
const SRAIW: u32 = 0x41F2_D39B;

/// div x7, x5, x6
const DIV: u32 = 0x0262_C3B3;

/// fence
const FENCE: u32 = 0x0FF0_000F;

const ECALL: u32 = 0x0000_0073;

const EBREAK: u32 = 0x0010_0073;

/// A hart, the word of its instruction, x5 and x6 before it; the step, and x7 and the pc after it.
type Row = (u16, u32, u64, u64, Step, u64, Address);

/// Instructions, one after the other, over the same memory and the same reservations. What follows
/// from each is worked out from the RISC-V manual.
static ROWS: [Row; 67] = [
    // Another hart stores to the last of the reserved bytes.
    (0, LR_D, DATA, 0, DONE, 0, NEXT),
    (1, SB_AT_7, DATA, 0xABFF, DONE, KEPT, NEXT),
    (0, SC_D, DATA, 5, DONE, 1, NEXT),
    (0, LD, DATA, 0, DONE, 0xFF00_0000_0000_0000, NEXT),
    // The reservation stands, and is spent.
    (0, LR_D, DATA, 0, DONE, 0xFF00_0000_0000_0000, NEXT),
    (0, SC_D, DATA, 5, DONE, 0, NEXT),
    (0, SC_D, DATA, 6, DONE, 1, NEXT),
    (0, LD, DATA, 0, DONE, 5, NEXT),
    // A reservation is of all 8 bytes.
    (0, LR_W, DATA + 4, 0, DONE, 0, NEXT),
    (0, SC_W, DATA, 0x0001_8000_0000, DONE, 0, NEXT),
    (0, LW, DATA, 0, DONE, 0xFFFF_FFFF_8000_0000, NEXT),
    (0, LWU, DATA, 0, DONE, 0x8000_0000, NEXT),
    // Of two harts with reservations the first to store succeeds.
    (0, LR_D, DATA, 0, DONE, 0x8000_0000, NEXT),
    (1, LR_D, DATA, 0, DONE, 0x8000_0000, NEXT),
    (0, SC_D, DATA, 1, DONE, 0, NEXT),
    (1, SC_D, DATA, 2, DONE, 1, NEXT),
    // A hart has one reservation, which `sc` ends wherever it stores.
    (0, LR_D, DATA, 0, DONE, 1, NEXT),
    (0, LR_D, DATA + 8, 0, DONE, 0, NEXT),
    (0, SC_D, DATA, 9, DONE, 1, NEXT),
    (0, SC_D, DATA + 8, 9, DONE, 1, NEXT),
    // A store beside the bytes leaves the reservation, one that only touches them ends it.
    (0, LR_D, DATA, 0, DONE, 1, NEXT),
    (1, SD, DATA + 8, 0x1122_3344_5566_7788, DONE, KEPT, NEXT),
    (0, SC_D, DATA, 4, DONE, 0, NEXT),
    (0, LR_D, DATA + 8, 0, DONE, 0x1122_3344_5566_7788, NEXT),
    (0, SW, DATA + 7, 0, DONE, KEPT, NEXT),
    (0, SC_D, DATA + 8, 4, DONE, 1, NEXT),
    (0, LD, DATA + 8, 0, DONE, 0x1122_3344_5500_0000, NEXT),
    // Loads extend by the sign, or by zeros.
    (0, SD, DATA + 16, 0x80FF, DONE, KEPT, NEXT),
    (0, LB, DATA + 16, 0, DONE, 0xFFFF_FFFF_FFFF_FFFF, NEXT),
    (0, LBU, DATA + 16, 0, DONE, 0xFF, NEXT),
    (0, LH, DATA + 16, 0, DONE, 0xFFFF_FFFF_FFFF_80FF, NEXT),
    (0, LHU, DATA + 16, 0, DONE, 0x80FF, NEXT),
    // Accesses may be misaligned and cross pages, if each byte has the right.
    (0, SD, DATA + 0xFFC, 0x8899_AABB_CCDD_EEFF, DONE, KEPT, NEXT),
    (0, LW, DATA + 0xFFE, 0, DONE, 0xFFFF_FFFF_AABB_CCDD, NEXT),
    (0, SD, READ_ALONE - 4, 1, ACCESS, KEPT, HERE),
    (0, LD, READ_ALONE - 4, 0, DONE, 0, NEXT),
    (0, LD, READ_ALONE + 0xFFC, 0, ACCESS, KEPT, HERE),
    // Misaligned is judged before Access. `sc` needs the right to write also if it would fail.
    (0, SC_D, READ_ALONE + 4, 0, MISALIGNED, KEPT, HERE),
    (0, SC_D, READ_ALONE, 0, ACCESS, KEPT, HERE),
    (0, LR_D, READ_ALONE, 0, DONE, 0, NEXT),
    (0, AMOADD_D, READ_ALONE, 0, ACCESS, KEPT, HERE),
    (0, AMOMAX_W, DATA + 2, 0, MISALIGNED, KEPT, HERE),
    (0, LR_W, DATA + 2, 0, MISALIGNED, KEPT, HERE),
    (0, LR_D, 0x0002_0000, 0, ACCESS, KEPT, HERE),
    // An `sc` that traps ends its own reservation.
    (0, LR_D, DATA, 0, DONE, 4, NEXT),
    (0, SC_D, READ_ALONE, 0, ACCESS, KEPT, HERE),
    (0, SC_D, DATA, 5, DONE, 1, NEXT),
    // An exchange gives the old value and stores the result, which ends reservations.
    (0, SD, DATA, 0x0001_8000_0000, DONE, KEPT, NEXT),
    (1, LR_D, DATA, 0, DONE, 0x0001_8000_0000, NEXT),
    (0, AMOMAX_W, DATA, 1, DONE, 0xFFFF_FFFF_8000_0000, NEXT),
    (1, SC_D, DATA, 0, DONE, 1, NEXT),
    (
        0,
        AMOADD_D,
        DATA,
        0xFFFF_FFFF_FFFF_FFFF,
        DONE,
        0x0001_0000_0001,
        NEXT,
    ),
    (0, LD, DATA, 0, DONE, 0x0001_0000_0000, NEXT),
    // Jumps: the base is read before the link is written, and a trap writes none.
    (0, JALR, 0, 0, DONE, NEXT, 0x7C),
    (0, JAL_BACK, 0, 0, DONE, NEXT, 0xFFF8),
    (0, JAL_BY_2, 0, 0, MISALIGNED, KEPT, HERE),
    (0, BEQ_BY_2, 5, 5, MISALIGNED, KEPT, HERE),
    (0, BEQ_BY_2, 5, 6, DONE, KEPT, NEXT),
    // The rest.
    (0, LUI, 0, 0, DONE, 0xFFFF_FFFF_8000_0000, NEXT),
    (0, AUIPC, 0, 0, DONE, 0xFFFF_FFFF_8001_0000, NEXT),
    (0, ADDI, 5, 0, DONE, 4, NEXT),
    (0, ADDI_TO_X0, 5, 0, DONE, KEPT, NEXT),
    (0, SRAIW, 0x8000_0000, 0, DONE, 0xFFFF_FFFF_FFFF_FFFF, NEXT),
    (
        0,
        DIV,
        0x8000_0000_0000_0000,
        0xFFFF_FFFF_FFFF_FFFF,
        DONE,
        0x8000_0000_0000_0000,
        NEXT,
    ),
    (0, FENCE, 0, 0, DONE, KEPT, NEXT),
    (0, ECALL, 0, 0, Step::Call, KEPT, HERE),
    (0, EBREAK, 0, 0, BREAK, KEPT, HERE),
];

fn area(start: Address, size: u64, rights: Rights) -> Area
    ensures { result ≡ record {
      start = start;
      size = size;
      rights = rights;
      vaddr = start;
      offset = 0;
      filled = 0;
    } }
{
    Area {
        start,
        size,
        rights,
        vaddr: start,
        offset: 0,
        filled: 0,
    }
}

fn program(alloc: Global) -> Result<Image<'static>, AllocError> {
    let text = Rights {
        read: true,
        write: false,
        execute: true,
    };
    let data = Rights {
        read: true,
        write: true,
        execute: false,
    };
    let alone = Rights {
        read: true,
        write: false,
        execute: false,
    };
    let areas = vec![in alloc;
        area(TEXT, 0x1000, text),
        area(DATA, 0x2000, data),
        area(READ_ALONE, 0x1000, alone),
    ]?;
    Ok(Image::new(&[], areas, TEXT, 0, 0))
}

fn memory<'a>(alloc: Global, image: &'a Image<'a>) -> Result<Memory<'a>, AllocError> {
    let layout = Layout {
        brk: 0,
        map: 0,
        stack: 0x1000,
    };
    Memory::new(alloc, image, layout)
}

/// The step of an instruction, and x7, the pc and x0 after it. None if there is no such hart, or
/// if the word is no instruction.
fn executed(
    memory: &mut Memory,
    reservations: &mut Reservations,
    row: &Row,
) -> Option<(Step, u64, Address, u64)> {
    let &(number, word, x5, x6, ..) = row;
    let instr = decode(word)?;
    if number >= 256 {
        return None;
    }
    let mut registers = [0; 32];
    registers[5] = x5;
    registers[6] = x6;
    registers[7] = KEPT;
    let mut hart = HartState {
        registers,
        pc: HERE,
    };
    let step = execute(&mut hart, HartId(number), memory, reservations, instr);
    Some((step, hart.registers[7], hart.pc, hart.registers[0]))
}

fn check_rows(rt: &impl Abort, memory: &mut Memory) {
    let mut reservations = Reservations::new();
    for (at, row) in ROWS.iter().enumerate() {
        let &(.., step, x7, pc) = row;
        let found = executed(memory, &mut reservations, row);
        check_equal(rt, (at, found), (at, Some((step, x7, pc, 0))));
    }
}

#[test]
fn instructions_have_the_effects_of_the_manual(rt: HostRuntime) -> Result<(), Fail> {
    let image = program(rt.alloc())?;
    let mut memory = memory(rt.alloc(), &image)?;
    check_rows(&rt, &mut memory);
    // By a call, since a drop in place is proved part by part.
    drop(memory);
    Ok(())
}

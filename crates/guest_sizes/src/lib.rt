//! The sizes of guests, and the limits of their runs, as numbers.
#![tactic(auto)]

ghost use Rattle.std.specs.Prelude.{◌≡◌};
ghost use Rattle.coz_types.specs.declared.TheConstants.{HARTS, LOAD_END, MAX_BUDGET, MAX_COUNT, MAX_LINE, MAX_LOADED, MAX_NUMBER, MAX_OUTPUT, MAX_POINTS, MAX_PROGRAM, MAX_SPEEDUP, MAX_VISITS, PAGE};
ghost use Rattle.guest_memory.specs.declared.TheConstants.{BRK_BASE, BRK_SIZE, MAP_BASE, MAP_SIZE, STACK_SIZE, STACK_TOP};
ghost use Rattle.guest_calls.specs.Times.{wake_moment};
ghost use Rattle.guest_pipes.specs.declared.TheConstants.{ATOMIC_BYTES, FIRST_NUMBER, NUMBERS, PIPES, PIPE_BYTES};

/// What the definitions of pipes and of times cite by name: how many pipes there are, the first
/// number of an end and how many numbers there are, the bytes that a pipe holds, those that a write
/// never cuts, and that a sleep of a second and a nanosecond takes 10^11 + 100 ticks.
pub fn sizes()
    ensures pipes { PIPES ≡ 64 }
    ensures first_end { FIRST_NUMBER ≡ 3 }
    ensures ends { NUMBERS ≡ 128 }
    ensures pipe_bytes { PIPE_BYTES ≡ 65536 }
    ensures atomic_bytes { ATOMIC_BYTES ≡ 4096 }
    ensures nanosecond { wake_moment 0 (record { seconds = 1; nanoseconds = 1 }) ≡ 100000000100 }
{}

/// What the definitions of a guest's memory cite by name, in bytes and addresses: a page, the end
/// of what is loaded and the most that is, and where the regions of brk and mmap and the stack lie
/// and how large they are.
pub fn memory_sizes()
    ensures page { PAGE ≡ 4096 }
    ensures load_end { LOAD_END ≡ 0x2000000000 }
    ensures loaded { MAX_LOADED ≡ 67108864 }
    ensures brk { (BRK_BASE ≡ 0x2000000000) × (BRK_SIZE ≡ 16777216) }
    ensures map { (MAP_BASE ≡ 0x2100000000) × (MAP_SIZE ≡ 50331648) }
    ensures stack { (STACK_TOP ≡ 0x4000000000) × (STACK_SIZE ≡ 1048576) }
{}

/// What the definitions of runs and of files cite by name: the harts that are ever made, the most
/// instructions, bytes of output, visits, points and per cent of a speedup, the bytes of a program's
/// file, the greatest number of a line, and the greatest number and count of a profile.
pub fn limits()
    ensures harts { HARTS ≡ 256 }
    ensures budget { MAX_BUDGET ≡ 1000000000000 }
    ensures output { MAX_OUTPUT ≡ 67108864 }
    ensures visits { MAX_VISITS ≡ 1048576 }
    ensures points { MAX_POINTS ≡ 64 }
    ensures speedup { MAX_SPEEDUP ≡ 95 }
    ensures program { MAX_PROGRAM ≡ 33554432 }
    ensures line { MAX_LINE ≡ 4294967295 }
    ensures number { MAX_NUMBER ≡ 100000000000000000 }
    ensures count { MAX_COUNT ≡ 1000000000 }
{}

//! Tests of system calls, by programs that make them.
use crate::calls::{add, assembled, check_call, one_file, over, printed};
use crate::checks::{Output, check_equal};
use coz_files::HeldFile;
use std::alloc::AllocError;
use std::process::Abort;
use std::test::Fail;
use std::thread::Threads;

/// What a program reads.
static INPUT: [u8; 11] = *b"first hello";

/// Does what the rows after it say. A row has the number of a hart, what the hart does, the number
/// of the call, a0 to a4, and a0 as it is to be after. If it is another, the run ends with
/// the number of the row, from 1 on, as its code.
///
/// Each hart spins until the next row is its own. It yields, for the 40 cycles that the call
/// of the row before takes, and moves on to the next row before its own call, since it may wait
/// there. After the call the letter of its row, from `A` on, is kept, so that `kept` tells
/// in which order the calls came back. A child goes on after the clone, with the number
/// that its parent's answer is to name.
///
/// `pipes` makes pipes until one isn't made or has other numbers than it is to have: those of the
/// first are in a2, and grow by a4. It gives the last answer and 256 for each pipe.
static DRIVER: &str = "\
text:
call:
    ecall
    ret
load:
    ld a0, 0(a1)
    ret
reserve:
    lr.w a0, (a1)
    ret
store:
    sc.w a0, a2, (a1)
    ret
stack:
    mv a0, sp
    ret
thread:
    mv a0, tp
    ret
pipes:
    li t3, 0
more:
    mv a0, a3
    ecall
    bne a0, x0, none
    ld t4, 0(a3)
    bne t4, a2, none
    add a2, a2, a4
    addi t3, t3, 1
    j more
none:
    slli t3, t3, 8
    add a0, a0, t3
    ret
_start:
    la s1, next
    la s2, place
    la s3, rows
turn:
    ld s4, 0(s1)
    ld t0, 0(s4)
    bne t0, s0, turn
    li a7, 124
    ecall
    ld t0, 8(s4)
    ld a7, 16(s4)
    ld a0, 24(s4)
    ld a1, 32(s4)
    ld a2, 40(s4)
    ld a3, 48(s4)
    ld a4, 56(s4)
    addi t1, s4, 72
    sd t1, 0(s1)
    jalr ra, 0(t0)
    sub t1, s4, s3
    li t2, 72
    div t1, t1, t2
    ld t0, 64(s4)
    bne a0, t0, other
    li t2, 1
    amoadd.d t0, t2, (s2)
    addi t1, t1, 65
    sb t1, 0(t0)
    j turn
other:
    bne a0, x0, wrong
    li t2, 220
    bne a7, t2, wrong
    addi s0, t0, -1
    j turn
wrong:
    addi a0, t1, 1
    li a7, 94
    ecall
.data
next: .dword rows
place: .dword kept
kept: .zero 64
rows:
";

/// The calls on streams. All of the input is read.
const STREAMS: &str = "
# ioctl and lseek
.dword 0, call, 29, 0, 0, 0, 0, 0, -25
.dword 0, call, 29, 3, 0, 0, 0, 0, -9
.dword 0, call, 62, 2, 0, 0, 0, 0, -29
.dword 0, call, 62, 3, 0, 0, 0, 0, -9
# read: its file, its rights, and no bytes
.dword 0, call, 63, 1, 0x3FFFFF0000, 1, 0, 0, -9
.dword 0, call, 63, 0, text, 1, 0, 0, -14
.dword 0, call, 63, 0, text, 0, 0, 0, 0
.dword 0, call, 63, 0, 0x3FFFFF0000, 6, 0, 0, 6
# readv: a part that may not be written leaves all as it is
.dword 0, call, 65, 1, parts, 1, 0, 0, -9
.dword 0, call, 65, 0, 0x3FFFFF0000, 1025, 0, 0, -22
.dword 0, call, 65, 0, 0, 1, 0, 0, -14
.dword 0, call, 65, 0, -1, 1, 0, 0, -14
.dword 0, call, 65, 0, parts, 2, 0, 0, -14
.dword 0, load, 0, 0, 0x3FFFFF0100, 0, 0, 0, 0
.dword 0, call, 65, 0, 0, 0, 0, 0, 0
.dword 0, call, 65, 0, parts, 1, 0, 0, 3
.dword 0, call, 65, 0, parts, 2, 0, 0, 2
.dword 0, call, 63, 0, text, 100, 0, 0, 0
# write
.dword 0, call, 64, 0, 0x3FFFFF0000, 1, 0, 0, -9
.dword 0, call, 64, 1, 0, 1, 0, 0, -14
.dword 0, call, 64, 1, 0x3FFFFF0000, -1, 0, 0, -14
.dword 0, call, 64, 1, 0x3FFFFF0100, 1, 0, 0, 1
# writev, whose second part is the first byte of ecall
.dword 0, call, 66, 0, parts, 1, 0, 0, -9
.dword 0, call, 66, 1, 0x3FFFFF0000, 1025, 0, 0, -22
.dword 0, call, 66, 1, 0x3FFFFF1000, 1024, 0, 0, 0
.dword 0, call, 66, 1, 0, 1, 0, 0, -14
.dword 0, call, 66, 1, parts, 3, 0, 0, -14
.dword 0, call, 66, 2, parts, 1, 0, 0, 3
.dword 0, call, 66, 1, parts, 2, 0, 0, 4
.dword 0, call, 64, 2, 0x3FFFFF0000, 6, 0, 0, 6
.dword 0, call, 94, 0, 0, 0, 0, 0, 0
parts: .dword 0x3FFFFF0100, 3, text, 1, 0, 1
";

/// The calls of a hart about itself, and those that change what it may read and write.
const OWN: &str = "
# set_tid_address, sched_yield, getpid and gettid
.dword 0, call, 96, 0x3FFFFF0000, 0, 0, 0, 0, 1
.dword 0, call, 124, 0, 0, 0, 0, 0, 0
.dword 0, call, 172, 0, 0, 0, 0, 0, 1
.dword 0, call, 178, 0, 0, 0, 0, 0, 1
# rt_sigprocmask
.dword 0, call, 135, 0, 0, 0x3FFFFF0000, 7, 0, -22
.dword 0, call, 135, 0, 0, 0, 8, 0, 0
.dword 0, call, 135, 0, 0, text, 8, 0, -14
.dword 0, call, 135, 0, 0, mask, 8, 0, 0
.dword 0, load, 0, 0, mask, 0, 0, 0, 0
# brk
.dword 0, call, 214, 0, 0, 0, 0, 0, 0x2000000000
.dword 0, call, 214, 0x2000001388, 0, 0, 0, 0, 0x2000001388
.dword 0, call, 214, 0x2001000001, 0, 0, 0, 0, 0x2000001388
# mmap, munmap and mremap
.dword 0, call, 222, 0, 8192, 3, 0x22, 0, 0x2100000000
.dword 0, call, 222, 0, 0, 3, 0x22, 0, -22
.dword 0, call, 222, 0, 1, 4, 0x22, 0, -13
.dword 0, call, 222, 0, -1, 3, 0x22, 0, -12
.dword 0, call, 215, 0x2100000001, 1, 0, 0, 0, -22
.dword 0, call, 215, 0x2100000000, 1, 0, 0, 0, 0
.dword 0, call, 64, 1, 0x2100000000, 1, 0, 0, -14
.dword 0, call, 216, 0, 0, 0, 0, 0, -12
# mprotect and madvise
.dword 0, call, 226, 0x2100001000, 4096, 1, 0, 0, 0
.dword 0, call, 226, 0x2100000000, 8192, 1, 0, 0, -12
.dword 0, call, 233, 0, 0, 0, 0, 0, -22
.dword 0, call, 94, 0, 0, 0, 0, 0, 0
mask: .dword -1
";

/// The calls of time: what they refuse, and what they leave in memory.
const TIMES: &str = "
# clock_gettime: its 16 bytes
.dword 0, call, 113, 0, text, 0, 0, 0, -14
.dword 0, call, 113, 0, 0x3FFFFFFFF1, 0, 0, 0, -14
.dword 0, call, 113, 0, -1, 0, 0, 0, -14
# it ends a reservation of its second number
.dword 0, reserve, 0, 0, rest, 0, 0, 0, 7
.dword 0, store, 0, 0, rest, 9, 0, 0, 0
.dword 0, reserve, 0, 0, rest, 0, 0, 0, 9
.dword 0, call, 113, 0, shown, 0, 0, 0, 0
.dword 0, store, 0, 0, rest, 9, 0, 0, 1
.dword 0, load, 0, 0, shown, 0, 0, 0, 0
# nanosleep: its 16 bytes, and the ranges of its numbers, which are judged before the moment
.dword 0, call, 101, 0x3FFFFFFFF1, 0, 0, 0, 0, -14
.dword 0, call, 101, -1, 0, 0, 0, 0, -14
.dword 0, call, 101, before, 0, 0, 0, 0, -22
.dword 0, call, 101, least, 0, 0, 0, 0, -22
.dword 0, call, 101, below, 0, 0, 0, 0, -22
.dword 0, call, 101, whole, 0, 0, 0, 0, -22
.dword 0, call, 101, late, 0, 0, 0, 0, -22
# the time left isn't stored
.dword 0, call, 101, nap, nap, 0, 0, 0, 0
.dword 0, load, 0, 0, nap, 0, 0, 0, 1
.dword 0, load, 0, 0, half, 0, 0, 0, 999999999
.dword 0, call, 94, 0, 0, 0, 0, 0, 0
shown: .dword 7
rest: .dword 7
before: .dword -1, 0
least: .dword 0x8000000000000000, 0
below: .dword 0, -1
whole: .dword 0, 1000000000
late: .dword 0x7FFFFFFFFFFFFFFF, 1000000000
nap: .dword 1
half: .dword 999999999
";

/// Four harts are made, wait, wake each other and leave. The letters of rows that wait stand after
/// what wakes them; of those that are due at once, the hart of the least number is first.
const THREADS: &str = "
# A to H: a child's id is stored where it may be, and it has a stack and a thread pointer
.dword 0, call, 220, 0x17D0F11, 0x3FFFFF0040, 0x3FFFFF0000, 7, 0x3FFFFF0004, 2
.dword 1, call, 178, 0, 0, 0, 0, 0, 2
.dword 1, stack, 0, 0, 0, 0, 0, 0, 0x3FFFFF0040
.dword 1, thread, 0, 0, 0, 0, 0, 0, 7
.dword 0, load, 0, 0, 0x3FFFFF0000, 0, 0, 0, 0x200000002
.dword 0, call, 220, 0x1310F00, 0, text, 0, text, 3
.dword 2, stack, 0, 0, 0, 0, 0, 0, 0x3FFFFFFF50
.dword 0, call, 220, 0x10F00, 0, 0, 0, 0, 4
# I to K: a wait looks at the address and at a value of 32 bits
.dword 0, call, 98, 0x3FFFFF0002, 0, 2, 0, 0, -22
.dword 0, call, 98, 0x2100000000, 0, 2, 0, 0, -14
.dword 0, call, 98, 0x3FFFFF0000, 0, 4, 0, 0, -11
# L, M and N wait
.dword 3, call, 98, 0x3FFFFF0000, 128, 0x500000002, 0, 0, 0
.dword 0, call, 98, 0x3FFFFF0000, 0, 2, 0, 0, 0
.dword 2, call, 98, 0x3FFFFF0004, 0, 2, 0, 0, 0
# O to T: a wake starts one hart at least, the oldest first, of those that wait at the address:
# Q starts L, R waits, S starts M and R
.dword 1, call, 98, 0x3FFFFF0002, 1, 1, 0, 0, -22
.dword 1, call, 98, 0x3FFFFF0008, 1, 9, 0, 0, 0
.dword 1, call, 98, 0x3FFFFF0000, 129, 0, 0, 0, 1
.dword 3, call, 98, 0x3FFFFF0000, 0, 2, 0, 0, 0
.dword 1, call, 98, 0x3FFFFF0000, 1, 9, 0, 0, 2
.dword 1, call, 98, 0x3FFFFF0000, 1, 0xFFFFFFFF, 0, 0, 0
# U to Y: V waits after N; W leaves, which clears the word at 0x3FFFFF0004 and starts N alone;
# Y starts V
.dword 3, call, 96, 0x3FFFFF0008, 0, 0, 0, 0, 4
.dword 3, call, 98, 0x3FFFFF0004, 0, 2, 0, 0, 0
.dword 1, call, 93, 5, 0, 0, 0, 0, 0
.dword 0, call, 98, 0x3FFFFF0004, 0, 2, 0, 0, -11
.dword 0, call, 98, 0x3FFFFF0004, 1, 1, 0, 0, 1
# Z waits at the word of [, which leaves and may not write there, so that \\ starts Z
.dword 3, call, 98, text, 0, 0x73, 0, 0, 0
.dword 2, call, 93, 0, 0, 0, 0, 0, 0
.dword 0, call, 98, text, 1, 1, 0, 0, 1
# ] waits, and the last other hart leaves, which starts it
.dword 0, call, 98, 0x3FFFFF0008, 0, 0, 0, 0, 0
.dword 3, call, 93, 0, 0, 0, 0, 0, 0
.dword 0, call, 64, 1, kept, 27, 0, 0, 27
.dword 0, call, 94, 0, 0, 0, 0, 0, 0
";

/// Four harts wait in another order than that of their numbers, and are woken by their age. Those
/// of one wake go on at one moment, the hart of the least number first.
const AGES: &str = "
.dword 0, call, 220, 0x10F00, 0, 0, 0, 0, 2
.dword 0, call, 220, 0x10F00, 0, 0, 0, 0, 3
.dword 0, call, 220, 0x10F00, 0, 0, 0, 0, 4
.dword 0, call, 220, 0x10F00, 0, 0, 0, 0, 5
# E to H wait
.dword 3, call, 98, 0x3FFFFF0000, 0, 0, 0, 0, 0
.dword 1, call, 98, 0x3FFFFF0000, 0, 0, 0, 0, 0
.dword 4, call, 98, 0x3FFFFF0000, 0, 0, 0, 0, 0
.dword 2, call, 98, 0x3FFFFF0000, 0, 0, 0, 0, 0
# I starts E and F, J starts G, K starts H
.dword 0, call, 98, 0x3FFFFF0000, 1, 2, 0, 0, 2
.dword 0, call, 98, 0x3FFFFF0000, 1, 1, 0, 0, 1
.dword 0, call, 98, 0x3FFFFF0000, 1, 2, 0, 0, 1
.dword 0, call, 64, 1, kept, 11, 0, 0, 11
.dword 0, call, 94, 0, 0, 0, 0, 0, 0
";

/// The calls of pipes. A hart that waits has its letter after what wakes it.
const PIPES: &str = "
# pipe2: its 8 bytes, which end a reservation. No number is gone where it is refused
.dword 0, call, 59, text, 0, 0, 0, 0, -14
.dword 0, call, 59, 0x3FFFFFFFFC, 0, 0, 0, 0, -14
.dword 0, reserve, 0, 0, 0x3FFFFF0004, 0, 0, 0, 0
.dword 0, call, 59, 0x3FFFFF0000, 0x80000, 0, 0, 0, 0
.dword 0, store, 0, 0, 0x3FFFFF0004, 9, 0, 0, 1
.dword 0, load, 0, 0, 0x3FFFFF0000, 0, 0, 0, 0x400000003
# ioctl and lseek of an end, the other end, and numbers of 64 bits
.dword 0, call, 29, 3, 0, 0, 0, 0, -25
.dword 0, call, 62, 4, 0, 0, 0, 0, -29
.dword 0, call, 63, 4, 0x3FFFFF0100, 1, 0, 0, -9
.dword 0, call, 64, 3, 0x3FFFFF0100, 1, 0, 0, -9
.dword 0, call, 63, 0x100000003, 0x3FFFFF0100, 1, 0, 0, -9
.dword 0, call, 57, 0x100000003, 0, 0, 0, 0, -9
# M to U: no bytes, rights, and bytes in their order; a read that is refused takes none,
# and one that isn't ends a reservation
.dword 0, call, 63, 3, 0, 0, 0, 0, 0
.dword 0, call, 64, 4, 0, 1, 0, 0, -14
.dword 0, call, 64, 4, kept, 4, 0, 0, 4
.dword 0, call, 63, 3, text, 2, 0, 0, -14
.dword 0, reserve, 0, 0, 0x3FFFFF0100, 0, 0, 0, 0
.dword 0, call, 63, 3, 0x3FFFFF0100, 3, 0, 0, 3
.dword 0, store, 0, 0, 0x3FFFFF0100, 9, 0, 0, 1
.dword 0, call, 63, 3, 0x3FFFFF0103, -1, 0, 0, 1
.dword 0, load, 0, 0, 0x3FFFFF0100, 0, 0, 0, 0x44434241
# V to [: of 70,000 bytes 65,536 fit; Z waits for room, and [ makes it for 4,096
.dword 0, call, 220, 0x10F00, 0, 0, 0, 0, 2
.dword 0, call, 64, 4, 0x3FFFFE0000, 70000, 0, 0, 65536
.dword 0, call, 64, 4, 0, 0, 0, 0, 0
.dword 0, call, 64, 4, 0, 1, 0, 0, -14
.dword 1, call, 64, 4, kept, 1, 0, 0, 1
.dword 0, call, 63, 3, 0x3FFFFE0000, 4096, 0, 0, 4096
# \\ to _: with room for 4,095 bytes \\ waits, and ] doesn't
.dword 1, call, 64, 4, 0x3FFFFE0000, 4096, 0, 0, 4096
.dword 0, call, 64, 4, 0x3FFFFE0000, 4095, 0, 0, 4095
.dword 0, call, 63, 3, 0x3FFFFE0000, -1, 0, 0, 65536
.dword 0, call, 63, 3, 0x3FFFFE0000, 100000, 0, 0, 4096
# ` waits for bytes, and a closes the end that writes
.dword 1, call, 63, 3, 0x3FFFFE0000, -1, 0, 0, 0
.dword 0, call, 57, 4, 0, 0, 0, 0, 0
.dword 0, call, 63, 3, 0x3FFFFE0000, -1, 0, 0, 0
.dword 0, call, 57, 4, 0, 0, 0, 0, -9
.dword 0, call, 57, 3, 0, 0, 0, 0, 0
.dword 0, call, 57, 3, 0, 0, 0, 0, -9
# no end reads
.dword 0, call, 59, 0x3FFFFF0000, 0, 0, 0, 0, 0
.dword 0, call, 57, 3, 0, 0, 0, 0, 0
.dword 0, call, 64, 4, 0, 0, 0, 0, 0
.dword 0, call, 64, 4, 0, 1, 0, 0, -32
.dword 0, call, 57, 4, 0, 0, 0, 0, 0
# 64 pipes, and no more while an end of each is open
.dword 0, pipes, 59, 0, 0, 0x400000003, 0x3FFFFF0000, 0x200000002, 16360
.dword 0, call, 57, 10, 0, 0, 0, 0, 0
.dword 0, call, 57, 11, 0, 0, 0, 0, 0
.dword 0, call, 59, 0x3FFFFF0000, 0, 0, 0, 0, -24
.dword 0, call, 57, 9, 0, 0, 0, 0, 0
.dword 0, call, 59, 0x3FFFFF0000, 0, 0, 0, 0, 0
.dword 0, load, 0, 0, 0x3FFFFF0000, 0, 0, 0, 0xA00000009
.dword 0, call, 64, 1, kept, 49, 0, 0, 49
.dword 0, call, 94, 0, 0, 0, 0, 0, 0
";

/// A word is stored that was reserved before, and nothing is as it was then: two harts wait, one of
/// them at an empty pipe, half of the input and half of another pipe are read, three bytes are
/// written, the break has moved, and pages are mapped.
const HALVES: &str = "
.dword 0, call, 220, 0x10F00, 0, 0, 0, 0, 2
.dword 1, call, 98, 0x3FFFFF0000, 0, 0, 0, 0, 0
.dword 0, call, 220, 0x10F00, 0, 0, 0, 0, 3
.dword 0, call, 59, 0x3FFFFF0050, 0, 0, 0, 0, 0
.dword 0, call, 59, 0x3FFFFF0050, 0, 0, 0, 0, 0
.dword 2, call, 63, 5, 0x3FFFFF0300, 9, 0, 0, 2
.dword 0, call, 64, 4, kept, 4, 0, 0, 4
.dword 0, call, 63, 3, 0x3FFFFF0310, 2, 0, 0, 2
.dword 0, call, 63, 0, 0x3FFFFF0100, 6, 0, 0, 6
.dword 0, call, 64, 1, 0x3FFFFF0100, 3, 0, 0, 3
.dword 0, call, 214, 0x2000001388, 0, 0, 0, 0, 0x2000001388
.dword 0, call, 222, 0, 8192, 3, 0x22, 0, 0x2100000000
.dword 0, reserve, 0, 0, 0x3FFFFF0040, 0, 0, 0, 0
.dword 0, store, 0, 0, 0x3FFFFF0040, 7, 0, 0, 0
.dword 0, load, 0, 0, 0x3FFFFF0040, 0, 0, 0, 7
.dword 0, call, 63, 3, 0x3FFFFF0310, 9, 0, 0, 2
.dword 0, call, 64, 6, 0x3FFFFF0310, 2, 0, 0, 2
.dword 2, load, 0, 0, 0x3FFFFF0300, 0, 0, 0, 0x4544
.dword 0, call, 57, 3, 0, 0, 0, 0, 0
.dword 0, call, 63, 0, 0x3FFFFF0200, 100, 0, 0, 5
.dword 0, call, 64, 1, 0x3FFFFF0200, 1, 0, 0, 1
.dword 0, call, 214, 0, 0, 0, 0, 0, 0x2000001388
.dword 0, call, 214, 0x2000002328, 0, 0, 0, 0, 0x2000002328
.dword 0, call, 226, 0x2100000000, 8192, 1, 0, 0, 0
.dword 0, call, 215, 0x2100000000, 4096, 0, 0, 0, 0
.dword 0, call, 98, 0x3FFFFF0000, 1, 1, 0, 0, 1
.dword 1, call, 178, 0, 0, 0, 0, 0, 2
.dword 1, call, 220, 0x10F00, 0, 0, 0, 0, 4
.dword 3, call, 178, 0, 0, 0, 0, 0, 4
.dword 3, call, 94, 0, 0, 0, 0, 0, 0
";

/// Rows for the driver, whose calls return what they say, and the output with its length.
/// By hand, from docs/FORMATS.md, System calls.
static ANSWERS: [(&str, &str); 7] = [
    (STREAMS, "14\nllollolsfirst \n"),
    (OWN, "0\n\n"),
    (TIMES, "0\n\n"),
    (THREADS, "27\nABCDEFGHIJKOPQLMSRTUNXYV\\Z]\n"),
    (AGES, "11\nABCDIFEJGKH\n"),
    (
        PIPES,
        "49\nABCDEFGHIJKLMNOPQRSTUVWXY[Z]^\\_a`bcdefghijklmnopq\n",
    ),
    (HALVES, "4\nfirh\n"),
];

/// An output without bytes, after its length.
const NOTHING: &str = "0\n\n";

/// The program of a text and the text after it, and its input.
fn guest<R: Threads + Sync + AllocGlobal>(
    rt: &R,
    text: &str,
    rows: &str,
) -> Result<Vec<HeldFile>, AllocError> {
    let alloc = rt.alloc();
    let source = format!(in alloc; "{text}{rows}\n")?;
    let program = assembled(rt, "guest.s", source.as_bytes())?;
    let mut files = one_file(alloc, "guest", &program)?;
    add(alloc, &mut files, b"input", &INPUT)?;
    Ok(files)
}

/// Calls `coz` with these arguments about the program, and compares how the run ends and what it
/// writes.
fn check_run<R: Threads + Sync + AllocGlobal + Abort>(
    rt: &R,
    words: &[&str],
    program: (&str, &str),
    end: &str,
    output: &str,
) -> Result<(), Fail> {
    let files = guest(rt, program.0, program.1)?;
    let status = u8::from(!end.starts_with("end exited:"));
    let expected = (status, Output::Run(end, output), b"".as_slice());
    check_call(rt, words, &over(&files), expected)
}

/// A row that is wrong may leave harts that spin.
const RUN: [&str; 4] = ["run", "guest", "--input=input", "--budget=100000"];

#[test]
fn calls_return_their_values(rt: HostRuntime) -> Result<(), Fail> {
    for (rows, output) in &ANSWERS {
        check_run(&rt, &RUN, (DRIVER, *rows), "end exited:0", *output)?;
    }
    Ok(())
}

/// How each run of the last rows ends in a profile, and what it writes.
const ENDED: &str = "\tend=exited:0\t";

const WRITTEN: &str =
    "\noutput\tlength=4\tsha256=4c70a771049ec3cb8f3842dd59e584d6f41efb229ca30375789b2e087643e0a2\n";

/// One worker makes the three runs of the line of `sc.w`, each from a copy of the run that
/// has come to it: over a guest that has not begun, and over one that has gone on to its end.
#[test]
fn copies_of_a_guest_return_the_same_values(rt: HostRuntime) -> Result<(), Fail> {
    let files = guest(&rt, DRIVER, HALVES)?;
    let words = [
        "profile",
        "guest",
        "--input=input",
        "--budget=100000",
        "--lines=guest.s:12",
        "--speedups=25,50",
        "--workers=1",
    ];
    let profile = printed(&rt, &words, &files)?;
    let text = str::from_utf8(&profile).unwrap_or("");
    let found = (text.matches(ENDED).count(), text.matches(WRITTEN).count());
    check_equal(&rt, found, (3, 3));
    Ok(())
}

/// Rows whose calls end the run: what is not supported, and exits.
/// By hand, from docs/FORMATS.md, System calls.
static ENDS: [(&str, &str); 22] = [
    // futex: another operation, and a wait with a timeout
    (".dword 0, call, 98, text, 2", "end unsupported:98"),
    (
        ".dword 0, call, 98, text, 0x100000000",
        "end unsupported:98",
    ),
    (
        ".dword 0, call, 98, text, 128, 0, text",
        "end unsupported:98",
    ),
    // clone: a flag is missing, or one is not known
    (".dword 0, call, 220, 0x10E00", "end unsupported:220"),
    (".dword 0, call, 220, 0x10D00", "end unsupported:220"),
    (".dword 0, call, 220, 0x10B00", "end unsupported:220"),
    (".dword 0, call, 220, 0x10700", "end unsupported:220"),
    (".dword 0, call, 220, 0x00F00", "end unsupported:220"),
    (".dword 0, call, 220, 0x11F00", "end unsupported:220"),
    (".dword 0, call, 220, 0x100010F00", "end unsupported:220"),
    // mmap: of no sort, and at a fixed address
    (".dword 0, call, 222, 0, 1, 3, 0x20", "end unsupported:222"),
    (".dword 0, call, 222, 0, 1, 3, 0x32", "end unsupported:222"),
    // clock_gettime: another clock, whose number has 64 bits
    (".dword 0, call, 113, 2, text", "end unsupported:113"),
    (
        ".dword 0, call, 113, 0x100000000, kept",
        "end unsupported:113",
    ),
    // close of a stream, a pipe that doesn't wait, and ranges of an end
    (".dword 0, call, 57, 0", "end unsupported:57"),
    (".dword 0, call, 57, 2", "end unsupported:57"),
    (".dword 0, call, 59, kept, 0x800", "end unsupported:59"),
    (
        ".dword 0, call, 59, 0x3FFFFF0000, 0, 0, 0, 0, 0\n.dword 0, call, 65, 3",
        "end unsupported:65",
    ),
    (
        ".dword 0, call, 59, 0x3FFFFF0000, 0, 0, 0, 0, 0\n.dword 0, call, 66, 4",
        "end unsupported:66",
    ),
    // no call
    (".dword 0, call, 1000", "end unsupported:1000"),
    // exit_group, and exit of the last hart
    (".dword 0, call, 94, 0x107", "end exited:7"),
    (".dword 0, call, 93, 0x108", "end exited:8"),
];

#[test]
fn unsupported_calls_and_exits_end_the_run(rt: HostRuntime) -> Result<(), Fail> {
    for (row, end) in &ENDS {
        check_run(&rt, &RUN, (DRIVER, *row), *end, NOTHING)?;
    }
    Ok(())
}

/// Makes all harts that there may be, each of which leaves at once, until the answer is another
/// than the next hart's thread id: then that answer is -11, and the id 257.
const MOST: &str = "\
    li s0, 1
again:
    li a0, 0x10F00
    li a1, 0
    li a7, 220
    ecall
    beq a0, x0, child
    addi s0, s0, 1
    beq a0, s0, again
    addi a0, a0, 11
    addi s0, s0, -257
    or a0, a0, s0
    li a7, 94
    ecall
child:
    li a7, 93
    ecall
";

#[test]
fn at_most_256_harts_are_created(rt: HostRuntime) -> Result<(), Fail> {
    check_run(&rt, &["run", "guest"], (MOST, ""), "end exited:0", NOTHING)
}

/// Sleeps for a span and reads the clock, which is to show two numbers. The sleep begins at
/// 45 nanoseconds, and the clock is read 44 after its end.
const NAP: &str = "\
    la s0, span
    mv a0, s0
    li a1, 0
    li a7, 101
    ecall
    li a0, 1
    la a1, shown
    li a7, 113
    ecall
    li a0, 1
    ld t0, 16(s0)
    ld t1, 0(a1)
    bne t0, t1, end
    li a0, 2
    ld t0, 24(s0)
    ld t1, 8(a1)
    bne t0, t1, end
    li a0, 0
end:
    li a7, 94
    ecall
.data
shown: .zero 16
span: .dword ";

/// Reads the clock as early as a program may: its number and an address take a cycle each,
/// and the call 40. The code is the nanoseconds.
const EARLY: &str = "\
    li a7, 113
    mv a1, sp
    ecall
    ld a0, 8(sp)
    li a7, 94
    ecall
";

/// The program as it is; with its first line, of two cycles, or its third, of one, made cheaper
/// by this speedup.
const PLAIN: [&str; 2] = ["run", "guest"];

const TWO_BY_50: [&str; 4] = ["run", "guest", "--line=guest.s:1", "--speedup=50"];

const TWO_BY_49: [&str; 4] = ["run", "guest", "--line=guest.s:1", "--speedup=49"];

const ONE_BY_55: [&str; 4] = ["run", "guest", "--line=guest.s:3", "--speedup=55"];

const ONE_BY_1: [&str; 4] = ["run", "guest", "--line=guest.s:3", "--speedup=1"];

/// With its first line, of one cycle, or its third, of 40, made cheaper.
const FIRST_BY_1: [&str; 4] = ["run", "guest", "--line=guest.s:1", "--speedup=1"];

const CALL_BY_93: [&str; 4] = ["run", "guest", "--line=guest.s:3", "--speedup=93"];

const CALL_BY_95: [&str; 4] = ["run", "guest", "--line=guest.s:3", "--speedup=95"];

/// A program, the text after it, the arguments, and how the run ends.
/// By hand, from docs/FORMATS.md, Virtual time and Time.
static CLOCKS: [(&str, &str, &[&str], &str); 13] = [
    // seconds and nanoseconds are rounded down
    (NAP, "0, 0, 0, 89", &PLAIN, "end exited:0"),
    (NAP, "0, 0, 0, 88", &ONE_BY_1, "end exited:0"),
    (NAP, "1, 999999999, 2, 88", &PLAIN, "end exited:0"),
    (
        NAP,
        "1234, 567890035, 1234, 567890123",
        &ONE_BY_55,
        "end exited:0",
    ),
    // at 4,200 ticks, at 4,199, at 480 and at 400, which is the least
    (EARLY, "", &PLAIN, "end exited:42"),
    (EARLY, "", &FIRST_BY_1, "end exited:41"),
    (EARLY, "", &CALL_BY_93, "end exited:4"),
    (EARLY, "", &CALL_BY_95, "end exited:4"),
    // the last moment is 100,000 seconds
    (NAP, "99999, 999999955, 100000, 44", &PLAIN, "end exited:0"),
    (NAP, "99999, 999999956, 0, 0", &PLAIN, "end clock"),
    (
        NAP,
        "99999, 999999956, 100000, 44",
        &TWO_BY_50,
        "end exited:0",
    ),
    (NAP, "99999, 999999956, 0, 0", &TWO_BY_49, "end clock"),
    (
        NAP,
        "0x7FFFFFFFFFFFFFFF, 999999999, 0, 0",
        &PLAIN,
        "end clock",
    ),
];

#[test]
fn clocks_and_sleeps_use_the_net_time(rt: HostRuntime) -> Result<(), Fail> {
    for (text, rows, words, end) in &CLOCKS {
        check_run(&rt, *words, (*text, *rows), *end, NOTHING)?;
    }
    Ok(())
}

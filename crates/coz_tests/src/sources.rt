//! The programs that several modules of tests assemble.
//!
//! The number in a7 is that of a system call of docs/FORMATS.md: 57 close, 59 pipe2, 63 read, 64
//! write, 93 exit, 94 exit_group, 98 futex (a1 is 0 to wait and 1 to wake), 101 nanosleep, 113
//! clock_gettime, 124 sched_yield, 220 clone. The flags 0x10F00 are those that every thread has,
//! and 0x200000 asks for a word that its exit clears.

/// A path, and the source.
pub(crate) type Source = (&'static str, &'static [u8]);

/// A program of three instructions that exits.
pub(crate) const ONE: &[u8] = b"    addi a0, x0, 0\n    addi a7, x0, 93\n    ecall\n";

/// Two harts.
pub(crate) const TWO: &[u8] = b"li a0, 0x10F00\nli a1, 0\nli a7, 220\necall\n\
    addi t0, t0, 1\nli a0, 0\nli a7, 93\necall\n";

/// It traps.
pub(crate) const TRAP: &[u8] = b"    ebreak\n";

/// It waits for a wake that nobody makes.
pub(crate) const STALL: &[u8] = b"la a0, word\nli a1, 0\nli a2, 0\nli a7, 98\necall\n\
    .data\nword: .word 0\n";

/// A hart waits for the exit of another.
pub(crate) const JOIN: &[u8] = b"la a4, word\nli a0, 0x210F00\nli a7, 220\necall\n\
    beq a0, x0, child\nmv a0, a4\nli a1, 0\nli a2, 1\nli a7, 98\necall\n\
    li a0, 0\nli a7, 94\necall\n\
    child: li a7, 124\necall\n\
    li a7, 93\necall\n\
    .data\nword: .word 1\n";

/// A hart waits for the wake of another.
pub(crate) const WAIT: &[u8] = b"li a0, 0x10F00\nli a7, 220\necall\n\
    beq a0, x0, child\nla a0, word\nli a1, 0\nli a2, 0\nli a7, 98\necall\n\
    li a0, 0\nli a7, 94\necall\n\
    child: li a7, 124\necall\necall\n\
    li t0, 10\n\
    again: div t1, t1, t0\naddi t0, t0, -1\nbne t0, x0, again\nla a0, word\nli a1, 1\n\
    li a2, 1\nli a7, 98\necall\n\
    li a7, 93\necall\n\
    .data\nword: .word 0\n";

/// Two harts wait for each other: one puts 50 numbers into a slot, and the other takes them.
pub(crate) const PC: &[u8] = b"# pc.s\n.text\n\
    _start:\nla s0, slot\nla s1, left\nli a0, 0x10F00\nli a7, 220\necall\n\
    beq a0, x0, consume\nli s2, 50\n\
    produce:\nmul t1, s2, s2\naddi t1, t1, 7\n\
    wait_free:\nlw t0, 0(s0)\nbeq t0, x0, put\nmv a0, s0\nli a1, 0\nmv a2, t0\nli a7, 98\n\
    ecall\n\
    j wait_free\n\
    put:\nsw s2, 0(s0)\nmv a0, s0\nli a1, 1\nli a2, 1\nli a7, 98\necall\n\
    addi s2, s2, -1\nbne s2, x0, produce\n\
    finish:\nlw t0, 0(s1)\nbeq t0, x0, say\nmv a0, s1\nli a1, 0\nmv a2, t0\nli a7, 98\necall\n\
    j finish\n\
    say:\nli a0, 1\nla a1, text\nli a2, 5\nli a7, 64\necall\n\
    li a0, 0\nli a7, 94\necall\n\
    consume:\nli s3, 50\n\
    take:\nlw t0, 0(s0)\nbne t0, x0, got\nmv a0, s0\nli a1, 0\nli a2, 0\nli a7, 98\necall\n\
    j take\n\
    got:\ndiv t2, t0, s3\ndiv t2, t2, s3\nsw x0, 0(s0)\nmv a0, s0\nli a1, 1\nli a2, 1\n\
    li a7, 98\necall\n\
    addi s3, s3, -1\nbne s3, x0, take\nsw x0, 0(s1)\nmv a0, s1\nli a1, 1\nli a2, 1\n\
    li a7, 98\necall\n\
    li a0, 0\nli a7, 93\necall\n\
    .data\nslot: .word 0\nleft: .word 1\ntext: .ascii \"done\\n\"\n";

/// A hart runs through a loop, and then takes its code's right of execution away.
pub(crate) const LOSE: &[u8] = b"li s0, 50\n\
    loop: addi s0, s0, -1\nbne s0, x0, loop\n\
    lui a0, 0x10\nlui a1, 1\nli a2, 1\nli a7, 226\necall\n\
    addi s0, s0, 1\n";

/// A hart sleeps.
pub(crate) const NAP: &[u8] = b"la a0, span\nli a1, 0\nli a7, 101\necall\n\
    li a0, 0\nli a7, 94\necall\n\
    .data\nspan: .dword 0, 50\n";

/// A hart sleeps until a time that no clock shows.
pub(crate) const CLOCK: &[u8] = b"la a0, span\nli a1, 0\nli a7, 101\necall\n\
    li a0, 0\nli a7, 94\necall\n\
    .data\nspan: .dword 100000, 0\n";

/// A hart sleeps beside one that works.
pub(crate) const DOZE: &[u8] = b"li a0, 0x10F00\nli a7, 220\necall\n\
    beq a0, x0, child\nla a0, span\nli a7, 101\necall\n\
    li a7, 94\necall\n\
    child: div t0, t0, t0\nj child\n\
    .data\nspan: .dword 0, 50\n";

/// Programs of one hart and of two, which exit, trap or wait.
pub(crate) static LINED: [Source; 8] = [
    ("d/one.s", ONE),
    ("two.s", TWO),
    ("trap.s", TRAP),
    ("stall.s", STALL),
    ("join.s", JOIN),
    ("wait.s", WAIT),
    ("pc.s", PC),
    ("lose.s", LOSE),
];

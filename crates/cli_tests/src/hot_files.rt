//! The files that the tests of lines by cost read. The system calls of the sources are 63 read, 93
//! exit and 220 clone, whose flags 0x10F00 are those that every thread has.
use crate::calls::{ONE_SOURCE, assembled};
use crate::files::{Change, add, add_all_changed};
use coz_files::HeldFile;
use std::alloc::{AllocError, Global};
use std::thread::Threads;

/// Sources, each with its path. In `two.s` the first thread makes a second by the call of line 4.
/// `reads.s` reads 16 bytes at most, and executes lines 6 and 7 once for each byte that it got.
static SOURCES: [(&str, &[u8]); 4] = [
    ("one.s", ONE_SOURCE),
    (
        "two.s",
        b"li a0, 0x10F00\nli a1, 0\nli a7, 220\necall\n\
        addi t0, t0, 1\nli a0, 0\nli a7, 93\necall\n",
    ),
    ("spin.s", b"again: j again\n"),
    (
        "reads.s",
        b"li a0, 0\naddi a1, sp, -16\nli a2, 16\nli a7, 63\necall\n\
        again: addi a0, a0, -1\nbne a0, x0, again\nli a7, 93\necall\n",
    ),
];

/// Programs that differ from `one` in a few bytes, each with its offset.
static CHANGED: [Change; 3] = [
    // The header says that there are compressed instructions.
    ("compressed", &[(48, 1)]),
    // The line table ends within the header of its unit.
    ("short", &[(4108, 9), (4114, 0x1B), (4440, 13)]),
    // There are no sections, and so no lines.
    ("bare", &[(40, 0), (41, 0), (60, 0), (62, 0)]),
];

/// Adds the program of a source at the path of the source without the ending.
fn add_assembled<R: Threads + Sync + AllocGlobal>(
    rt: &R,
    files: &mut Vec<HeldFile>,
    name: &str,
    source: &[u8],
) -> Result<(), AllocError> {
    let path = name.strip_suffix(".s").unwrap_or(name);
    let program = assembled(rt, name, source)?;
    add(rt.alloc(), files, path, &program)
}

/// The programs of the sources, each at the path of its source without the ending.
fn all_assembled<R: Threads + Sync + AllocGlobal>(rt: &R) -> Result<Vec<HeldFile>, AllocError> {
    let mut files = Vec::new(rt.alloc());
    for (name, source) in &SOURCES {
        add_assembled(rt, &mut files, *name, *source)?;
    }
    Ok(files)
}

/// The programs of the sources, those that differ, and an input.
pub(crate) fn programs<R: Threads + Sync + AllocGlobal>(
    rt: &R,
) -> Result<Vec<HeldFile>, AllocError> {
    let one = assembled(rt, "one.s", ONE_SOURCE)?;
    let mut programs = all_assembled(rt)?;
    add_all_changed(rt.alloc(), &mut programs, &one, &CHANGED)?;
    add(rt.alloc(), &mut programs, "data", b"five")?;
    Ok(programs)
}

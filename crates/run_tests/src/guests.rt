//! The programs that the tests run, from their sources to their images, lines and points.
//!
//! The number in a7 is that of a system call of docs/FORMATS.md: 64 write, 93 exit, 94 exit_group, 98
//! futex (a1 is 0 to wait and 1 to wake), 101 nanosleep, 124 sched_yield, 220 clone. The flags
//! 0x10F00 are those that every thread has, and 0x200000 asks for a word that its exit clears.
ghost use Rattle.std.specs.Prelude.{◌≡◌, None};
ghost use Rattle.elf_load.specs.Faults.{fault};

use coz_types::Image;
use dwarf_lines::{LineTable, read_lines};
use elf_load::{load, section};
use guest_memory::Layout;
use image_write::write_elf;
use line_index::{LineIndex, build};
use progress_points::Points;
use rv_asm::assemble;
use std::alloc::Global;
use std::process::Abort;

/// Exits with the code 0.
pub(crate) const EXIT: &[u8] = b"addi a0, x0, 0\naddi a7, x0, 93\necall\n";

/// Two harts count and exit.
pub(crate) const TWO_HARTS: &[u8] = b"li a0, 0x10F00\nli a1, 0\nli a7, 220\necall\n\
    addi t0, t0, 1\nli a0, 0\nli a7, 93\necall\n";

/// Hart 0 waits at a word until hart 1 has divided ten times and wakes it.
pub(crate) const WAIT: &[u8] = b"li a0, 0x10F00\nli a7, 220\necall\nbeq a0, x0, child\n\
    la a0, word\nli a1, 0\nli a2, 0\nli a7, 98\necall\n\
    li a0, 0\nli a7, 94\necall\n\
    child: li a7, 124\necall\necall\nli t0, 10\n\
    again: div t1, t1, t0\naddi t0, t0, -1\nbne t0, x0, again\n\
    la a0, word\nli a1, 1\nli a2, 1\nli a7, 98\necall\nli a7, 93\necall\n\
    .data\nword: .word 0\n";

/// Hart 0 waits at a word that the exit of hart 1 clears.
pub(crate) const JOIN: &[u8] = b"la a4, word\nli a0, 0x210F00\nli a7, 220\necall\n\
    beq a0, x0, child\n\
    mv a0, a4\nli a1, 0\nli a2, 1\nli a7, 98\necall\n\
    li a0, 0\nli a7, 94\necall\n\
    child: li a7, 124\necall\nli a7, 93\necall\n\
    .data\nword: .word 1\n";

/// Writes three bytes and exits. Its last line never starts.
pub(crate) const WRITE: &[u8] = b"la a1, text\nli a0, 1\nli a2, 3\nli a7, 64\necall\n\
    li a0, 0\nli a7, 93\necall\nnop\n\
    .data\ntext: .byte 97\n.byte 98\n.byte 99\n";

/// Hart 0 sleeps for 50 nanoseconds, while hart 1 divides three times and exits.
pub(crate) const SLEEP: &[u8] = b"li a0, 0x10F00\nli a7, 220\necall\nbeq a0, x0, child\n\
    la a0, span\nli a7, 101\necall\nli a7, 94\necall\n\
    child: div t0, t0, t0\ndiv t0, t0, t0\ndiv t0, t0, t0\nli a7, 93\necall\n\
    .data\nspan: .dword 0, 50\n";

/// A page of stack, and no other memory that can be asked for.
pub(crate) const SMALL: Layout = Layout {
    brk: 0,
    map: 0,
    stack: 4096,
};

/// What a test runs.
#[derive(Drop)]
pub(crate) struct Program<'a> {
    pub(crate) image: &'a Image<'a>,
    pub(crate) index: &'a LineIndex,
    pub(crate) points: &'a Points,
}

/// A row of a table, which is checked over a program.
pub(crate) trait Check {
    /// The points of the program, which are none unless a row has its own. None if the program has
    /// not their lines, or out of memory.
    fn points(&self, alloc: Global, index: &LineIndex) -> Option<Points> {
        Points::new(alloc, index, &[]).ok()
    }

    /// Runs the program and compares what is found with the row. None if the row cannot be run, or
    /// out of memory.
    fn check<R: Abort>(&self, rt: &R, alloc: Global, program: &Program) -> Option<()>;
}

/// Checks a row over an image with these lines.
pub(crate) fn check_lines<R: Abort, C: Check>(
    rt: &R,
    alloc: Global,
    image: &Image,
    index: &LineIndex,
    row: &C,
) -> Option<()> {
    let points = row.points(alloc, index)?;
    let program = Program {
        image,
        index,
        points: &points,
    };
    let checked = row.check(rt, alloc, &program);
    // By a call, since a drop in place is proved part by part.
    drop(points);
    checked
}

fn table_of<'a>(alloc: Global, image: &Image<'a>) -> Option<LineTable<'a>>
    requires { fault image.now.file ≡ None }
{
    let lines = section(image, b".debug_line")?;
    if lines.len() > 33_554_432 {
        return None;
    }
    read_lines(alloc, lines, b"", b"").ok()
}

fn index_of(alloc: Global, image: &Image) -> Option<LineIndex>
    requires { fault image.now.file ≡ None }
{
    let table = table_of(alloc, image)?;
    if table.rows.len() > 33_554_432 || table.files.len() > 33_554_432 {
        return None;
    }
    build(alloc, &table, image).ok()
}

fn check_image<R: Abort, C: Check>(rt: &R, alloc: Global, image: &Image, row: &C) -> Option<()>
    requires { fault image.now.file ≡ None }
{
    let index = index_of(alloc, image)?;
    let checked = check_lines(rt, alloc, image, &index, row);
    drop(index);
    checked
}

fn check_file<R: Abort, C: Check>(rt: &R, alloc: Global, file: &[u8], row: &C) -> Option<()> {
    let image = load(alloc, file).ok()?;
    let checked = check_image(rt, alloc, &image, row);
    drop(image);
    checked
}

/// The file of a source.
fn file_of(alloc: Global, source: &[u8]) -> Option<Vec<u8>> {
    if source.len() > 4_194_304 {
        return None;
    }
    match assemble(alloc, source) {
        Ok(made) => write_elf(alloc, &made, b"guest.s", 4).ok(),
        Err(_) => None,
    }
}

/// Checks a row over the program of a source. None if the program cannot be made, or if the row
/// cannot be run on it.
pub(crate) fn check_source<R: Abort, C: Check>(
    rt: &R,
    alloc: Global,
    source: &[u8],
    row: &C,
) -> Option<()> {
    let file = file_of(alloc, source)?;
    let checked = check_file(rt, alloc, &file, row);
    drop(file);
    checked
}

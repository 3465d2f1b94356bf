//! Makes a large source of assembly from a number, the same on each machine.
#![tactic(auto)]

mod draws;
mod kinds;
mod text;

ghost use Rattle.std.specs.Prelude.{◌≡◌, ◌≤◌, length, IfOk};
ghost use Rattle.coz_types.specs.declared.TheConstants.{MAX_SIZE};
ghost use Rattle.work_gen.specs.declared.TheConstants.{MAX_TEXT};
ghost use Rattle.work_gen.specs.Text.{generated, view};
ghost use Rattle.work_gen.specs.Accepted.{IsAccepted};

use crate::text::put_blocks;
use coz_types::Items;
use std::alloc::{AllocError, Global};

/// The most bytes of a source's text.
pub const MAX_TEXT: usize = 0x20_0000;

/// A source, and the line of its progress point.
#[derive(Drop)]
pub struct Generated {
    /// The source's bytes.
    pub text: Items<u8>,
    /// Counted from 1. Each hart passes it once, at its end.
    pub point: u32,
}

/// The text before the blocks: three more harts are started, and all work.
static OPENING: &[u8] = b"    .text
_start:
    li s0, 3
spawn:
    li a0, 69376
    li a1, 0
    li a2, 0
    li a3, 0
    li a4, 0
    li a7, 220
    ecall
    beq a0, x0, work
    addi s0, s0, -1
    bne s0, x0, spawn
work:
    la a4, lock
    la a5, total
";

/// The number of lines of the opening.
const OPENING_LINES: u32 = 17;

/// The text after the blocks. Its third line is the progress point, and the last hart ends the
/// program.
static ENDING: &[u8] = b"    la a0, ended
    li a1, 1
    amoadd.w a2, a1, (a0)
    li a3, 3
    beq a2, a3, last
    li a0, 0
    li a7, 93
    ecall
last:
    li a0, 0
    li a7, 94
    ecall
    .data
    .align 3
total:
    .dword 0
lock:
    .word 0
ended:
    .word 0
";

/// The text that a seed and 1 to 2,000 blocks make, of at most 2 MiB. The assembler accepts each.
pub fn source(alloc: Global, seed: u64, size: u32) -> Result<Generated, AllocError>
    requires least { 1 ≤ size }
    requires most { size ≤ MAX_SIZE }
    ensures text { IfOk result (λ g. view g ≡ generated seed size) }
    ensures accepted { IfOk result (λ g. IsAccepted (view g)) }
    ensures short { IfOk result (λ g. length g.text ≤ MAX_TEXT) }
{
    let mut text = Vec::from_slice(alloc, OPENING)?;
    let lines = put_blocks(&mut text, size, seed)?;
    text.extend_from_slice(ENDING)?;
    Ok(Generated {
        text: Items::new(text),
        point: OPENING_LINES + lines + 3,
    })
}

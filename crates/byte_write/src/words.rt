//! The program of a sequence of words (DWARF 4 and 5, section 6.2.5).

ghost use Rattle.std.specs.Prelude.{◌≡◌, ◌<◌, ◌^◌, ◌++◌, length, IfOk};
ghost use Rattle.byte_write.specs.Programs.{advance_pc, advance_line, row, rows, line_program};

use crate::leb::{push_sleb, push_uleb};
use crate::sequence::{END_SEQUENCE, push_address};
use dwarf_lines::codes::{DW_LNS_ADVANCE_LINE, DW_LNS_ADVANCE_PC, DW_LNS_COPY};
use std::alloc::AllocError;

/// Appends the opcode that advances the address by `words` words.
fn push_advance_pc(out: &mut Vec<u8>, words: u32) -> Result<(), AllocError>
    requires { words < 2 ^ 21 }
    ensures { IfOk result (λ _. out.new.items ≡ out.old.items ++ advance_pc words) }
{
    if words == 0 {
        return Ok(());
    }
    out.push(DW_LNS_ADVANCE_PC)?;
    push_uleb(out, u64::from(words))
}

/// Appends the opcode that changes the line.
fn push_advance_line(out: &mut Vec<u8>, old: u32, new: u32) -> Result<(), AllocError>
    ensures { IfOk result (λ _. out.new.items ≡ out.old.items ++ advance_line old new) }
{
    if old == new {
        return Ok(());
    }
    out.push(DW_LNS_ADVANCE_LINE)?;
    push_sleb(out, i64::from(new) - i64::from(old))
}

/// Appends a row `words` words after the last one.
fn push_row(out: &mut Vec<u8>, words: u32, old: u32, new: u32) -> Result<(), AllocError>
    requires { words < 2 ^ 21 }
    ensures { IfOk result (λ _. out.new.items ≡ out.old.items ++ row words old new) }
{
    push_advance_pc(out, words)?;
    push_advance_line(out, old, new)?;
    out.push(DW_LNS_COPY)?;
    Ok(())
}

/// Appends the rows after that of the first word, whose line is `line`.
fn push_rows(out: &mut Vec<u8>, line: u32, lines: &[u32]) -> Result<(), AllocError>
    requires { length lines.now < 2 ^ 20 }
    ensures { IfOk result (λ _. out.new.items ≡ out.old.items ++ rows 1 line lines.now) }
{
    let mut words = 1;
    let mut last = line;
    for next in lines {
        if *next == last {
            words += 1;
        } else {
            push_row(out, words, last, *next)?;
            words = 1;
            last = *next;
        }
    }
    push_advance_pc(out, words)?;
    out.extend_from_slice(&END_SEQUENCE)
}

/// Appends the program of one sequence: the words from `start` on, which have these lines.
pub fn push_words(out: &mut Vec<u8>, start: u64, lines: &[u32]) -> Result<(), AllocError>
    requires { length lines.now < 2 ^ 20 }
    ensures { IfOk result (λ _. out.new.items ≡ out.old.items ++ line_program start lines.now) }
{
    push_address(out, start)?;
    match lines.split_first() {
        None => out.extend_from_slice(&END_SEQUENCE),
        Some((first, rest)) => {
            push_row(out, 0, 1, *first)?;
            push_rows(out, *first, rest)
        }
    }
}

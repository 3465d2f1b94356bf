//! The first in the order of lines of some that stand side by side in another order.

ghost use Rattle.std.specs.Prelude.{◌≡◌, ◌≤◌, length, IfOk};
ghost use Rattle.line_index.specs.Changes.{least};
ghost use Rattle.line_index.specs.Endings.{AreFirsts, IsBetween, IsLeast};

use crate::endings::Ending;
use std::alloc::{AllocError, Global};

/// The number of lines of a block. A search looks at fewer than two blocks line by line, and
/// passes those in between by their firsts.
pub const BLOCK: usize = 2048;

/// The lesser of two lines, if there are two.
fn earlier(line: Option<u32>, other: Option<u32>) -> Option<u32>
    ensures { result ≡ least line other }
{
    match (line, other) {
        (None, _) => other,
        (Some(_), None) => line,
        (Some(x), Some(y)) => { if x <= y { line } else { other } }
    }
}

/// The first of the lines from one index up to another, each of which is looked at.
fn first_in(lines: &[Ending], start: usize, end: usize) -> Option<u32>
    requires { end ≤ length lines.now }
    ensures { IsLeast (IsBetween lines.now start end) result }
{
    let mut line = None;
    let mut at = start;
    while at < end {
        line = earlier(line, Some(lines[at].line));
        at += 1;
    }
    line
}

/// The first of the lines of each whole block. Fails only if it is out of memory.
pub fn firsts_of(alloc: Global, lines: &[Ending]) -> Result<Vec<Option<u32>>, AllocError>
    ensures { IfOk result (λ firsts. AreFirsts lines.now firsts.items) }
{
    let blocks = lines.len() / BLOCK;
    let mut firsts = Vec::with_capacity(alloc, blocks)?;
    for block in 0..blocks {
        let start = block * BLOCK;
        firsts.push(first_in(lines, start, start + BLOCK))?;
    }
    Ok(firsts)
}

/// The first of the lines from one index up to another, by whole blocks if there are any.
pub fn first_between(
    lines: &[Ending],
    firsts: &[Option<u32>],
    start: usize,
    end: usize,
) -> Option<u32>
    requires bound { end ≤ length lines.now }
    requires firsts { AreFirsts lines.now firsts.now }
    ensures { IsLeast (IsBetween lines.now start end) result }
{
    let mut line = None;
    let mut at = start;
    while at < end {
        if at % BLOCK == 0 && BLOCK <= end - at {
            line = earlier(line, firsts[at / BLOCK]);
            at += BLOCK;
        } else {
            line = earlier(line, Some(lines[at].line));
            at += 1;
        }
    }
    line
}

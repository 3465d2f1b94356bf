//! The lines by number, and those of one number in the order of their paths from the last byte to
//! the first, in which those whose paths end alike stand side by side.

ghost use Rattle.std.specs.Prelude.{◌≡◌, ◌≤◌, ◌<◌, ◌^◌, ℕ, length, IfOk, All, Contains, true, false};
ghost use Rattle.std.specs.List.Sorted.{IsPartitionPoint, IsSorted};
ghost use Rattle.line_index.specs.declared.endings.Ending.{Ending};
ghost use Rattle.line_index.specs.declared.lines.Key.{Key};
ghost use Rattle.line_index.specs.Keys.{HasPath, texts};
ghost use Rattle.line_index.specs.Endings.{AreRanks, HoldsLines, IsEnding, IsRanked, IsSearchable, ending_order, is_before, lines_of};

use crate::backwards::backwards;
use crate::blocks::firsts_of;
use crate::lines::Key;
use std::alloc::{AllocError, Global};

/// A line by its number and the rank of its path, counted in the order of paths from the last
/// byte to the first.
#[derive(Clone, Copy, PartialEq, Eq, PartialOrd, Ord)]
pub struct Ending {
    /// The number of the line in its file.
    pub number: u32,
    /// The rank of its path.
    pub rank: u32,
    /// The position in the order of lines.
    pub line: u32,
}

impl Ending {
    /// Whether it has a lesser number than this, or this number and a path of a lesser rank.
    fn is_before(&self, number: u32, rank: usize) -> bool
        ensures { result ≡ is_before number rank self.now }
    {
        self.number < number || self.number == number && (self.rank as usize) < rank
    }
}

/// The order in which lines are found by a number and the end of a path.
#[derive(Drop)]
pub struct Endings {
    /// The positions of the paths in the order of their bytes from the last to the first.
    pub backwards: Vec<u32>,
    /// The lines, each once, by number and by the rank of the path.
    pub lines: Vec<Ending>,
    /// Of each block of them the first in the order of lines.
    pub firsts: Vec<Option<u32>>,
}

/// The rank of each path.
fn ranks(alloc: Global, backwards: &[u32]) -> Result<Vec<u32>, AllocError>
    requires few { length backwards.now < 2 ^ 32 }
    requires own { All (λ position. position < length backwards.now) backwards.now }
    ensures as_many { IfOk result (λ ranks. length ranks.items ≡ length backwards.now) }
    ensures each { IfOk result (λ ranks. AreRanks backwards.now ranks.items) }
{
    let mut ranks = vec![in alloc; 0u32; backwards.len()]?;
    for (rank, path) in backwards.iter().enumerate() {
        ranks[*path as usize] = rank as u32;
    }
    Ok(ranks)
}

fn each_ending(alloc: Global, keys: &[Key], ranks: &[u32]) -> Result<Vec<Ending>, AllocError>
    requires few { length keys.now < 2 ^ 32 }
    requires ranked { All (λ (key : Key). key.path < length ranks.now) keys.now }
    ensures own { IfOk result (λ list. All (IsRanked keys.now ranks.now) list.items) }
    ensures each { IfOk result (λ list.
        (k : ℕ) → k < length keys.now → Contains (lines_of list.items) k) }
{
    let mut list = Vec::with_capacity(alloc, keys.len())?;
    for (line, key) in keys.iter().enumerate() {
        list.push(Ending {
            number: key.number,
            rank: ranks[key.path as usize],
            line: line as u32,
        })?;
    }
    Ok(list)
}

/// The lines by how their paths end. Fails only if it is out of memory.
pub fn endings_of(alloc: Global, paths: &[Vec<u8>], keys: &[Key]) -> Result<Endings, AllocError>
    requires few_paths { length paths.now < 2 ^ 32 }
    requires few_lines { length keys.now < 2 ^ 32 }
    requires have_paths { All (HasPath (texts paths.now)) keys.now }
    ensures searchable { IfOk result (IsSearchable (texts paths.now)) }
    ensures lines { IfOk result (HoldsLines keys.now) }
{
    let backwards = backwards(alloc, paths)?;
    let ranks = ranks(alloc, &backwards)?;
    let mut lines = each_ending(alloc, keys, &ranks)?;
    lines.sort()?;
    let firsts = firsts_of(alloc, &lines)?;
    Ok(Endings {
        backwards,
        lines,
        firsts,
    })
}

/// The index of the first line that has this number and a path of this rank or a greater one,
/// or a greater number.
pub fn start_of(lines: &[Ending], number: u32, rank: usize) -> usize
    requires { IsSorted ending_order lines.now }
    ensures bound { result ≤ length lines.now }
    ensures parted { IsPartitionPoint (λ (one : Ending). is_before number rank one ≡ true)
        (λ (one : Ending). is_before number rank one ≡ false) lines.now result }
{
    lines.partition_point(|one| one.is_before(number, rank))
}

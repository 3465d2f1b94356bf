//! The numbers of the regions that have the lines, by line.

ghost use Rattle.std.specs.Prelude.{◌≡◌, ◌≤◌, ◌<◌, ◌^◌, ℕ, true, None, Some, length, is_some, slice_index_or, ◌+◌, IfOk};
ghost use Rattle.line_index.specs.Changes.{or_else};
ghost use Rattle.line_regions.specs.Lines.{AreClaims, claimed, number_at};

use std::alloc::{AllocError, Global};
use std::marker::Model;

/// For each line a number, once it has one. Contracts see the list of them.
#[derive(Drop)]
pub struct Claims {
    numbers: Vec<Option<u32>>,
    // For each line one behind it: all between them have a number.
    next: Vec<u32>,
}

impl Model for Claims {
    ghost use Rattle.std.specs.Prelude.{ℕ, List, Option};
    ghost use Rattle.line_regions.specs.Lines.{AreClaims};

    ghost Value = { List (Option ℕ) };

    ghost view = { λ claims. claims.numbers.items };

    ghost invariant = { λ claims. AreClaims claims.numbers.items claims.next.items };
}

/// No numbers.
fn no_numbers(alloc: Global, count: usize) -> Result<Vec<Option<u32>>, AllocError>
    ensures as_many { IfOk result (λ numbers. length numbers.items ≡ count) }
    ensures none { IfOk result (λ numbers. (k : ℕ) → number_at numbers.items k ≡ None) }
{
    let mut numbers = Vec::new(alloc);
    numbers.resize(count, None)?;
    Ok(numbers)
}

/// For each line the next one.
fn neighbours(alloc: Global, count: usize) -> Result<Vec<u32>, AllocError>
    requires { count < 2 ^ 32 }
    ensures as_many { IfOk result (λ next. length next.items ≡ count) }
    ensures next { IfOk result (λ next. (k : ℕ) → k < count
        → slice_index_or next.items k 0 ≡ k + 1) }
{
    let mut next = Vec::new(alloc);
    next.resize(count, 0)?;
    for line in 0..count {
        next[line] = line as u32 + 1;
    }
    Ok(next)
}

/// Returns a line behind this one, so that all between them have a number, and shortens the way
/// from this one for the next time.
fn pass(next: &mut [u32], numbers: &[Option<u32>], line: usize) -> usize
    requires line { line < length numbers.now }
    requires claims { AreClaims numbers.now next.old }
    ensures claims { AreClaims numbers.now next.new }
    ensures forward { line < result }
    ensures passed { (j : ℕ) → line < j → j < result → is_some (number_at numbers.now j) ≡ true }
{
    let over = next[line] as usize;
    if over < numbers.len() && numbers[over].is_some() {
        next[line] = next[over];
    }
    over
}

impl Claims {
    /// No line has a number.
    pub fn new(alloc: Global, count: usize) -> Result<Claims, AllocError>
        requires { count < 2 ^ 32 }
        ensures as_many { IfOk result (λ claims. length claims ≡ count) }
        ensures none { IfOk result (λ claims. (k : ℕ) → number_at claims k ≡ None) }
    {
        Ok(Claims {
            numbers: no_numbers(alloc, count)?,
            next: neighbours(alloc, count)?,
        })
    }

    /// The number of a line, if it has one.
    pub fn number(&self, line: usize) -> Option<u32>
        requires { line < length self.now }
        ensures { result ≡ number_at self.now line }
    {
        self.numbers[line]
    }

    /// Gives a line a number, unless it has one. Returns a line behind it, so that all between
    /// them have a number.
    fn claim(&mut self, line: usize, number: u32) -> usize
        requires { line < length self.old }
        ensures numbers { self.new ≡ claimed self.old line number }
        ensures forward { line < result }
        ensures passed { (j : ℕ) → line < j → j < result → is_some (number_at self.old j) ≡ true }
    {
        if self.numbers[line].is_some() {
            return pass(&mut self.next, &self.numbers, line);
        }
        self.numbers[line] = Some(number);
        line + 1
    }

    /// Gives the lines from one up to another a number, unless they have one.
    pub fn claim_all(&mut self, start: usize, end: usize, number: u32)
        requires { end ≤ length self.old }
        ensures as_many { length self.new ≡ length self.old }
        ensures within { (k : ℕ) → start ≤ k → k < end
            → number_at self.new k ≡ or_else (number_at self.old k) (Some number) }
        ensures others { (k : ℕ) → (start ≤ k → k < end → ⊥)
            → number_at self.new k ≡ number_at self.old k }
    {
        let mut line = start;
        while line < end {
            line = self.claim(line, number);
        }
    }
}

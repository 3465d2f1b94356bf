//! Bytes that are zeros at first, at no cost until they are written.
//!
//! Contracts see the flat list of all bytes. The code keeps them in pieces, each of which is an
//! empty list as long as its bytes are zeros. `new` takes the room of all pieces, so that `new`
//! alone can be out of memory.
#![tactic(auto)]

mod numbers;
mod piece;

ghost use Rattle.std.specs.Prelude.{ℕ, ◌≡◌, ◌%◌, ◌+◌, ◌<◌, ◌^◌, ◌≤◌, length, replicate, take, drop, IfOk};
ghost use Rattle.byteorder.specs.Endian.{little_from};
ghost use Rattle.zero_bytes.specs.declared.TheConstants.{PAGE};
ghost use Rattle.zero_bytes.specs.Bytes.{IsWidth, bytes_with_number, bytes_with_put, IsZeroedFrom, IsCopiedAt};

pub use crate::numbers::number_of;
use crate::piece::Piece;
use std::alloc::{AllocError, Global};
use std::marker::Model;

/// The bytes of a page. Reads and writes lie in one page, as do zeros and copies.
pub const PAGE: usize = 0x1000;

/// The bytes of a piece: 64 pages.
const PIECE: usize = 64 * PAGE;

/// Bytes that are zeros at first.
#[derive(Drop)]
pub struct Bytes {
    pieces: Vec<Piece>,
    count: usize,
}

impl Model for Bytes {
    ghost use Rattle.std.specs.Prelude.{ℕ, List};
    ghost use Rattle.zero_bytes.specs.Pieces.{flat_from, ArePieces};

    ghost Value = { List ℕ };

    ghost view = { λ b. flat_from b.pieces.items 0 b.count };

    ghost invariant = { λ b. ArePieces b.count b.pieces.items };
}

impl Bytes {
    /// `count` zeros. Err: out of memory.
    pub fn new(alloc: Global, count: usize) -> Result<Bytes, AllocError>
        ensures { IfOk result (λ bytes. bytes ≡ replicate count 0) }
    {
        let number = count / PIECE + 1;
        let mut pieces = Vec::with_capacity(alloc, number)?;
        for _ in 0..number {
            pieces.push(Piece::new(alloc)?)?;
        }
        Ok(Bytes { pieces, count })
    }

    /// The number in `size` bytes of one page, the lowest byte first.
    #[inline(always)]
    pub fn number(&self, offset: usize, size: u8) -> u64
        requires size { IsWidth size }
        requires page { offset % PAGE + size ≤ PAGE }
        requires inside { offset + size ≤ length self.now }
        ensures number { result ≡ little_from offset size self.now }
        ensures below { result < 256 ^ size }
    {
        self.pieces[offset / PIECE].number(offset % PIECE, size)
    }

    /// Writes a number into `size` bytes of one page, the lowest byte first.
    #[inline(always)]
    pub fn write(&mut self, offset: usize, size: u8, value: u64)
        requires size { IsWidth size }
        requires page { offset % PAGE + size ≤ PAGE }
        requires inside { offset + size ≤ length self.old }
        ensures { self.new ≡ bytes_with_number offset size value self.old }
    {
        self.pieces[offset / PIECE].write(offset % PIECE, size, value);
    }

    /// Reads bytes of one page.
    pub fn read(&self, offset: usize, into: &mut [u8])
        requires page { offset % PAGE + length into.old ≤ PAGE }
        requires inside { offset + length into.old ≤ length self.now }
        ensures { into.new ≡ take (length into.old) (drop offset self.now) }
    {
        self.pieces[offset / PIECE].read(offset % PIECE, into);
    }

    /// Writes bytes of one page.
    pub fn put(&mut self, offset: usize, from: &[u8])
        requires page { offset % PAGE + length from.now ≤ PAGE }
        requires inside { offset + length from.now ≤ length self.old }
        ensures { self.new ≡ bytes_with_put offset from.now self.old }
    {
        self.pieces[offset / PIECE].put(offset % PIECE, from);
    }

    /// Makes a page one of zeros.
    pub fn zero(&mut self, start: usize)
        requires page { start % PAGE ≡ 0 }
        requires inside { start + PAGE ≤ length self.old }
        ensures { IsZeroedFrom start self.old self.new }
    {
        self.pieces[start / PIECE].zero(start % PIECE);
    }

    /// Copies a page of as many other bytes to the same place.
    pub fn copy_page(&mut self, other: &Bytes, start: usize)
        requires page { start % PAGE ≡ 0 }
        requires inside { start + PAGE ≤ length self.old }
        requires same_length { length other.now ≡ length self.old }
        ensures { IsCopiedAt start self.old other.now self.new }
    {
        self.pieces[start / PIECE].copy_page(&other.pieces[start / PIECE], start % PIECE);
    }
}

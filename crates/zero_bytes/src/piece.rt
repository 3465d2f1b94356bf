//! Bytes that take no work until they are first written.
ghost use Rattle.std.specs.Prelude.{ℕ, ◌≡◌, ◌+◌, ◌<◌, ◌^◌, ◌≤◌, [], length, take, drop, IfOk};
ghost use Rattle.std.specs.Vec.{vec_capacity};
ghost use Rattle.byteorder.specs.Endian.{little_from};
ghost use Rattle.zero_bytes.specs.declared.TheConstants.{PAGE, PIECE};
ghost use Rattle.zero_bytes.specs.Bytes.{IsWidth, bytes_with_number, bytes_with_put, IsZeroedFrom, IsCopiedAt};
ghost use Rattle.zero_bytes.specs.Pieces.{filled, IsPiece};

use crate::numbers::{number_of, write_number};
use crate::{PAGE, PIECE};
use std::alloc::{AllocError, Global};
use std::marker::Model;

/// `PIECE` bytes. The list is empty while they are all zeros; its room is taken at the start.
#[derive(Drop)]
pub struct Piece {
    bytes: Vec<u8>,
}

impl Model for Piece {
    ghost use Rattle.std.specs.Prelude.{ℕ, ◌≤◌, List};
    ghost use Rattle.std.specs.Vec.{vec_capacity};
    ghost use Rattle.zero_bytes.specs.declared.TheConstants.{PIECE};
    ghost use Rattle.zero_bytes.specs.Pieces.{filled, IsPiece};

    ghost Value = { List ℕ };

    ghost view = { λ p. filled PIECE p.bytes.items };

    ghost invariant = { λ p. IsPiece p.bytes.items × (PIECE ≤ vec_capacity p.bytes) };
}

/// Makes an empty piece one of zeros, in the room that it has.
fn fill(bytes: &mut Vec<u8>)
    requires piece { IsPiece bytes.old.items }
    requires room { PIECE ≤ vec_capacity bytes.old }
    ensures bytes { bytes.new.items ≡ filled PIECE bytes.old.items }
    ensures whole { length bytes.new.items ≡ PIECE }
    ensures room { PIECE ≤ vec_capacity bytes.new }
{
    if bytes.is_empty() {
        let Ok(()) = bytes.resize(PIECE, 0) else {
            unreachable!()
        };
    }
}

/// Copies other bytes to a place.
fn put_at(bytes: &mut [u8], at: usize, from: &[u8])
    requires { at + length from.now ≤ length bytes.old }
    ensures { bytes.new ≡ bytes_with_put at from.now bytes.old }
{
    bytes[at..at + from.len()].copy_from_slice(from);
}

/// Zeros in a page of bytes.
fn zero_from(bytes: &mut [u8], start: usize)
    requires { start + PAGE ≤ length bytes.old }
    ensures { IsZeroedFrom start bytes.old bytes.new }
{
    for i in start..start + PAGE {
        bytes[i] = 0;
    }
}

/// Copies a page of bytes to the same place.
fn copy_bytes(bytes: &mut [u8], from: &[u8], start: usize)
    requires inside { start + PAGE ≤ length bytes.old }
    requires same_length { length from.now ≡ length bytes.old }
    ensures { IsCopiedAt start bytes.old from.now bytes.new }
{
    bytes[start..start + PAGE].copy_from_slice(&from[start..start + PAGE]);
}

impl Piece {
    /// A piece of zeros, whose room is taken. Err: out of memory.
    pub fn new(alloc: Global) -> Result<Piece, AllocError>
        ensures { IfOk result (λ piece. piece ≡ filled PIECE []) }
    {
        Ok(Piece {
            bytes: Vec::with_capacity(alloc, PIECE)?,
        })
    }

    /// The number in `size` bytes at a place.
    #[inline(always)]
    pub fn number(&self, at: usize, size: u8) -> u64
        requires size { IsWidth size }
        requires fits { at + size ≤ PIECE }
        ensures number { result ≡ little_from at size self.now }
        ensures below { result < 256 ^ size }
    {
        if self.bytes.is_empty() {
            0
        } else {
            number_of(&self.bytes, at, size)
        }
    }

    /// Writes a number into `size` bytes at a place.
    #[inline(always)]
    pub fn write(&mut self, at: usize, size: u8, value: u64)
        requires size { IsWidth size }
        requires fits { at + size ≤ PIECE }
        ensures { self.new ≡ bytes_with_number at size value self.old }
    {
        fill(&mut self.bytes);
        write_number(&mut self.bytes, at, size, value);
    }

    /// Reads bytes from a place on.
    pub fn read(&self, at: usize, into: &mut [u8])
        requires { at + length into.old ≤ PIECE }
        ensures { into.new ≡ take (length into.old) (drop at self.now) }
    {
        if self.bytes.is_empty() {
            into.fill(0);
        } else {
            into.copy_from_slice(&self.bytes[at..at + into.len()]);
        }
    }

    /// Writes bytes from a place on.
    pub fn put(&mut self, at: usize, from: &[u8])
        requires { at + length from.now ≤ PIECE }
        ensures { self.new ≡ bytes_with_put at from.now self.old }
    {
        fill(&mut self.bytes);
        put_at(&mut self.bytes, at, from);
    }

    /// Zeros in a page from a place on.
    pub fn zero(&mut self, at: usize)
        requires { at + PAGE ≤ PIECE }
        ensures { IsZeroedFrom at self.old self.new }
    {
        if !self.bytes.is_empty() {
            zero_from(&mut self.bytes, at);
        }
    }

    /// Copies a page from the same place of another piece.
    pub fn copy_page(&mut self, other: &Piece, at: usize)
        requires { at + PAGE ≤ PIECE }
        ensures { IsCopiedAt at self.old other.now self.new }
    {
        if other.bytes.is_empty() {
            self.zero(at);
        } else {
            fill(&mut self.bytes);
            copy_bytes(&mut self.bytes, &other.bytes, at);
        }
    }
}

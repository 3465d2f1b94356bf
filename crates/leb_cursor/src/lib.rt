//! A cursor over bytes: numbers of fixed width, texts, and the LEB128 numbers of DWARF
//! (DWARF 4, section 7.6).
//!
//! ```text
//! let mut cursor = Cursor::new(&[0x02, 0x01, 0xE5, 0x8E, 0x26]);
//! cursor.half();  // Ok(0x0102); the offset is now 2
//! cursor.uleb();  // Ok(624485); the offset is now 5
//! cursor.byte();  // Err(Short { place: 5 })
//! ```
#![tactic(auto)]

ghost use Rattle.std.specs.Prelude.{◌≡◌, ◌+◌, ◌-◌, ◌%◌, ◌<◌, ◌≤◌, ◌^◌, length, slice_index, IfSome, nat_lt, nat_le, position, ◌==◌, Some, None, if◌then◌else◌};
ghost use Rattle.std.specs.Int.{w8, w16, w32, w64};
ghost use Rattle.leb_cursor.specs.Ahead.{Ahead, Reads, number_at, bytes_at, part_at, pass_at, text_at, uleb_at, sleb_at, fits_64_signed};
ghost use Rattle.leb_cursor.specs.Numbers.{low_bits, signed_low_bits};

use byteorder::{ByteOrder, LittleEndian};
use std::marker::Model;

/// A field that runs past the end, by the offset of its first byte.
#[derive(Clone, Copy, Debug, PartialEq, Eq)]
pub struct Short {
    /// The field's first byte, from 0 at the start of the bytes.
    pub place: u64,
}

/// Why a LEB128 number can't be read.
#[derive(Clone, Copy, Debug, PartialEq, Eq)]
pub enum LebFault {
    /// No byte up to the end ends the number.
    Short(Short),
    /// The number is whole, and its value doesn't fit 64 bits. `place` is that of its first byte.
    Wide { place: u64 },
}

/// An offset in some bytes, and the bytes from there on.
#[derive(Drop)]
pub struct Cursor<'a> {
    place: u64,
    bytes: &'a [u8],
}

impl<'a> Model for Cursor<'a> {
    ghost use Rattle.std.specs.Prelude.{◌+◌, ◌<◌, ◌^◌, length};
    ghost use Rattle.leb_cursor.specs.Ahead.{Ahead};

    ghost Value = { Ahead };

    ghost view = { λ c. record { place = c.place; bytes = c.bytes.now } };

    ghost invariant = { λ c. c.place + length c.bytes.now < 2 ^ 64 };
}

impl<'a> Cursor<'a> {
    /// A cursor at the first of these bytes, whose offset is 0.
    pub fn new(bytes: &'a [u8]) -> Cursor<'a>
        ensures { result ≡ record { place = 0; bytes = bytes.now } }
    {
        Cursor { place: 0, bytes }
    }

    /// The offset of the next byte.
    pub fn place(&self) -> u64
        ensures { result ≡ self.now.place }
    {
        self.place
    }

    /// The number of bytes that are left.
    pub fn left(&self) -> u64
        ensures { result ≡ length self.now.bytes }
    {
        self.bytes.len() as u64
    }

    /// The next `count` bytes; `Short` if fewer are left. After a fault a cursor
    /// stands where it stood.
    pub fn take(&mut self, count: u64) -> Result<&'a [u8], Short>
        ensures { Reads (λ x. x.now) result self.old self.new (bytes_at count self.old) }
    {
        if self.left() < count {
            return Err(Short { place: self.place });
        }
        let (front, rest) = self.bytes.split_at(count as usize);
        self.bytes = rest;
        self.place += count;
        Ok(front)
    }

    /// The next byte; `Short` at the end.
    pub fn byte(&mut self) -> Result<u8, Short>
        ensures { Reads (λ x. x) result self.old self.new (number_at w8 self.old) }
    {
        let bytes = self.take(1)?;
        Ok(bytes[0])
    }

    /// The number in the next 2 bytes, the lowest first; `Short` if fewer are left.
    pub fn half(&mut self) -> Result<u16, Short>
        ensures { Reads (λ x. x) result self.old self.new (number_at w16 self.old) }
    {
        let bytes = self.take(2)?;
        Ok(LittleEndian::read_u16(bytes))
    }

    /// The number in the next 4 bytes, the lowest first; `Short` if fewer are left.
    pub fn word(&mut self) -> Result<u32, Short>
        ensures { Reads (λ x. x) result self.old self.new (number_at w32 self.old) }
    {
        let bytes = self.take(4)?;
        Ok(LittleEndian::read_u32(bytes))
    }

    /// The number in the next 8 bytes, the lowest first; `Short` if fewer are left.
    pub fn double(&mut self) -> Result<u64, Short>
        ensures { Reads (λ x. x) result self.old self.new (number_at w64 self.old) }
    {
        let bytes = self.take(8)?;
        Ok(LittleEndian::read_u64(bytes))
    }

    /// The bytes before the next zero byte, which is passed too; `Short` if none follows.
    pub fn text(&mut self) -> Result<&'a [u8], Short>
        ensures { Reads (λ x. x.now) result self.old self.new (text_at self.old) }
    {
        match first_zero(self.bytes) {
            None => Err(Short { place: self.place }),
            Some(len) => {
                let (text, _) = self.bytes.split_at(len);
                let (_, rest) = self.bytes.split_at(len + 1);
                self.bytes = rest;
                self.place += len as u64 + 1;
                Ok(text)
            }
        }
    }

    /// Skips `count` bytes; `Short` if fewer are left.
    pub fn skip(&mut self, count: u64) -> Result<(), Short>
        ensures { Reads (λ x. x) result self.old self.new (pass_at count self.old) }
    {
        let _passed = self.take(count)?;
        Ok(())
    }

    /// The next `count` bytes, as a cursor of their own that continues to count offsets; `Short`
    /// if fewer are left.
    pub fn part(&mut self, count: u64) -> Result<Cursor<'a>, Short>
        ensures { Reads (λ x. x) result self.old self.new (part_at count self.old) }
    {
        let place = self.place;
        let bytes = self.take(count)?;
        Ok(Cursor { place, bytes })
    }

    /// An unsigned LEB128 number, padded or not (DWARF 5, section 7.6). `Short` if no byte ends
    /// it, `Wide` if its value is 2^64 or more.
    pub fn uleb(&mut self) -> Result<u64, LebFault>
        ensures { Reads (λ x. x) result self.old self.new (uleb_at self.old) }
    {
        match first_low(self.bytes) {
            None => Err(LebFault::Short(Short { place: self.place })),
            Some(last) => {
                let (front, rest) = self.bytes.split_at(last + 1);
                match value_of(front) {
                    None => Err(LebFault::Wide { place: self.place }),
                    Some(value) => {
                        self.bytes = rest;
                        self.place += last as u64 + 1;
                        Ok(value)
                    }
                }
            }
        }
    }

    /// A signed LEB128 number, padded or not. `Short` if no byte ends it, `Wide`
    /// if its value doesn't fit 64 bits with a sign.
    pub fn sleb(&mut self) -> Result<i64, LebFault>
        ensures { Reads (λ x. x) result self.old self.new (sleb_at self.old) }
    {
        match first_low(self.bytes) {
            None => Err(LebFault::Short(Short { place: self.place })),
            Some(last) => {
                let (front, rest) = self.bytes.split_at(last + 1);
                match signed_value_of(front) {
                    None => Err(LebFault::Wide { place: self.place }),
                    Some(value) => {
                        self.bytes = rest;
                        self.place += last as u64 + 1;
                        Ok(value)
                    }
                }
            }
        }
    }
}

/// The index of the first byte below 128.
fn first_low(bytes: &[u8]) -> Option<usize>
    ensures place { result ≡ position (λ b. nat_lt b 128) bytes.now }
    ensures within { IfSome result (λ n. n < length bytes.now) }
{
    bytes.iter().position(|b| *b < 128)
}

/// The index of the first zero byte.
fn first_zero(bytes: &[u8]) -> Option<usize>
    ensures place { result ≡ position (λ b. b == 0) bytes.now }
    ensures within { IfSome result (λ n. n < length bytes.now) }
{
    bytes.iter().position(|b| *b == 0)
}

/// The number in the low seven bits of each of these bytes, the lowest first, if it fits 64 bits.
fn value_of(bytes: &[u8]) -> Option<u64>
    ensures { result
        ≡ (if nat_lt (low_bits bytes.now) (2 ^ 64) then Some (low_bits bytes.now) else None) }
{
    let mut value: u64 = 0;
    let mut i = bytes.len();
    while i > 0 {
        i -= 1;
        if value >= 1 << 57 {
            return None;
        }
        value = value * 128 + (bytes[i] % 128) as u64;
    }
    Some(value)
}

/// Whether the two's complement of these bytes' low bits is below zero.
fn is_negative(bytes: &[u8]) -> bool
    ensures { result ≡ nat_le 64 (slice_index bytes.now (length bytes.now - 1) % 128) }
{
    match bytes.last() {
        Some(last) => *last % 128 >= 64,
        None => false,
    }
}

/// The number in the low seven bits of each of these bytes in two's complement, the lowest first,
/// if it fits 64 bits.
fn signed_value_of(bytes: &[u8]) -> Option<i64>
    ensures { result ≡ (if fits_64_signed (signed_low_bits bytes.now)
        then Some (signed_low_bits bytes.now) else None) }
{
    let mut value: i64 = if is_negative(bytes) { -1 } else { 0 };
    let mut i = bytes.len();
    while i > 0 {
        i -= 1;
        if value < -(1 << 56) || value >= 1 << 56 {
            return None;
        }
        value = value * 128 + (bytes[i] % 128) as i64;
    }
    Some(value)
}

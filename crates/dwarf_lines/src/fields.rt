//! The fields that headers and opcodes share.

ghost use Rattle.std.specs.Prelude.{◌≡◌, ◌<◌, ◌==◌, IfOk, nat_lt, List, ℕ, length, ◌++◌, take};
ghost use Rattle.leb_cursor.specs.Ahead.{bytes_at, part_at, sleb_at, text_at};
ghost use Rattle.dwarf_lines.specs.Reading.{Walks, WalksOn, WalksOver, field, leb_field, unsigned_field, byte, half_field, word, byte_that, sizes, operations, announced_bytes, ahead_of_numbers};

use crate::{LineError, LineFault, LineKind};
use leb_cursor::Cursor;
use std::alloc::Global;

/// The next byte; Err if it runs past the end.
pub fn byte(cursor: &mut Cursor) -> Result<u8, LineFault>
    ensures { Walks (λ x. x) result cursor.new (byte cursor.old) }
{
    Ok(cursor.byte()?)
}

/// The number in the next 2 bytes; Err if it runs past the end.
pub fn half(cursor: &mut Cursor) -> Result<u16, LineFault>
    ensures { Walks (λ x. x) result cursor.new (half_field cursor.old) }
{
    Ok(cursor.half()?)
}

/// The number in the next 4 bytes; Err if it runs past the end.
pub fn word(cursor: &mut Cursor) -> Result<u32, LineFault>
    ensures { Walks (λ x. x) result cursor.new (word cursor.old) }
{
    Ok(cursor.word()?)
}

/// The bytes before the next zero byte, which is passed too. Err if none follows.
pub fn text<'a>(cursor: &mut Cursor<'a>) -> Result<&'a [u8], LineFault>
    ensures { Walks (λ x. x.now) result cursor.new (field (text_at cursor.old)) }
{
    Ok(cursor.text()?)
}

/// A LEB128 number without a sign; Err if it doesn't end or doesn't fit 64 bits.
pub fn unsigned(cursor: &mut Cursor) -> Result<u64, LineFault>
    ensures { Walks (λ x. x) result cursor.new (unsigned_field cursor.old) }
{
    Ok(cursor.uleb()?)
}

/// A LEB128 number with a sign; Err if it doesn't end or doesn't fit 64 bits.
pub fn signed(cursor: &mut Cursor) -> Result<i64, LineFault>
    ensures { Walks (λ x. x) result cursor.new (leb_field (sleb_at cursor.old)) }
{
    Ok(cursor.sleb()?)
}

/// A byte that isn't zero, else this fault at it.
pub fn positive_byte(kind: LineKind, cursor: &mut Cursor) -> Result<u8, LineFault>
    ensures read { Walks (λ x. x) result cursor.new (byte_that (λ n. nat_lt 0 n) kind cursor.old) }
    ensures positive { IfOk result (λ n. 0 < n) }
{
    let place = cursor.place();
    let value = byte(cursor)?;
    if 0 < value {
        Ok(value)
    } else {
        Err(LineFault { kind, place })
    }
}

/// A byte of this value, else this fault at it.
fn byte_of(value: u8, kind: LineKind, cursor: &mut Cursor) -> Result<u8, LineFault>
    ensures { Walks (λ x. x) result cursor.new (byte_that (λ n. n == value) kind cursor.old) }
{
    let place = cursor.place();
    let found = byte(cursor)?;
    if found == value {
        Ok(found)
    } else {
        Err(LineFault { kind, place })
    }
}

/// Reads address_size and segment_selector_size, which version 5 has. Err is the first fault: the
/// sizes have to be 8 and 0.
pub fn address_sizes(version: u16, cursor: &mut Cursor) -> Result<(), LineFault>
    ensures { WalksOn result cursor.new (sizes version cursor.old) }
{
    if version == 5 {
        byte_of(8, LineKind::AddressSize, cursor)?;
        byte_of(0, LineKind::SegmentSize, cursor)?;
    }
    Ok(())
}

/// Reads maximum_operations_per_instruction, which a unit has from version 4 on. Err if it isn't 1.
pub fn one_operation(version: u16, cursor: &mut Cursor) -> Result<(), LineFault>
    ensures { WalksOn result cursor.new (operations version cursor.old) }
{
    if 4 <= version {
        byte_of(1, LineKind::ManyOps, cursor)?;
    }
    Ok(())
}

/// The next bytes as a cursor of their own; if there are fewer, the fault is at this place,
/// which announced them.
pub fn announced<'a>(
    place: u64,
    count: u32,
    cursor: &mut Cursor<'a>,
) -> Result<Cursor<'a>, LineFault>
    ensures { Walks (λ x. x) result cursor.new (announced_bytes place count cursor.old) }
{
    match cursor.part(count as u64) {
        Ok(part) => Ok(part),
        Err(_) => Err(LineFault {
            kind: LineKind::Short,
            place,
        }),
    }
}

/// The next bytes, as a cursor of their own. Err if fewer are left.
fn front<'a>(count: u64, cursor: &mut Cursor<'a>) -> Result<Cursor<'a>, LineFault>
    ensures { Walks (λ x. x) result cursor.new (field (part_at count cursor.old)) }
{
    Ok(cursor.part(count)?)
}

/// The next bytes as a list. Err if fewer are left, or if it is out of memory.
pub fn bytes(alloc: Global, count: u8, cursor: &mut Cursor) -> Result<Vec<u8>, LineError>
    ensures { WalksOver (λ v. v.items) result cursor.new (field (bytes_at count cursor.old)) }
{
    let mut part = front(count as u64, cursor)?;
    let mut items = Vec::with_capacity(alloc, count as usize)?;
    while let Ok(item) = part.byte() {
        items.push(item)?;
    }
    Ok(items)
}

/// Skips `count` unsigned LEB128 numbers. Err is the first fault among them.
#[tactic(auto, unfolding(crate::specs::Reading::ahead_of_numbers))]
pub fn pass(count: u8, cursor: &mut Cursor) -> Result<(), LineFault>
    ensures { WalksOn result cursor.new (ahead_of_numbers count cursor.old) }
{
    for _ in 0..count {
        unsigned(cursor)?;
    }
    Ok(())
}

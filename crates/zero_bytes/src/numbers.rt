//! Numbers in bytes, the lowest byte first.
ghost use Rattle.std.specs.Prelude.{ℕ, ◌≡◌, ◌+◌, ◌<◌, ◌^◌, ◌≤◌, length};
ghost use Rattle.byteorder.specs.Endian.{little_from};
ghost use Rattle.zero_bytes.specs.Bytes.{IsWidth, bytes_with_number};

use byteorder::{ByteOrder, LittleEndian};

/// The number in `size` bytes at `offset`, the lowest byte first.
#[inline(always)]
pub fn number_of(bytes: &[u8], offset: usize, size: u8) -> u64
    requires size { IsWidth size }
    requires fits { offset + size ≤ length bytes.now }
    ensures number { result ≡ little_from offset size bytes.now }
    ensures below { result < 256 ^ size }
{
    match size {
        1 => bytes[offset] as u64,
        2 => LittleEndian::read_u16(&bytes[offset..]) as u64,
        4 => LittleEndian::read_u32(&bytes[offset..]) as u64,
        _ => LittleEndian::read_u64(&bytes[offset..]),
    }
}

/// Writes a number into `size` bytes at `offset`, the lowest byte first.
#[inline(always)]
pub fn write_number(bytes: &mut [u8], offset: usize, size: u8, value: u64)
    requires size { IsWidth size }
    requires fits { offset + size ≤ length bytes.old }
    ensures { bytes.new ≡ bytes_with_number offset size value bytes.old }
{
    match size {
        1 => bytes[offset] = (value % 0x100) as u8,
        2 => LittleEndian::write_u16(&mut bytes[offset..], (value % 0x1_0000) as u16),
        4 => LittleEndian::write_u32(&mut bytes[offset..], (value % 0x1_0000_0000) as u32),
        _ => LittleEndian::write_u64(&mut bytes[offset..], value),
    }
}

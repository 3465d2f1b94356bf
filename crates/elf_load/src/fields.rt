//! Numbers of the file by their places, the lowest byte first.

ghost use Rattle.std.specs.Prelude.{◌≡◌, ◌≤◌, ◌+◌, length};
ghost use Rattle.std.specs.Int.{w16, w32, w64};
ghost use Rattle.elf_load.specs.Tables.{number, runs_past};

use byteorder::{ByteOrder, LittleEndian};

/// The number in the 2 bytes at an offset, the lowest byte first.
#[tactic(auto, unfolding(crate::specs::Tables::number))]
pub fn half_at(file: &[u8], place: usize) -> u16
    requires { place + 2 ≤ length file.now }
    ensures { result ≡ number w16 file.now place }
{
    LittleEndian::read_u16(&file[place..])
}

/// The number in the 4 bytes at an offset, the lowest byte first.
#[tactic(auto, unfolding(crate::specs::Tables::number))]
pub fn word_at(file: &[u8], place: usize) -> u32
    requires { place + 4 ≤ length file.now }
    ensures { result ≡ number w32 file.now place }
{
    LittleEndian::read_u32(&file[place..])
}

/// The number in the 8 bytes at an offset, the lowest byte first.
#[tactic(auto, unfolding(crate::specs::Tables::number))]
pub fn double_at(file: &[u8], place: usize) -> u64
    requires { place + 8 ≤ length file.now }
    ensures { result ≡ number w64 file.now place }
{
    LittleEndian::read_u64(&file[place..])
}

/// Whether `size` bytes from offset `from` on run past the end of the file; 0 bytes never do.
pub fn runs_past(file: &[u8], from: u64, size: u64) -> bool
    ensures { result ≡ runs_past file.now from size }
{
    size != 0 && from as u128 + size as u128 > file.len() as u128
}

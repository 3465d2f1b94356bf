//! The entries of a symbol table (ELF-64 Object File Format, version 1.5, "Symbol Table").

ghost use Rattle.std.specs.Prelude.{◌≡◌, ◌==◌, not, take_while, ◌≤◌, ◌+◌, length};
ghost use Rattle.std.specs.Int.{w16, w32, w64};
ghost use Rattle.elf_load.specs.Tables.{number};
ghost use Rattle.elf_symbols.specs.Symbols.{ended, has_name, name_of, symbol_at};

use byteorder::{ByteOrder, LittleEndian};
use coz_types::Address;

/// An entry of a symbol table.
#[derive(Clone, Copy)]
pub struct Symbol {
    /// st_name: where its name begins among the names.
    pub name: u32,
    /// The type, the low four bits of st_info.
    pub kind: u8,
    /// st_shndx: the number of its section, 0 if it is not defined.
    pub section: u16,
    /// st_value: its first address.
    pub address: Address,
    /// st_size: how many bytes it has.
    pub size: u64,
}

/// The bytes of an entry.
pub const SYM_SIZE: usize = 24;

// The offsets of fields in an entry.

/// st_info, one byte.
const ST_INFO: usize = 4;
/// st_shndx, two bytes.
const ST_SHNDX: usize = 6;
/// st_value, eight bytes.
const ST_VALUE: usize = 8;
/// st_size, eight bytes.
const ST_SIZE: usize = 16;

#[tactic(auto, unfolding(elf_load::specs::Tables::number))]
fn half_at(table: &[u8], offset: usize) -> u16
    requires { offset + 2 ≤ length table.now }
    ensures { result ≡ number w16 table.now offset }
{
    LittleEndian::read_u16(&table[offset..])
}

#[tactic(auto, unfolding(elf_load::specs::Tables::number))]
fn word_at(table: &[u8], offset: usize) -> u32
    requires { offset + 4 ≤ length table.now }
    ensures { result ≡ number w32 table.now offset }
{
    LittleEndian::read_u32(&table[offset..])
}

#[tactic(auto, unfolding(elf_load::specs::Tables::number))]
fn double_at(table: &[u8], offset: usize) -> u64
    requires { offset + 8 ≤ length table.now }
    ensures { result ≡ number w64 table.now offset }
{
    LittleEndian::read_u64(&table[offset..])
}

/// The entry at an offset of a symbol table.
pub fn symbol_at(table: &[u8], offset: usize) -> Symbol
    requires { offset + 24 ≤ length table.now }
    ensures { result ≡ symbol_at table.now offset }
{
    Symbol {
        name: word_at(table, offset),
        kind: table[offset + ST_INFO] % 16,
        section: half_at(table, offset + ST_SHNDX),
        address: double_at(table, offset + ST_VALUE),
        size: double_at(table, offset + ST_SIZE),
    }
}

/// Returns the names of symbols up to the last zero byte, which is where the last name that ends
/// ends.
pub fn ended(names: &[u8]) -> &[u8]
    ensures { result.now ≡ ended names.now }
{
    let mut end = names.len();
    while end > 0 && names[end - 1] != 0 {
        end -= 1;
    }
    &names[..end]
}

/// Whether the name of a symbol begins among these names, and isn't empty.
pub fn has_name(names: &[u8], symbol: &Symbol) -> bool
    ensures { result ≡ has_name names.now symbol.now }
{
    let offset = symbol.name as usize;
    offset < names.len() && names[offset] != 0
}

/// Returns the name of a symbol among names that `ended` returned: the bytes up to the next zero
/// byte. It is empty if it does not begin among them.
pub fn name_of<'a>(names: &'a [u8], symbol: &Symbol) -> &'a [u8]
    ensures { result.now ≡ name_of names.now symbol.now }
{
    let offset = (symbol.name as usize).min(names.len());
    up_to_zero(&names[offset..])
}

/// The bytes up to the first zero byte.
fn up_to_zero(bytes: &[u8]) -> &[u8]
    ensures { result.now ≡ take_while (λ b. not (b == 0)) bytes.now }
{
    let mut end = 0;
    while end < bytes.len() && bytes[end] != 0 {
        end += 1;
    }
    &bytes[..end]
}

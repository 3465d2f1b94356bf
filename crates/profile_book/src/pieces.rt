//! Pieces of printed texts, on their way to a sink.
ghost use Rattle.std.specs.Prelude.{◌++◌, decimal};
ghost use Rattle.std.specs.Fmt.{signed_decimal};
ghost use Rattle.coz_files.specs.Gathered.{Gathers};
ghost use Rattle.coz_types.specs.Endings.{address_text};
ghost use Rattle.profile_book.specs.Pieces.{number_line};
ghost use Rattle.profile_book.specs.Profile.{hex_text};

use coz_files::{PutBuffer, Sink};
use coz_types::{Address, HexDigits};

/// Puts a name and its value.
pub fn put_field<O: Sink>(to: &mut PutBuffer, out: &mut O, name: &[u8], value: &[u8])
    ensures { Gathers O.holds O.faults out.old out.new to.old to.new (name.now ++ value.now) }
{
    to.push(out, name);
    to.push(out, value);
}

/// Puts a name and its number, in decimal.
pub fn put_named<O: Sink>(to: &mut PutBuffer, out: &mut O, name: &[u8], number: u64)
    ensures { Gathers O.holds O.faults out.old out.new to.old to.new (name.now ++ decimal number) }
{
    let mut buffer = itoa::Buffer::new();
    let written = buffer.format(number);
    put_field(to, out, name, written.as_bytes());
}

/// Puts a name and its number, which may exceed 64 bits.
pub fn put_large<O: Sink>(to: &mut PutBuffer, out: &mut O, name: &[u8], number: u128)
    ensures { Gathers O.holds O.faults out.old out.new to.old to.new (name.now ++ decimal number) }
{
    let mut buffer = itoa::Buffer::new();
    let written = buffer.format(number);
    put_field(to, out, name, written.as_bytes());
}

/// Puts a name and its number, with a minus sign if the number is negative.
pub fn put_signed<O: Sink>(to: &mut PutBuffer, out: &mut O, name: &[u8], number: i128)
    ensures { Gathers O.holds O.faults out.old out.new to.old to.new
        (name.now ++ signed_decimal number) }
{
    let mut buffer = itoa::Buffer::new();
    let written = buffer.format(number);
    put_field(to, out, name, written.as_bytes());
}

/// Puts a line of a name and its number.
pub fn put_line<O: Sink>(to: &mut PutBuffer, out: &mut O, name: &[u8], number: u64)
    ensures { Gathers O.holds O.faults out.old out.new to.old to.new
        (number_line name.now number) }
{
    put_named(to, out, name, number);
    to.push(out, b"\n");
}

/// Puts a name and the digits of a digest, two for each byte, in lower case.
pub fn put_digest<O: Sink>(to: &mut PutBuffer, out: &mut O, name: &[u8], digest: &[u8; 32])
    ensures { Gathers O.holds O.faults out.old out.new to.old to.new
        (name.now ++ hex_text digest.now) }
{
    let mut text = [0u8; 64];
    match hex::encode_to_slice(digest.as_slice(), &mut text) {
        Ok(()) => put_field(to, out, name, &text),
        Err(_) => unreachable!(),
    }
}

/// Puts an address, in hexadecimal.
pub fn put_address<O: Sink>(to: &mut PutBuffer, out: &mut O, address: Address)
    ensures { Gathers O.holds O.faults out.old out.new to.old to.new (address_text address) }
{
    let digits = HexDigits::new(address);
    put_field(to, out, b"0x", digits.bytes());
}

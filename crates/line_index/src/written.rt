//! Paths as they are written in labels.

ghost use Rattle.std.specs.Prelude.{◌≡◌, ◌++◌, ◌<◌, ℕ, OnOk, All};
ghost use Rattle.coz_types.specs.Labels.{hex_digit, is_escaped, escape_of, written};

use std::alloc::AllocError;

/// A hexadecimal digit in upper case.
fn hex_digit(digit: u8) -> u8
    requires { digit < 16 }
    ensures { result ≡ hex_digit digit }
{
    if digit < 10 {
        b'0' + digit
    } else {
        b'A' + (digit - 10)
    }
}

/// Whether a list of labels can't have the byte as it is: it doesn't print, or is a space, % or a
/// comma.
fn is_escaped(byte: u8) -> bool
    ensures { result ≡ is_escaped byte }
{
    byte < 0x21 || 0x7E < byte || byte == b'%' || byte == b','
}

fn push_escaped(text: &mut Vec<u8>, byte: u8) -> Result<(), AllocError>
    ensures { OnOk result (text.new.items ≡ text.old.items ++ escape_of byte) }
{
    if is_escaped(byte) {
        text.push(b'%')?;
        text.push(hex_digit(byte / 16))?;
        text.push(hex_digit(byte % 16))?;
    } else {
        text.push(byte)?;
    }
    Ok(())
}

/// The bytes of a part of a path, as they are written.
pub fn write_escaped(text: &mut Vec<u8>, bytes: &[u8]) -> Result<(), AllocError>
    ensures text { OnOk result (text.new.items ≡ text.old.items ++ written bytes.now) }
    ensures bytes { All (λ (byte : ℕ). byte < 256) bytes.now }
{
    for byte in bytes {
        push_escaped(text, *byte)?;
    }
    Ok(())
}

//! The path of a written path.

ghost use Rattle.std.specs.Prelude.{◌≡◌, ◌≤◌, ◌<◌, ◌++◌, true, drop, length, IfOk};
ghost use Rattle.coz_types.specs.Labels.{escape_of, hex_value, is_hex_digit, is_written, written};

use std::alloc::{AllocError, Global};

/// The byte with which an escape begins.
const ESCAPE: u8 = b'%';

/// The value of an upper-case hexadecimal digit.
fn digit(byte: u8) -> u8
    requires { is_hex_digit byte ≡ true }
    ensures value { result ≡ hex_value byte }
    ensures small { result < 16 }
{
    if byte < b'A' {
        byte - b'0'
    } else {
        byte - b'A' + 10
    }
}

/// The byte with whose written form a written path begins, and the length of that form.
#[derive(Clone, Copy)]
struct Next {
    byte: u8,
    length: usize,
}

/// Returns the byte with whose written form a written path begins.
fn next_byte(path: &[u8]) -> Next
    requires some { 0 < length path.now }
    requires written { is_written path.now ≡ true }
    ensures form { escape_of result.byte ++ drop result.length path.now ≡ path.now }
    ensures rest { is_written (drop result.length path.now) ≡ true }
    ensures within { result.length ≤ length path.now }
    ensures forward { 0 < result.length }
{
    if path[0] == ESCAPE {
        Next {
            byte: digit(path[1]) * 16 + digit(path[2]),
            length: 3,
        }
    } else {
        Next {
            byte: path[0],
            length: 1,
        }
    }
}

/// Returns the path whose written form this is.
pub fn unwritten(alloc: Global, path: &[u8]) -> Result<Vec<u8>, AllocError>
    requires { is_written path.now ≡ true }
    ensures { IfOk result (λ v. written v.items ≡ path.now) }
{
    let mut out = Vec::new(alloc);
    let mut offset = 0;
    while offset < path.len() {
        let next = next_byte(&path[offset..]);
        out.push(next.byte)?;
        offset += next.length;
    }
    Ok(out)
}

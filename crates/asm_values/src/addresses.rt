//! Where the text and the data of a program lie in memory, and where it begins.

ghost use Rattle.std.specs.Prelude.{◌≡◌, ◌≤◌, ◌<◌, ◌+◌, ◌^◌};
ghost use Rattle.asm_values.specs.Addresses.{up_to_multiple, text_address, data_address, entry_address};

use crate::TEXT_START;
use coz_types::PAGE;

/// The least multiple of `multiple` that isn't below `n`.
pub fn up_to_multiple(multiple: u64, n: u64) -> u64
    requires some { 0 < multiple }
    requires multiple { multiple ≤ 2 ^ 32 }
    requires small { n < 2 ^ 40 }
    ensures value { result ≡ up_to_multiple multiple n }
    ensures within { result < n + multiple }
    ensures above { n ≤ result }
{
    (n + (multiple - 1)) / multiple * multiple
}

/// The address of the byte at this offset of the text.
pub fn text_address(offset: u32) -> u64
    ensures value { result ≡ text_address offset }
    ensures small { result < 2 ^ 34 }
{
    TEXT_START + u64::from(offset)
}

/// The address of the byte at this offset of the data, after a text of `text` bytes: data begins
/// at the first page that isn't below the text's end.
pub fn data_address(text: u32, offset: u32) -> u64
    ensures value { result ≡ data_address text offset }
    ensures small { result < 2 ^ 34 }
{
    TEXT_START + up_to_multiple(PAGE, u64::from(text)) + u64::from(offset)
}

/// The address of the first instruction that runs, in a text of `text` bytes: the one at `start`,
/// the offset of `_start` in the text, if there is this label and a byte at it; otherwise the
/// first of the text.
pub fn entry_address(start: Option<u32>, text: u32) -> u64
    ensures { result ≡ entry_address start text }
{
    match start {
        Some(offset) if offset < text => text_address(offset),
        _ => TEXT_START,
    }
}

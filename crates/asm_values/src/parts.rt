//! The parts of a number that instructions and data can hold.

ghost use Rattle.std.specs.Prelude.{◌≡◌, ◌≤◌, ◌<◌, ◌^◌, IsTrue, pos, neg_ℤ, ◌≤ℤ◌, Some, None, if◌then◌else◌};
ghost use Rattle.rv_decode.specs.Fields.{twos_complement, is_signed};
ghost use Rattle.asm_values.specs.Parts.{lower, upper};

/// The lowest bits of a number in two's complement.
pub fn low_bits(value: i128, bits: u32) -> u64
    requires { bits ≤ 64 }
    ensures value { result ≡ twos_complement bits value }
    ensures small { result < 2 ^ bits }
{
    value.rem_euclid(1 << bits) as u64
}

/// The number, if 12 bits with a sign hold it, as those of `addi` do (RISC-V unprivileged manual,
/// "Integer Register-Immediate Instructions"); otherwise `None`.
pub fn immediate(value: i128) -> Option<i32>
    ensures { result ≡ if is_signed 12 value then Some value else None }
{
    if -2048 <= value && value <= 2047 {
        Some(value as i32)
    } else {
        None
    }
}

/// The lowest 12 bits of a number, with a sign.
pub fn lower(value: i128) -> i32
    ensures value { result ≡ lower value }
    ensures small { IsTrue (is_signed 12 result) }
{
    let low = low_bits(value, 12) as i32;
    if low < 0x800 { low } else { low - 0x1000 }
}

/// The 20 bits above the lowest 12, which make up for the sign of these.
pub fn upper(value: i128) -> u32
    requires low { neg_ℤ (pos (2 ^ 100)) ≤ℤ value }
    requires high { value ≤ℤ pos (2 ^ 100) }
    ensures value { result ≡ upper value }
    ensures small { result < 2 ^ 20 }
{
    (low_bits(value - i128::from(lower(value)), 32) >> 12) as u32
}

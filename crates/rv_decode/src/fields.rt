//! The fields that stand in a word.

ghost use Rattle.std.specs.Prelude.{◌≡◌, ◌<◌, ◌^◌, ◌==◌};
ghost use Rattle.rv_decode.specs.Fields.{part, signed_bits};
ghost use Rattle.rv_decode.specs.Instructions.{immediate_in, store_in, branch_in, jump_in};

/// The bits of a word from `low` on, `count` of them, as a number.
fn bits(word: u32, low: u32, count: u32) -> u32
    requires low { low < 32 }
    requires count { count < 32 }
    ensures part { result ≡ part word low count }
    ensures below { result < 2 ^ count }
{
    (word >> low) & ((1 << count) - 1)
}

pub(crate) fn opcode(word: u32) -> u32
    ensures { result ≡ part word 0 7 }
{
    bits(word, 0, 7)
}

pub(crate) fn funct3(word: u32) -> u32
    ensures { result ≡ part word 12 3 }
{
    bits(word, 12, 3)
}

pub(crate) fn funct5(word: u32) -> u32
    ensures field { result ≡ part word 27 5 }
    ensures below { result < 2 ^ 5 }
{
    bits(word, 27, 5)
}

pub(crate) fn funct6(word: u32) -> u32
    ensures field { result ≡ part word 26 6 }
    ensures below { result < 2 ^ 6 }
{
    bits(word, 26, 6)
}

pub(crate) fn funct7(word: u32) -> u32
    ensures { result ≡ part word 25 7 }
{
    bits(word, 25, 7)
}

/// The register that is written.
pub(crate) fn rd(word: u32) -> u8
    ensures { result ≡ part word 7 5 }
{
    bits(word, 7, 5) as u8
}

/// The first register that is read.
pub(crate) fn rs1(word: u32) -> u8
    ensures { result ≡ part word 15 5 }
{
    bits(word, 15, 5) as u8
}

/// The second register that is read.
pub(crate) fn rs2(word: u32) -> u8
    ensures { result ≡ part word 20 5 }
{
    bits(word, 20, 5) as u8
}

/// The amount of a shift of 64 bits.
pub(crate) fn amount(word: u32) -> u8
    ensures { result ≡ part word 20 6 }
{
    bits(word, 20, 6) as u8
}

/// The upper 20 bits.
pub(crate) fn upper_bits(word: u32) -> u32
    ensures { result ≡ part word 12 20 }
{
    bits(word, 12, 20)
}

/// The upper 12 bits.
pub(crate) fn fence_bits(word: u32) -> u16
    ensures { result ≡ part word 20 12 }
{
    bits(word, 20, 12) as u16
}

/// The lowest bit of a word after a shift to the right.
pub(crate) fn flag(word: u32, shift: u32) -> bool
    requires { shift < 32 }
    ensures { result ≡ (part word shift 1 == 1) }
{
    bits(word, shift, 1) == 1
}

/// The signed number that 12 bits write.
fn signed_12(bits: u32) -> i32
    requires { bits < 2 ^ 12 }
    ensures { result ≡ signed_bits 12 bits }
{
    let number = bits.cast_signed();
    if bits < 0x800 {
        number
    } else {
        number - 0x1000
    }
}

/// The signed number that 13 bits write.
fn signed_13(bits: u32) -> i32
    requires { bits < 2 ^ 13 }
    ensures { result ≡ signed_bits 13 bits }
{
    let number = bits.cast_signed();
    if bits < 0x1000 {
        number
    } else {
        number - 0x2000
    }
}

/// The signed number that 21 bits write.
fn signed_21(bits: u32) -> i32
    requires { bits < 2 ^ 21 }
    ensures { result ≡ signed_bits 21 bits }
{
    let number = bits.cast_signed();
    if bits < 0x10_0000 {
        number
    } else {
        number - 0x20_0000
    }
}

/// The immediate of a load, of jalr or of an operation on a register.
pub(crate) fn immediate(word: u32) -> i32
    ensures { result ≡ immediate_in word }
{
    signed_12(bits(word, 20, 12))
}

/// The offset of a store.
pub(crate) fn store_offset(word: u32) -> i32
    ensures { result ≡ store_in word }
{
    signed_12(bits(word, 7, 5) + bits(word, 25, 7) * 0x20)
}

/// The offset of a branch.
pub(crate) fn branch_offset(word: u32) -> i32
    ensures { result ≡ branch_in word }
{
    signed_13(
        bits(word, 8, 4) * 2
            + bits(word, 25, 6) * 0x20
            + bits(word, 7, 1) * 0x800
            + bits(word, 31, 1) * 0x1000,
    )
}

/// The offset of jal.
pub(crate) fn jump_offset(word: u32) -> i32
    ensures { result ≡ jump_in word }
{
    signed_21(
        bits(word, 21, 10) * 2
            + bits(word, 20, 1) * 0x800
            + bits(word, 12, 8) * 0x1000
            + bits(word, 31, 1) * 0x10_0000,
    )
}

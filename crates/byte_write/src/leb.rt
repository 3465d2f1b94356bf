//! LEB128 numbers as bytes (DWARF 4, section 7.6).

ghost use Rattle.std.specs.Prelude.{◌≡◌, ◌<◌, ◌≤◌, ◌+◌, ◌^◌, ◌*◌, ◌-◌, ◌++◌, IfOk, nat_lt, pos, neg_ℤ, ◌-ℤ◌, ◌≤ℤ◌};
ghost use Rattle.rv_decode.specs.Fields.{twos_complement, is_signed};
ghost use Rattle.byte_write.specs.Numbers.{groups, fewest, leb, uleb, sleb};

use std::alloc::AllocError;

/// Appends a number in the five bytes of LEB128, padded. With a sign it has the same bytes.
#[tactic(auto, unfolding(crate::specs::Numbers::leb))]
pub fn push_leb(out: &mut Vec<u8>, n: u64) -> Result<(), AllocError>
    requires { n < 2 ^ 34 }
    ensures { IfOk result (λ _. out.new.items ≡ out.old.items ++ leb n) }
{
    out.extend_from_slice(&[
        (n % 0x80) as u8 + 0x80,
        (n / 0x80 % 0x80) as u8 + 0x80,
        (n / 0x80 / 0x80 % 0x80) as u8 + 0x80,
        (n / 0x80 / 0x80 / 0x80 % 0x80) as u8 + 0x80,
        (n / 0x80 / 0x80 / 0x80 / 0x80 % 0x80) as u8,
    ])
}

/// Appends `count` groups of seven bits of `n`, the lowest first. All but the last have the
/// upper bit.
fn push_groups(out: &mut Vec<u8>, count: u32, n: u64) -> Result<(), AllocError>
    requires { 1 ≤ count }
    ensures { IfOk result (λ _. out.new.items ≡ out.old.items ++ groups count n) }
{
    let mut left = n;
    for _ in 1..count {
        out.push((left % 0x80) as u8 + 0x80)?;
        left /= 0x80;
    }
    out.push((left % 0x80) as u8)?;
    Ok(())
}

/// The number of groups of a number without sign.
#[tactic(auto, unfolding(crate::specs::Numbers::fewest))]
fn unsigned_groups(n: u64) -> u32
    requires { n < 2 ^ 21 }
    ensures count { result ≡ fewest (λ k. nat_lt n (2 ^ (7 * k))) }
    ensures some { 1 ≤ result }
{
    if n < 1 << 7 {
        1
    } else if n < 1 << 14 {
        2
    } else {
        3
    }
}

/// Appends a number without sign in as few bytes as hold it.
pub fn push_uleb(out: &mut Vec<u8>, n: u64) -> Result<(), AllocError>
    requires { n < 2 ^ 21 }
    ensures { IfOk result (λ _. out.new.items ≡ out.old.items ++ uleb n) }
{
    push_groups(out, unsigned_groups(n), n)
}

/// The lowest bits of a number in two's complement.
fn low_bits(value: i64, bits: u32) -> u64
    requires { bits ≤ 62 }
    ensures { result ≡ twos_complement bits value }
{
    value.rem_euclid(1 << bits) as u64
}

/// Whether `count` groups of 7 bits hold the number with its sign.
fn fits_groups(n: i64, count: u32) -> bool
    requires some { 1 ≤ count }
    requires few { count ≤ 5 }
    ensures { result ≡ is_signed (7 * count) n }
{
    let half: i64 = 1 << (7 * count - 1);
    -half <= n && n < half
}

/// The number of groups of a number with its sign.
#[tactic(auto, unfolding(crate::specs::Numbers::fewest))]
fn signed_groups(n: i64) -> u32
    requires low { neg_ℤ (pos (2 ^ 33)) ≤ℤ n }
    requires high { n ≤ℤ pos (2 ^ 33 - 1) }
    ensures count { result ≡ fewest (λ k. is_signed (7 * k) n) }
    ensures some { 1 ≤ result }
    ensures few { result ≤ 5 }
{
    if fits_groups(n, 1) {
        1
    } else if fits_groups(n, 2) {
        2
    } else if fits_groups(n, 3) {
        3
    } else if fits_groups(n, 4) {
        4
    } else {
        5
    }
}

/// Appends a number with a sign in as few bytes as hold it.
pub fn push_sleb(out: &mut Vec<u8>, n: i64) -> Result<(), AllocError>
    requires low { neg_ℤ (pos (2 ^ 33)) ≤ℤ n }
    requires high { n ≤ℤ pos (2 ^ 33 - 1) }
    ensures { IfOk result (λ _. out.new.items ≡ out.old.items ++ sleb n) }
{
    let count = signed_groups(n);
    push_groups(out, count, low_bits(n, 7 * count))
}

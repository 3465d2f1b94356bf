//! Numbers of fixed width as bytes, the lowest byte first.

ghost use Rattle.std.specs.Prelude.{◌≡◌, ◌++◌, flat_map, IfOk};
ghost use Rattle.byte_write.specs.Numbers.{half, word, double};

use std::alloc::AllocError;

/// Appends a number of two bytes, the lowest byte first.
#[tactic(auto, unfolding(crate::specs::Numbers::half))]
pub fn push_half(out: &mut Vec<u8>, n: u16) -> Result<(), AllocError>
    ensures { IfOk result (λ _. out.new.items ≡ out.old.items ++ half n) }
{
    out.extend_from_slice(&n.to_le_bytes())
}

/// Appends a number of four bytes, the lowest byte first.
#[tactic(auto, unfolding(crate::specs::Numbers::word))]
pub fn push_word(out: &mut Vec<u8>, n: u32) -> Result<(), AllocError>
    ensures { IfOk result (λ _. out.new.items ≡ out.old.items ++ word n) }
{
    out.extend_from_slice(&n.to_le_bytes())
}

/// Appends a number of eight bytes, the lowest byte first.
#[tactic(auto, unfolding(crate::specs::Numbers::double))]
pub fn push_double(out: &mut Vec<u8>, n: u64) -> Result<(), AllocError>
    ensures { IfOk result (λ _. out.new.items ≡ out.old.items ++ double n) }
{
    out.extend_from_slice(&n.to_le_bytes())
}

/// Appends numbers of eight bytes.
pub fn push_doubles(out: &mut Vec<u8>, numbers: &[u64]) -> Result<(), AllocError>
    ensures { IfOk result (λ _. out.new.items ≡ out.old.items ++ flat_map double numbers.now) }
{
    for n in numbers {
        push_double(out, *n)?;
    }
    Ok(())
}

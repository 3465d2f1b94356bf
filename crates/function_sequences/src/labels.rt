//! The line that a function is.

ghost use Rattle.std.specs.Prelude.{◌≡◌, ◌<◌, ◌+◌, ◌^◌, ◌++◌, ◌∷◌, ◌==◌, not, true, false, length, IfOk, IfSome};
ghost use Rattle.std.specs.List.{AllPass};
ghost use Rattle.coz_types.specs.Labels.{is_written, written};
ghost use Rattle.line_remap.specs.Locations.{lines_of};
ghost use Rattle.function_sequences.specs.Labels.{labelled};
ghost use Rattle.line_remap.specs.Marks.{IsText, has_zero};
ghost use Rattle.line_write.specs.Lines.{line_of_sequence};
ghost use Rattle.line_write.specs.Unit.{IsWritable, view};

use elf_symbols::Symbol;
use line_remap::{Location, unwritten};
use line_write::Sequence;
use std::alloc::{AllocError, Global};

/// The path of a name below the path that is written so.
#[tactic(auto, using(crate::proofs::NameTexts::joined_text))]
fn path_below(alloc: Global, path: &[u8], name: &[u8]) -> Result<Vec<u8>, AllocError>
    requires written { is_written path.now ≡ true }
    requires path { has_zero path.now ≡ false }
    requires name { AllPass (λ b. not (b == 0)) name.now }
    ensures written { IfOk result (λ v. written v.items ≡ path.now ++ 47 ∷ written name.now) }
    ensures named { IfOk result (λ v. 0 < length v.items) }
    ensures text { IfOk result (λ v. AllPass (λ b. not (b == 0)) v.items) }
{
    let mut out = unwritten(alloc, path)?;
    out.push(b'/')?;
    out.extend_from_slice(name)?;
    Ok(out)
}

/// The addresses of a function, which are this line.
fn sequence_with(symbol: &Symbol, path: Vec<u8>, number: u32) -> Sequence
    ensures path { result.path ≡ path }
    ensures number { result.number ≡ number }
    ensures address { result.address ≡ symbol.now.address }
    ensures size { result.size ≡ symbol.now.size }
{
    Sequence {
        path,
        number,
        address: symbol.address,
        size: symbol.size,
    }
}

/// Returns the sequence of a function with this name: its addresses, and the line that it is. A
/// function whose first address has the line N of the written path P is line N of `P/NAME`, and
/// one without a line is line 1 of `NAME`.
pub fn function_sequence(
    alloc: Global,
    symbol: &Symbol,
    name: &[u8],
    location: Option<Location>,
) -> Result<Sequence, AllocError>
    requires location { IfSome location IsText }
    requires named { 0 < length name.now }
    requires text { AllPass (λ b. not (b == 0)) name.now }
    requires within { symbol.now.address + symbol.now.size < 2 ^ 64 }
    ensures line { IfOk result (λ s.
        line_of_sequence (view s) ≡ labelled name.now (lines_of location.entry)) }
    ensures address { IfOk result (λ s. s.address ≡ symbol.now.address) }
    ensures size { IfOk result (λ s. s.size ≡ symbol.now.size) }
    ensures writable { IfOk result (λ s. IsWritable (view s)) }
{
    match location {
        Some(location) => {
            let path = path_below(alloc, location.path, name)?;
            Ok(sequence_with(symbol, path, location.number))
        }
        None => {
            let path = Vec::from_slice(alloc, name)?;
            Ok(sequence_with(symbol, path, 1))
        }
    }
}

//! The sequences of the line unit in which each function is one line.

ghost use Rattle.std.specs.Prelude.{◌≡◌, None, All, IfOk};
ghost use Rattle.elf_load.specs.Faults.{fault};
ghost use Rattle.line_write.specs.Unit.{IsWritable, view, views};
ghost use Rattle.line_remap.specs.Marks.{IsMark, marks_of};
ghost use Rattle.line_remap.specs.Runs.{Adds};
ghost use Rattle.line_remap.specs.Sound.{IsSound};
ghost use Rattle.function_sequences.specs.Sequences.{AreFunctions, AreSequences, IsNamed, IsOfFunction, SequencesAreOne, bytes_in, falling, functions_in, names_in};

use crate::labels::function_sequence;
use coz_types::Image;
use elf_load::section;
use elf_symbols::{Symbol, ended, name_of};
use line_index::LineIndex;
use line_remap::{Mark, Sequences, location_at, push_kept};
use line_write::Sequence;
use std::alloc::{AllocError, Global};

/// The bytes of a program's section of this name, none if it has no such section.
pub fn bytes_in<'a>(image: &Image<'a>, name: &[u8]) -> &'a [u8]
    requires { fault image.now.file ≡ None }
    ensures { result.now ≡ bytes_in image.now.file name.now }
{
    match section(image, name) {
        Some(bytes) => bytes,
        None => &[],
    }
}

/// The sequence of a function.
fn sequence_of(
    alloc: Global,
    index: &LineIndex,
    names: &[u8],
    symbol: &Symbol,
) -> Result<Sequence, AllocError>
    requires sound { IsSound index.now }
    requires right { IsNamed names.now symbol.now }
    ensures of { IfOk result (λ s. IsOfFunction index.now names.now symbol.now (view s)) }
    ensures writable { IfOk result (λ s. IsWritable (view s)) }
{
    let location = location_at(index, symbol.address);
    function_sequence(alloc, symbol, name_of(names, symbol), location)
}

/// Adds the sequences of functions.
fn push_functions(
    alloc: Global,
    out: &mut Sequences,
    index: &LineIndex,
    names: &[u8],
    symbols: &[Symbol],
) -> Result<(), AllocError>
    requires sound { IsSound index.now }
    requires right { All (IsNamed names.now) symbols.now }
    ensures { IfOk result (λ _. Adds (AreFunctions index.now names.now symbols.now)
        (views out.old.list.items) (views out.new.list.items)) }
{
    for symbol in symbols {
        let sequence = sequence_of(alloc, index, names, symbol)?;
        out.push(sequence)?;
    }
    Ok(())
}

/// The sequences of the kept lines and of the functions.
pub fn sequences(
    alloc: Global,
    image: &Image,
    index: &LineIndex,
    marks: &[Mark],
    symbols: &[Symbol],
) -> Result<Vec<Sequence>, AllocError>
    requires right { fault image.now.file ≡ None }
    requires sound { IsSound index.now }
    requires marks { All (IsMark index.now) marks.now }
    requires found { symbols.now ≡ falling (functions_in image.now) }
    requires named { All (IsNamed (names_in image.now.file)) symbols.now }
    ensures are { IfOk result (λ v.
        AreSequences image.now index.now (marks_of marks.now) (views v.items)) }
    ensures writable { IfOk result (λ v. All IsWritable (views v.items)) }
{
    let names = ended(bytes_in(image, b".strtab"));
    let mut out = Sequences::new(alloc);
    push_kept(alloc, &mut out, index, marks)?;
    push_functions(alloc, &mut out, index, names, symbols)?;
    Ok(out.list)
}

/// A program, an index of its lines and marks of them have one list of sequences at most: each path,
/// number, address and size is determined, and so is their order.
pub fn sequences_are_one()
    ensures { SequencesAreOne }
{}

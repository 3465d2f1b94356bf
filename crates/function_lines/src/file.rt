//! A program in which each function is one line.

ghost use Rattle.std.specs.Prelude.{◌≡◌, ◌≤◌, ◌<◌, true, None, Some, codes, length, All, IfOk, IfErr};
ghost use Rattle.coz_types.specs.declared.LineId.{LineId};
ghost use Rattle.coz_types.specs.declared.TheConstants.{MAX_PROGRAM};
ghost use Rattle.coz_types.specs.Image.{IsImage};
ghost use Rattle.elf_load.specs.Faults.{fault};
ghost use Rattle.elf_load.specs.Loaded.{load_answer, section};
ghost use Rattle.function_lines.specs.ByFunction.{AnswersAreOne, IsByFunction, IsCauseOf, IsFileCause, ReadsWithoutFault, IsUnit, IsUnitCause, IsWithFunctions};
ghost use Rattle.line_remap.specs.Marks.{IsMark, marks_of, positions_of, spelled_lines};
ghost use Rattle.line_regions.specs.Regions.{chosen_marks, regions_of};
ghost use Rattle.line_regions.specs.declared.lines.Region.{Region};
ghost use Rattle.function_lines.specs.SameProgram.{is_same_program};
ghost use Rattle.function_sequences.specs.Sequences.{IsNamed, bytes_in, falling, functions_in, names_in};
ghost use Rattle.line_remap.specs.Sound.{IsIndexOf, IsSound};
ghost use Rattle.function_lines.specs.WithLines.{with_lines};
ghost use Rattle.function_lines.specs.declared.file.FunctionsError.TheVariants.{Memory};

use crate::relined::{LINES, LinesError, with_lines};
use coz_types::{Image, LineId, MAX_PROGRAM};
use elf_load::section_place;
use elf_symbols::Symbol;
use function_sequences::{Functions, bytes_in, functions, sequences};
use line_index::LineIndex;
use line_regions::{Lines, Region};
use line_remap::{Mark, kept_marks};
use line_write::{UnitError, write_unit};
use std::alloc::{AllocError, Global};

/// Why a program has no file in which each function is one line.
#[derive(Clone, Copy)]
pub enum FunctionsError {
    /// The file has no function: no symbol table, or no function in it.
    NoFunctions,
    /// The file has no section `.debug_line`.
    NoLines,
    /// The file would have more than 33,554,432 bytes.
    Much,
    /// The header of the section `.debug_line` cannot be changed: with it the program, or what
    /// the file's sections are, would change.
    Overlap,
    /// Out of memory.
    Memory,
}

impl From<AllocError> for FunctionsError {
    ghost from_gives = { λ _ error. error ≡ Memory };

    fn from(_: AllocError) -> FunctionsError {
        FunctionsError::Memory
    }
}

/// The functions of a program, as their first addresses fall.
fn falling(alloc: Global, found: &Functions) -> Result<Vec<Symbol>, AllocError>
    ensures { IfOk result (λ symbols. symbols.items ≡ falling found.now.entries) }
{
    found.values().rev().copied().collect(alloc)
}

/// The functions of a program, as their first addresses fall.
fn functions_of(alloc: Global, image: &Image) -> Result<Vec<Symbol>, AllocError>
    requires { fault image.now.file ≡ None }
    ensures found { IfOk result (λ symbols.
        symbols.items ≡ falling (functions_in image.now)) }
    ensures right { IfOk result (λ symbols.
        All (IsNamed (names_in image.now.file)) symbols.items) }
    ensures valid { IfOk result (λ _. IsImage image.now) }
{
    let table = bytes_in(image, b".symtab");
    let names = bytes_in(image, b".strtab");
    let found = functions(alloc, image.areas(), table, names)?;
    falling(alloc, &found)
}

/// The line unit in which each function is one line.
fn unit_of(
    alloc: Global,
    image: &Image,
    index: &LineIndex,
    marks: &[Mark],
    symbols: &[Symbol],
) -> Result<Vec<u8>, UnitError>
    requires right { fault image.now.file ≡ None }
    requires sound { IsSound index.now }
    requires marks { All (IsMark index.now) marks.now }
    requires found { symbols.now ≡ falling (functions_in image.now) }
    requires named { All (IsNamed (names_in image.now.file)) symbols.now }
    ensures unit { IfOk result (λ v.
        IsUnit image.now index.now (marks_of marks.now) v.items) }
    ensures too_long { IfErr result (IsUnitCause image.now index.now (marks_of marks.now)) }
{
    let sequences = sequences(alloc, image, index, marks, symbols)?;
    write_unit(alloc, &sequences)
}

/// The file with this unit, unless it is longer than a program may be.
fn file_of(alloc: Global, image: &Image, unit: &[u8]) -> Result<Vec<u8>, FunctionsError>
    requires { fault image.now.file ≡ None }
    ensures same_program { IfOk result (λ v.
        is_same_program image.now (load_answer v.items) ≡ true) }
    ensures short { IfOk result (λ v. length v.items ≤ MAX_PROGRAM) }
    ensures file { IfOk result (λ v. with_lines image.now.file unit.now ≡ Some v.items) }
    ensures lines { IfOk result (λ v. section v.items (codes ".debug_line") ≡ Some unit.now) }
    ensures cause { IfErr result (IsFileCause image.now unit.now) }
{
    if section_place(image, LINES).is_none() {
        return Err(FunctionsError::NoLines);
    }
    if image.file().len() + unit.len() > MAX_PROGRAM as usize {
        return Err(FunctionsError::Much);
    }
    match with_lines(alloc, image, unit) {
        Ok(file) => Ok(file),
        Err(LinesError::NoLines) => Err(FunctionsError::NoLines),
        Err(LinesError::Overlap) => Err(FunctionsError::Overlap),
        Err(LinesError::Memory) => Err(FunctionsError::Memory),
    }
}

/// Returns the file of a program with a line table in which each function is one line; all other
/// bytes of the file are as they were. The image is that of a file without a fault, and the index
/// that of a line table in its areas.
///
/// An address whose line has a mark has the line that the first mark of its line names. Any other
/// address has the line of the function with the greatest first address among those that have the
/// address: line N of `P/NAME` if the function's first address has line N of the path P in the
/// program, and else line 1 of `NAME`.
///
/// Fails, in this order, if the program has no function, if it has no section `.debug_line`, if
/// the file would have more than 33,554,432 bytes, and if the header of that section lies among
/// the program's own bytes or among those by which the file is read.
pub fn by_marks(
    alloc: Global,
    image: &Image,
    index: &LineIndex,
    marks: &[Mark],
) -> Result<Vec<u8>, FunctionsError>
    requires right { fault image.now.file ≡ None }
    requires indexed { IsIndexOf image.now.areas index.now }
    requires marks { All (IsMark index.now) marks.now }
    ensures same_program { IfOk result (λ v.
        is_same_program image.now (load_answer v.items) ≡ true) }
    ensures short { IfOk result (λ v. length v.items ≤ MAX_PROGRAM) }
    ensures file { IfOk result (λ v.
        IsWithFunctions image.now index.now (marks_of marks.now) v.items) }
    ensures reads { IfOk result (λ v. ReadsWithoutFault v.items) }
    ensures lines { IfOk result (λ v.
        IsByFunction image.now index.now (marks_of marks.now) v.items) }
    ensures cause { IfErr result (IsCauseOf image.now index.now (marks_of marks.now)) }
{
    let symbols = functions_of(alloc, image)?;
    if symbols.is_empty() {
        return Err(FunctionsError::NoFunctions);
    }
    if section_place(image, LINES).is_none() {
        return Err(FunctionsError::NoLines);
    }
    match unit_of(alloc, image, index, marks, &symbols) {
        Ok(unit) => file_of(alloc, image, &unit),
        Err(UnitError::TooLong) => Err(FunctionsError::Much),
        Err(UnitError::Memory) => Err(FunctionsError::Memory),
    }
}

/// The marks of lines that keep their addresses, and behind them those of the lines of regions.
fn chosen_marks<'a>(
    alloc: Global,
    index: &'a LineIndex,
    kept: &[LineId],
    lines: &Lines<'a>,
    regions: &[Region],
) -> Result<Vec<Mark<'a>>, AllocError>
    requires kept { All (λ (line : LineId). line.0 < length index.now.lines) kept.now }
    requires lines { lines.now ≡ spelled_lines index.now }
    requires regions { All (λ (region : Region). 0 < region.first) regions.now }
    ensures marks { IfOk result (λ marks. marks_of marks.items
        ≡ chosen_marks index.now (positions_of kept.now) (regions_of regions.now)) }
    ensures right { IfOk result (λ marks. All (IsMark index.now) marks.items) }
{
    let mut marks = kept_marks(alloc, index, kept)?;
    let own = lines.marks(alloc, regions)?;
    marks.extend_from_slice(&own)?;
    Ok(marks)
}

/// Returns the file of a program in which each function is one line, as `by_marks` does. The kept
/// lines keep their addresses; the lines of a region are one line, of its path and its first
/// number, unless they are kept or in an earlier region. `lines` are those of the index. A line in
/// whose path a zero byte stands is neither kept nor in a region, since no line table can have it.
pub fn by_function<'a>(
    alloc: Global,
    image: &Image,
    index: &'a LineIndex,
    kept: &[LineId],
    lines: &Lines<'a>,
    regions: &[Region],
) -> Result<Vec<u8>, FunctionsError>
    requires right { fault image.now.file ≡ None }
    requires indexed { IsIndexOf image.now.areas index.now }
    requires kept { All (λ (line : LineId). line.0 < length index.now.lines) kept.now }
    requires lines { lines.now ≡ spelled_lines index.now }
    requires regions { All (λ (region : Region). 0 < region.first) regions.now }
    ensures same_program { IfOk result (λ v.
        is_same_program image.now (load_answer v.items) ≡ true) }
    ensures short { IfOk result (λ v. length v.items ≤ MAX_PROGRAM) }
    ensures file { IfOk result (λ v. IsWithFunctions image.now index.now
        (chosen_marks index.now (positions_of kept.now) (regions_of regions.now)) v.items) }
    ensures reads { IfOk result (λ v. ReadsWithoutFault v.items) }
    ensures lines { IfOk result (λ v. IsByFunction image.now index.now
        (chosen_marks index.now (positions_of kept.now) (regions_of regions.now)) v.items) }
    ensures cause { IfErr result (IsCauseOf image.now index.now
        (chosen_marks index.now (positions_of kept.now) (regions_of regions.now))) }
{
    let marks = chosen_marks(alloc, index, kept, lines, regions)?;
    by_marks(alloc, image, index, &marks)
}

/// A program, an index of its lines and marks of them determine what `by_marks` returns, unless it
/// is out of memory: the bytes of the file, or the one error.
pub fn answers_are_one()
    ensures { AnswersAreOne }
{}

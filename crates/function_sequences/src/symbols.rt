//! The functions of a symbol table (ELF-64 Object File Format, version 1.5, "Symbol Table").

ghost use Rattle.std.specs.Prelude.{◌≡◌, All, AllPairs, IfOk};
ghost use Rattle.coz_types.specs.Image.{AreApart};
ghost use Rattle.elf_symbols.specs.Code.{IsSpan};
ghost use Rattle.function_sequences.specs.Functions.{functions, is_function, with_function};

use coz_types::{Address, Area};
use elf_symbols::{Code, SYM_SIZE, Symbol, ended, has_name, symbol_at};
use std::alloc::{AllocError, Global};
use std::collections::BTreeMap;

/// The functions of a program by their first addresses.
pub type Functions = BTreeMap<Address, Symbol>;

/// The type of a function (STT_FUNC).
const STT_FUNC: u8 = 2;

fn is_function(code: &Code, names: &[u8], symbol: &Symbol) -> bool
    ensures { result ≡ is_function code.now names.now symbol.now }
{
    symbol.kind == STT_FUNC
        && symbol.section != 0
        && symbol.size != 0
        && symbol.address % 4 == 0
        && has_name(names, symbol)
        && code.has(symbol)
}

/// Adds a symbol, if it is a function, in place of another one at its address.
fn add_function(
    found: &mut Functions,
    code: &Code,
    names: &[u8],
    symbol: Symbol,
) -> Result<(), AllocError>
    ensures { IfOk result (λ _.
        found.new.entries ≡ with_function code.now names.now symbol found.old.entries) }
{
    if is_function(code, names, &symbol) {
        found.insert(symbol.address, symbol)?;
    }
    Ok(())
}

/// The functions of a symbol table, whose names are in this section, by their first addresses.
#[tactic(auto, unfolding(crate::specs::Functions::functions))]
fn found_in(alloc: Global, code: &Code, table: &[u8], names: &[u8]) -> Result<Functions, AllocError>
    ensures { IfOk result (λ found. found.entries ≡ functions code.now table.now names.now) }
{
    let strings = ended(names);
    let mut found = BTreeMap::new(alloc);
    let mut left = table.len() / SYM_SIZE;
    while left > 0 {
        left -= 1;
        add_function(&mut found, code, strings, symbol_at(table, SYM_SIZE * left))?;
    }
    Ok(found)
}

/// Returns the functions of a symbol table, whose names are in this section, by their first
/// addresses: the defined symbols of type STT_FUNC that have bytes, all in one executable area,
/// begin at a multiple of 4 and have a name that a zero byte ends. Of several with one address the
/// first counts. What follows the last whole entry is passed over. The areas share no page.
pub fn functions(
    alloc: Global,
    areas: &[Area],
    table: &[u8],
    names: &[u8],
) -> Result<Functions, AllocError>
    requires spans { All IsSpan areas.now }
    requires apart { AllPairs AreApart areas.now }
    ensures { IfOk result (λ found. found.entries ≡ functions areas.now table.now names.now) }
{
    let code = Code::new(alloc, areas)?;
    found_in(alloc, &code, table, names)
}

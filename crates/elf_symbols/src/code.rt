//! The executable areas of a program, by their first addresses.

ghost use Rattle.std.specs.Prelude.{◌≡◌, ◌<◌, ◌↔◌, length, All, AllPairs, IfOk, IsTrue};
ghost use Rattle.std.specs.BTreeMap.{get};
ghost use Rattle.std.specs.List.{list_any};
ghost use Rattle.std.specs.Ordering.{nat_cmp};
ghost use Rattle.coz_types.specs.Image.{AreApart};
ghost use Rattle.elf_load.specs.Pages.{AreSpans};
ghost use Rattle.elf_symbols.specs.Code.{AddsEnd, AreEnds, HasWithin, IsCode, IsSpan};
ghost use Rattle.elf_symbols.specs.Symbols.{is_in_area};

use crate::symbols::Symbol;
use coz_types::{Address, Area, LOAD_END};
use std::alloc::{AllocError, Global};
use std::collections::BTreeMap;
use std::marker::Model;

/// The areas of a program, with the ends of the executable ones by their starts.
#[derive(Drop)]
pub struct Code<'a> {
    areas: &'a [Area],
    ends: BTreeMap<Address, Address>,
}

impl<'a> Model for Code<'a> {
    ghost use Rattle.std.specs.Prelude.{List};
    ghost use Rattle.std.specs.BTreeMap.{get};
    ghost use Rattle.std.specs.Ordering.{nat_cmp};
    ghost use Rattle.coz_types.specs.declared.image.Area.{Area};
    ghost use Rattle.elf_symbols.specs.Code.{IsCode};

    ghost Value = { List Area };

    ghost view = { λ code. code.areas.now };

    ghost invariant = { λ code. IsCode code.areas.now (get nat_cmp code.ends) };
}

/// Adds the end of an area at its start, if it is executable.
fn add_end(ends: &mut BTreeMap<Address, Address>, area: &Area) -> Result<(), AllocError>
    requires { IsSpan area.now }
    ensures { IfOk result (λ _.
        AddsEnd area.now (get nat_cmp ends.old) (get nat_cmp ends.new)) }
{
    if !area.rights.execute {
        return Ok(());
    }
    ends.insert(area.start, area.start + area.size)?;
    Ok(())
}

/// By the start of each executable area its end.
fn ends_of(alloc: Global, areas: &[Area]) -> Result<BTreeMap<Address, Address>, AllocError>
    requires spans { All IsSpan areas.now }
    requires apart { AllPairs AreApart areas.now }
    ensures { IfOk result (λ ends. AreEnds areas.now (length areas.now) (get nat_cmp ends)) }
{
    let mut ends = BTreeMap::new(alloc);
    for area in areas {
        add_end(&mut ends, area)?;
    }
    Ok(ends)
}

/// Whether an area begins below `high` and ends above `low`.
fn has_within(ends: &BTreeMap<Address, Address>, low: Address, high: Address) -> bool
    requires { AreSpans (get nat_cmp ends.now) }
    ensures { IsTrue result ↔ HasWithin (get nat_cmp ends.now) low high }
{
    match ends.range(..high).next_back() {
        Some((_, end)) => low < *end,
        None => false,
    }
}

impl<'a> Code<'a> {
    /// The executable ones of these areas, which share no page.
    pub fn new(alloc: Global, areas: &'a [Area]) -> Result<Code<'a>, AllocError>
        requires spans { All IsSpan areas.now }
        requires apart { AllPairs AreApart areas.now }
        ensures { IfOk result (λ code. code ≡ areas.now) }
    {
        let ends = ends_of(alloc, areas)?;
        Ok(Code { areas, ends })
    }

    /// Whether all bytes of a symbol lie in one of them.
    pub fn has(&self, symbol: &Symbol) -> bool
        requires { 0 < symbol.now.size }
        ensures { result ≡ list_any (is_in_area symbol.now) self.now }
    {
        let ends = &self.ends;
        if symbol.address >= LOAD_END {
            return false;
        }
        if symbol.size > LOAD_END {
            return false;
        }
        let last = symbol.address + (symbol.size - 1);
        has_within(ends, last, symbol.address + 1)
    }
}

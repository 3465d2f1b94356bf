//! The rows of the table of faults on the pages that load areas have together.

ghost use Rattle.std.specs.Prelude.{◌≡◌, ◌↔◌, ◌*◌, IsTrue, All, true, nat_lt, sum_by, ◌∷◌};
ghost use Rattle.std.specs.BTreeMap.{get};
ghost use Rattle.std.specs.Ordering.{nat_cmp};
ghost use Rattle.std.specs.List.{list_any};
ghost use Rattle.coz_types.specs.declared.TheConstants.{PAGE, MAX_LOADED};
ghost use Rattle.elf_load.specs.Tables.{is_area, pages, share_page};
ghost use Rattle.elf_load.specs.Faults.{Judges, JudgesOrFails, entry_row, first_area};
ghost use Rattle.elf_load.specs.Pages.{AreSpans, HasPageOf};

use crate::tables::Segment;
use crate::{ElfFault, ElfKind, LoadError};
use coz_types::{MAX_LOADED, PAGE};
use std::alloc::Global;
use std::collections::BTreeMap;

/// Whether an area has a page of one of these spans. A span is the number of its first page,
/// and that after its last one.
fn has_page_of(spans: &BTreeMap<u64, u64>, area: &Segment) -> bool
    requires { AreSpans (get nat_cmp spans.now) }
    ensures { IsTrue result ↔ HasPageOf (get nat_cmp spans.now) area.now }
{
    match spans.range(..area.end_page()).next_back() {
        Some((_, end)) => area.first_page() < *end,
        None => false,
    }
}

/// Ok if no area shares a page with an earlier one. Err is the first that does, or out of memory.
pub fn no_shared_page(alloc: Global, areas: &[Segment]) -> Result<(), LoadError>
    requires { All (λ s. is_area s ≡ true) areas.now }
    ensures { JudgesOrFails result (entry_row ElfKind.SharedPage
        (first_area (λ earlier s. list_any (share_page s) earlier) areas.now)) }
{
    let mut spans = BTreeMap::new(alloc);
    for area in areas {
        if has_page_of(&spans, area) {
            return Err(LoadError::Fault(ElfFault {
                kind: ElfKind::SharedPage,
                place: area.place,
            }));
        }
        spans.insert(area.first_page(), area.end_page())?;
    }
    Ok(())
}

/// Ok if all areas have at most 64 MiB together. Err is the fault of the area with which they have
/// more.
pub fn not_too_much(areas: &[Segment]) -> Result<(), ElfFault>
    ensures { Judges result (entry_row ElfKind.TooMuch (first_area (λ earlier s.
        nat_lt MAX_LOADED (PAGE * sum_by pages (s ∷ earlier))) areas.now)) }
{
    let mut pages: u64 = 0;
    for area in areas {
        pages += area.end_page() - area.first_page();
        if pages > MAX_LOADED / PAGE {
            return Err(ElfFault {
                kind: ElfKind::TooMuch,
                place: area.place,
            });
        }
    }
    Ok(())
}

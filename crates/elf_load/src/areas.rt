//! The load areas of a file.

ghost use Rattle.std.specs.Prelude.{◌≡◌, ◌≤◌, ◌*◌, ◌&&◌, None, IfOk, All, filter, find, map};
ghost use Rattle.std.specs.Option.{option_copied};
ghost use Rattle.coz_types.specs.declared.TheConstants.{PAGE, LOAD_END};
ghost use Rattle.elf_load.specs.Tables.{is_area, is_load, has_place, end_page, segments as segments_of};
ghost use Rattle.elf_load.specs.Faults.{HasHeaders, first_row, table_rows};
ghost use Rattle.elf_load.specs.Loaded.{rights_of, area_of, headers};

use crate::codes::E_PHOFF;
use crate::fields::double_at;
use crate::tables::Segment;
use coz_types::{Area, PAGE, Rights};
use std::alloc::{AllocError, Global};

/// The program headers that take memory.
pub fn load_areas(alloc: Global, segments: &[Segment]) -> Result<Vec<Segment>, AllocError>
    ensures { IfOk result (λ areas. areas.items ≡ filter is_area segments.now) }
{
    segments
        .iter()
        .copied()
        .filter(|s| s.is_area())
        .collect(alloc)
}

/// The rights of the pages of an area. Pages that may be written may be read.
fn rights_of(segment: &Segment) -> Rights
    ensures { result ≡ rights_of segment.now }
{
    Rights {
        read: segment.is_readable() || segment.is_writable(),
        write: segment.is_writable(),
        execute: segment.is_executable(),
    }
}

fn area_of(file: &[u8], segment: &Segment) -> Area
    requires { PAGE * end_page segment.now ≤ LOAD_END }
    ensures { result ≡ area_of file.now segment.now }
{
    Area {
        start: PAGE * segment.first_page(),
        size: PAGE * (segment.end_page() - segment.first_page()),
        rights: rights_of(segment),
        vaddr: segment.vaddr,
        offset: segment.offset.min(file.len() as u64),
        filled: segment.filesz,
    }
}

/// The areas of the image, in the order of their program headers.
pub fn image_areas(alloc: Global, file: &[u8], areas: &[Segment]) -> Result<Vec<Area>, AllocError>
    requires { All (λ s. PAGE * end_page s ≤ LOAD_END) areas.now }
    ensures { IfOk result (λ made. made.items ≡ map (area_of file.now) areas.now) }
{
    areas.iter().map(|s| area_of(file, s)).collect(alloc)
}

/// The first PT_LOAD whose bytes in the file have a place.
fn holder(segments: &[Segment], place: u64) -> Option<&Segment>
    ensures { option_copied result ≡ find (λ s. is_load s && has_place place s) segments.now }
{
    segments.iter().find(|s| s.is_load() && s.has_place(place))
}

/// The address of the program headers in memory, 0 if they are not loaded.
pub fn headers(file: &[u8], segments: &[Segment]) -> u64
    requires headers { HasHeaders file.now }
    requires tables { first_row (table_rows file.now) ≡ None }
    requires segments { segments.now ≡ segments_of file.now }
    ensures { result ≡ headers file.now }
{
    let place = double_at(file, E_PHOFF);
    match holder(segments, place) {
        Some(s) => s.vaddr + (place - s.offset),
        None => 0,
    }
}

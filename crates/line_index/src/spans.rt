//! The addresses that rows cover, and those of executable areas.

ghost use Rattle.std.specs.Prelude.{◌≡◌, ℕ, ◌+◌, ◌*◌, ◌≤◌, ◌<◌, ◌^◌, length, IfOk, All, None, ◌∷◌, [], if◌then◌else◌};
ghost use Rattle.std.specs.List.{position_from};
ghost use Rattle.coz_types.specs.Image.{area_end};
ghost use Rattle.coz_types.specs.declared.image.Area.{Area};
ghost use Rattle.line_index.specs.Changes.{value_at, IsRising, is_in_span};
ghost use Rattle.line_index.specs.Lines.{is_executable};
ghost use Rattle.line_index.specs.Spans.{row_spans, code_spans};

use crate::changes::{Change, Join, merged};
use coz_types::{Address, Area};
use dwarf_lines::Row;
use std::alloc::{AllocError, Global};
use std::collections::BTreeMap;

/// The addresses from one up to another that is not among them; none if it is not greater.
#[derive(Clone, Copy)]
pub struct Span {
    /// The first address.
    pub start: Address,
    /// The address after the last one.
    pub end: Address,
}

/// The addresses that each row covers, up to the next row of its sequence (DWARF 4, 6.2.2).
pub fn row_spans(alloc: Global, rows: &[Row]) -> Result<Vec<Span>, AllocError>
    ensures spans { IfOk result (λ spans. spans.items ≡ row_spans rows.now) }
    ensures as_many { IfOk result (λ spans. length spans.items ≡ length rows.now) }
{
    let mut next = BTreeMap::new(alloc);
    let mut spans = Vec::with_capacity(alloc, rows.len())?;
    let mut i = rows.len();
    while i > 0 {
        i -= 1;
        let row = rows[i];
        let end = next
            .insert(row.sequence, row.address)?
            .unwrap_or(row.address);
        spans.push(Span {
            start: row.address,
            end,
        })?;
    }
    spans.reverse();
    Ok(spans)
}

/// The addresses of each executable area.
pub fn code_spans(alloc: Global, areas: &[Area]) -> Result<Vec<Span>, AllocError>
    requires { All (λ (area : Area). area_end area < 2 ^ 64) areas.now }
    ensures spans { IfOk result (λ spans. spans.items ≡ code_spans areas.now) }
    ensures few { IfOk result (λ spans. length spans.items ≤ length areas.now) }
{
    let mut spans = Vec::new(alloc);
    for area in areas {
        if area.rights.execute {
            spans.push(Span {
                start: area.start,
                end: area.start + area.size,
            })?;
        }
    }
    Ok(spans)
}

/// The first span that holds an address, at each address. Positions count from `first`.
pub fn first_spans(alloc: Global, spans: &[Span], first: u32) -> Result<Vec<Change>, AllocError>
    requires { first + length spans.now < 2 ^ 32 }
    ensures values { IfOk result (λ changes.
        (a : ℕ) → value_at a None changes.items ≡ position_from (is_in_span a) first spans.now) }
    ensures rises { IfOk result (λ changes. IsRising 0 changes.items) }
    ensures few { IfOk result (λ changes. length changes.items ≤ 2 * length spans.now) }
{
    if spans.is_empty() {
        return Ok(Vec::new(alloc));
    }
    if spans.len() == 1 {
        return span_changes(alloc, spans[0], first);
    }
    let (front, back) = spans.split_at(spans.len() / 2);
    let front_changes = first_spans(alloc, front, first)?;
    let back_changes = first_spans(alloc, back, first + front.len() as u32)?;
    merged(alloc, Join::Over, &front_changes, &back_changes)
}

/// One span, of this position.
fn span_changes(alloc: Global, span: Span, position: u32) -> Result<Vec<Change>, AllocError>
    ensures values { IfOk result (λ changes. (a : ℕ)
        → value_at a None changes.items ≡ position_from (is_in_span a) position (span ∷ [])) }
    ensures rises { IfOk result (λ changes. IsRising 0 changes.items) }
    ensures few { IfOk result (λ changes. length changes.items ≤ 2) }
{
    let mut changes = Vec::new(alloc);
    if span.start < span.end {
        changes.push(Change {
            address: span.start,
            position: Some(position),
        })?;
        changes.push(Change {
            address: span.end,
            position: None,
        })?;
    }
    Ok(changes)
}

/// The first row that covers an address, at each address of an executable area.
pub fn covering_rows(alloc: Global, rows: &[Row], areas: &[Area]) -> Result<Vec<Change>, AllocError>
    requires within { All (λ (area : Area). area_end area < 2 ^ 64) areas.now }
    requires few_rows { length rows.now < 2 ^ 32 }
    requires few_areas { length areas.now < 2 ^ 32 }
    ensures values { IfOk result (λ changes.
        (a : ℕ) → value_at a None changes.items ≡ (if is_executable areas.now a
        then position_from (is_in_span a) 0 (row_spans rows.now) else None)) }
    ensures rises { IfOk result (λ changes. IsRising 0 changes.items) }
    ensures few { IfOk result (λ changes.
        length changes.items ≤ 2 * (length areas.now + length rows.now)) }
{
    let code = code_spans(alloc, areas)?;
    let executable = first_spans(alloc, &code, 0)?;
    let spans = row_spans(alloc, rows)?;
    let covering = first_spans(alloc, &spans, 0)?;
    merged(alloc, Join::Within, &executable, &covering)
}

//! Marks of the lines of regions.

ghost use Rattle.std.specs.Prelude.{◌≡◌, ◌<◌, ◌^◌, ◌++◌, ◌∷◌, ℕ, [], true, false, None, length, All, AllPairs, IfOk, IfSome};
ghost use Rattle.std.specs.List.{filter_map};
ghost use Rattle.line_regions.specs.declared.lines.Region.{Region};
ghost use Rattle.line_remap.specs.declared.location.Location.{Location};
ghost use Rattle.line_remap.specs.declared.marks.Mark.{Mark};
ghost use Rattle.line_remap.specs.Locations.{line_of_location};
ghost use Rattle.line_regions.specs.Lines.{IsBefore, IsMarkOf, IsSpelled, first_number, line_in, lines_at, mark_with, number_at};
ghost use Rattle.line_remap.specs.Marks.{IsText, has_zero, marks_of};
ghost use Rattle.line_regions.specs.Regions.{region_mark, region_marks, regions_of};

use crate::claims::Claims;
use crate::lines::{Lines, Region, span_of};
use coz_types::LineId;
use line_remap::{Location, Mark, has_zero};
use std::alloc::{AllocError, Global};

/// For each line the number with which the first region begins that has it.
fn claims_of(
    alloc: Global,
    locations: &[Location],
    regions: &[Region],
) -> Result<Claims, AllocError>
    requires few { length locations.now < 2 ^ 32 }
    requires rising { AllPairs IsBefore (lines_at locations.now) }
    ensures as_many { IfOk result (λ claims. length claims ≡ length locations.now) }
    ensures numbers { IfOk result (λ claims. (k : ℕ) → k < length locations.now → number_at claims k
        ≡ first_number (regions_of regions.now) (line_in (lines_at locations.now) k)) }
{
    let mut claims = Claims::new(alloc, locations.len())?;
    for region in regions {
        let span = span_of(locations, region);
        claims.claim_all(span.start, span.end, region.first);
    }
    Ok(claims)
}

/// Adds the mark of a line with this number, if there is one.
fn push_mark<'a>(
    marks: &mut Vec<Mark<'a>>,
    location: &Location<'a>,
    line: u32,
    number: Option<u32>,
) -> Result<(), AllocError>
    requires right { IsSpelled location.now }
    requires numbered { IfSome number (λ number. 0 < number) }
    ensures marks { IfOk result (λ _. marks_of marks.new.items
        ≡ marks_of marks.old.items ++ mark_with location.now line number) }
    ensures right { (count : ℕ) → line < count → IfOk result (λ _.
        All (IsMarkOf count) marks.old.items → All (IsMarkOf count) marks.new.items) }
{
    let Some(number) = number else {
        return Ok(());
    };
    if has_zero(location.path) {
        return Ok(());
    }
    let location = Location {
        path: location.path,
        number,
    };
    marks.push(Mark {
        line: LineId(line),
        location,
    })?;
    Ok(())
}

impl<'a> Lines<'a> {
    /// Returns the marks of the lines of regions, in the order of the lines. A line of several
    /// regions has the mark of the first of them. A line in whose path a zero byte stands has none.
    pub fn marks(&self, alloc: Global, regions: &[Region]) -> Result<Vec<Mark<'a>>, AllocError>
        requires { All (λ (region : Region). 0 < region.first) regions.now }
        ensures marks { IfOk result (λ marks.
            marks_of marks.items ≡ region_marks self.now (regions_of regions.now)) }
        ensures right { IfOk result (λ marks. All (IsMarkOf (length self.now)) marks.items) }
    {
        let claims = claims_of(alloc, &self.locations, regions)?;
        let mut marks = Vec::new(alloc);
        for line in 0..self.locations.len() {
            push_mark(
                &mut marks,
                &self.locations[line],
                line as u32,
                claims.number(line),
            )?;
        }
        Ok(marks)
    }
}

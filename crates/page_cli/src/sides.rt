//! The lines at all progress points: the pictures of one line side by side.
ghost use Rattle.std.specs.Prelude.{◌≡◌, flat_map, get_or, []};
ghost use Rattle.std.specs.List.{list_any};
ghost use Rattle.coz_files.specs.Gathered.{Gathers};
ghost use Rattle.page_values.specs.Places.{IsTop};
ghost use Rattle.page_cli.specs.Placed.{AreInPlace};
ghost use Rattle.page_cli.specs.Page.{by_point, is_behind, leads, is_notable_of, is_shown, side_at, line_text, line_at, lines_text, all_lines_text, sides_text};

use crate::frame::LINES;
use crate::groups::group_length;
use crate::label::put_label;
use crate::tables::{put_figure, top_of};
use crate::view::AllCurves;
use causal_curves::Curve;
use coz_files::{PutBuffer, Sink};
use coz_types::Label;
use page_charts::is_notable;
use page_values::listed;

/// Whether the other curve is of the same line, and gains more, or as much at an earlier point.
fn is_behind(curve: &Curve, other: &Curve) -> bool
    ensures { result ≡ is_behind curve.now other.now }
{
    other.selected.bytes() == curve.selected.bytes()
        && curve
            .gain
            .cmp(&other.gain)
            .then(other.point.cmp(&curve.point))
            .is_lt()
}

/// Whether the line of the curve gains most at the curve's point.
fn leads(all: &AllCurves, curve: &Curve) -> bool
    requires { AreInPlace all.now }
    ensures { result ≡ leads all.now.curves.now curve.now }
{
    let mut at = all.places.first(curve.selected.bytes());
    while let Some(place) = at {
        if is_behind(curve, &all.curves[place]) {
            return false;
        }
        at = all.places.after(place);
    }
    true
}

fn is_notable_of(top: u64, label: &[u8], curve: &Curve) -> bool
    ensures { result ≡ is_notable_of top label.now curve.now }
{
    curve.selected.bytes() == label && is_notable(top, curve)
}

fn is_any_notable(top: u64, label: &[u8], all: &AllCurves) -> bool
    requires { AreInPlace all.now }
    ensures { result ≡ list_any (is_notable_of top label.now) all.now.curves.now }
{
    let mut at = all.places.first(label);
    while let Some(place) = at {
        if is_notable_of(top, label, &all.curves[place]) {
            return true;
        }
        at = all.places.after(place);
    }
    false
}

/// Whether the line of the curve gains most at its point, and is not flat at all points.
fn is_shown(top: u64, all: &AllCurves, curve: &Curve) -> bool
    requires { AreInPlace all.now }
    ensures { result ≡ is_shown top all.now.curves.now curve.now }
{
    leads(all, curve) && is_any_notable(top, curve.selected.bytes(), all)
}

fn name_at(points: &[Label], point: u32) -> &[u8]
    ensures { result.now ≡ get_or points.now point [] }
{
    match points.get(point as usize) {
        Some(name) => name.bytes(),
        None => b"",
    }
}

/// A picture of the line of this label; nothing of another line.
fn put_side<O: Sink>(
    to: &mut PutBuffer,
    out: &mut O,
    top: u64,
    points: &[Label],
    label: &[u8],
    curve: &Curve,
)
    requires { IsTop top }
    ensures { Gathers O.holds O.faults out.old out.new to.old to.new
        (side_at top points.now label.now curve.now) }
{
    if curve.selected.bytes() == label {
        put_figure(to, out, top, name_at(points, curve.point), curve);
    }
}

/// The pictures of the line of this label, one point after the other.
fn put_sides<O: Sink>(to: &mut PutBuffer, out: &mut O, top: u64, all: &AllCurves, label: &[u8])
    requires top { IsTop top }
    requires places { AreInPlace all.now }
    ensures { Gathers O.holds O.faults out.old out.new to.old to.new
        (flat_map (side_at top all.now.points.now label.now) all.now.curves.now) }
{
    let mut at = all.places.first(label);
    while let Some(place) = at {
        put_side(to, out, top, all.points, label, &all.curves[place]);
        at = all.places.after(place);
    }
}

/// The pictures of the line of this label at all points.
fn put_line<O: Sink>(to: &mut PutBuffer, out: &mut O, top: u64, all: &AllCurves, label: &[u8])
    requires top { IsTop top }
    requires places { AreInPlace all.now }
    ensures { Gathers O.holds O.faults out.old out.new to.old to.new
        (line_text top all.now.points.now all.now.curves.now label.now) }
{
    put_label(to, out, b"<details open><summary>", label);
    to.push(out, b"</summary>\n<div class=\"charts\">\n");
    put_sides(to, out, top, all, label);
    to.push(out, b"</div>\n</details>\n");
}

fn put_line_at<O: Sink>(to: &mut PutBuffer, out: &mut O, top: u64, all: &AllCurves, curve: &Curve)
    requires top { IsTop top }
    requires places { AreInPlace all.now }
    ensures { Gathers O.holds O.faults out.old out.new to.old to.new
        (line_at top all.now.points.now all.now.curves.now curve.now) }
{
    if is_shown(top, all, curve) {
        put_line(to, out, top, all, curve.selected.bytes());
    }
}

fn put_lines_of<O: Sink>(
    to: &mut PutBuffer,
    out: &mut O,
    top: u64,
    all: &AllCurves,
    group: &[Curve],
)
    requires top { IsTop top }
    requires places { AreInPlace all.now }
    ensures { Gathers O.holds O.faults out.old out.new to.old to.new
        (flat_map (line_at top all.now.points.now all.now.curves.now) group.now) }
{
    for curve in group {
        put_line_at(to, out, top, all, curve);
    }
}

/// Of the lines that a point's table has, those that gain most at this point.
fn put_lines<O: Sink>(to: &mut PutBuffer, out: &mut O, most: u64, all: &AllCurves, group: &[Curve])
    requires { AreInPlace all.now }
    ensures { Gathers O.holds O.faults out.old out.new to.old to.new
        (lines_text most all.now.points.now all.now.curves.now group.now) }
{
    put_lines_of(to, out, top_of(group), all, listed(group, most));
}

fn put_groups<O: Sink>(to: &mut PutBuffer, out: &mut O, most: u64, all: &AllCurves)
    requires { AreInPlace all.now }
    ensures { Gathers O.holds O.faults out.old out.new to.old to.new
        (flat_map (lines_text most all.now.points.now all.now.curves.now)
        (by_point all.now.curves.now)) }
{
    let mut rest = all.curves;
    while !rest.is_empty() {
        let (group, behind) = rest.split_at(group_length(rest));
        put_lines(to, out, most, all, group);
        rest = behind;
    }
}

fn put_all_lines<O: Sink>(to: &mut PutBuffer, out: &mut O, most: u64, all: &AllCurves)
    requires { AreInPlace all.now }
    ensures { Gathers O.holds O.faults out.old out.new to.old to.new
        (all_lines_text most all.now.points.now all.now.curves.now) }
{
    to.push(out, LINES);
    put_groups(to, out, most, all);
    to.push(out, b"</details>\n");
}

/// The lines with their curves at all points, if there is more than one point.
pub fn put_all_points<O: Sink>(to: &mut PutBuffer, out: &mut O, most: u64, all: &AllCurves)
    requires { AreInPlace all.now }
    ensures { Gathers O.holds O.faults out.old out.new to.old to.new
        (sides_text most all.now.points.now all.now.curves.now) }
{
    let points = all.points;
    if points.len() > 1 && !all.curves.is_empty() {
        put_all_lines(to, out, most, all);
    }
}

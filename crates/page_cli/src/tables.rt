//! What the page has of one progress point.
ghost use Rattle.std.specs.Prelude.{◌≡◌, ◌≤◌, length, flat_map};
ghost use Rattle.coz_types.specs.Labels.{Text};
ghost use Rattle.coz_files.specs.Gathered.{Gathers};
ghost use Rattle.page_values.specs.Places.{IsTop};
ghost use Rattle.page_cli.specs.Placed.{HasBlocks};
ghost use Rattle.page_cli.specs.Page.{count_text, fold_text, folded_text, mark_text, name_cell, caption_text};
ghost use Rattle.page_cli.specs.Page.{view_of, source_text, row_text, rows_text, figure_text, figure_at, step_text, steps_text, values_text, pictures_text, point_name, point_number, top_of, harm_top, point_text, harm_text};

use crate::frame::{COLUMNS, PICTURE};
use crate::label::{put_html, put_label};
use crate::runs::put_visits;
use crate::source_lines::line_of;
use crate::view::View;
use causal_curves::{Curve, CurveStep};
use coz_files::{PutBuffer, Sink};
use coz_types::{Label, Summary};
use page_charts::{
    harm_top_for, is_notable, put_chart, put_cost, put_gain, put_items, put_small, put_value,
    put_worst, top_for,
};
use page_values::{cost_of, folded, greatest_gain, is_rough, listed, mean_of, standing, worst_of};
use profile_book::{Profile, put_named};

/// The text of a line, if it has one.
fn put_source<O: Sink>(to: &mut PutBuffer, out: &mut O, line: &[u8])
    ensures { Gathers O.holds O.faults out.old out.new to.old to.new (source_text line.now) }
{
    if !line.is_empty() {
        put_html(to, out, b"<br><code>", line);
        to.push(out, b"</code>");
    }
}

/// The mark on a line whose curve goes up and down.
fn put_mark<O: Sink>(to: &mut PutBuffer, out: &mut O, rough: bool)
    ensures { Gathers O.holds O.faults out.old out.new to.old to.new (mark_text rough) }
{
    if rough {
        to.push(out, b"<br><small>goes up and down</small>");
    }
}

/// The first cell of a line: its label, the mark, and its text.
fn put_name_cell<O: Sink>(to: &mut PutBuffer, out: &mut O, view: &View, curve: &Curve)
    ensures { Gathers O.holds O.faults out.old out.new to.old to.new
        (name_cell (view_of view.now).answers curve.now) }
{
    let label = curve.selected.bytes();
    put_label(to, out, b"<tr><td>", label);
    put_mark(to, out, is_rough(curve));
    put_source(to, out, line_of(view.sources, label));
}

fn put_row<O: Sink>(
    to: &mut PutBuffer,
    out: &mut O,
    top: u64,
    view: &View,
    summaries: &[Summary],
    curve: &Curve,
)
    requires top { IsTop top }
    requires places { HasBlocks view.now summaries.now }
    ensures { Gathers O.holds O.faults out.old out.new to.old to.new
        (row_text top (view_of view.now).answers summaries.now curve.now) }
{
    put_name_cell(to, out, view, curve);
    let cost = cost_of(summaries, view.blocks, curve.selected.bytes());
    put_cost(to, out, b"</td><td>", cost);
    let steps = curve.steps.as_slice();
    put_value(to, out, b"</td><td>", mean_of(steps));
    put_value(to, out, b"</td><td>", curve.gain);
    put_worst(to, out, b"</td><td>", worst_of(steps));
    to.push(out, b"</td><td>");
    put_small(to, out, top, curve);
    to.push(out, b"</td></tr>\n");
}

fn put_rows<O: Sink>(
    to: &mut PutBuffer,
    out: &mut O,
    top: u64,
    view: &View,
    summaries: &[Summary],
    curves: &[Curve],
)
    requires top { IsTop top }
    requires places { HasBlocks view.now summaries.now }
    ensures { Gathers O.holds O.faults out.old out.new to.old to.new
        (flat_map (row_text top (view_of view.now).answers summaries.now) curves.now) }
{
    for curve in curves {
        put_row(to, out, top, view, summaries, curve);
    }
}

/// The name, the gain and the shape of a curve: above its picture, and for readers of screens.
fn put_caption<O: Sink>(to: &mut PutBuffer, out: &mut O, name: &[u8], curve: &Curve)
    ensures { Gathers O.holds O.faults out.old out.new to.old to.new
        (caption_text name.now curve.now) }
{
    put_label(to, out, b"<figure><figcaption>", name);
    put_gain(to, out, curve);
    put_html(to, out, PICTURE, name);
    put_gain(to, out, curve);
    to.push(out, b"\">");
}

/// A large picture of a curve, with a name, and its values below it.
pub fn put_figure<O: Sink>(to: &mut PutBuffer, out: &mut O, top: u64, name: &[u8], curve: &Curve)
    requires { IsTop top }
    ensures { Gathers O.holds O.faults out.old out.new to.old to.new
        (figure_text top name.now curve.now) }
{
    put_caption(to, out, name, curve);
    put_chart(to, out, top, curve);
    put_items(to, out, curve.steps.as_slice());
    to.push(out, b"</figure>\n");
}

fn put_figure_at<O: Sink>(to: &mut PutBuffer, out: &mut O, top: u64, curve: &Curve)
    requires { IsTop top }
    ensures { Gathers O.holds O.faults out.old out.new to.old to.new (figure_at top curve.now) }
{
    if is_notable(top, curve) {
        put_figure(to, out, top, curve.selected.bytes(), curve);
    }
}

fn put_figures<O: Sink>(to: &mut PutBuffer, out: &mut O, top: u64, curves: &[Curve])
    requires { IsTop top }
    ensures { Gathers O.holds O.faults out.old out.new to.old to.new
        (flat_map (figure_at top) curves.now) }
{
    for curve in curves {
        put_figure_at(to, out, top, curve);
    }
}

fn put_count<O: Sink>(to: &mut PutBuffer, out: &mut O, most: u64, stands: u64, lines: u64)
    requires { stands ≤ lines }
    ensures { Gathers O.holds O.faults out.old out.new to.old to.new
        (count_text most stands lines) }
{
    let shown = most.min(stands);
    put_named(to, out, b"</table>\n<p>Lines: ", lines);
    put_named(to, out, b". Shown: ", shown);
    put_named(to, out, b". Folded: ", lines - stands);
    put_named(to, out, b". Not shown: ", stands - shown);
    to.push(out, b".</p>\n");
}

/// The folded lines: their number, and a table of some that is closed at first.
fn put_fold<O: Sink>(
    to: &mut PutBuffer,
    out: &mut O,
    top: u64,
    view: &View,
    summaries: &[Summary],
    number: u64,
    curves: &[Curve],
)
    requires top { IsTop top }
    requires places { HasBlocks view.now summaries.now }
    ensures { Gathers O.holds O.faults out.old out.new to.old to.new
        (fold_text top (view_of view.now) summaries.now number curves.now) }
{
    let before = b"<details class=\"folded\"><summary>Lines under 0.2% at each speedup: ";
    put_named(to, out, before, number);
    to.push(out, b"</summary>\n<table class=\"folded\">\n");
    to.push(out, COLUMNS);
    put_rows(to, out, top, view, summaries, curves);
    to.push(out, b"</table>\n</details>\n");
}

/// The folded lines, if there are any.
fn put_folded<O: Sink>(
    to: &mut PutBuffer,
    out: &mut O,
    top: u64,
    view: &View,
    summaries: &[Summary],
    number: u64,
    curves: &[Curve],
)
    requires top { IsTop top }
    requires places { HasBlocks view.now summaries.now }
    ensures { Gathers O.holds O.faults out.old out.new to.old to.new
        (folded_text top (view_of view.now) summaries.now number curves.now) }
{
    if number > 0 {
        put_fold(to, out, top, view, summaries, number, curves);
    }
}

fn put_table<O: Sink>(
    to: &mut PutBuffer,
    out: &mut O,
    top: u64,
    view: &View,
    summaries: &[Summary],
    curves: &[Curve],
)
    requires top { IsTop top }
    requires places { HasBlocks view.now summaries.now }
    ensures { Gathers O.holds O.faults out.old out.new to.old to.new
        (rows_text top (view_of view.now) summaries.now curves.now) }
{
    to.push(out, b"\">\n");
    to.push(out, COLUMNS);
    let first = listed(curves, view.most);
    put_rows(to, out, top, view, summaries, first);
    let stands = standing(curves);
    let lines = curves.len() as u64;
    put_count(to, out, view.most, stands, lines);
    let behind = folded(curves, view.most);
    put_folded(to, out, top, view, summaries, lines - stands, behind);
}

fn put_step<O: Sink>(to: &mut PutBuffer, out: &mut O, label: &[u8], step: &CurveStep)
    ensures { Gathers O.holds O.faults out.old out.new to.old to.new
        (step_text label.now step.now) }
{
    put_label(to, out, b"<tr><td>", label);
    put_named(to, out, b"</td><td>", step.speedup as u64);
    put_value(to, out, b"%</td><td>", step.value);
    to.push(out, b"</td></tr>\n");
}

fn put_steps<O: Sink>(to: &mut PutBuffer, out: &mut O, label: &[u8], steps: &[CurveStep])
    ensures { Gathers O.holds O.faults out.old out.new to.old to.new
        (flat_map (step_text label.now) steps.now) }
{
    for step in steps {
        put_step(to, out, label, step);
    }
}

fn put_curve_steps<O: Sink>(to: &mut PutBuffer, out: &mut O, curve: &Curve)
    ensures { Gathers O.holds O.faults out.old out.new to.old to.new (steps_text curve.now) }
{
    put_steps(to, out, curve.selected.bytes(), curve.steps.as_slice());
}

fn put_all_steps<O: Sink>(to: &mut PutBuffer, out: &mut O, curves: &[Curve])
    ensures { Gathers O.holds O.faults out.old out.new to.old to.new
        (flat_map steps_text curves.now) }
{
    for curve in curves {
        put_curve_steps(to, out, curve);
    }
}

/// The value of each line at each speedup.
fn put_values<O: Sink>(to: &mut PutBuffer, out: &mut O, curves: &[Curve])
    ensures { Gathers O.holds O.faults out.old out.new to.old to.new (values_text curves.now) }
{
    to.push(
        out,
        b"<details><summary>The values at each speedup</summary>\n",
    );
    to.push(
        out,
        b"<table>\n<tr><th>Line</th><th>Faster by</th><th>Value</th></tr>\n",
    );
    put_all_steps(to, out, curves);
    to.push(out, b"</table>\n</details>\n");
}

/// The large pictures of a table's lines, and their values.
fn put_pictures<O: Sink>(to: &mut PutBuffer, out: &mut O, top: u64, most: u64, curves: &[Curve])
    requires { IsTop top }
    ensures { Gathers O.holds O.faults out.old out.new to.old to.new
        (pictures_text top most curves.now) }
{
    to.push(out, b"<div class=\"charts\">\n");
    put_figures(to, out, top, listed(curves, most));
    to.push(out, b"</div>\n");
    put_values(to, out, listed(curves, most));
    to.push(out, b"</details>\n");
}

fn point_name<'a>(points: &'a [Label], curves: &[Curve]) -> &'a [u8]
    ensures { result.now ≡ point_name points.now curves.now }
{
    match curves.first() {
        Some(curve) => match points.get(curve.point as usize) {
            Some(name) => name.bytes(),
            None => b"",
        },
        None => b"",
    }
}

fn point_number(curves: &[Curve]) -> u64
    ensures { result ≡ point_number curves.now }
{
    match curves.first() {
        Some(curve) => curve.point as u64,
        None => 0,
    }
}

/// The upper end of the axis of values of the point that these curves are of.
pub fn top_of(curves: &[Curve]) -> u64
    ensures top { result ≡ top_of curves.now }
    ensures range { IsTop result }
{
    top_for(greatest_gain(curves))
}

fn harm_top(curves: &[Curve]) -> u64
    ensures top { result ≡ harm_top curves.now }
    ensures range { IsTop result }
{
    match curves.first() {
        Some(curve) => harm_top_for(worst_of(curve.steps.as_slice())),
        None => 100,
    }
}

/// Puts the part of the page about the point of these curves.
pub fn put_point<O: Sink>(
    to: &mut PutBuffer,
    out: &mut O,
    view: &View,
    profile: &Profile,
    curves: &[Curve],
)
    requires { HasBlocks view.now profile.now.summaries }
    ensures { Gathers O.holds O.faults out.old out.new to.old to.new
        (point_text (view_of view.now) profile.now curves.now) }
{
    let summaries = profile.summaries.as_slice();
    let point = point_number(curves);
    let top = top_of(curves);
    let name = point_name(profile.points.as_slice(), curves);
    put_label(
        to,
        out,
        b"<details name=\"point\" open><summary>Progress point ",
        name,
    );
    to.push(out, b"</summary>\n");
    put_visits(to, out, summaries, point);
    put_named(to, out, b"<table id=\"p", point);
    put_table(to, out, top, view, summaries, curves);
    put_pictures(to, out, top, view.most, curves);
}

/// The lines that hurt the point that these curves are of.
pub fn put_harm<O: Sink>(
    to: &mut PutBuffer,
    out: &mut O,
    view: &View,
    profile: &Profile,
    curves: &[Curve],
)
    requires { HasBlocks view.now profile.now.summaries }
    ensures { Gathers O.holds O.faults out.old out.new to.old to.new
        (harm_text (view_of view.now) profile.now curves.now) }
{
    let top = harm_top(curves);
    let name = point_name(profile.points.as_slice(), curves);
    put_label(
        to,
        out,
        b"<details open><summary>Lines that hurt, by their worst value: ",
        name,
    );
    put_named(to, out, b"</summary>\n<table id=\"h", point_number(curves));
    put_table(to, out, top, view, profile.summaries.as_slice(), curves);
    put_pictures(to, out, top, view.most, curves);
}

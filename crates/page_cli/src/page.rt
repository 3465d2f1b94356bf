//! The page, on its way to a sink.
ghost use Rattle.std.specs.Prelude.{◌≡◌, flat_map};
ghost use Rattle.std.specs.List.{enumerate_from};
ghost use Rattle.coz_files.specs.Gathered.{Gathers};
ghost use Rattle.coz_files.specs.Puts.{Puts};
ghost use Rattle.std.specs.Option.{option_copied};
ghost use Rattle.page_words.specs.Words.{asked_of};
ghost use Rattle.page_values.specs.Lines.{ArePlaces, curve_labels};
ghost use Rattle.page_cli.specs.Placed.{HasBlocks};
ghost use Rattle.page_cli.specs.Page.{by_point, view_of, link_text, name_text, choice_text, has_tables, title_text, heading_text, other_text, beside_text, head_text, pattern_text, chosen_text, nothing_text, point_text, harm_text, curves_page};

use crate::frame::{FOOT, HEAD, LEAD, NOTHING, STYLE};
use crate::groups::group_length;
use crate::judge::Ranked;
use crate::label::{put_html, put_label};
use crate::runs::put_runs;
use crate::sides::put_all_points;
use crate::tables::{put_harm, put_point};
use crate::view::{AllCurves, View};
use causal_curves::Curve;
use coz_files::{PutAnswer, PutBuffer, Sink};
use coz_types::Label;
use page_values::LinePlaces;
use page_words::Asked;
use profile_book::{Profile, put_named};

fn put_title<O: Sink>(to: &mut PutBuffer, out: &mut O, title: Option<&[u8]>)
    ensures { Gathers O.holds O.faults out.old out.new to.old to.new
        (title_text (option_copied title.entry)) }
{
    match title {
        Some(title) => put_html(to, out, b"", title),
        None => to.push(out, b"coz"),
    }
}

fn put_heading<O: Sink>(to: &mut PutBuffer, out: &mut O, title: Option<&[u8]>)
    ensures { Gathers O.holds O.faults out.old out.new to.old to.new
        (heading_text (option_copied title.entry)) }
{
    if let Some(title) = title {
        put_html(to, out, b": ", title);
    }
}

fn put_other<O: Sink>(to: &mut PutBuffer, out: &mut O, path: &[u8])
    ensures { Gathers O.holds O.faults out.old out.new to.old to.new (other_text path.now) }
{
    let before = b"<p>Another page of this program: <a href=\"";
    put_html(to, out, before, path);
    put_html(to, out, b"\">", path);
    to.push(out, b"</a></p>\n");
}

/// A link to another page, if one is named.
fn put_beside<O: Sink>(to: &mut PutBuffer, out: &mut O, link: Option<&[u8]>)
    ensures { Gathers O.holds O.faults out.old out.new to.old to.new
        (beside_text (option_copied link.entry)) }
{
    if let Some(path) = link {
        put_other(to, out, path);
    }
}

/// The head of the page, up to what is said of the runs.
fn put_head<O: Sink>(to: &mut PutBuffer, out: &mut O, asked: &Asked)
    ensures { Gathers O.holds O.faults out.old out.new to.old to.new
        (head_text (asked_of asked.now)) }
{
    to.push(out, HEAD);
    put_title(to, out, asked.title);
    to.push(out, STYLE);
    put_heading(to, out, asked.title);
    to.push(out, LEAD);
    put_beside(to, out, asked.link);
}

fn put_link<O: Sink>(to: &mut PutBuffer, out: &mut O, index: usize, label: &Label)
    ensures { Gathers O.holds O.faults out.old out.new to.old to.new
        (link_text (index, label.now)) }
{
    put_named(to, out, b"<li><a href=\"#p", index as u64);
    put_label(to, out, b"\">", label.bytes());
    to.push(out, b"</a></li>\n");
}

fn put_name<O: Sink>(to: &mut PutBuffer, out: &mut O, label: &Label)
    ensures { Gathers O.holds O.faults out.old out.new to.old to.new (name_text label.now) }
{
    put_label(to, out, b"<li>", label.bytes());
    to.push(out, b"</li>\n");
}

fn put_choice<O: Sink>(to: &mut PutBuffer, out: &mut O, tables: bool, index: usize, label: &Label)
    ensures { Gathers O.holds O.faults out.old out.new to.old to.new
        (choice_text tables (index, label.now)) }
{
    if tables {
        put_link(to, out, index, label);
    } else {
        put_name(to, out, label);
    }
}

fn put_choices<O: Sink>(to: &mut PutBuffer, out: &mut O, tables: bool, points: &[Label])
    ensures { Gathers O.holds O.faults out.old out.new to.old to.new
        (flat_map (choice_text tables) (enumerate_from 0 points.now)) }
{
    for (index, label) in points.iter().enumerate() {
        put_choice(to, out, tables, index, label);
    }
}

fn has_tables(curves: &[Curve]) -> bool
    ensures { result ≡ has_tables curves.now }
{
    !curves.is_empty()
}

fn put_nothing<O: Sink>(to: &mut PutBuffer, out: &mut O, all: u64)
    ensures { Gathers O.holds O.faults out.old out.new to.old to.new (nothing_text all) }
{
    if all == 0 {
        to.push(out, NOTHING);
    }
}

/// Which lines the page is of, and how many of all curves are theirs.
fn put_pattern<O: Sink>(to: &mut PutBuffer, out: &mut O, pattern: &[u8], count: u64, all: u64)
    ensures { Gathers O.holds O.faults out.old out.new to.old to.new
        (pattern_text pattern.now count all) }
{
    let before = b"<p>Only lines of files whose path begins or ends with ";
    put_html(to, out, before, pattern);
    put_named(to, out, b": ", count);
    put_named(to, out, b" of ", all);
    let after = b" curves. Tables and axes are of these lines alone.</p>\n";
    to.push(out, after);
}

fn put_chosen<O: Sink>(to: &mut PutBuffer, out: &mut O, file: Option<&[u8]>, count: u64, all: u64)
    ensures { Gathers O.holds O.faults out.old out.new to.old to.new
        (chosen_text (option_copied file.entry) count all) }
{
    if let Some(pattern) = file {
        put_pattern(to, out, pattern, count, all);
    }
}

fn put_points<O: Sink>(
    to: &mut PutBuffer,
    out: &mut O,
    view: &View,
    profile: &Profile,
    curves: &[Curve],
)
    requires { HasBlocks view.now profile.now.summaries }
    ensures { Gathers O.holds O.faults out.old out.new to.old to.new
        (flat_map (point_text (view_of view.now) profile.now) (by_point curves.now)) }
{
    let mut rest = curves;
    while !rest.is_empty() {
        let (group, behind) = rest.split_at(group_length(rest));
        put_point(to, out, view, profile, group);
        rest = behind;
    }
}

fn put_harms<O: Sink>(
    to: &mut PutBuffer,
    out: &mut O,
    view: &View,
    profile: &Profile,
    curves: &[Curve],
)
    requires { HasBlocks view.now profile.now.summaries }
    ensures { Gathers O.holds O.faults out.old out.new to.old to.new
        (flat_map (harm_text (view_of view.now) profile.now) (by_point curves.now)) }
{
    let mut rest = curves;
    while !rest.is_empty() {
        let (group, behind) = rest.split_at(group_length(rest));
        put_harm(to, out, view, profile, group);
        rest = behind;
    }
}

/// Puts the page of a profile: its chosen curves, by point and mean, and those of the lines that
/// hurt, by point and harm. The places are those of the chosen curves. It takes no memory.
pub fn write_page<O: Sink>(
    view: &View,
    places: &LinePlaces,
    ranked: &Ranked,
    out: &mut O,
) -> PutAnswer
    requires blocks { HasBlocks view.now ranked.now.profile.summaries }
    requires curves { ArePlaces (curve_labels ranked.now.curves) places.now }
    ensures { Puts O.holds O.faults out.old out.new result
        (curves_page (view_of view.now) (asked_of ranked.now.asked) ranked.now.all
        ranked.now.profile ranked.now.curves ranked.now.harmful) }
{
    let mut buffer = PutBuffer::new();
    let curves = ranked.curves.as_slice();
    put_head(&mut buffer, out, &ranked.asked);
    put_runs(&mut buffer, out, &ranked.profile);
    put_chosen(
        &mut buffer,
        out,
        ranked.asked.file,
        curves.len() as u64,
        ranked.all,
    );
    let points = ranked.profile.points.as_slice();
    buffer.push(out, b"<ul>\n");
    put_choices(&mut buffer, out, has_tables(curves), points);
    buffer.push(out, b"</ul>\n");
    put_nothing(&mut buffer, out, ranked.all);
    put_points(&mut buffer, out, view, &ranked.profile, curves);
    let all = AllCurves {
        points,
        curves,
        places,
    };
    put_all_points(&mut buffer, out, view.most, &all);
    put_harms(
        &mut buffer,
        out,
        view,
        &ranked.profile,
        ranked.harmful.as_slice(),
    );
    buffer.push(out, FOOT);
    buffer.finish(out)
}

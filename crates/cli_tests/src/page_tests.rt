//! The page of a profile that is as long as it may be, of one that can be read once, and the
//! options of the page.
use crate::files::{Listed, files_of};
use crate::large::Large;
use crate::programs::{Limit, Program, Row, check_limits, check_rows, status_of};
use crate::sinks::{Room, Sinks, WIDE, two_sinks};
use coz_files::Files;
use std::alloc::{AllocError, Global};
use std::process::Abort;
use std::test::Fail;
use std::thread::Threads;

/// Sinks with this room.
const PAGE: Room = Room {
    bytes: 100000,
    fails: &[],
};

/// By hand, as all tables of this module: docs/FORMATS.md, Page.
static LIMITS: [Limit; 2] = [
    (
        &["big"],
        268_435_456,
        12,
        b"",
        b"coz-page: profile: Head at 0\n",
    ),
    (&["big"], 268_435_457, 8, b"", b"coz-page: long: big\n"),
];

#[test]
fn one_byte_over_the_limit_is_too_long(rt: HostRuntime) -> Result<(), Fail> {
    check_limits(&rt, Program::Page, b"", &LIMITS)
}

fn contains(text: &[u8], piece: &[u8]) -> bool {
    for i in 0..text.len() {
        if text[i..].starts_with(piece) {
            return true;
        }
    }
    false
}

fn check_piece_in<R: Threads + Sync + AllocGlobal + Abort, F: Files>(
    rt: &R,
    words: &[&str],
    files: &mut F,
    sinks: &mut Sinks,
    piece: (&[u8], bool),
) -> Result<(), Fail> {
    let status = status_of(rt, Program::Page, words, files, sinks)?;
    let is_there = contains(sinks.out.held(), piece.0);
    assert_eq!(rt; (status, is_there, sinks.err.held().len()), (0, piece.1, 0));
    Ok(())
}

/// Calls `coz-page`, and checks that its output contains a piece of text, or does not.
fn check_piece<R: Threads + Sync + AllocGlobal + Abort, F: Files>(
    rt: &R,
    words: &[&str],
    files: &mut F,
    piece: (&[u8], bool),
) -> Result<(), Fail> {
    let mut sinks = two_sinks(rt.alloc(), (PAGE, WIDE))?;
    let checked = check_piece_in(rt, words, files, &mut sinks, piece);
    // By one call, since a drop in place is proved part by part.
    drop(sinks);
    checked
}

/// A profile without lines.
const NONE: &[u8] = b"coz-ticks\tversion=1\tbudget=100000000\tpoints=0\n";

/// The same after the line of a machine, and after that of the usual one, which has no line.
const TIMED: &[u8] =
    b"coz-timing\tversion=1\tcores=4\tslice=100000\tcosts=1,2,3,3,8,20,1000\tcharge=last\tseed=7\n\
coz-ticks\tversion=1\tbudget=100000000\tpoints=0\n";

const USUAL: &[u8] =
    b"coz-timing\tversion=1\tcores=256\tslice=100000\tcosts=1,2,3,3,8,20,40\tcharge=none\tseed=0\n\
coz-ticks\tversion=1\tbudget=100000000\tpoints=0\n";

/// Two runs of each of two lines.
const PROFILE: &[u8] = b"coz-ticks\tversion=1\tbudget=1000\tpoints=1\n\
point\tindex=0\tname=src/a.s:8\n\
experiment\tselected=lib/b.s:2\tspeedup=0\tend=exited:0\ttime=8700\tdelay=0\tretired=13\tstarts=2\n\
output\tlength=0\tsha256=e3b0c44298fc1c149afbf4c8996fb92427ae41e4649b934ca495991b7852b855\n\
throughput-point\tindex=0\tdelta=2\n\
visits\tsha256=f785c6eb772d84b2e42d37e023cf464a7e5b7fb3ffdf3d9da852890807bf97bc\n\
experiment\tselected=lib/b.s:2\tspeedup=50\tend=exited:0\ttime=8750\tdelay=100\tretired=13\tstarts=2\n\
output\tlength=0\tsha256=e3b0c44298fc1c149afbf4c8996fb92427ae41e4649b934ca495991b7852b855\n\
throughput-point\tindex=0\tdelta=2\n\
visits\tsha256=01658dd2859e0c94e814be8cb0670089cc9cc13590e7a6c3154812dd1f67d4ac\n\
experiment\tselected=src/a.s:3\tspeedup=0\tend=exited:0\ttime=8700\tdelay=0\tretired=13\tstarts=2\n\
output\tlength=0\tsha256=e3b0c44298fc1c149afbf4c8996fb92427ae41e4649b934ca495991b7852b855\n\
throughput-point\tindex=0\tdelta=2\n\
visits\tsha256=f785c6eb772d84b2e42d37e023cf464a7e5b7fb3ffdf3d9da852890807bf97bc\n\
experiment\tselected=src/a.s:3\tspeedup=50\tend=exited:0\ttime=8750\tdelay=100\tretired=13\tstarts=2\n\
output\tlength=0\tsha256=e3b0c44298fc1c149afbf4c8996fb92427ae41e4649b934ca495991b7852b855\n\
throughput-point\tindex=0\tdelta=2\n\
visits\tsha256=01658dd2859e0c94e814be8cb0670089cc9cc13590e7a6c3154812dd1f67d4ac\n";

/// Two runs of each of two lines, whose net times at speedup 0 differ. One run is cut.
const COSTS: &[u8] = b"coz-ticks\tversion=1\tbudget=1000\tpoints=1\n\
point\tindex=0\tname=src/a.s:8\n\
experiment\tselected=lib/b.s:2\tspeedup=0\tend=exited:0\ttime=8700\tdelay=0\tretired=13\tstarts=2\n\
output\tlength=0\tsha256=e3b0c44298fc1c149afbf4c8996fb92427ae41e4649b934ca495991b7852b855\n\
throughput-point\tindex=0\tdelta=2\n\
visits\tsha256=e3b0c44298fc1c149afbf4c8996fb92427ae41e4649b934ca495991b7852b855\n\
experiment\tselected=lib/b.s:2\tspeedup=50\tend=exited:0\ttime=8750\tdelay=100\tretired=13\tstarts=2\n\
output\tlength=0\tsha256=e3b0c44298fc1c149afbf4c8996fb92427ae41e4649b934ca495991b7852b855\n\
throughput-point\tindex=0\tdelta=2\n\
visits\tsha256=e3b0c44298fc1c149afbf4c8996fb92427ae41e4649b934ca495991b7852b855\n\
experiment\tselected=src/a.s:3\tspeedup=0\tend=exited:0\ttime=1000\tdelay=0\tretired=13\tstarts=2\n\
output\tlength=0\tsha256=e3b0c44298fc1c149afbf4c8996fb92427ae41e4649b934ca495991b7852b855\n\
throughput-point\tindex=0\tdelta=2\n\
visits\tsha256=e3b0c44298fc1c149afbf4c8996fb92427ae41e4649b934ca495991b7852b855\n\
experiment\tselected=src/a.s:3\tspeedup=50\tend=spent\ttime=1000\tdelay=100\tretired=13\tstarts=2\n\
output\tlength=0\tsha256=e3b0c44298fc1c149afbf4c8996fb92427ae41e4649b934ca495991b7852b855\n\
throughput-point\tindex=0\tdelta=2\n\
visits\tsha256=e3b0c44298fc1c149afbf4c8996fb92427ae41e4649b934ca495991b7852b855\n";

static FILES: [(&str, &[u8]); 9] = [
    ("timed", TIMED),
    ("usual", USUAL),
    ("p", PROFILE),
    ("costs", COSTS),
    ("none", NONE),
    ("points", TWO_POINTS),
    ("d/src/a.s", b"one\ntwo\n  three < 3\nfour\nfive\n"),
    ("d/src/big", b"big\n"),
    // The third line has 121 bytes.
    (
        "long/src/a.s",
        b"one\ntwo\nxxxxxxxxxxxxxxxxxxxxxxxxxxxxxxxxxxxxxxxxxxxxxxxxxxxxxxxxxxxxxxxxxxxxxxxxxxxxxxxxxxxxxxxxxxxxxxxxxxxxxxxxxxxxxxxxxxxxxxxxx\n",
    ),
];

const USAGE: &[u8] = b"coz-page: usage\n";

static WRONG: [Row; 21] = [
    (&["usual"], 12, b"", b"coz-page: profile: Head at 0\n"),
    (&[], 2, b"", USAGE),
    (&[""], 2, b"", USAGE),
    (&["p", "p"], 2, b"", USAGE),
    (&["p", "--help"], 2, b"", USAGE),
    (&["-"], 2, b"", USAGE),
    (&["other"], 5, b"", b"coz-page: read: other\n"),
    (&["p", "--top", "0"], 2, b"", USAGE),
    (&["p", "--top=1001"], 2, b"", USAGE),
    (&["p", "--top=01"], 2, b"", USAGE),
    (&["p", "--top"], 2, b"", USAGE),
    (&["p", "--top=1", "--top", "1"], 2, b"", USAGE),
    (&["p", "--file="], 2, b"", USAGE),
    (&["--file=a", "p", "--file", "a"], 2, b"", USAGE),
    (&["p", "--source="], 2, b"", USAGE),
    (&["--source", "p"], 2, b"", USAGE),
    (&["--source=d", "--source=d", "p"], 2, b"", USAGE),
    (&["p", "--title="], 2, b"", USAGE),
    (&["p", "--title", "a", "--title=a"], 2, b"", USAGE),
    (&["p", "--link"], 2, b"", USAGE),
    (&["--link=a", "p", "--link", "a"], 2, b"", USAGE),
];

#[test]
fn invalid_arguments_are_rejected(rt: HostRuntime) -> Result<(), Fail> {
    check_rows(&rt, Program::Page, &files_of(rt.alloc(), &FILES)?, &WRONG)
}

/// Words, the reads that fail, a piece of text, and whether the page has it.
type Piece = (&'static [&'static str], &'static [u64], &'static [u8], bool);

fn check_pieces<R: Threads + Sync + AllocGlobal + Abort>(
    rt: &R,
    pieces: &[Piece],
) -> Result<(), Fail> {
    let files = files_of(rt.alloc(), &FILES)?;
    for (words, fails, piece, is_there) in pieces {
        check_piece(
            rt,
            *words,
            &mut Listed::new(&files, *fails),
            (*piece, *is_there),
        )?;
    }
    Ok(())
}

const BEGIN: &[u8] = b"<!DOCTYPE html>\n";

/// Words of which each is read in a way of its own. A second read of the profile would fail.
static RIGHT: [Piece; 7] = [
    (&["timed"], &[1], BEGIN, true),
    (&["none"], &[1], BEGIN, true),
    (&["p"], &[1], BEGIN, true),
    (&["p", "--top", "1"], &[1], BEGIN, true),
    (&["--top=1000", "p"], &[1], BEGIN, true),
    (&["p", "--file", "p"], &[1], BEGIN, true),
    (
        &["p", "--source", "d", "--file", "a", "--top", "2"],
        &[],
        BEGIN,
        true,
    ),
];

#[test]
fn the_profile_is_read_once(rt: HostRuntime) -> Result<(), Fail> {
    check_pieces(&rt, &RIGHT)
}

static PIECES: [Piece; 37] = [
    (&["p"], &[], b"<td>lib/b.s<span>:2</span></td>", true),
    (&["p"], &[], b"<td>src/a.s<span>:3</span></td>", true),
    (&["p"], &[], b"Only lines of files", false),
    (&["p"], &[], b"Lines at all progress points", false),
    (
        &["p"],
        &[],
        b"Lines: 2. Shown: 2. Folded: 0. Not shown: 0.",
        true,
    ),
    (
        &["p", "--top=1"],
        &[],
        b"Lines: 2. Shown: 1. Folded: 0. Not shown: 1.",
        true,
    ),
    (
        &["p", "--top=1"],
        &[],
        b"<td>src/a.s<span>:3</span></td>",
        false,
    ),
    (
        &["p", "--file=src/"],
        &[],
        b"ends with src/: 1 of 2 curves",
        true,
    ),
    (
        &["p", "--file=src/"],
        &[],
        b"<td>src/a.s<span>:3</span></td>",
        true,
    ),
    (
        &["p", "--file=src/"],
        &[],
        b"<td>lib/b.s<span>:2</span></td>",
        false,
    ),
    (
        &["p", "--file=b.s"],
        &[],
        b"<td>lib/b.s<span>:2</span></td>",
        true,
    ),
    (
        &["p", "--file=b.s"],
        &[],
        b"<td>src/a.s<span>:3</span></td>",
        false,
    ),
    (
        &["p", "--file=.s:3"],
        &[],
        b"ends with .s:3: 0 of 2 curves",
        true,
    ),
    (&["p", "--file=.s:3"], &[], b"has no curves", false),
    (
        &["p", "--file=.s:3"],
        &[],
        b"<ul>\n<li>src/a.s<span>:8</span></li>\n</ul>",
        true,
    ),
    (
        &["p"],
        &[],
        b"<ul>\n<li><a href=\"#p0\">src/a.s<span>:8</span></a></li>\n</ul>",
        true,
    ),
    (
        &["p", "--source=d"],
        &[],
        b"<td>src/a.s<span>:3</span><br><code>  three &lt; 3</code></td>",
        true,
    ),
    (
        &["p", "--source=d"],
        &[],
        b"<td>lib/b.s<span>:2</span></td>",
        true,
    ),
    (
        &["p", "--source=d"],
        &[1, 2],
        b"<td>src/a.s<span>:3</span></td>",
        true,
    ),
    (&["p", "--source=d/src"], &[], b"<code>", false),
    // At most 120 bytes of a line are shown.
    (
        &["p", "--source=long"],
        &[],
        b"<code>xxxxxxxxxxxxxxxxxxxxxxxxxxxxxxxxxxxxxxxxxxxxxxxxxxxxxxxxxxxxxxxxxxxxxxxxxxxxxxxxxxxxxxxxxxxxxxxxxxxxxxxxxxxxxxxxxxxxxxxx</code>",
        true,
    ),
    // 50 of 95 steps of 11.4 each, from 200 on
    (&["p"], &[], b" cx=\"770\"", true),
    (&["costs"], &[], b"</td><td>20.00%", true),
    (&["p"], &[], b"<title>coz: which lines", true),
    (
        &["p"],
        &[],
        b"<h1>Which lines are worth making faster</h1>",
        true,
    ),
    (
        &["p", "--title", "a <b>"],
        &[],
        b"<title>a &lt;b&gt;: which lines",
        true,
    ),
    (
        &["--title=a & b", "p"],
        &[],
        b"<h1>Which lines are worth making faster: a &amp; b</h1>",
        true,
    ),
    (&["p"], &[], b"Another page", false),
    (
        &["p", "--link", "x\".html"],
        &[],
        b"<a href=\"x&quot;.html\">x&quot;.html</a>",
        true,
    ),
    (&["--link=y", "p"], &[], b"<a href=\"y\">y</a>", true),
    (
        &["p"],
        &[],
        b"Runs: 4. Speedups of the first line: 0% 50%. A gain is of one schedule",
        true,
    ),
    (&["none"], &[], b"Runs: 0. A gain is of one schedule", true),
    // (8700 - 8650) / 8700 is 0.57 per cent.
    (&["p"], &[], b" aria-label=\"src/a.s:3: 0.57%\">", true),
    (
        &["p"],
        &[],
        b"<ul><li>0% faster: 0.00%</li><li>50% faster: 0.57%</li></ul>",
        true,
    ),
    (
        &["p"],
        &[],
        b"</td><td>2.29%</td><td>0.57%</td><td>0.57%</td><td>none</td>",
        true,
    ),
    (&["p"], &[], b"class=\"folded\"", false),
    (&["costs"], &[], b"Warning: runs that did not exit: 1", true),
];

#[test]
fn the_options_choose_what_is_shown(rt: HostRuntime) -> Result<(), Fail> {
    check_pieces(&rt, &PIECES)
}

/// Two runs of each of three lines, with two points. The first line gains 10 per cent at the first
/// point and 40 at the second one, the next line 0.05 at both, and the last line nothing.
const TWO_POINTS: &[u8] = b"coz-ticks\tversion=1\tbudget=1000\tpoints=2\n\
point\tindex=0\tname=src/a.s:8\n\
point\tindex=1\tname=src/b.s:9\n\
experiment\tselected=src/a.s:3\tspeedup=0\tend=exited:0\ttime=8000\tdelay=0\tretired=13\tstarts=2\n\
output\tlength=0\tsha256=e3b0c44298fc1c149afbf4c8996fb92427ae41e4649b934ca495991b7852b855\n\
throughput-point\tindex=0\tdelta=2\n\
throughput-point\tindex=1\tdelta=2\n\
visits\tsha256=e3b0c44298fc1c149afbf4c8996fb92427ae41e4649b934ca495991b7852b855\n\
experiment\tselected=src/a.s:3\tspeedup=50\tend=exited:0\ttime=7200\tdelay=0\tretired=13\tstarts=2\n\
output\tlength=0\tsha256=e3b0c44298fc1c149afbf4c8996fb92427ae41e4649b934ca495991b7852b855\n\
throughput-point\tindex=0\tdelta=2\n\
throughput-point\tindex=1\tdelta=3\n\
visits\tsha256=e3b0c44298fc1c149afbf4c8996fb92427ae41e4649b934ca495991b7852b855\n\
experiment\tselected=src/a.s:5\tspeedup=0\tend=exited:0\ttime=8000\tdelay=0\tretired=13\tstarts=2\n\
output\tlength=0\tsha256=e3b0c44298fc1c149afbf4c8996fb92427ae41e4649b934ca495991b7852b855\n\
throughput-point\tindex=0\tdelta=2\n\
throughput-point\tindex=1\tdelta=2\n\
visits\tsha256=e3b0c44298fc1c149afbf4c8996fb92427ae41e4649b934ca495991b7852b855\n\
experiment\tselected=src/a.s:5\tspeedup=50\tend=exited:0\ttime=7996\tdelay=0\tretired=13\tstarts=2\n\
output\tlength=0\tsha256=e3b0c44298fc1c149afbf4c8996fb92427ae41e4649b934ca495991b7852b855\n\
throughput-point\tindex=0\tdelta=2\n\
throughput-point\tindex=1\tdelta=2\n\
visits\tsha256=e3b0c44298fc1c149afbf4c8996fb92427ae41e4649b934ca495991b7852b855\n\
experiment\tselected=src/big:1\tspeedup=0\tend=exited:0\ttime=8000\tdelay=0\tretired=13\tstarts=2\n\
output\tlength=0\tsha256=e3b0c44298fc1c149afbf4c8996fb92427ae41e4649b934ca495991b7852b855\n\
throughput-point\tindex=0\tdelta=2\n\
throughput-point\tindex=1\tdelta=2\n\
visits\tsha256=e3b0c44298fc1c149afbf4c8996fb92427ae41e4649b934ca495991b7852b855\n\
experiment\tselected=src/big:1\tspeedup=50\tend=exited:0\ttime=8000\tdelay=0\tretired=13\tstarts=2\n\
output\tlength=0\tsha256=e3b0c44298fc1c149afbf4c8996fb92427ae41e4649b934ca495991b7852b855\n\
throughput-point\tindex=0\tdelta=2\n\
throughput-point\tindex=1\tdelta=2\n\
visits\tsha256=e3b0c44298fc1c149afbf4c8996fb92427ae41e4649b934ca495991b7852b855\n";

// A constant is copied into each function that names it.
static POINTS: &[u8] = TWO_POINTS;

static SIDES: [Piece; 6] = [
    (
        &["points"],
        &[],
        b"<details open><summary>Lines at all progress points</summary>\n",
        true,
    ),
    (
        &["points"],
        &[],
        b"<details open><summary>src/a.s<span>:3</span></summary>\n<div class=\"charts\">\n\
<figure><figcaption>src/a.s<span>:8</span>: 10.00%</figcaption><svg",
        true,
    ),
    (
        &["points"],
        &[],
        b"</details></figure>\n<figure><figcaption>src/b.s<span>:9</span>: 40.00%</figcaption><svg",
        true,
    ),
    (
        &["points"],
        &[],
        b"<summary>src/a.s<span>:5</span></summary>",
        false,
    ),
    (
        &["points"],
        &[],
        b"Lines: 3. Shown: 1. Folded: 2. Not shown: 0.",
        true,
    ),
    (
        &["points"],
        &[],
        b"<summary>Lines under 0.2% at each speedup: 2</summary>",
        true,
    ),
];

#[test]
fn the_points_of_a_line_are_side_by_side(rt: HostRuntime) -> Result<(), Fail> {
    check_pieces(&rt, &SIDES)
}

/// What follows the label in the blocks of a line at speedups 0 and 50.
static BLOCKS: [&[u8]; 2] = [
    b"\tspeedup=0\tend=exited:0\ttime=8000\tdelay=0\tretired=13\tstarts=2\n\
output\tlength=0\tsha256=e3b0c44298fc1c149afbf4c8996fb92427ae41e4649b934ca495991b7852b855\n\
throughput-point\tindex=0\tdelta=2\n\
visits\tsha256=e3b0c44298fc1c149afbf4c8996fb92427ae41e4649b934ca495991b7852b855\n",
    b"\tspeedup=50\tend=exited:0\ttime=7200\tdelay=0\tretired=13\tstarts=2\n\
output\tlength=0\tsha256=e3b0c44298fc1c149afbf4c8996fb92427ae41e4649b934ca495991b7852b855\n\
throughput-point\tindex=0\tdelta=2\n\
visits\tsha256=e3b0c44298fc1c149afbf4c8996fb92427ae41e4649b934ca495991b7852b855\n",
];

/// A profile of the lines 10 to 30 of a file.
fn many_lines(alloc: Global) -> Result<Vec<u8>, AllocError> {
    let head = b"coz-ticks\tversion=1\tbudget=1000\tpoints=1\npoint\tindex=0\tname=src/a.s:8\n";
    let mut text = head.as_slice().to_vec(alloc)?;
    for number in 10..31u8 {
        for block in &BLOCKS {
            text.extend_from_slice(b"experiment\tselected=src/a.s:")?;
            text.push(b'0' + number / 10)?;
            text.push(b'0' + number % 10)?;
            text.extend_from_slice(*block)?;
        }
    }
    Ok(text)
}

#[test]
fn twenty_lines_are_shown(rt: HostRuntime) -> Result<(), Fail> {
    let text = many_lines(rt.alloc())?;
    let files = files_of(rt.alloc(), &[("many", &text)])?;
    check_piece(
        &rt,
        &["many"],
        &mut Listed::new(&files, &[]),
        (b"Lines: 21. Shown: 20. Folded: 0. Not shown: 1.", true),
    )
}

/// The runs of four lines: the number of a line with the speedup, and the time with the delay. A visit
/// takes 5,000 ticks without a speedup.
static RUNS: [(&[u8], &[u8]); 18] = [
    // 10 and 0 per cent
    (b"1\tspeedup=0", b"10000\tdelay=0"),
    (b"1\tspeedup=50", b"9000\tdelay=0"),
    (b"1\tspeedup=90", b"10000\tdelay=0"),
    // 7 and 7 per cent
    (b"2\tspeedup=0", b"10000\tdelay=0"),
    (b"2\tspeedup=50", b"9300\tdelay=0"),
    (b"2\tspeedup=90", b"9300\tdelay=0"),
    // up to 2 per cent and down to 0, nine times in all
    (b"3\tspeedup=0", b"10000\tdelay=0"),
    (b"3\tspeedup=10", b"9800\tdelay=0"),
    (b"3\tspeedup=20", b"10000\tdelay=0"),
    (b"3\tspeedup=30", b"9800\tdelay=0"),
    (b"3\tspeedup=40", b"10000\tdelay=0"),
    (b"3\tspeedup=50", b"9800\tdelay=0"),
    (b"3\tspeedup=60", b"10000\tdelay=0"),
    (b"3\tspeedup=70", b"9800\tdelay=0"),
    (b"3\tspeedup=80", b"10000\tdelay=0"),
    (b"3\tspeedup=90", b"9800\tdelay=0"),
    // Its starts cost 6,000 * 100 / 50 ticks, and the run takes 10,000.
    (b"4\tspeedup=0", b"10000\tdelay=0"),
    (b"4\tspeedup=50", b"16500\tdelay=6000"),
];

/// What follows the times of a run with two visits.
static VISITED: &[u8] = b"\tretired=13\tstarts=2\n\
output\tlength=0\tsha256=e3b0c44298fc1c149afbf4c8996fb92427ae41e4649b934ca495991b7852b855\n\
throughput-point\tindex=0\tdelta=2\n\
visits\tsha256=e3b0c44298fc1c149afbf4c8996fb92427ae41e4649b934ca495991b7852b855\n";

/// A profile of these runs.
fn shapes(alloc: Global) -> Result<Vec<u8>, AllocError> {
    let head = b"coz-ticks\tversion=1\tbudget=1000\tpoints=1\npoint\tindex=0\tname=src/a.s:8\n";
    let mut text = head.as_slice().to_vec(alloc)?;
    for (line, times) in &RUNS {
        text.extend_from_slice(b"experiment\tselected=src/a.s:")?;
        text.extend_from_slice(*line)?;
        text.extend_from_slice(b"\tend=exited:0\ttime=")?;
        text.extend_from_slice(*times)?;
        text.extend_from_slice(VISITED)?;
    }
    Ok(text)
}

/// By hand: the second line has the greatest mean, and the first one the greatest gain.
static SHAPES: [Piece; 9] = [
    (
        &["shapes"],
        &[],
        b"</td><td>5.00%</td><td>10.00%</td><td>none</td>",
        true,
    ),
    (
        &["shapes", "--top=1"],
        &[],
        b"<td>src/a.s<span>:2</span></td>",
        true,
    ),
    (
        &["shapes", "--top=1"],
        &[],
        b"<td>src/a.s<span>:1</span></td>",
        false,
    ),
    // The axis is for the greatest gain.
    (&["shapes", "--top=1"], &[], b">10.00%</text>", true),
    (
        &["shapes"],
        &[],
        b"<span>:2</span>: 7.00%, all of it by 50%</figcaption>",
        true,
    ),
    (
        &["shapes"],
        &[],
        b"<td>src/a.s<span>:3</span><br><small>goes up and down</small></td>",
        true,
    ),
    // 10 per cent in all, over nine speedups
    (
        &["shapes"],
        &[],
        b"</td><td>1.11%</td><td>2.00%</td><td>none</td>",
        true,
    ),
    (
        &["shapes"],
        &[],
        b"aria-label=\"src/a.s:3: 2.00%, goes up and down\">",
        true,
    ),
    (
        &["shapes"],
        &[],
        b"</td><td>120.00%<br><small>several threads at once</small></td><td>-5.00%</td>",
        true,
    ),
];

#[test]
fn lines_are_ranked_by_their_means(rt: HostRuntime) -> Result<(), Fail> {
    let text = shapes(rt.alloc())?;
    let files = files_of(rt.alloc(), &[("shapes", &text)])?;
    for (words, fails, piece, is_there) in &SHAPES {
        let mut listed = Listed::new(&files, *fails);
        check_piece(&rt, *words, &mut listed, (*piece, *is_there))?;
    }
    Ok(())
}

/// The reads are those of the profile, of `d/src/a.s` and of `d/src/big`.
static READS: [Piece; 4] = [
    (
        &["points", "--source=d"],
        &[3],
        b"<code>  three &lt; 3</code>",
        true,
    ),
    (&["points", "--source=d"], &[3], b"<code>five</code>", true),
    (&["points", "--source=d"], &[3], b"<code>big</code>", true),
    (&["points", "--source=d"], &[2], b"<code>big</code>", false),
];

#[test]
fn each_source_is_read_once(rt: HostRuntime) -> Result<(), Fail> {
    check_pieces(&rt, &READS)
}

/// The number of zeros of the source file `big`, and whether the page has its first line.
static SOURCES: [(u64, bool); 2] = [(16_777_216, true), (16_777_217, false)];

#[test]
fn a_longer_source_is_not_shown(rt: HostRuntime) -> Result<(), Fail> {
    for (size, is_there) in &SOURCES {
        let mut files = Large {
            size: *size,
            bytes: POINTS,
        };
        let piece = (
            b"<td>src/big<span>:1</span><br><code>".as_slice(),
            *is_there,
        );
        check_piece(&rt, &["points", "--source=d"], &mut files, piece)?;
    }
    Ok(())
}

//! The parts of the page that say nothing of a profile.

/// The page before the title of its tab.
pub const HEAD: &[u8] = b"<!DOCTYPE html>\n\
<html lang=\"en\">\n\
<head>\n\
<meta charset=\"utf-8\">\n\
<meta name=\"viewport\" content=\"width=device-width, initial-scale=1\">\n\
<title>";

/// The page between the title of its tab and that of its heading.
pub const STYLE: &[u8] = b": which lines are worth making faster</title>\n\
<style>\n\
:root { color-scheme: light dark; --ink: #1d2125; --paper: #fff; --faint: #c8ced6; --line: #0a5fbf; --harm: #b3261e; }\n\
@media (prefers-color-scheme: dark) { :root { --ink: #e4e7ea; --paper: #17191c; --faint: #454c55; --line: #74b7ff; --harm: #ff8a80; } }\n\
body { margin: 1rem auto; max-width: 118rem; padding: 0 .75rem; background: var(--paper); color: var(--ink); font: 1rem/1.45 system-ui, sans-serif; }\n\
h1 { font-size: 1.35rem; overflow-wrap: anywhere; }\n\
p, li { max-width: 50rem; overflow-wrap: anywhere; }\n\
h2 { font-size: 1.1rem; }\n\
summary { border-top: 1px solid var(--faint); padding: .5rem 0; cursor: pointer; font-weight: 600; overflow-wrap: anywhere; }\n\
table { border-collapse: collapse; width: 100%; max-width: 64rem; }\n\
th, td { border-bottom: 1px solid var(--faint); padding: .2rem 0; text-align: left; overflow-wrap: anywhere; }\n\
th + th, td + td { padding-left: 1rem; text-align: right; white-space: nowrap; font-variant-numeric: tabular-nums; }\n\
.charts { display: grid; gap: 1.25rem; grid-template-columns: repeat(auto-fill, minmax(min(100%, 20rem), 1fr)); }\n\
figure { margin: 0; }\n\
figcaption { overflow-wrap: anywhere; }\n\
figure summary { border: 0; padding: .1rem 0; font-size: .85rem; font-weight: 400; }\n\
figure ul { columns: 9rem; margin: 0; padding-left: 1.25rem; font-size: .85rem; }\n\
td span, li span, figcaption span, summary span { white-space: nowrap; }\n\
td + td small { display: block; white-space: normal; }\n\
.folded > summary { border: 0; font-weight: 400; }\n\
svg { display: block; width: 100%; height: auto; }\n\
.small { width: 5.5rem; margin-left: auto; }\n\
.small polyline { stroke-width: 24; }\n\
.small path { stroke-width: 8; }\n\
text { fill: var(--ink); font-size: 38px; }\n\
path, polyline { fill: none; stroke: var(--faint); stroke-width: 3; }\n\
polyline { stroke: var(--line); stroke-width: 6; }\n\
circle { fill: var(--line); }\n\
.warning { color: var(--harm); font-weight: 600; }\n\
.low { fill: var(--paper); stroke: var(--harm); stroke-width: 8; }\n\
a { color: var(--line); overflow-wrap: anywhere; }\n\
@media (max-width: 40rem) {\n\
tr { display: grid; grid-template-columns: repeat(4, minmax(0, 1fr)); align-items: center; border-bottom: 1px solid var(--faint); }\n\
th, td { border: 0; }\n\
th + th, td + td { padding-left: .25rem; }\n\
th:first-child, td:first-child { grid-column: 1 / -1; }\n\
th:first-child:nth-last-child(6), td:first-child:nth-last-child(6) { grid-column: 1 / 4; }\n\
th:nth-child(6), td:nth-child(6) { grid-area: 1 / 4; }\n\
.small { width: 4.5rem; }\n\
}\n\
</style>\n\
</head>\n\
<body>\n\
<h1>Which lines are worth making faster";

/// The page after its heading, up to what is said of the runs.
pub const LEAD: &[u8] = b"</h1>\n\
<p>A curve shows how much less time a visit of the progress point takes if its line costs less. \
Its mean is that of its values at the speedups over 0: the lines are ranked by it. \
Its gain is the greatest of these values, its worst the least: below 0 the line hurts. \
Its cost is what its own instructions take, on all threads, as a part of the net time of the run without a speedup: \
several threads at once can take more than 100%. \
A dot shows its value when it is pointed at, and the list below a picture has them all; \
a red ring marks a value outside the axis. \
<a href=\"#reading\">How to read a curve</a></p>\n";

/// The end of what is said of the runs.
pub const SCHEDULE: &[u8] = b" A gain is of one schedule of the threads: \
with other timing it may be another one.</p>\n";

/// The heads of the columns of a table.
pub const COLUMNS: &[u8] = b"<tr><th>Line</th><th>Cost</th><th>Mean</th><th>Gain</th>\
<th>Worst</th><th>Curve</th></tr>\n";

/// A picture between its caption and the words for readers of screens.
pub const PICTURE: &[u8] = b"</figcaption><svg viewBox=\"0 0 1400 640\" role=\"img\" aria-label=\"";

/// The text in place of the curves if there are none.
pub const NOTHING: &[u8] =
    b"<p>This profile has no curves: it has no progress point, or no line was selected.</p>\n";

/// The text before the lines at all progress points.
pub const LINES: &[u8] = b"<details open><summary>Lines at all progress points</summary>\n\
<p>From the table of each progress point, the lines that gain most at that point, \
each with its curves at all points side by side, over one axis. \
Lines whose curves are all flat are not shown.</p>\n";

/// The section on reading a curve, and the end of the page.
pub const FOOT: &[u8] = b"<h2 id=\"reading\">How to read a curve</h2>\n\
<ul>\n\
<li>Flat, near 0: the visits do not wait for this line, even if it takes much of the time.</li>\n\
<li>A rise up to a kink: after it something else, such as another thread, limits the visits, \
and more speedup of the line gains nothing.</li>\n\
<li>Up and down: how the threads meet decides, and that changes with the schedule. \
Do not rely on one such value. \
A curve of ten or more speedups is marked if all its ways up and down are more than one and a half times its range.</li>\n\
<li>A fall below 0: with a faster line the visits come later, as where its threads then wait more for each other.</li>\n\
</ul>\n\
</body>\n</html>\n";

//! The text of a critical path, on its way to a sink.
ghost use Rattle.std.specs.Prelude.{◌≡◌, ◌≤◌, ◌+◌, ◌↔◌, length, flat_map, All, IfOk, IsTrue};
ghost use Rattle.coz_files.specs.Gathered.{Gathers};
ghost use Rattle.coz_files.specs.Puts.{Puts};
ghost use Rattle.line_index.specs.Index.{position_at};
ghost use Rattle.path_chains.specs.Path.{event_at, last_of, chain_of, Linked};
ghost use Rattle.line_index.specs.Lines.{label_at};
ghost use Rattle.path_chains.specs.Segments.{after, segments_of};
ghost use Rattle.path_texts.specs.PathText.{amount_line, by_text, events_on, head_lines, path_text, segment_line, share_line, share_lines, written_path};
ghost use Rattle.path_texts.specs.Segments.{closed, AreFourOfFirst};

use crate::shares::{Shares, event_of, shares_of_chain};
use coz_files::{PutAnswer, PutBuffer, Sink};
use coz_types::{LineId, Tick};
use line_index::LineIndex;
use path_chains::{
    Event, Handover, Segment, Share, Trace, after, first_segment, longest, whole_segment,
};
use profile_book::{put_end, put_field, put_line, put_named};
use std::alloc::{AllocError, Global};

/// The critical path of a run.
#[derive(Drop)]
pub struct CriticalPath {
    /// The run.
    pub trace: Trace,
    /// The numbers of the events of the path.
    pub chain: Vec<u32>,
    /// When the last event was due, in net ticks.
    pub net: Tick,
    /// The share of each line.
    pub shares: Shares,
}

/// Whether the event of a number and the three after it are of the hart that a program begins
/// with.
#[inline(always)]
fn are_four_of_first(events: &[Event], number: usize) -> bool
    requires { number + 4 ≤ length events.now }
    ensures { IsTrue result ↔ AreFourOfFirst events.now number }
{
    events[number].hart.0 == 0
        && events[number + 1].hart.0 == 0
        && events[number + 2].hart.0 == 0
        && events[number + 3].hart.0 == 0
}

/// Whether each of these events is of the hart that a program begins with.
fn are_each_of_first(events: &[Event]) -> bool
    ensures { IsTrue result ↔ All (λ e. e.hart.0 ≡ 0) events.now }
{
    events.iter().all(|event| event.hart.0 == 0)
}

/// Whether all events are of the hart that a program begins with. They are read in fours.
fn are_of_first(events: &[Event]) -> bool
    ensures { IsTrue result ↔ All (λ e. e.hart.0 ≡ 0) events.now }
{
    let mut number = 0;
    while events.len() - number >= 4 {
        if !are_four_of_first(events, number) {
            return false;
        }
        number += 4;
    }
    are_each_of_first(&events[number..])
}

/// The number of segments of a path. If all events are of the first hart, the events are not read
/// in the order of the path.
#[inline(never)]
fn count_segments(events: &[Event], chain: &[u32]) -> u64
    ensures { result ≡ length (segments_of (events_on events.now chain.now)) }
{
    if !chain.is_empty() && are_of_first(events) {
        return 1;
    }
    count_changes(events, chain)
}

/// How many segments a path has, by its changes of harts.
#[inline(never)]
fn count_changes(events: &[Event], chain: &[u32]) -> u64
    ensures { result ≡ length (segments_of (events_on events.now chain.now)) }
{
    let Some((first, rest)) = chain.split_first() else {
        return 0;
    };
    let mut segment = first_segment(&event_of(events, *first));
    let mut count = 1;
    for number in rest {
        let event = event_of(events, *number);
        count += u64::from(event.hart.0 != segment.hart.0);
        segment = after(segment, &event);
    }
    count
}

fn by_text(by: Handover) -> &'static [u8]
    ensures { result.now ≡ by_text by }
{
    match by {
        Handover::Start => b"start",
        Handover::Clone => b"clone",
        Handover::Wake => b"wake",
    }
}

fn put_segment<O: Sink>(to: &mut PutBuffer, out: &mut O, segment: Segment)
    ensures { Gathers O.holds O.faults out.old out.new to.old to.new (segment_line segment) }
{
    put_named(to, out, b"segment ", u64::from(segment.hart.0));
    put_named(to, out, b" from ", segment.start);
    put_named(to, out, b" to ", segment.end);
    put_field(to, out, b" by ", by_text(segment.by));
    to.push(out, b"\n");
}

/// Extends the segment of the event before this one, or puts its line and begins the next one.
#[inline]
fn pass<O: Sink>(to: &mut PutBuffer, out: &mut O, segment: &mut Segment, event: &Event)
    ensures segment { segment.new ≡ after segment.old event.now }
    ensures text { Gathers O.holds O.faults out.old out.new to.old to.new
        (closed segment.old event.now) }
{
    if event.hart.0 == segment.hart.0 {
        segment.end = event.due;
        return;
    }
    put_segment(to, out, *segment);
    *segment = after(*segment, event);
}

/// The line of each segment of a path.
fn put_segments<O: Sink>(to: &mut PutBuffer, out: &mut O, events: &[Event], chain: &[u32])
    ensures { Gathers O.holds O.faults out.old out.new to.old to.new
        (flat_map segment_line (segments_of (events_on events.now chain.now))) }
{
    let Some((first, rest)) = chain.split_first() else {
        return;
    };
    let mut segment = first_segment(&event_of(events, *first));
    for number in rest {
        let event = event_of(events, *number);
        pass(to, out, &mut segment, &event);
    }
    put_segment(to, out, segment);
}

/// The line of a path that is one segment. Of its events only the first and the last are read.
fn put_whole<O: Sink>(to: &mut PutBuffer, out: &mut O, events: &[Event], chain: &[u32])
    requires { length (segments_of (events_on events.now chain.now)) ≡ 1 }
    ensures { Gathers O.holds O.faults out.old out.new to.old to.new
        (flat_map segment_line (segments_of (events_on events.now chain.now))) }
{
    let Some((first, rest)) = chain.split_first() else {
        return;
    };
    let last = event_of(events, chain[rest.len()]);
    let segment = whole_segment(&event_of(events, *first), &last);
    put_segment(to, out, segment);
}

/// The line of each segment of a path, of which there are this many.
fn put_each<O: Sink>(
    to: &mut PutBuffer,
    out: &mut O,
    events: &[Event],
    chain: &[u32],
    segments: u64,
)
    requires { segments ≡ length (segments_of (events_on events.now chain.now)) }
    ensures { Gathers O.holds O.faults out.old out.new to.old to.new
        (flat_map segment_line (segments_of (events_on events.now chain.now))) }
{
    if segments == 1 {
        put_whole(to, out, events, chain);
    } else {
        put_segments(to, out, events, chain);
    }
}

/// The label of the line at a position.
fn label_at(index: &LineIndex, line: u32) -> &[u8]
    ensures { result.now ≡ label_at index.now.lines line }
{
    if line < index.count() {
        return index.label(LineId(line)).bytes();
    }
    b""
}

fn put_share<O: Sink>(to: &mut PutBuffer, out: &mut O, index: &LineIndex, share: Share)
    ensures { Gathers O.holds O.faults out.old out.new to.old to.new
        (share_line index.now.lines share) }
{
    put_field(to, out, b"share ", label_at(index, share.line));
    put_named(to, out, b" ", share.ticks);
    to.push(out, b"\n");
}

fn put_shares<O: Sink>(to: &mut PutBuffer, out: &mut O, index: &LineIndex, shares: &[Share])
    ensures { Gathers O.holds O.faults out.old out.new to.old to.new
        (flat_map (share_line index.now.lines) shares.now) }
{
    for share in shares {
        put_share(to, out, index, *share);
    }
}

/// A line of a name and a number, unless the number is 0.
fn put_amount<O: Sink>(to: &mut PutBuffer, out: &mut O, name: &[u8], number: u64)
    ensures { Gathers O.holds O.faults out.old out.new to.old to.new
        (amount_line name.now number) }
{
    if number > 0 {
        put_line(to, out, name, number);
    }
}

/// The lines ahead of the segments, of which there are this many.
fn put_head<O: Sink>(to: &mut PutBuffer, out: &mut O, path: &CriticalPath, segments: u64)
    ensures { Gathers O.holds O.faults out.old out.new to.old to.new
        (head_lines path.now.trace.ending path.now.net (length path.now.trace.events) segments) }
{
    put_end(to, out, path.trace.ending);
    put_line(to, out, b"net ", path.net);
    put_line(to, out, b"retired ", path.trace.events.len() as u64);
    put_line(to, out, b"segments ", segments);
}

/// The lines of the shares of a path.
fn put_parts<O: Sink>(to: &mut PutBuffer, out: &mut O, shares: &Shares, index: &LineIndex)
    ensures { Gathers O.holds O.faults out.old out.new to.old to.new
        (share_lines index.now.lines shares.now.lines shares.now.none shares.now.sleep) }
{
    put_shares(to, out, index, shares.lines.as_slice());
    put_amount(to, out, b"share none ", shares.none);
    put_amount(to, out, b"sleep ", shares.sleep);
}

/// When the last event of a run was due, in net ticks.
fn net_of(events: &[Event]) -> Tick
    requires { 1 ≤ length events.now }
    ensures { result ≡ (event_at events.now (last_of events.now)).due }
{
    events[events.len() - 1].due
}

/// The critical path of a run, whose addresses have the lines of an index.
/// Fails only if out of memory.
pub fn path_of(alloc: Global, index: &LineIndex, trace: Trace) -> Result<CriticalPath, AllocError>
    requires { Linked trace.events }
    ensures ending { IfOk result (λ path. path.trace.ending ≡ trace.ending) }
    ensures text { IfOk result (λ path. written_path path index.now ≡ path_text trace.ending
        (event_at trace.events (last_of trace.events)).due (length trace.events)
        (events_on trace.events (chain_of trace.events)) (position_at index.now) index.now.lines) }
{
    let events = trace.events.as_slice();
    let net = net_of(events);
    let chain = longest(alloc, &trace)?;
    let shares = shares_of_chain(alloc, index, events, &chain)?;
    Ok(CriticalPath {
        trace,
        chain,
        net,
        shares,
    })
}

/// Puts the text of a critical path, whose shares are of the lines of an index.
/// No memory is taken.
pub fn write_path<O: Sink>(path: &CriticalPath, index: &LineIndex, out: &mut O) -> PutAnswer
    ensures { Puts O.holds O.faults out.old out.new result (written_path path.now index.now) }
{
    let events = path.trace.events.as_slice();
    let mut buffer = PutBuffer::new();
    let segments = count_segments(events, &path.chain);
    put_head(&mut buffer, out, path, segments);
    put_each(&mut buffer, out, events, &path.chain, segments);
    put_parts(&mut buffer, out, &path.shares, index);
    buffer.finish(out)
}

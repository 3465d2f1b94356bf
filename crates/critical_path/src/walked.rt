//! The events of a program's run.
ghost use Rattle.std.specs.Prelude.{◌≡◌, ◌≤◌, ℕ, List, [], None, length, IfOk, if◌then◌else◌, ◌==◌};
ghost use Rattle.coz_types.specs.declared.TheConstants.{HARTS};
ghost use Rattle.coz_types.specs.Image.{ImageParts};
ghost use Rattle.machines.specs.Records.{shortened_record};
ghost use Rattle.progress_points.specs.Points.{point_of};
ghost use Rattle.guest_calls.specs.Guest as guests;
ghost use Rattle.timing_model.specs.Timing.{IsTiming};
ghost use Rattle.timed_guest.specs.Guest.{pc_of};
ghost use Rattle.run_engine.specs.Engine.{IsFirst};
ghost use Rattle.run_engine.specs.Run.{IsChoice, IsSetting, experiment_in};
ghost use Rattle.path_chains.specs.declared.TheConstants.{MAX_EVENTS};
ghost use Rattle.path_chains.specs.Path.{event_at, last_of, Linked};
ghost use Rattle.path_causes.specs.Causes.{no_cause, cause_at};
ghost use Rattle.critical_path.specs.Events.{events_of, retirements_of, AreBefores, AreFroms};
ghost use Rattle.critical_path.specs.Recording.{ticks_from};
ghost use Rattle.critical_path.specs.Walk.{plain_choice, plain, plain_on, IsMadeOf, IsTraceOf, IsFirstOfSome};

use crate::recording::{Walked, record_move, ticks_from};
use coz_types::{Ending, HARTS, HartId, Image, Items, MAX_VISITS};
use dwarf_lines::LineTable;
use guest_memory::Layout;
use line_index::LineIndex;
use path_causes::Cause;
use path_chains::Trace;
use progress_points::Points;
use run_engine::{Choice, Engine, Setting};
use std::alloc::{AllocError, Global};
use timing_model::Timing;

/// An index of no lines.
fn no_lines(alloc: Global, image: &Image) -> Result<LineIndex, AllocError> {
    let table = LineTable {
        files: Items::new(Vec::new(alloc)),
        rows: Items::new(Vec::new(alloc)),
        skipped: 0,
    };
    line_index::build(alloc, &table, image)
}

/// No points.
fn no_points(alloc: Global, index: &LineIndex) -> Result<Points, AllocError>
    ensures { IfOk result (λ points. (a : ℕ) → point_of points a ≡ None) }
{
    match Points::new(alloc, index, &[]) {
        Ok(points) => Ok(points),
        Err(_) => Err(AllocError),
    }
}

/// The causes before the first event.
fn first_walked(alloc: Global, engine: &Engine) -> Result<Walked, AllocError>
    ensures events { IfOk result (λ walked. walked.events.items ≡ []) }
    ensures room { IfOk result (λ walked. length walked.causes.items ≡ HARTS) }
    ensures causes { IfOk result (λ walked. (k : ℕ) → cause_at walked.causes.items k
        ≡ (if k == 0 then record no_cause { cost = ticks_from engine.now.schedule 0 0 }
        else no_cause)) }
{
    let none = Cause {
        from: None,
        before: None,
        cost: 0,
        slept: 0,
    };
    let mut causes = vec![in alloc; none; HARTS]?;
    causes[0] = Cause {
        cost: ticks_from(engine, 0, HartId(0)),
        ..none
    };
    Ok(Walked {
        causes,
        events: Vec::new(alloc),
    })
}

/// The trace of what is known as a run ends so.
fn trace_of(
    alloc: Global,
    engine: &Engine,
    walked: Walked,
    ending: Ending,
) -> Result<Trace, AllocError>
    ensures { IfOk result (λ trace.
        IsMadeOf trace ending walked.events.items engine.now.guest.guest.output) }
{
    let output = Vec::from_slice(alloc, engine.output())?;
    Ok(Trace {
        events: Items::new(walked.events),
        ending,
        output: Items::new(output),
    })
}

/// Runs an engine that begins a run to its end, and gives the events of that run, its ending and
/// its output. The caller drops the engine, which has many parts.
fn trace_engine(alloc: Global, engine: &mut Engine, setting: &Setting) -> Result<Trace, AllocError>
    requires setting { IsSetting setting.now }
    requires few { setting.now.choice.budget ≤ MAX_EVENTS }
    requires first { IsFirstOfSome setting.now engine.old }
    ensures { IfOk result (λ trace. (image : ImageParts) (input : List ℕ)
        → IsFirst setting.now image input engine.old
        → IsTraceOf (experiment_in image input setting.now) pc_of trace) }
{
    let mut walked = first_walked(alloc, engine)?;
    while engine.ending().is_none() {
        let address = engine.address_due();
        let moved = engine.advance(setting, 0);
        record_move(engine, moved, address, &mut walked)?;
    }
    let Some(ending) = engine.ending() else {
        unreachable!()
    };
    trace_of(alloc, engine, walked, ending)
}

/// Runs a program in a setting, and gives its events, its ending and its output.
fn trace_run<'a>(
    alloc: Global,
    image: &'a Image<'a>,
    input: &'a [u8],
    setting: &Setting,
) -> Result<Trace, AllocError>
    requires setting { IsSetting setting.now }
    requires few { setting.now.choice.budget ≤ MAX_EVENTS }
    ensures { IfOk result (λ trace.
        IsTraceOf (experiment_in image.now input.now setting.now) pc_of trace) }
{
    let mut engine = Engine::new(alloc, image, input, setting)?;
    trace_engine(alloc, &mut engine, setting)
}

/// Runs a program on a machine, with no selected line and no points, and gives its events, its
/// ending and its output. The index has the lines of the image. Fails only if out of memory.
#[inline(never)]
pub fn walk_on<'a>(
    alloc: Global,
    image: &'a Image<'a>,
    index: &LineIndex,
    timing: Timing,
    input: &'a [u8],
    budget: u64,
    output_limit: u64,
    layout: Layout,
) -> Result<Trace, AllocError>
    requires choice { IsChoice (plain_choice budget output_limit layout) }
    requires few { budget ≤ MAX_EVENTS }
    requires machine { IsTiming timing }
    ensures { IfOk result (λ trace. IsTraceOf
        (plain_on timing image.now index.now input.now budget output_limit layout) pc_of trace) }
{
    let points = no_points(alloc, index)?;
    let choice = Choice {
        selected: None,
        speedup: 0,
        budget,
        output_limit,
        visit_limit: MAX_VISITS,
        layout,
    };
    let setting = Setting {
        index,
        points: &points,
        timing,
        choice,
    };
    trace_run(alloc, image, input, &setting)
}

/// Runs a program on the usual machine, with no selected line and no points, and gives its events,
/// its ending and its output. Fails only if out of memory.
pub fn walk<'a>(
    alloc: Global,
    image: &'a Image<'a>,
    input: &'a [u8],
    budget: u64,
    output_limit: u64,
    layout: Layout,
) -> Result<Trace, AllocError>
    requires choice { IsChoice (plain_choice budget output_limit layout) }
    requires few { budget ≤ MAX_EVENTS }
    ensures events { IfOk result (λ trace. trace.events
        ≡ events_of (plain image.now input.now budget output_limit layout) guests.pc_of) }
    ensures ending { IfOk result (λ trace. trace.ending
        ≡ (shortened_record (plain image.now input.now budget output_limit layout)).ending) }
    ensures output { IfOk result (λ trace. trace.output
        ≡ (shortened_record (plain image.now input.now budget output_limit layout)).output) }
    ensures linked { IfOk result (λ trace. Linked trace.events) }
    ensures many { IfOk result (λ trace. length trace.events
        ≡ (shortened_record (plain image.now input.now budget output_limit layout)).retired) }
    ensures whole { IfOk result (λ trace. (event_at trace.events (last_of trace.events)).due
        ≡ (shortened_record (plain image.now input.now budget output_limit layout)).time) }
    ensures befores { IfOk result (λ trace. AreBefores trace.events) }
    ensures froms { IfOk result (λ trace. AreFroms
        (retirements_of (plain image.now input.now budget output_limit layout)) trace.events) }
{
    let index = no_lines(alloc, image)?;
    let timing = Timing::usual();
    walk_on(
        alloc,
        image,
        &index,
        timing,
        input,
        budget,
        output_limit,
        layout,
    )
}

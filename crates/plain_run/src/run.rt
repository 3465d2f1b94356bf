//! What a run leaves.
ghost use Rattle.std.specs.Prelude.{◌≡◌, ◌≤◌, ◌<◌, ◌^◌, ℕ, List, [], map, length, IfOk};
ghost use Rattle.std.specs.List.{range_with_len};
ghost use Rattle.coz_types.specs.declared.TheConstants.{HARTS};
ghost use Rattle.coz_types.specs.Image.{ImageParts};
ghost use Rattle.progress_points.specs.Points.{point_of};
ghost use Rattle.run_engine.specs.Engine.{IsFirst};
ghost use Rattle.run_engine.specs.Run.{IsChoice, IsMachine, IsSetting, experiment_in, timed_experiment};
ghost use Rattle.ready_ticks.specs.Ready.{Course};
ghost use Rattle.ready_ticks.specs.Waits.{AreTold, ticks_at, wait_of};
ghost use Rattle.plain_run.specs.Noting.{IsFirstOfSome, IsLeft};
ghost use Rattle.plain_run.specs.PlainRun.{IsPlainRun, plain_choice};

use crate::walk::walk;
use coz_types::{Ending, HartId, Image, Outcome, Tick, Visit};
use line_index::LineIndex;
use progress_points::Points;
use ready_ticks::Waits;
use run_engine::{Choice, Engine, Setting};
use std::alloc::{AllocError, Global};
use timing_model::Timing;

/// What a run with no line selected leaves.
#[derive(Drop)]
pub struct PlainRun {
    /// How it came out. Its delay and its starts are 0.
    pub outcome: Outcome,
    /// The visits of progress points, in order, each with a delay of 0.
    pub visits: Vec<Visit>,
    /// The output of the program.
    pub output: Vec<u8>,
    /// Of each hart that was made, by number, for how many ticks it was ready.
    pub ready: Vec<Tick>,
}

/// For how many ticks each hart that was made was ready up to the last retirement.
fn ready_of(alloc: Global, engine: &Engine, waits: &Waits) -> Result<Vec<Tick>, AllocError>
    requires harts { length engine.now.guest.guest.harts ≤ HARTS }
    requires few { (hart : ℕ) → ticks_at engine.now.time (wait_of waits.now hart) < 2 ^ 64 }
    ensures { IfOk result (λ ready. ready.items
        ≡ map (λ hart. ticks_at engine.now.time (wait_of waits.now hart))
        (range_with_len 0 (length engine.now.guest.guest.harts))) }
{
    let mut ready = Vec::new(alloc);
    for number in 0..engine.guest.harts() {
        let ticks = waits.ticks(HartId(number as u16), engine.time());
        ready.push(ticks)?;
    }
    Ok(ready)
}

/// What is left as a run ends so.
fn left_by(
    alloc: Global,
    engine: &Engine,
    waits: &Waits,
    ending: Ending,
) -> Result<PlainRun, AllocError>
    requires harts { length engine.now.guest.guest.harts ≤ HARTS }
    requires few { (hart : ℕ) → ticks_at engine.now.time (wait_of waits.now hart) < 2 ^ 64 }
    ensures { IfOk result (IsLeft engine.now waits.now ending) }
{
    let ready = ready_of(alloc, engine, waits)?;
    let visits = Vec::from_slice(alloc, engine.visits())?;
    let output = Vec::from_slice(alloc, engine.output())?;
    let outcome = Outcome {
        ending,
        time: engine.time(),
        delay: 0,
        retired: engine.retired(),
        starts: engine.starts(),
    };
    Ok(PlainRun {
        outcome,
        visits,
        output,
        ready,
    })
}

/// Runs an engine that begins a run to its end. The caller drops the engine, which has many parts.
fn run_engine(
    alloc: Global,
    engine: &mut Engine,
    setting: &Setting,
    waits: &mut Waits,
) -> Result<PlainRun, AllocError>
    requires setting { IsSetting setting.now }
    requires first { IsFirstOfSome setting.now engine.old }
    requires told { (c : Course) → c.line 0 ≡ [] → AreTold c 0 waits.old }
    ensures { IfOk result (λ run. (image : ImageParts) (input : List ℕ)
        → IsFirst setting.now image input engine.old
        → IsPlainRun (experiment_in image input setting.now) run) }
{
    walk(engine, setting, waits);
    let Some(ending) = engine.ending() else {
        unreachable!()
    };
    left_by(alloc, engine, waits, ending)
}

/// Runs a program with no line selected on a machine of the timing model. A run of more than 10^10
/// instructions is one of the usual machine. The selected line and the speedup of the choice are
/// not read. Takes a constant more for each hart that enters the line for a core or starts from
/// it; on the usual machine nobody does. Fails only if out of memory.
pub fn plain_run<'a>(
    alloc: Global,
    image: &'a Image<'a>,
    index: &'a LineIndex,
    points: &'a Points,
    timing: Timing,
    input: &'a [u8],
    choice: Choice,
) -> Result<PlainRun, AllocError>
    requires choice { IsChoice choice }
    requires machine { IsMachine timing choice.budget }
    ensures { IfOk result (IsPlainRun (timed_experiment timing image.now index.now
        (point_of points.now) input.now (plain_choice choice))) }
{
    let choice = Choice {
        selected: None,
        speedup: 0,
        ..choice
    };
    let setting = Setting {
        index,
        points,
        timing,
        choice,
    };
    let mut waits = Waits::new(alloc)?;
    let mut engine = Engine::new(alloc, image, input, &setting)?;
    run_engine(alloc, &mut engine, &setting, &mut waits)
}

//! The shortened run of a program: its selected line really costs less.
#![tactic(auto)]

ghost use Rattle.std.specs.Prelude.{◌≡◌, ◌≤◌, ◌<◌, Some, IfOk, All, length, map};
ghost use Rattle.coz_types.specs.declared.TheConstants.{HARTS, MAX_OUTPUT, MAX_VISITS};
ghost use Rattle.machines.specs.KeptVisits.{net_of};
ghost use Rattle.timing_model.specs.Timing.{usual};
ghost use Rattle.run_engine.specs.Seen.{machine_view, experiment_of};
ghost use Rattle.shortened_run.specs.ShortenedRun.{AreUndelayed};

use coz_types::{Ending, Image, Tick, Visit};
use line_index::LineIndex;
use progress_points::Points;
pub use run_engine::Choice;
use run_engine::{Engine, MarkedSetting, Setting};
use std::alloc::{AllocError, Global};
use std::marker::Model;
use timing_model::Timing;

/// The run of a program on a machine of the timing model, in which the instructions of its
/// selected line cost less.
#[derive(Drop)]
pub struct Short<'a> {
    image: &'a Image<'a>,
    input: &'a [u8],
    setting: MarkedSetting<'a>,
    engine: Engine<'a>,
}

impl<'a> Model for Short<'a> {
    ghost use Rattle.machines.specs.Shortened.{Shortened, shortened};
    ghost use Rattle.timed_guest.specs.Guest.{Timed};
    ghost use Rattle.run_engine.specs.Engine.{events_of};
    ghost use Rattle.run_engine.specs.Seen.{Seen, view_in};
    ghost use Rattle.shortened_run.specs.ShortenedRun.{IsShort};

    ghost Value = { Seen (Shortened Timed) };

    ghost view = { λ short. view_in short.image.now short.input.now short.setting
        (λ x. shortened x (events_of short.engine)) };

    ghost invariant = { λ short.
        IsShort short.image.now short.input.now short.setting short.engine };
}

impl<'a> Short<'a> {
    ghost use Rattle.machines.specs.Guest.{enough};
    ghost use Rattle.machines.specs.Shortened.{shortened};
    ghost use Rattle.machines.specs.Records.{net_record_of, IsShortened, shortened_record};
    ghost use Rattle.run_engine.specs.Run.{IsChoice, IsMachine};

    /// A run on the usual machine that is about to begin. Fails only if out of memory.
    pub fn new(
        alloc: Global,
        image: &'a Image<'a>,
        index: &'a LineIndex,
        points: &'a Points,
        input: &'a [u8],
        choice: Choice,
    ) -> Result<Short<'a>, AllocError>
        requires { IsChoice choice }
        ensures { IfOk result (λ short.
            short ≡ machine_view image.now index.now points.now usual input.now choice
            (λ x. shortened x 0)) }
    {
        Short::on(alloc, image, index, points, Timing::usual(), input, choice)
    }

    /// A run on a machine that is about to begin. Fails only if out of memory.
    pub fn on(
        alloc: Global,
        image: &'a Image<'a>,
        index: &'a LineIndex,
        points: &'a Points,
        timing: Timing,
        input: &'a [u8],
        choice: Choice,
    ) -> Result<Short<'a>, AllocError>
        requires choice { IsChoice choice }
        requires machine { IsMachine timing choice.budget }
        ensures { IfOk result (λ short.
            short ≡ machine_view image.now index.now points.now timing input.now choice
            (λ x. shortened x 0)) }
    {
        let setting = Setting {
            index,
            points,
            timing,
            choice,
        };
        let marked = MarkedSetting::new(alloc, image, setting)?;
        let engine = Engine::new(alloc, image, input, &setting)?;
        Ok(Short {
            image,
            input,
            setting: marked,
            engine,
        })
    }

    /// Runs to the end, and returns the ending. A further run changes nothing and returns the
    /// same.
    pub fn run(&mut self) -> Ending
        ensures ended { self.new.state.ending ≡ Some result }
        ensures record { let x = experiment_of self.old in
            net_record_of x self.new.state result ≡ shortened_record x }
        ensures shortened { let x = experiment_of self.old in IsShortened x (shortened_record x) }
        ensures last { let x = experiment_of self.old in self.new.state ≡ shortened x (enough x) }
        ensures rest { self.new ≡ record self.old { state = self.new.state } }
    {
        while self.engine.ending().is_none() {
            self.engine.advance_far(&self.setting, 0);
        }
        match self.engine.ending() {
            Some(ending) => ending,
            None => unreachable!(),
        }
    }

    /// The moment of the last retirement, in ticks.
    pub fn net(&self) -> Tick
        ensures { result ≡ self.now.state.time }
    {
        self.engine.time()
    }

    /// The number of retired instructions.
    pub fn retired(&self) -> u64
        ensures { result ≡ self.now.state.retired }
    {
        self.engine.retired()
    }

    /// The number of instructions of the selected line that were begun.
    pub fn starts(&self) -> u64
        ensures { result ≡ self.now.state.starts }
    {
        self.engine.starts()
    }

    /// The visits of progress points, at most 1,048,576, in order, each with a delay of 0.
    pub fn visits(&self) -> &[Visit]
        ensures visits { map net_of result.now ≡ self.now.state.visits }
        ensures few { length result.now ≤ MAX_VISITS }
        ensures harts { All (λ visit. visit.hart.0 < HARTS) result.now }
        ensures undelayed { AreUndelayed result.now }
    {
        self.engine.visits()
    }

    /// The output, at most 67,108,864 bytes.
    pub fn output(&self) -> &[u8]
        ensures bytes { result.now ≡ self.now.state.guest.guest.output }
        ensures few { length result.now ≤ MAX_OUTPUT }
    {
        self.engine.output()
    }
}

fn is_sent<T: Send>() {}

// A worker runs its own.
fn short_is_sent() {
    is_sent::<Short<'static>>()
}

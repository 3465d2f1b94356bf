//! The run that counts.
ghost use Rattle.std.specs.Prelude.{◌≡◌, ◌+◌, ◌^◌, ◌≤◌, ◌<◌, ℕ, true, Some, IfOk, IfSome, IsSome, All, length, map, sum};
ghost use Rattle.std.specs.List.{range_with_len};
ghost use Rattle.coz_types.specs.declared.TheConstants.{HARTS, MAX_OUTPUT, MAX_VISITS};
ghost use Rattle.machines.specs.KeptVisits.{net_of};
ghost use Rattle.machines.specs.Records.{net_visit};
ghost use Rattle.run_engine.specs.Seen.{machine_view, experiment_of};
ghost use Rattle.machines.specs.Selecting.{uncounted_record};
ghost use Rattle.virtual_run.specs.DelayedRun.{outcome_of, IsSmall};
ghost use Rattle.run_counts.specs.Beginnings.{begun, starts_among, cost_among};
ghost use Rattle.counted_run.specs.CountedRun.{plain_choice, selecting_line, on_line, on_none, AreUndelayed};

use crate::beginning::{count, count_begun};
use coz_types::{Ending, Image, LineId, Outcome, Tick, Visit};
use line_index::LineIndex;
use progress_points::Points;
use run_counts::{Tallies, no_tallies};
use run_engine::{Choice, Engine, FIRST, Setting};
use std::alloc::{AllocError, Global};
use std::marker::Model;
use timing_model::Timing;

/// The run of a program with no line selected, which counts what each line begins.
///
/// Contracts see it as the delayed machine at speedup 0.
#[derive(Drop)]
pub struct Counted<'a> {
    image: &'a Image<'a>,
    input: &'a [u8],
    setting: Setting<'a>,
    engine: Engine<'a>,
    tallies: Tallies,
}

impl<'a> Model for Counted<'a> {
    ghost use Rattle.machines.specs.Delayed.{Delayed};
    ghost use Rattle.machines.specs.Standing.{standing};
    ghost use Rattle.timed_guest.specs.Guest.{Timed};
    ghost use Rattle.run_engine.specs.Engine.{events_of};
    ghost use Rattle.run_engine.specs.Seen.{Seen, view_in};
    ghost use Rattle.run_counts.specs.Counts.{counts_of};
    ghost use Rattle.counted_run.specs.CountedRun.{IsCounting};

    ghost Value = { Seen (Delayed Timed) };

    ghost view = { λ counted. view_in counted.image.now counted.input.now counted.setting
        (λ x. standing x (events_of counted.engine)) };

    ghost invariant = { λ counted. IsCounting counted.image.now counted.input.now counted.setting
        counted.engine (counts_of counted.tallies) };
}

impl<'a> Counted<'a> {
    ghost use Rattle.machines.specs.Guest.{enough};
    ghost use Rattle.machines.specs.Delayed.{events};
    ghost use Rattle.machines.specs.Standing.{standing, delayed_record};
    ghost use Rattle.machines.specs.Records.{net, record_of, IsDelayed, shortened_record};
    ghost use Rattle.run_engine.specs.Run.{IsChoice, IsMachine};

    /// A run that is about to begin on a machine of the timing model. A run of more than 10^10
    /// instructions is one of the usual machine. The selected line and the speedup are not read.
    /// Takes 16 bytes for each line of the index. Fails only if out of memory.
    pub fn new(
        alloc: Global,
        image: &'a Image<'a>,
        index: &'a LineIndex,
        points: &'a Points,
        timing: Timing,
        input: &'a [u8],
        choice: Choice,
    ) -> Result<Counted<'a>, AllocError>
        requires choice { IsChoice choice }
        requires machine { IsMachine timing choice.budget }
        ensures { IfOk result (λ counted. counted
            ≡ machine_view image.now index.now points.now timing input.now
            (plain_choice choice) (λ x. standing x 0)) }
    {
        let choice = Choice {
            selected: None,
            speedup: 0,
            ..choice
        };
        let setting = Setting {
            index,
            points,
            timing,
            choice,
        };
        let mut tallies = no_tallies(alloc, index.count())?;
        let engine = Engine::new(alloc, image, input, &setting)?;
        count(&mut tallies, &engine.guest, FIRST);
        Ok(Counted {
            image,
            input,
            setting,
            engine,
            tallies,
        })
    }

    /// Runs to the end, and returns the ending. A further run changes nothing and returns the
    /// same.
    pub fn run(&mut self) -> Ending
        ensures ended { self.new.state.ending ≡ Some result }
        ensures record { let x = experiment_of self.old in
            record_of x self.new.state result ≡ delayed_record x }
        ensures delayed { let x = experiment_of self.old in IsDelayed x (delayed_record x) }
        ensures law { let x = experiment_of self.old in
            net (delayed_record x) ≡ shortened_record x }
        ensures last { let x = experiment_of self.old in self.new.state ≡ standing x (enough x) }
        ensures rest { self.new ≡ record self.old { state = self.new.state } }
    {
        while self.engine.ending().is_none() {
            let event = self.engine.advance(&self.setting, 0);
            count_begun(&mut self.tallies, &self.engine, event);
        }
        match self.engine.ending() {
            Some(ending) => ending,
            None => unreachable!(),
        }
    }

    /// The number of instructions that were begun and count for a line, at most 10^17: those of
    /// the line, and on a machine that charges code without a line also those that the line is
    /// charged. Once the run has ended, it is the number of starts of the run that selects the
    /// line at speedup 0, which otherwise equals this run. If it is 0, the run that selects the
    /// line equals this run at every speedup.
    pub fn starts(&self, line: LineId) -> u64
        requires { line.0 < length self.now.index.lines }
        ensures begun { let x = experiment_of self.now in result
            ≡ starts_among x (on_line line.0) (begun x (events self.now.state)) }
        ensures starts { IsSome self.now.state.ending
            → result ≡ (delayed_record (experiment_of (selecting_line line 0 self.now))).starts }
        ensures small { result ≤ 10 ^ 17 }
        ensures same { uncounted_record
            (delayed_record (experiment_of (selecting_line line 0 self.now)))
            ≡ uncounted_record (delayed_record (experiment_of self.now)) }
        ensures unstarted { IsSome self.now.state.ending → result ≡ 0 → (speedup : ℕ)
            → delayed_record (experiment_of (selecting_line line speedup self.now))
            ≡ delayed_record (experiment_of self.now) }
    {
        self.tallies.lines[line.0 as usize].starts
    }

    /// The work of the instructions that were begun and count for a line, in ticks.
    pub fn cost(&self, line: LineId) -> Tick
        requires { line.0 < length self.now.index.lines }
        ensures { let x = experiment_of self.now in result
            ≡ cost_among x (on_line line.0) (begun x (events self.now.state)) }
    {
        self.tallies.lines[line.0 as usize].cost
    }

    /// The work of the instructions that were begun and count for no line, in ticks.
    pub fn cost_of_none(&self) -> Tick
        ensures { let x = experiment_of self.now in result
            ≡ cost_among x (on_none (length self.now.index.lines)) (begun x (events self.now.state)) }
    {
        self.tallies.none
    }

    /// The work of all instructions that were begun, in ticks: that of all lines, and that of code
    /// that counts for none.
    pub fn cost_of_all(&self) -> Tick
        ensures cost { let x = experiment_of self.now in result
            ≡ cost_among x (λ g h. true) (begun x (events self.now.state)) }
        ensures whole { let x = experiment_of self.now in
            let begun = begun x (events self.now.state) in
            let count = length self.now.index.lines in
            sum (map (λ line. cost_among x (on_line line) begun) (range_with_len 0 count))
            + cost_among x (on_none count) begun ≡ result }
    {
        self.tallies.all
    }

    /// The outcome of the run; None before it has ended. Its time and its counts are at most
    /// 10^17, and a trap is of a hart below `HARTS`.
    pub fn outcome(&self) -> Option<Outcome>
        ensures outcome { result ≡ outcome_of self.now.state }
        ensures small { IfSome result IsSmall }
        ensures undelayed { IfSome result (λ outcome. outcome.delay ≡ 0) }
    {
        match self.engine.ending {
            Some(ending) => Some(Outcome {
                ending,
                time: self.engine.time,
                delay: 0,
                retired: self.engine.retired,
                starts: self.engine.starts,
            }),
            None => None,
        }
    }

    /// The visits of progress points, at most 1,048,576, in order, each with a delay of 0.
    pub fn visits(&self) -> &[Visit]
        ensures visits { map net_of result.now ≡ map net_visit self.now.state.visits }
        ensures few { length result.now ≤ MAX_VISITS }
        ensures harts { All (λ visit. visit.hart.0 < HARTS) result.now }
        ensures undelayed { AreUndelayed result.now }
    {
        self.engine.visits()
    }

    /// The output, at most 67,108,864 bytes.
    pub fn output(&self) -> &[u8]
        ensures bytes { result.now ≡ self.now.state.guest.guest.output }
        ensures few { length result.now ≤ MAX_OUTPUT }
    {
        self.engine.output()
    }
}

fn is_sent_and_shared<T: Send + Sync>() {}

// One thread makes it, and others may read it.
fn counted_is_sent_and_shared() {
    is_sent_and_shared::<Counted<'static>>()
}

//! Leads: what the runs of a line have in common, whatever the speedup.
ghost use Rattle.std.specs.Prelude.{◌≡◌, ◌≤◌, [], ◌∷◌, Some, not, is_some, IfOk, IsSome, IsTrue};
ghost use Rattle.coz_types.specs.declared.TheConstants.{MAX_SPEEDUP};
ghost use Rattle.run_engine.specs.Seen.{machine_view, experiment_of};
ghost use Rattle.virtual_run.specs.Lead.{arguments, starts_next, Stands, IsShared};
ghost use Rattle.timing_model.specs.Timing.{usual};

use crate::Machine;
use coz_types::{Ending, Image, LineId};
use line_index::LineIndex;
use progress_points::Points;
use run_engine::Choice;
use std::alloc::{AllocError, Global};
use std::marker::Model;
use timing_model::Timing;

/// A checkpoint of the delayed run of a program, while no instruction of the selected line was
/// begun. Up to there the run is the same at every speedup, so the run at each speedup is forked
/// from it.
///
/// Contracts see as its state what stands before the beginning, and the harts that begin next.
#[derive(Drop)]
pub struct Lead<'a> {
    /// The run at speedup 0, after that beginning: its starts are counted, and raise nothing.
    machine: Machine<'a>,
    /// The speedup that was passed to `new`. A lead does not use it.
    speedup: u8,
}

impl<'a> Model for Lead<'a> {
    ghost use Rattle.machines.specs.Delayed.{events};
    ghost use Rattle.machines.specs.Lead.{Before, before};
    ghost use Rattle.timed_guest.specs.Guest.{Timed};
    ghost use Rattle.run_engine.specs.Seen.{Seen, experiment_of};
    ghost use Rattle.virtual_run.specs.Lead.{IsLead};

    ghost Value = { Seen (Before Timed) };

    ghost view = { λ l. record {
      image = l.machine.image;
      index = l.machine.index;
      points = l.machine.points;
      timing = l.machine.timing;
      input = l.machine.input;
      choice = record l.machine.choice { speedup = l.speedup };
      state = before (experiment_of l.machine) (events l.machine.state);
    } };

    ghost invariant = { λ l. IsLead l.machine };
}

impl<'a> Lead<'a> {
    ghost use Rattle.machines.specs.Delayed.{unbegun, begin, events};
    ghost use Rattle.machines.specs.Standing.{standing};
    ghost use Rattle.machines.specs.Lead.{at_speedup};
    ghost use Rattle.run_engine.specs.Run.{IsChoice, IsMachine};

    /// Before the first beginning, that of hart 0, on the usual machine. The speedup isn't read.
    pub fn new(
        alloc: Global,
        image: &'a Image<'a>,
        index: &'a LineIndex,
        points: &'a Points,
        input: &'a [u8],
        choice: Choice,
    ) -> Result<Lead<'a>, AllocError>
        requires choice { IsChoice choice }
        requires selected { IsSome choice.selected }
        ensures { IfOk result (λ lead. lead ≡
            machine_view image.now index.now points.now usual input.now choice (λ x.
            record { state = unbegun x; harts = 0 ∷ [] })) }
    {
        Lead::on(alloc, image, index, points, Timing::usual(), input, choice)
    }

    /// The same on a machine of the timing model. A run of more than 10^10 instructions is one of
    /// the usual machine.
    pub fn on(
        alloc: Global,
        image: &'a Image<'a>,
        index: &'a LineIndex,
        points: &'a Points,
        timing: Timing,
        input: &'a [u8],
        choice: Choice,
    ) -> Result<Lead<'a>, AllocError>
        requires choice { IsChoice choice }
        requires machine { IsMachine timing choice.budget }
        requires selected { IsSome choice.selected }
        ensures { IfOk result (λ lead. lead ≡
            machine_view image.now index.now points.now timing input.now choice (λ x.
            record { state = unbegun x; harts = 0 ∷ [] })) }
    {
        let whole = Choice {
            speedup: 0,
            ..choice
        };
        let machine = Machine::on(alloc, image, index, points, timing, input, whole)?;
        Ok(Lead {
            machine,
            speedup: choice.speedup,
        })
    }

    /// Runs up to, not including, the first beginning that has a hart whose next
    /// instruction has the selected line. Gives None there, and else how the run has ended.
    /// A further call changes nothing and gives the same.
    pub fn run(&mut self) -> Option<Ending>
        ensures ended { result ≡ self.new.state.state.ending }
        ensures none { is_some result ≡ not (starts_next (experiment_of self.old) self.new.state) }
        ensures stands { Stands (experiment_of self.old) self.new.state }
        ensures shared { IsShared (experiment_of self.old) self.new.state }
        ensures stays { IsTrue (starts_next (experiment_of self.old) self.old.state)
            → self.new ≡ self.old }
        ensures over { IsSome self.old.state.state.ending → self.new ≡ self.old }
        ensures rest { self.new ≡ record self.old { state = self.new.state } }
    {
        self.machine.lead()
    }

    /// Makes this lead equal to one that has just been made, with another line selected.
    pub fn again(&mut self, first: &Lead<'a>, line: LineId)
        requires arguments { arguments self.old ≡ arguments first.now }
        requires unbegun { first.now.state
            ≡ record { state = unbegun (experiment_of first.now); harts = 0 ∷ [] } }
        ensures { self.new
            ≡ record first.now { choice = record first.now.choice { selected = Some line } } }
    {
        self.machine.again_from(&first.machine, line);
        self.speedup = first.speedup;
    }

    /// Makes a machine the run of this lead's line at a speedup, after the beginning
    /// that comes next. If the lead has ended, none comes, and the machine has ended likewise.
    pub fn fork(&self, machine: &mut Machine<'a>, speedup: u8)
        requires speedup { speedup ≤ MAX_SPEEDUP }
        requires arguments { arguments machine.old ≡ arguments self.now }
        ensures forked { machine.new ≡ record machine.old {
          choice = record self.now.choice { speedup = speedup };
          state = begin (at_speedup speedup (experiment_of self.now))
              self.now.state.harts self.now.state.state;
        } }
        ensures stands { machine.new.state
            ≡ standing (experiment_of machine.new) (events machine.new.state) }
    {
        machine.fork_from(&self.machine, speedup);
    }
}

fn is_sent_and_shared<T: Send + Sync>() {}

// Workers share the first lead, and each has one of its own.
fn lead_is_sent_and_shared() {
    is_sent_and_shared::<Lead<'static>>()
}

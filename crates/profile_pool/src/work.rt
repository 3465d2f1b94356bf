//! What workers share for the runs of a plan, and the state of a worker.
use crate::known::KnownOutput;
use crate::plain::Plain;
use experiment_plan::Plan;
use run_subject::Subject;
use virtual_run::{Lead, Machine};

/// The runs that are to be made of a program: what workers share, and none writes.
#[derive(Clone, Copy)]
pub struct Work<'a> {
    /// The program, its lines, the progress points and the input.
    pub subject: Subject<'a>,
    /// Which lines are selected, and at which speedups.
    pub plan: &'a Plan,
    /// A lead that has not run. The lead of each line begins as a copy of it.
    pub first: &'a Lead<'a>,
    /// The record of the run with no line selected, if that run was made.
    pub plain: &'a Option<Plain>,
    /// The number of instructions that each run may retire.
    pub budget: u64,
}

/// The state of a worker: a lead, a machine that is forked from it, and what the machine wrote
/// last. The lead and the machine are made once.
#[derive(Drop)]
pub struct Runner<'a> {
    /// The lead, which runs up to the first start of a line.
    pub lead: Lead<'a>,
    /// The machine, which runs each pair of the line from there.
    pub machine: Machine<'a>,
    /// The output of the machine's last run, with its digest.
    pub known: KnownOutput,
}

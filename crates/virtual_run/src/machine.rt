//! The delayed machine: runs under virtual time with the delays of a selected line.
ghost use Rattle.std.specs.Prelude.{◌≡◌, ◌+◌, ◌-◌, ◌*◌, ◌^◌, ◌≤◌, ◌<◌, false, map, length, Some, None, IfOk, IfSome, IsSome, MatchOption, All, option_map, is_some, not, nat_lt, slice_index_or, ◌&&◌, ◌==◌};
ghost use Rattle.std.specs.List.Sorted.{IsNonDecreasingBy};
ghost use Rattle.coz_types.specs.declared.TheConstants.{MAX_SPEEDUP, MAX_OUTPUT, MAX_VISITS};
ghost use Rattle.hart_schedule.specs.Keys.{key_of};
ghost use Rattle.delay_credits.specs.Delays.{account_as};
ghost use Rattle.run_engine.specs.Seen.{machine_view, experiment_of};
ghost use Rattle.virtual_run.specs.Lead.{arguments, is_unstarted};
ghost use Rattle.virtual_run.specs.DelayedRun.{net_due_of, account_in, outcome_of, IsSmall, Happens, AgreesThroughout, EndsOnce};
ghost use Rattle.machines.specs.KeptVisits.{visit_as};
ghost use Rattle.timing_model.specs.Timing.{usual, IsUsual};

use crate::accounts::{account_event, raise_harts, raise_selected};
use crate::hasten::hasten_selected;
use coz_types::{Account, Ending, HARTS, HartId, Image, LineId, Outcome, Tick, Visit};
use delay_credits::Credits;
use line_index::LineIndex;
use progress_points::Points;
use run_engine::{Choice, Engine, Event, FIRST, MarkedSetting, Setting, is_wake};
use std::alloc::{AllocError, Global};
use std::marker::Model;
use timing_model::Timing;

/// Whether the run of an engine has not ended and has counted no start.
fn is_unstarted(engine: &Engine) -> bool
    ensures { result ≡ (not (is_some engine.now.ending) && (engine.now.starts == 0)) }
{
    engine.ending.is_none() && engine.starts == 0
}

/// The delayed run of a program: whenever an instruction of the selected line starts, every other
/// hart that runs or sleeps gets a pause of the ticks that the speedup would take off that
/// instruction.
#[derive(Drop)]
pub struct Machine<'a> {
    image: &'a Image<'a>,
    input: &'a [u8],
    setting: MarkedSetting<'a>,
    engine: Engine<'a>,
    credits: Credits,
    /// The real moment of the last event, in ticks.
    moment: Tick,
}

impl<'a> Model for Machine<'a> {
    ghost use Rattle.machines.specs.Delayed.{Delayed};
    ghost use Rattle.machines.specs.Standing.{standing};
    ghost use Rattle.timed_guest.specs.Guest.{Timed};
    ghost use Rattle.run_engine.specs.Seen.{Seen, view_in};
    ghost use Rattle.run_engine.specs.Engine.{events_of};
    ghost use Rattle.virtual_run.specs.DelayedRun.{IsPaced};

    ghost Value = { Seen (Delayed Timed) };

    ghost view = { λ m.
        view_in m.image.now m.input.now m.setting (λ x. standing x (events_of m.engine)) };

    ghost invariant = { λ m.
        IsPaced m.image.now m.input.now m.setting m.engine m.credits m.moment };
}

impl<'a> Machine<'a> {
    ghost use Rattle.machines.specs.Guest.{enough, is_timed};
    ghost use Rattle.machines.specs.Delayed.{idle_hart, events};
    ghost use Rattle.machines.specs.Shortened.{shortened};
    ghost use Rattle.machines.specs.Agreement.{Agrees};
    ghost use Rattle.machines.specs.Steps.{Steps};
    ghost use Rattle.machines.specs.Standing.{standing, delayed_record};
    ghost use Rattle.machines.specs.Lead.{at_speedup, before};
    ghost use Rattle.machines.specs.Records.{net, record_of, IsDelayed, IsShortened, shortened_record};
    ghost use Rattle.run_engine.specs.Run.{IsChoice, IsMachine};

    /// A run that is about to begin, on the usual machine.
    pub fn new(
        alloc: Global,
        image: &'a Image<'a>,
        index: &'a LineIndex,
        points: &'a Points,
        input: &'a [u8],
        choice: Choice,
    ) -> Result<Machine<'a>, AllocError>
        requires { IsChoice choice }
        ensures { IfOk result (λ machine.
            machine ≡ machine_view image.now index.now points.now usual input.now choice
            (λ x. standing x 0)) }
    {
        Machine::on(alloc, image, index, points, Timing::usual(), input, choice)
    }

    /// A run that is about to begin on a machine of the timing model. A run of more than 10^10
    /// instructions is one of the usual machine.
    pub fn on(
        alloc: Global,
        image: &'a Image<'a>,
        index: &'a LineIndex,
        points: &'a Points,
        timing: Timing,
        input: &'a [u8],
        choice: Choice,
    ) -> Result<Machine<'a>, AllocError>
        requires choice { IsChoice choice }
        requires machine { IsMachine timing choice.budget }
        ensures { IfOk result (λ machine.
            machine ≡ machine_view image.now index.now points.now timing input.now choice
            (λ x. standing x 0)) }
    {
        let setting = Setting {
            index,
            points,
            timing,
            choice,
        };
        let mut credits = Credits::new(alloc, HARTS as u32)?;
        credits.start(FIRST, 0);
        let marked = MarkedSetting::new(alloc, image, setting)?;
        let engine = Engine::new(alloc, image, input, &setting)?;
        raise_harts(
            &mut credits,
            &engine.guest,
            engine.selected.harts(),
            choice.speedup,
            0,
        );
        Ok(Machine {
            image,
            input,
            setting: marked,
            engine,
            credits,
            moment: 0,
        })
    }

    /// Runs through all wakes before the next retirement and up to and including that,
    /// with what begins after it. Gives the ending once the run has ended; a further step changes
    /// nothing and gives the same.
    /// None before.
    #[inline]
    pub fn step(&mut self) -> Option<Ending>
        ensures ended { result ≡ self.new.state.ending }
        ensures next { self.old.state.ending ≡ None
            → self.new.state ≡ standing (experiment_of self.old) (events self.new.state) }
        ensures steps { self.old.state.ending ≡ None
            → Steps (experiment_of self.old) self.old.state self.new.state }
        ensures over { IsSome self.old.state.ending → self.new.state ≡ self.old.state }
        ensures rest { self.new ≡ record self.old { state = self.new.state } }
        ensures agrees { Agrees self.new.state
            (shortened (experiment_of self.old) (events self.new.state)) }
    {
        let mut going = self.engine.ending.is_none();
        while going {
            going = is_wake(self.event());
        }
        self.engine.ending
    }

    /// One event of a run that goes on: the hart that is due first wakes or retires,
    /// and what this started begins.
    #[inline(always)]
    fn event(&mut self) -> Event
        requires { self.old.state.ending ≡ None }
        ensures next { self.new.state
            ≡ standing (experiment_of self.old) (events self.old.state + 1) }
        ensures count { events self.new.state ≡ events self.old.state + 1 }
        ensures happens { Happens (experiment_of self.old) result self.old.state self.new.state }
        ensures rest { self.new ≡ record self.old { state = self.new.state } }
    {
        let raised = self.credits.raised();
        let event = self.engine.advance(self.setting.setting(), raised);
        self.moment = account_event(
            &mut self.credits,
            &self.engine,
            event,
            self.setting.choice().speedup,
            raised,
        );
        event
    }

    /// One event or more of a run that goes on. Those before the last one are retirements after
    /// which nothing is accounted for: one hart goes on, no other begins, and nothing is selected.
    #[inline(always)]
    fn events_far(&mut self)
        requires { self.old.state.ending ≡ None }
        ensures next { self.new.state ≡ standing (experiment_of self.old) (events self.new.state) }
        ensures more { events self.old.state < events self.new.state }
        ensures starts { (standing (experiment_of self.old) (events self.new.state - 1)).starts
            ≡ self.old.state.starts }
        ensures within { self.new.state.retired ≤ self.old.choice.budget }
        ensures rest { self.new ≡ record self.old { state = self.new.state } }
    {
        let raised = self.credits.raised();
        let event = self.engine.advance_far(&self.setting, raised);
        self.moment = account_event(
            &mut self.credits,
            &self.engine,
            event,
            self.setting.choice().speedup,
            raised,
        );
    }

    /// Runs to the end, and returns the ending. A further run changes nothing and returns the
    /// same.
    pub fn run(&mut self) -> Ending
        ensures ended { self.new.state.ending ≡ Some result }
        ensures record { let x = experiment_of self.old in
            record_of x self.new.state result ≡ delayed_record x }
        ensures delayed { let x = experiment_of self.old in IsDelayed x (delayed_record x) }
        ensures law { let x = experiment_of self.old in
            net (delayed_record x) ≡ shortened_record x }
        ensures shortened { let x = experiment_of self.old in IsShortened x (shortened_record x) }
        ensures moves { AgreesThroughout (experiment_of self.old) }
        ensures one { EndsOnce (experiment_of self.old) }
        ensures last { let x = experiment_of self.old in self.new.state ≡ standing x (enough x) }
        ensures rest { self.new ≡ record self.old { state = self.new.state } }
        ensures agrees { let x = experiment_of self.old in
            Agrees self.new.state (shortened x (enough x)) }
    {
        let mut ending = self.engine.ending;
        while ending.is_none() {
            self.events_far();
            ending = self.ending();
        }
        match ending {
            Some(ending) => ending,
            None => unreachable!(),
        }
    }

    /// Whether the run goes on with no start counted.
    fn is_unstarted(&self) -> bool
        ensures { result ≡ is_unstarted self.now.state }
    {
        is_unstarted(&self.engine)
    }

    /// The ending of the run, if it has ended.
    fn ending(&self) -> Option<Ending>
        ensures { result ≡ self.now.state.ending }
    {
        self.engine.ending()
    }

    /// Runs up to the first beginning that counts a start, or to the end.
    /// None if a start is counted.
    pub(crate) fn lead(&mut self) -> Option<Ending>
        requires none { (before (experiment_of self.old) (events self.old.state)).state.starts ≡ 0 }
        ensures ended { result ≡ self.new.state.ending }
        ensures stops { is_unstarted self.new.state ≡ false }
        ensures none { (before (experiment_of self.old) (events self.new.state)).state.starts ≡ 0 }
        ensures stands { self.new.state
            ≡ standing (experiment_of self.old) (events self.new.state) }
        ensures stays { is_unstarted self.old.state ≡ false → self.new ≡ self.old }
        ensures rest { self.new ≡ record self.old { state = self.new.state } }
    {
        let mut going = is_unstarted(&self.engine);
        while going {
            self.events_far();
            going = self.is_unstarted();
        }
        self.ending()
    }

    /// Makes this machine the run, at a speedup, of a lead: one at speedup 0 that counted no start
    /// before its last beginning. So the selected harts that began last raise the delay now,
    /// and are due sooner by as much.
    pub(crate) fn fork_from(&mut self, lead: &Machine<'a>, speedup: u8)
        requires small { speedup ≤ MAX_SPEEDUP }
        requires arguments { arguments self.old ≡ arguments lead.now }
        requires whole { lead.now.choice.speedup ≡ 0 }
        requires none { (before (experiment_of lead.now) (events lead.now.state)).state.starts ≡ 0 }
        ensures { self.new ≡ record lead.now {
          choice = record lead.now.choice { speedup = speedup };
          state = standing (at_speedup speedup (experiment_of lead.now)) (events lead.now.state);
        } }
    {
        self.image = lead.image;
        self.input = lead.input;
        self.setting.copy_from(&lead.setting);
        self.setting.set_speedup(speedup);
        self.engine.copy_from(&lead.engine);
        self.credits.copy_from(&lead.credits);
        self.moment = lead.moment;
        raise_selected(&mut self.credits, &self.engine, speedup, self.moment);
        hasten_selected(&mut self.engine, speedup);
    }

    /// Makes this machine another one at speedup 0 that stands where it was made,
    /// with another line selected.
    pub(crate) fn again_from(&mut self, first: &Machine<'a>, line: LineId)
        requires arguments { arguments self.old ≡ arguments first.now }
        requires whole { first.now.choice.speedup ≡ 0 }
        requires none { events first.now.state ≡ 0 }
        ensures { self.new ≡ record first.now {
          choice = record first.now.choice { selected = Some line };
          state = standing (experiment_of self.new) 0;
        } }
    {
        self.image = first.image;
        self.input = first.input;
        self.setting.copy_from(&first.setting);
        self.setting.select(Some(line));
        self.engine.copy_from(&first.engine);
        self.engine.count_first(self.setting.setting());
        self.credits.copy_from(&first.credits);
        self.moment = first.moment;
    }

    /// The moment of the last event, in ticks, at most 10^17.
    pub fn now(&self) -> Tick
        ensures moment { result ≡ self.now.state.now }
        ensures small { result ≤ 10 ^ 17 }
    {
        self.moment
    }

    /// The global delay, in ticks: at most 5 * 10^16, and on the usual machine at most 10^16.
    pub fn raised(&self) -> Tick
        ensures delay { result ≡ self.now.state.delay }
        ensures small { result ≤ 5 * 10 ^ 16 }
        ensures usual { IsUsual self.now.timing → result ≤ 10 ^ 16 }
    {
        self.credits.raised()
    }

    /// When a hart retires or wakes next, in net ticks; None exactly if it neither runs
    /// nor sleeps, or the run has ended.
    pub fn net_due(&self, hart: HartId) -> Option<Tick>
        ensures due { result ≡ net_due_of self.now.state hart.0 }
        ensures shortened { self.now.state.ending ≡ None →
            result
            ≡ key_of (shortened (experiment_of self.now) (events self.now.state)).dues hart.0 }
        ensures timed { self.now.state.ending ≡ None →
            is_some result
            ≡ is_timed (experiment_of self.now).guest self.now.state.guest hart.0 }
    {
        match self.engine.ending {
            Some(_) => None,
            None => self.engine.schedule.key(hart),
        }
    }

    /// A hart's account, whose three parts together are at most the global delay; None if
    /// the hart was never made. That of a hart that never had a core has zeros.
    pub fn account(&self, hart: HartId) -> Option<Account>
        ensures made { is_some result ≡ nat_lt hart.0 (length self.now.state.guest.guest.harts) }
        ensures account { IfSome result (λ account. account_as account
            ≡ (slice_index_or self.now.state.harts hart.0 idle_hart).account) }
        ensures usual { IsUsual self.now.timing
            → option_map account_as result ≡ account_in self.now.state hart.0 }
        ensures within { IfSome result (λ account.
            account.own + account.paused + account.credited ≤ self.now.state.delay) }
    {
        if u32::from(hart.0) < self.engine.guest.harts() {
            Some(self.credits.account(hart, self.moment))
        } else {
            None
        }
    }

    /// The number of harts that were made.
    pub fn harts(&self) -> u32
        ensures guest { result ≡ length self.now.state.guest.guest.harts }
        ensures accounts { IsUsual self.now.timing → result ≡ length self.now.state.harts }
        ensures few { result ≤ HARTS }
    {
        self.engine.guest.harts()
    }

    /// The number of retired instructions. The run stands after as many retirements and wakes
    /// as it counts, beside the shortened machine.
    pub fn retired(&self) -> u64
        ensures count { result ≡ self.now.state.retired }
        ensures stands { self.now.state
            ≡ standing (experiment_of self.now) (events self.now.state) }
        ensures agrees { Agrees self.now.state
            (shortened (experiment_of self.now) (events self.now.state)) }
    {
        self.engine.retired
    }

    /// The number of instructions of the selected line that were begun.
    pub fn starts(&self) -> u64
        ensures { result ≡ self.now.state.starts }
    {
        self.engine.starts
    }

    /// The visits of progress points, in order, at most 1,048,576. None was before
    /// its delay was raised. Their net times never fall, and once the run has ended none is over
    /// its net time; before that the delay may be raised again after the last visit.
    pub fn visits(&self) -> &[Visit]
        ensures visits { map visit_as result.now ≡ self.now.state.visits }
        ensures few { length result.now ≤ MAX_VISITS }
        ensures harts { All (λ visit. visit.hart.0 < HARTS) result.now }
        ensures in_time { All (λ visit. visit.delay ≤ visit.time) result.now }
        ensures rising { IsNonDecreasingBy (λ visit. visit.time - visit.delay) result.now }
        ensures within { IsSome self.now.state.ending
            → All (λ visit. visit.time - visit.delay ≤ self.now.state.now - self.now.state.delay)
            result.now }
    {
        self.engine.visits.all()
    }

    /// The output, at most 67,108,864 bytes.
    pub fn output(&self) -> &[u8]
        ensures bytes { result.now ≡ self.now.state.guest.guest.output }
        ensures few { length result.now ≤ MAX_OUTPUT }
    {
        self.engine.guest.output()
    }

    /// The outcome of the run; None before it has ended. Its time and its counts are at most
    /// 10^17, and a trap is of a hart below `HARTS`.
    pub fn outcome(&self) -> Option<Outcome>
        ensures outcome { result ≡ outcome_of self.now.state }
        ensures small { IfSome result IsSmall }
        ensures in_time { MatchOption result (self.now.state.ending ≡ None)
            (λ outcome. outcome.delay ≤ outcome.time) }
    {
        let ending = self.engine.ending?;
        Some(Outcome {
            ending,
            time: self.moment,
            delay: self.credits.raised(),
            retired: self.engine.retired,
            starts: self.engine.starts,
        })
    }
}

fn is_sent<T: Send>() {}

// A worker runs its own.
fn machine_is_sent() {
    is_sent::<Machine<'static>>()
}

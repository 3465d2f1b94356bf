//! What one worker does.
ghost use Rattle.std.specs.Prelude.{◌≡◌, ◌+◌, [], IfOk};
ghost use Rattle.experiment_claims.specs.Drawn.{hand};
ghost use Rattle.experiment_claims.specs.Seats.{hand_of, IsSeatOf, bound_of};
ghost use Rattle.claim_workers.specs.Jobs.{HaveWorked, IsJob, IsAnswer};

use crate::claimed::Claimed;
use crate::job::{Answer, Job};
use crate::work::ClaimWork;
use coz_files::Gate;
use experiment_claims::{ClaimSeat, Claims};
use std::alloc::{AllocError, Global};

/// Draws by a seat until there is no claim left, and does the work of each claim that it got.
fn draw_and_work<W: ClaimWork, G: Gate>(
    alloc: Global,
    work: &W,
    claims: &Claims,
    worker: u32,
    seat: &mut ClaimSeat,
    runner: &mut W::Runner,
    done: &mut Vec<Claimed>,
    gate: &G,
) -> Result<(), AllocError>
    requires work { W.is_ready work.now × (bound_of claims.now ≡ W.bound work.now) }
    requires seat { IsSeatOf claims.now seat.old
        × (hand_of seat.old ≡ hand (bound_of claims.now + 1) []) }
    requires runner { W.is_for work.now runner.old }
    requires done { done.old.items ≡ [] }
    ensures { IfOk result (λ _. HaveWorked (W.summaries_of_claim work.now) (W.points work.now)
        claims.now seat.new done.new.items) }
{
    while let Some(claim) = claims.draw(seat) {
        gate.claimed(worker, claim);
        let summaries = work.summaries(alloc, runner, claim)?;
        done.push(Claimed { claim, summaries })?;
    }
    Ok(())
}

/// Does a worker's job.
pub fn work_through<W: ClaimWork, G: Gate>(
    alloc: Global,
    work: &W,
    claims: &Claims,
    job: Job<W::Runner>,
    gate: &G,
) -> Result<Answer, AllocError>
    requires work { W.is_ready work.now × (bound_of claims.now ≡ W.bound work.now) }
    requires job { IsJob (W.is_for work.now) claims.now job }
    ensures { IfOk result (IsAnswer (W.summaries_of_claim work.now) (W.points work.now)
        claims.now) }
{
    let Job {
        worker,
        mut seat,
        mut runner,
    } = job;
    let mut done = Vec::new(alloc);
    draw_and_work(
        alloc,
        work,
        claims,
        worker,
        &mut seat,
        &mut runner,
        &mut done,
        gate,
    )?;
    Ok(Answer { seat, done })
}

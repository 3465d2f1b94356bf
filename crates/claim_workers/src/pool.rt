//! Workers that draw claims from one word, and what all of them give.
ghost use Rattle.std.specs.Prelude.{◌≡◌, ◌+◌, ◌*◌, ◌≤◌, [], IfOk, All, vec_len};
ghost use Rattle.std.specs.List.{flat_map, range_with_len};
ghost use Rattle.coz_types.specs.declared.TheConstants.{MAX_WORKERS};
ghost use Rattle.coz_types.specs.Ranges.{IsSummary};
ghost use Rattle.experiment_claims.specs.Drawn.{all_turns, first_hand};
ghost use Rattle.experiment_claims.specs.Seats.{hand_of, IsSeatOf, bound_of};
ghost use Rattle.claim_workers.specs.Jobs.{IsJob, IsAnswer};

use crate::claimed::in_order;
use crate::gathering::gather;
use crate::job::{Answer, Job};
use crate::work::ClaimWork;
use crate::worker::work_through;
use coz_files::Gate;
use coz_types::Summary;
use experiment_claims::{ClaimSeat, Claims};
use std::alloc::{AllocError, Global};
use std::thread;
use std::thread::Threads;

/// The seat that is left, and a job for each worker: a seat with one turn more than there are
/// claims, and its state.
fn deal<W: ClaimWork>(
    alloc: Global,
    work: &W,
    claims: &Claims,
    first: ClaimSeat,
    bound: u32,
    workers: u32,
) -> Result<(ClaimSeat, Vec<Job<W::Runner>>), AllocError>
    requires work { W.is_ready work.now }
    requires seat { IsSeatOf claims.now first × (hand_of first ≡ first_hand) }
    requires bound { bound ≡ bound_of claims.now }
    requires workers { workers ≤ MAX_WORKERS }
    ensures rest { IfOk result (λ dealt.
        IsSeatOf claims.now dealt.0 × ((hand_of dealt.0).numbers ≡ [])) }
    ensures turns { IfOk result (λ dealt.
        (hand_of dealt.0).turns + workers * (bound + 1) ≡ all_turns) }
    ensures jobs { IfOk result (λ dealt. (vec_len dealt.1 ≡ workers)
        × All (IsJob (W.is_for work.now) claims.now) dealt.1.items) }
{
    let turns = u64::from(bound) + 1;
    let mut seat = first;
    let mut jobs = Vec::new(alloc);
    for worker in 0..workers {
        let runner = work.runner(alloc)?;
        let (rest, part) = claims.split(seat, turns);
        seat = rest;
        jobs.push(Job {
            worker,
            seat: part,
            runner,
        })?;
    }
    Ok((seat, jobs))
}

/// Has each worker work in a thread of its own, if one can be made, and else one after another.
fn run_jobs<R: Threads + Sync, W: ClaimWork, G: Gate>(
    rt: &R,
    alloc: Global,
    work: &W,
    claims: &Claims,
    jobs: Vec<Job<W::Runner>>,
    gate: &G,
) -> Result<Vec<Result<Answer, AllocError>>, AllocError>
    requires work { W.is_ready work.now × (bound_of claims.now ≡ W.bound work.now) }
    requires jobs { All (IsJob (W.is_for work.now) claims.now) jobs.items }
    ensures len { IfOk result (λ answers. vec_len answers ≡ vec_len jobs) }
    ensures each { IfOk result (λ answers. All (λ r. IfOk r
        (IsAnswer (W.summaries_of_claim work.now) (W.points work.now) claims.now))
        answers.items) }
{
    thread::map_vec(
        rt,
        jobs,
        &|job: Job<W::Runner>| -> Result<Answer, AllocError>
            requires { W.is_ready work.now × (bound_of claims.now ≡ W.bound work.now)
                × IsJob (W.is_for work.now) claims.now job }
            ensures { IfOk result (IsAnswer (W.summaries_of_claim work.entry.now)
                (W.points work.entry.now) claims.entry.now) }
        { work_through(alloc, work, claims, job, gate) },
    )
}

/// The summaries of all claims, in the order of the claims, whatever the number of workers
/// and the gate. It fails only if it is out of memory, and then the other workers
/// finish their claims.
pub fn run_claims<R: Threads + Sync, W: ClaimWork, G: Gate>(
    rt: &R,
    alloc: Global,
    work: &W,
    workers: u32,
    gate: &G,
) -> Result<Vec<Summary>, AllocError>
    requires work { W.is_ready work.now }
    requires some_workers { 1 ≤ workers }
    requires few_workers { workers ≤ MAX_WORKERS }
    ensures summaries { IfOk result (λ summaries. summaries.items
        ≡ flat_map (W.summaries_of_claim work.now) (range_with_len 0 (W.bound work.now))) }
    ensures ranges { IfOk result (λ summaries.
        All (IsSummary (W.points work.now)) summaries.items) }
{
    let count = work.count();
    let (claims, first) = Claims::new(alloc, count)?;
    let (rest, jobs) = deal(alloc, work, &claims, first, count, workers)?;
    let answers = run_jobs(rt, alloc, work, &claims, jobs, gate)?;
    let Answer { seat, done } = gather(alloc, work, &claims, rest, answers)?;
    claims.finish(seat);
    in_order(alloc, done)
}

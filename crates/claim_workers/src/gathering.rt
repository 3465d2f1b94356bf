//! What all workers did, joined.
ghost use Rattle.std.specs.Prelude.{◌≡◌, ◌+◌, ◌*◌, [], IfOk, All, vec_len};
ghost use Rattle.experiment_claims.specs.Seats.{hand_of, IsSeatOf, bound_of};
ghost use Rattle.claim_workers.specs.Worked.{Worked, AreSummaries};
ghost use Rattle.claim_workers.specs.Jobs.{IsAnswer};

use crate::job::Answer;
use crate::work::ClaimWork;
use experiment_claims::{ClaimSeat, Claims};
use std::alloc::{AllocError, Global};

/// Joins the seats of all workers, and what they did.
pub fn gather<W: ClaimWork>(
    alloc: Global,
    work: &W,
    claims: &Claims,
    rest: ClaimSeat,
    answers: Vec<Result<Answer, AllocError>>,
) -> Result<Answer, AllocError>
    requires rest { IsSeatOf claims.now rest × ((hand_of rest).numbers ≡ []) }
    requires answers { All (λ r. IfOk r (IsAnswer (W.summaries_of_claim work.now)
        (W.points work.now) claims.now)) answers.items }
    ensures seat { IfOk result (λ a. IsSeatOf claims.now a.seat) }
    ensures worked { IfOk result (λ a. Worked (W.summaries_of_claim work.now)
        (bound_of claims.now)
        ((hand_of rest).turns + vec_len answers * (bound_of claims.now + 1)) (vec_len answers)
        (hand_of a.seat) a.done.items) }
    ensures ranges { IfOk result (λ a. AreSummaries (W.points work.now) a.done.items) }
{
    let mut seat = rest;
    let mut done = Vec::with_capacity(alloc, work.count() as usize)?;
    for answer in answers {
        let Answer {
            seat: other,
            done: mut more,
        } = answer?;
        seat = claims.join(seat, other);
        done.append(&mut more)?;
    }
    Ok(Answer { seat, done })
}

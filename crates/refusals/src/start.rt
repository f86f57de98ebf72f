// The refusals before a plan (1 to 12) and before a round (1 to 13).
ghost use Rattle.std.specs.Prelude.{◌≡◌, IfOk};
ghost use Rattle.words.specs.Verdict.{verdict_of};
ghost use Rattle.refusals.specs.Refusals.{room_verdict};
ghost use Rattle.refusals.specs.Start.{plan_verdict, round_verdict};

use crate::degrees::check_degrees;
use crate::range::check_range;
use job::Job;
use job::well_formed::check_job;
use scratch::SCRATCH;
use words::{Place, Reason, Refusal, Verdict, refuse_if};

// Refusal 11, by the lengths of what is lent.
#[tactic(auto, using(words::proofs::Order::then_refused, words::proofs::Order::then_next), unfolding(crate::specs::Refusals::room_verdict))]
fn check_room(n: usize, plan_length: usize, scratch_length: usize) -> Verdict
    ensures { result ≡ room_verdict n plan_length scratch_length }
{
    refuse_if(plan_length < n, Reason::RoomShort, Place::Nowhere)?;
    refuse_if(scratch_length < SCRATCH, Reason::RoomShort, Place::Nowhere)
}

// Refusals 1 to 12.
#[tactic(auto, using(words::proofs::Order::then_refused, words::proofs::Order::then_next), unfolding(crate::specs::Start::plan_verdict))]
pub fn check_plan<'a>(
    job: &'a [u8],
    plan_length: usize,
    scratch_length: usize,
) -> Result<Job<'a>, Refusal>
    ensures verdict { verdict_of result ≡ plan_verdict job.now plan_length scratch_length }
    ensures bytes { IfOk result (λ checked. checked.bytes ≡ job.entry) }
{
    let checked = check_job(job)?;
    check_room(checked.head.n, plan_length, scratch_length)?;
    check_degrees(&checked)?;
    Ok(checked)
}

// Refusals 1 to 13, of a job and a starting assignment.
#[tactic(auto, using(words::proofs::Order::then_refused, words::proofs::Order::then_next), unfolding(crate::specs::Start::round_verdict))]
pub fn check_start<'a>(
    job: &'a [u8],
    plan: &[u16],
    scratch_length: usize,
) -> Result<Job<'a>, Refusal>
    ensures verdict { verdict_of result ≡ round_verdict job.now plan.now scratch_length }
    ensures bytes { IfOk result (λ checked. checked.bytes ≡ job.entry) }
{
    let checked = check_plan(job, plan.len(), scratch_length)?;
    check_range(Reason::Start, &checked, plan)?;
    Ok(checked)
}

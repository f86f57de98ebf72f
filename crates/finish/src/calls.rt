// Finish and plan.
ghost use Rattle.finish.specs.Finish.{FinishCall};
ghost use Rattle.finish.specs.Plan.{PlanCall};

use crate::Finish;
use crate::deal::deal;
use crate::settle::settle;
use refusals::start::{check_plan, check_start};

// Rounds from the assignment that `plan` holds until it is legal.
pub fn finish(job: &[u8], plan: &mut [u16], s: &mut [u16]) -> Finish
    ensures { FinishCall job.now plan.old plan.new s.old s.new result }
{
    let checked = check_start(job, plan, s.len())?;
    Ok(settle(&checked, plan, s))
}

// The deal, then rounds until it is legal.
pub fn plan(job: &[u8], plan: &mut [u16], s: &mut [u16]) -> Finish
    ensures { PlanCall job.now plan.old plan.new s.old s.new result }
{
    let checked = check_plan(job, plan.len(), s.len())?;
    deal(&checked, plan);
    Ok(settle(&checked, plan, s))
}

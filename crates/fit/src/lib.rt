// An assignment that is fit for a sheet, as the audit and the sheet writer both check it: 13 or 23, then 24 and 25.
#![tactic(auto)]

ghost use Rattle.std.specs.Prelude.{◌≡◌, ◌≤◌, length, IfOk};
ghost use Rattle.laws.specs.Row.{at};
ghost use Rattle.laws.specs.Count.{Counted};
ghost use Rattle.words.specs.Verdict.{verdict_of};
ghost use Rattle.board.specs.Board.{total, InRange};
ghost use Rattle.job.specs.Board.{board_of};
ghost use Rattle.fit.specs.Fit.{loads_verdict, fit_verdict};

use crate::spread::check_spread;
use job::Job;
use refusals::range::check_range;
use search::search;
use tally::count::totals_of;
use words::{Place, Reason, Refusal, Verdict};

pub mod spread;

// Refusal 24: the search names the lowest FPGA with a load above its width, and its lowest such crossbar.
fn check_loads(job: &Job, plan: &[u16]) -> Verdict
    requires every_net { job.now.head.n ≤ length plan.now }
    requires in_range { InRange (board_of job.now) (at plan.now) }
    ensures { result ≡ loads_verdict (board_of job.now) (at plan.now) }
{
    match search(job, plan) {
        None => Ok(()),
        Some(over) => Err(Refusal {
            reason: Reason::Load,
            place: Place::Load(over.fpga, over.crowded),
        }),
    }
}

// The totals, unless there is refusal 13 of a lent assignment, or 23 of a sheet's; then 24 and 25.
pub fn check_fit(reason: Reason, job: &Job, plan: &[u16]) -> Result<[u16; 128], Refusal>
    requires { job.now.head.n ≤ length plan.now }
    ensures verdict { verdict_of result ≡ fit_verdict reason (board_of job.now) (at plan.now) }
    ensures counted { IfOk result (λ totals. Counted totals 128 (total (board_of job.now) (at plan.now))) }
{
    check_range(reason, job, plan)?;
    check_loads(job, plan)?;
    let totals = totals_of(plan, job.head.n);
    check_spread(&totals[..job.head.c])?;
    Ok(totals)
}

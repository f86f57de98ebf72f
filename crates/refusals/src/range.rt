// Refusal 13, and 23 in a sheet: a crossbar number that cannot be used.
ghost use Rattle.std.specs.Prelude.{◌≡◌, ◌≤◌, length};
ghost use Rattle.laws.specs.Row.{at};
ghost use Rattle.job.specs.Board.{board_of};
ghost use Rattle.refusals.specs.Refusals.{range_verdict};

use job::Job;
use wires::can_use;
use words::{Net, Place, Reason, Verdict, first_refusal, refuse_if};

// The refusal for this reason, with the lowest net whose crossbar cannot be used.
pub fn check_range(reason: Reason, job: &Job, plan: &[u16]) -> Verdict
    requires { job.now.head.n ≤ length plan.now }
    ensures { result ≡ range_verdict reason (board_of job.now) (at plan.now) }
{
    first_refusal(job.head.n, |i| {
        let usable = can_use(job, plan[i] as usize);
        refuse_if(!usable, reason, Place::Net(Net(i as u16)))
    })
}

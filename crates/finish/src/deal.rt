// The deal: where the nets start.
ghost use Rattle.std.specs.Prelude.{◌≡◌, ◌≤◌, length};
ghost use Rattle.job.specs.Board.{board_of};
ghost use Rattle.finish.specs.Plan.{dealt};

use job::Job;
use wires::dealt_to;

// Each net to the crossbar that it is dealt.
pub(crate) fn deal(job: &Job, plan: &mut [u16])
    requires { job.now.head.n ≤ length plan.old }
    ensures { plan.new ≡ dealt (board_of job.now) plan.old }
{
    for net in 0..job.head.n {
        plan[net] = dealt_to(job, net) as u16;
    }
}

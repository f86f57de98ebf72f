// The total excess.
ghost use Rattle.std.specs.Prelude.{◌≡◌, ◌-◌, ◌*◌, ◌≤◌, length};
ghost use Rattle.laws.specs.Sum.{sum};
ghost use Rattle.laws.specs.Row.{at};
ghost use Rattle.job.specs.Board.{board_of};
ghost use Rattle.board.specs.Board.{total_excess};

use crate::count::loads_on;
use job::Job;
use wires::width_of;

// What the loads of all FPGAs at one crossbar are above their widths, together.
fn excess_on(job: &Job, count: [u16; 256]) -> usize
    ensures value { result ≡ sum (λ v. at count v - (board_of job.now).width v) job.now.head.f }
    ensures bound { result ≤ 65536 * job.now.head.f }
{
    let mut above: usize = 0;
    for v in 0..job.head.f {
        above += (count[v] as usize).saturating_sub(width_of(job, v));
    }
    above
}

// The total excess, crossbar by crossbar.
pub fn excess_of(job: &Job, plan: &[u16]) -> usize
    requires { job.now.head.n ≤ length plan.now }
    ensures { result ≡ total_excess (board_of job.now) (at plan.now) }
{
    let mut above: usize = 0;
    for x in 0..job.head.c {
        above += excess_on(job, loads_on(job, plan, x));
    }
    above
}

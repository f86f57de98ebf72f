// Refusal 12: a degree above the limit.
ghost use Rattle.std.specs.Prelude.{◌≡◌};
ghost use Rattle.job.specs.Board.{board_of};
ghost use Rattle.refusals.specs.Refusals.{degree_verdict};

use job::Job;
use tally::count::degrees;
use wires::limit_of;
use words::{Fpga, Place, Reason, Verdict, first_refusal, refuse_if};

// Refusal 12, with the lowest FPGA above its limit.
pub fn check_degrees(job: &Job) -> Verdict
    ensures { result ≡ degree_verdict (board_of job.now) }
{
    let count = degrees(job);
    first_refusal(job.head.f, |v| {
        let over = limit_of(job, v) < count[v] as usize;
        refuse_if(over, Reason::Degree, Place::Fpga(Fpga(v as u16)))
    })
}

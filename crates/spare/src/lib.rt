// How many nets more an FPGA can take, and two of them together.
#![tactic(auto)]

ghost use Rattle.std.specs.Prelude.{◌≡◌, ◌<◌};
ghost use Rattle.laws.specs.Count.{Counted};
ghost use Rattle.job.specs.Board.{board_of};
ghost use Rattle.board.specs.Board.{degree, WithinLimits};
ghost use Rattle.spare.specs.Spare.{spare_of, spare_room, headroom_room};

use job::Job;
use refusals::asked::{check_asked, check_both, check_fitting};
use tally::count::degrees;
use wires::limit_of;
use words::{Fpga, Net, Reason, Refusal};

// What FPGA v has left of its limit, by the counters of the degrees.
fn left_of(job: &Job, count: &[u16; 256], v: Fpga) -> Net
    requires within { WithinLimits (board_of job.now) }
    requires counted { Counted count.now 256 (degree (board_of job.now)) }
    requires known { v.0 < job.now.head.f }
    ensures { result.0 ≡ spare_of (board_of job.now) v.0 }
{
    let at = v.0 as usize;
    Net((limit_of(job, at) - count[at] as usize) as u16)
}

// Spare of an FPGA.
#[tactic(auto, using(words::proofs::Order::then_refused, words::proofs::Order::then_next), unfolding(refusals::specs::Asked::spare_verdict))]
pub fn spare(job: &[u8], v: Fpga) -> Result<Net, Refusal>
    ensures { result ≡ spare_room job.now v.0 }
{
    let fitting = check_fitting(job)?;
    check_asked(Reason::FirstEnd, fitting.head.f, v)?;
    Ok(left_of(&fitting, &degrees(&fitting), v))
}

// Headroom of two FPGAs.
#[tactic(auto, using(words::proofs::Order::then_refused, words::proofs::Order::then_next), unfolding(refusals::specs::Asked::headroom_verdict, crate::specs::Spare::headroom_of))]
pub fn headroom(job: &[u8], v: Fpga, w: Fpga) -> Result<Net, Refusal>
    ensures { result ≡ headroom_room job.now v.0 w.0 }
{
    let fitting = check_fitting(job)?;
    check_both(fitting.head.f, v, w)?;
    let count = degrees(&fitting);
    let first = left_of(&fitting, &count, v);
    let second = left_of(&fitting, &count, w);
    Ok(first.min(second))
}

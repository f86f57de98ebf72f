// What the board of a job gives: the width and the limit of an FPGA, the crossbars that can be used, and the deal.
#![tactic(auto)]

ghost use Rattle.std.specs.Prelude.{◌≡◌, ◌≤◌};
ghost use Rattle.board.specs.Board.{limit, usable, deal};
ghost use Rattle.job.specs.Board.{board_of};

use job::Job;

// The usable width at FPGA v. Whoever needs a width asks here.
pub fn width_of(job: &Job, v: usize) -> usize
    ensures value { result ≡ (board_of job.now).width v }
    ensures bound { result ≤ 64 }
{
    job.head.width
}

// How many nets may end at FPGA v.
pub fn limit_of(job: &Job, v: usize) -> usize
    ensures value { result ≡ limit (board_of job.now) v }
    ensures bound { result ≤ 8192 }
{
    width_of(job, v) * job.head.c
}

// Crossbar x can be used.
pub fn can_use(job: &Job, x: usize) -> bool
    ensures { result ≡ usable (board_of job.now) x }
{
    x < job.head.c
}

// The crossbar that net i is dealt.
pub fn dealt_to(job: &Job, i: usize) -> usize
    ensures value { result ≡ deal (board_of job.now) i }
    ensures bound { result ≤ 127 }
{
    i % job.head.c
}

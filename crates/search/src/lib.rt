// The search for what a round recolours: the lowest FPGA with a load above its width, and two crossbars there.
#![tactic(auto)]

ghost use Rattle.std.specs.Prelude.{◌≡◌, ◌≤◌, ltb, length};
ghost use Rattle.laws.specs.Row.{at};
ghost use Rattle.laws.specs.Lowest.{first_where};
ghost use Rattle.job.specs.Board.{board_of};
ghost use Rattle.board.specs.Board.{InRange};
ghost use Rattle.search.specs.Search.{below, fpga_of, search_of};

use job::Job;
use tally::count::{loads_of, loads_on};
use wires::width_of;
use words::{Crossbar, Fpga};

// An FPGA with a load above its width, its crossbar with too many nets and its crossbar with room.
#[derive(Clone, Copy, Debug, PartialEq, Eq)]
pub struct Over {
    pub fpga: Fpga,
    pub crowded: Crossbar,
    pub room: Crossbar,
}

// The first of n FPGAs whose counter is above its width.
fn first_over(job: &Job, count: [u16; 256], n: usize) -> Option<usize>
    requires { n ≤ 256 }
    ensures { result ≡ below n (first_where (λ v. ltb ((board_of job.now).width v) (at count v)) n) }
{
    (0..n).find(|&v| width_of(job, v) < count[v] as usize)
}

// The lowest FPGA with a load above its width on any crossbar.
fn lowest_over(job: &Job, plan: &[u16]) -> Option<usize>
    requires { job.now.head.n ≤ length plan.now }
    ensures { result ≡ below job.now.head.f (fpga_of (board_of job.now) (at plan.now)) }
{
    let mut lowest = None;
    for x in 0..job.head.c {
        // Only an FPGA below the lowest so far can be the answer.
        let end = lowest.unwrap_or(job.head.f);
        lowest = first_over(job, loads_on(job, plan, x), end).or(lowest);
    }
    lowest
}

// What a round is made on; none where the assignment is legal.
pub fn search(job: &Job, plan: &[u16]) -> Option<Over>
    requires every_net { job.now.head.n ≤ length plan.now }
    requires in_range { InRange (board_of job.now) (at plan.now) }
    ensures { result ≡ search_of (board_of job.now) (at plan.now) }
{
    let v = lowest_over(job, plan)?;
    let loads = loads_of(job, plan, v);
    let width = width_of(job, v);
    let crowded = (0..job.head.c).find(|&x| width < loads[x] as usize)?;
    // `search_of` names crossbar c where no crossbar has room.
    let room = (0..job.head.c)
        .find(|&x| (loads[x] as usize) < width)
        .unwrap_or(job.head.c);
    Some(Over {
        fpga: Fpga(v as u16),
        crowded: Crossbar(crowded as u16),
        room: Crossbar(room as u16),
    })
}

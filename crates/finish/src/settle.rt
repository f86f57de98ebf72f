// Rounds until settled.
ghost use Rattle.std.specs.Prelude.{◌≡◌};
ghost use Rattle.laws.specs.Row.{at};
ghost use Rattle.job.specs.Board.{board_of};
ghost use Rattle.board.specs.Board.{total_excess};
ghost use Rattle.refusals.specs.Start.{Ready};
ghost use Rattle.finish.specs.Finish.{SettledIn, FinishedIn};

use crate::Rounds;
use job::Job;
use round::step::step;
use scratch::clear_scratch;
use tally::measure::excess_of;

// How many rounds it takes. Each lowers the excess, so as many as that are enough.
fn rounds(job: &Job, plan: &mut [u16], s: &mut [u16], excess: usize) -> usize
    requires ready { Ready job.now plan.old s.old }
    requires enough { excess ≡ total_excess (board_of job.now) (at plan.old) }
    ensures { SettledIn job.now plan.old plan.new s.old s.new result }
{
    for made in 0..excess {
        if step(job, plan, s).is_none() {
            return made;
        }
    }
    excess
}

// The rounds, counted, with the excess before the first; afterwards the scratch is zero.
pub(crate) fn settle(job: &Job, plan: &mut [u16], s: &mut [u16]) -> Rounds
    requires { Ready job.now plan.old s.old }
    ensures { FinishedIn job.now.bytes.now plan.old plan.new s.old s.new result.made result.excess }
{
    let excess = excess_of(job, plan);
    let made = rounds(job, plan, s, excess);
    clear_scratch(s);
    Rounds { made, excess }
}

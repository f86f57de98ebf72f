// One round.
#![tactic(auto)]

ghost use Rattle.round.specs.OneRound.{OneRound};

use crate::step::step;
use refusals::start::check_start;
use scratch::clear_scratch;
use search::Over;
use words::Refusal;

pub mod step;

// What a round was made on, or none where the assignment was legal; or the call is refused.
pub type Round = Result<Option<Over>, Refusal>;

// One round on the assignment that `plan` holds.
pub fn one_round(job: &[u8], plan: &mut [u16], s: &mut [u16]) -> Round
    ensures { OneRound job.now plan.old plan.new s.old s.new result }
{
    let checked = check_start(job, plan, s.len())?;
    let made = step(&checked, plan, s);
    clear_scratch(s);
    Ok(made)
}

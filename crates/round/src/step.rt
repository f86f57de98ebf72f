// The step that one round makes once and finish again and again.
ghost use Rattle.refusals.specs.Start.{Ready};
ghost use Rattle.round.specs.OneRound.{Stepped};

use job::Job;
use recolour::recolour;
use search::{Over, search};

// Searches, and recolours the two crossbars that are named.
pub fn step(job: &Job, plan: &mut [u16], s: &mut [u16]) -> Option<Over>
    requires { Ready job.now plan.old s.old }
    ensures { Stepped job.now plan.old plan.new s.old s.new result }
{
    let over = search(job, plan)?;
    recolour(job, plan, over.crowded, over.room, s);
    Some(over)
}

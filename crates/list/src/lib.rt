// The listing of a plan, formed in lent memory.
#![tactic(auto)]

ghost use Rattle.std.specs.Prelude.{◌≡◌, ℕ, ◌≤◌, ◌<◌, length};
ghost use Rattle.laws.specs.Row as row;
ghost use Rattle.text.specs.Lent.{Gains};
ghost use Rattle.list.specs.Listing.{plan_lines, listing_long, Listed};

use finish::{Rounds, calls};
use job::Job;
use job::open::open;
use lines::{board_line, crossbar_lines, net_lines, refusal_line, rounds_line};
use tally::count::totals_of;
use text::Text;

// Room for the listing of every job.
pub const LISTING: usize = 100786;

// So much room holds every listing.
pub fn listing_room() -> usize
    ensures { result ≡ listing_long }
{
    LISTING
}

// The listing of a plan that these rounds made.
fn plan_lines(text: &mut Text, job: &Job, plan: &[u16], rounds: Rounds)
    requires every_net { job.now.head.n ≤ length plan.now }
    requires in_range { (i : ℕ) → i < job.now.head.n → row.at plan.now i < 128 }
    ensures { Gains text.old text.new (plan_lines job.now.bytes.now plan.now rounds.made rounds.excess) }
{
    let totals = totals_of(plan, job.head.n);
    board_line(text, job);
    rounds_line(text, rounds.made, rounds.excess);
    net_lines(text, job, plan);
    crossbar_lines(text, &totals[..job.head.c]);
}

// Plans the job, and puts the listing of what came of it to the front of the room; answers how long it is.
pub fn list(job: &[u8], plan: &mut [u16], s: &mut [u16], room: &mut [u8]) -> usize
    ensures { Listed job.now plan.old plan.new s.old s.new
        room.old room.new result }
{
    let planned = calls::plan(job, plan, s);
    let mut text = Text::new(room);
    match planned {
        Err(r) => refusal_line(&mut text, r),
        Ok(rounds) => plan_lines(&mut text, &open(job), plan, rounds),
    }
    text.end
}

// All calls in one place. Each is proved in the crate of its layer; hogvuldur_c has their C form.
#![tactic(auto)]

ghost use Rattle.std.specs.Prelude.{◌≡◌};
ghost use Rattle.words.specs.Verdict.{p_of, q_of};
ghost use Rattle.job.specs.Check.{job_verdict};
ghost use Rattle.finish.specs.Finish.{FinishCall};
ghost use Rattle.finish.specs.Plan.{PlanCall};

use finish::calls;
use job::well_formed::check_job;

// The words.
pub use words::{Crossbar, Fpga, Net, Place, Reason, Refusal, Verdict, number_of};

// The job: its reader, its net section, its writer.
pub use job::read::net_section;
pub use job_writer::write_job;
pub use reader::{Numbers, Reader, net, net_of_job, numbers_held, numbers_of, open};

// The job as text.
pub use text_reader::read_text;
pub use text_writer::write_text;

// The board.
pub use spare::{headroom, spare};

// The assignment.
pub use finish::{Finish, Rounds};
pub use round::{Round, one_round};
pub use search::Over;

// The sheet.
pub use audit::audit::audit;
pub use evidence::evidence;
pub use sheet_calls::{read_sheet, write_sheet};

// The job check.
pub fn check(job: &[u8]) -> Verdict
    ensures { result ≡ job_verdict job.now }
{
    check_job(job)?;
    Ok(())
}

// Two pairs of calls have one type. Each says its promise here again, so that their names cannot be exchanged (the wrong programs p_and_q and plan_and_finish).

// The first of a refusal's two places.
pub fn p_of(v: Verdict) -> usize
    ensures { result ≡ p_of v }
{
    words::p_of(v)
}

// The second.
pub fn q_of(v: Verdict) -> usize
    ensures { result ≡ q_of v }
{
    words::q_of(v)
}

// Rounds from the assignment that `plan` holds until it is legal.
pub fn finish(job: &[u8], plan: &mut [u16], s: &mut [u16]) -> Finish
    ensures { FinishCall job.now plan.old plan.new s.old s.new result }
{
    calls::finish(job, plan, s)
}

// The deal, then rounds until it is legal.
pub fn plan(job: &[u8], plan: &mut [u16], s: &mut [u16]) -> Finish
    ensures { PlanCall job.now plan.old plan.new s.old s.new result }
{
    calls::plan(job, plan, s)
}

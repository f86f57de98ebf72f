// The crossbar numbers of a sheet.
ghost use Rattle.std.specs.Prelude.{◌≡◌, ◌≤◌, length};
ghost use Rattle.laws.specs.Row.{row};
ghost use Rattle.words.specs.Lent.{onto};
ghost use Rattle.job.specs.Job.{n_in};
ghost use Rattle.sheet.specs.Sheet.{totals_count_at, crossbar_in};

use job::Job;
use words::number::read_list;

// The n crossbar numbers of a sheet to the front of the list.
pub fn numbers_of(job: &Job, sheet: &[u8], plan: &mut [u16])
    requires sheet_is_long { totals_count_at job.now.bytes.now ≤ length sheet.now }
    requires every_net { job.now.head.n ≤ length plan.old }
    ensures { plan.new ≡ onto (row (crossbar_in job.now.bytes.now sheet.now) (n_in job.now.bytes.now)) plan.old }
{
    let start = job.head.start;
    let n = job.head.n;
    read_list(&sheet[start..], &mut plan[..n]);
}

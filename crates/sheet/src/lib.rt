// The sheet: what stands where in it, read and written.
#![tactic(auto)]

ghost use Rattle.std.specs.Prelude.{◌≡◌};
ghost use Rattle.sheet.specs.Sheet.{totals_count_at, totals_at, sheet_length};

use job::Job;

pub mod put;
pub mod read;

// The byte of the totals' count.
pub fn totals_count_at(job: &Job) -> usize
    ensures { result ≡ totals_count_at job.now.bytes.now }
{
    job.head.start + 2 * job.head.n
}

// The byte of the first total.
pub fn totals_at(job: &Job) -> usize
    ensures { result ≡ totals_at job.now.bytes.now }
{
    totals_count_at(job) + 2
}

// The length of a sheet.
pub fn sheet_length(job: &Job) -> usize
    ensures { result ≡ sheet_length job.now.bytes.now }
{
    totals_at(job) + 2 * job.head.c
}

// A job that passed the check, and its nets.
ghost use Rattle.std.specs.Prelude.{◌≡◌, ◌<◌, Ok};
ghost use Rattle.job.specs.Job.{first_in, second_in};
ghost use Rattle.job.specs.Check.{job_verdict};

use crate::Job;
use crate::read::{ends_at, head_in};

// The job of bytes that are known to pass the check.
pub fn open<'a>(job: &'a [u8]) -> Job<'a>
    requires { job_verdict job.now ≡ Ok tt }
    ensures { result.bytes ≡ job.entry }
{
    Job {
        bytes: job,
        head: head_in(job),
    }
}

impl<'a> Job<'a> {
    // The two FPGAs of net i.
    pub fn ends(&self, i: usize) -> (usize, usize)
        requires { i < self.now.head.n }
        ensures first { (result.0 ≡ first_in self.now.bytes.now i) × (result.0 < self.now.head.f) }
        ensures second { (result.1 ≡ second_in self.now.bytes.now i) × (result.1 < self.now.head.f) }
    {
        ends_at(self.bytes, self.head.start, i)
    }
}

// The job check: passed, or a refusal (1 to 10, 27), in document 01's order, with 27 in document 02's place.
ghost use Rattle.std.specs.Prelude.{◌≡◌, ◌≤◌, ◌<◌, length, IfOk};
ghost use Rattle.words.specs.Verdict.{verdict_of};
ghost use Rattle.job.specs.Job.{nets_at, n_in, first_at, first_in, second_in};
ghost use Rattle.job.specs.Check.{outside, ranges_verdict, head_verdict, length_verdict, net_verdict, nets_verdict, job_verdict, checked_of};
ghost use Rattle.job.specs.Checked.{heads};

use crate::read::{ends_at, first_at, head_in, nets_at, second_at};
use crate::{C_AT, F_AT, HEAD_LONG, Head, Job, M_AT, N_AT};
use words::number::read;
use words::{Net, Place, Reason, Refusal, Verdict, first_refusal, refuse_if};

fn outside(smallest: usize, largest: usize, x: usize) -> bool
    ensures { result ≡ outside smallest largest x }
{
    x < smallest || largest < x
}

// Refusals 3 to 7, for the job and for its writer.
pub fn check_ranges(f: usize, c: usize, m: usize, n: usize) -> Verdict
    ensures { result ≡ ranges_verdict f c m n }
{
    refuse_if(outside(1, 256, f), Reason::FpgaCount, Place::Byte(F_AT))?;
    refuse_if(outside(1, 128, c), Reason::CrossbarCount, Place::Byte(C_AT))?;
    refuse_if(outside(1, 64, m), Reason::WireCount, Place::Byte(M_AT))?;
    refuse_if(m == 1, Reason::LoneWire, Place::Byte(M_AT))?;
    refuse_if(4096 < n, Reason::NetCount, Place::Byte(N_AT))
}

// Refusals 9, 27 and 10, for net i between FPGAs v and w, where the nets start at byte `start`.
pub fn check_net(f: usize, start: usize, i: u16, v: usize, w: usize) -> Verdict
    requires { start < 65536 }
    ensures { result ≡ net_verdict f start i v w }
{
    let first = Place::End(Net(i), first_at(start, i as usize));
    let second = Place::End(Net(i), second_at(start, i as usize));
    refuse_if(f <= v, Reason::FirstEnd, first)?;
    refuse_if(f <= w, Reason::SecondEnd, second)?;
    refuse_if(v == w, Reason::SameEnd, second)
}

// The head: 1 to 7.
fn check_head(job: &[u8]) -> Verdict
    ensures { result ≡ head_verdict job.now }
{
    refuse_if(
        job.len() < HEAD_LONG,
        Reason::JobShort,
        Place::Length(job.len()),
    )?;
    refuse_if(read(job, 0) != 3, Reason::BoardCount, Place::Byte(0))?;
    let head = head_in(job);
    check_ranges(head.f, head.c, head.m, head.n)
}

// The length against the number of nets: 1 and 8.
fn check_length(job: &[u8], n: usize) -> Verdict
    requires { (n ≡ n_in job.now) × (n ≤ 4096) }
    ensures { result ≡ length_verdict job.now }
{
    let end = first_at(nets_at(job), n);
    refuse_if(job.len() < end, Reason::JobShort, Place::Length(job.len()))?;
    refuse_if(end < job.len(), Reason::JobLong, Place::Byte(end))
}

// The nets in order: 9, 27 and 10. Job and head apart, since only a job that passes is a `Job`.
fn check_nets(job: &[u8], head: Head) -> Verdict
    requires whole { (head.start ≡ nets_at job.now) × (length job.now ≡ first_at head.start head.n) × (head.n ≤ 4096) }
    requires low { head.start < 65536 }
    ensures { result ≡ nets_verdict head.f head.start (first_in job.now) (second_in job.now) head.n }
{
    first_refusal(head.n, |i| {
        let (v, w) = ends_at(job, head.start, i);
        check_net(head.f, head.start, i as u16, v, w)
    })
}

// The job check.
pub fn check_job<'a>(job: &'a [u8]) -> Result<Job<'a>, Refusal>
    ensures verdict { verdict_of result ≡ job_verdict job.now }
    ensures bytes { IfOk result (λ checked. checked.bytes ≡ job.entry) }
    ensures heads { heads result ≡ checked_of job.now }
{
    check_head(job)?;
    let head = head_in(job);
    check_length(job, head.n)?;
    check_nets(job, head)?;
    Ok(Job { bytes: job, head })
}

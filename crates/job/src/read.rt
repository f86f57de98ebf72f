// What a job says: the numbers of its head, its nets, and the section of the nets.
ghost use Rattle.std.specs.Prelude.{◌≡◌, ◌+◌, ◌≤◌, ◌<◌, length, Ok};
ghost use Rattle.words.specs.Lent.{Stretch};
ghost use Rattle.job.specs.Job.{head_long, nets_at, usable_width, head_in, first_at, second_at, first_in, second_in};
ghost use Rattle.job.specs.Check.{job_verdict, checked_of};
ghost use Rattle.job.specs.Read.{net_at, section_from, section_long};

use crate::well_formed::check_job;
use crate::{C_AT, F_AT, HEAD_LONG, Head, M_AT, N_AT};
use words::number::read;
use words::{Fpga, Net};

// The byte where the nets start, of any bytes.
pub fn nets_at(job: &[u8]) -> usize
    ensures { (result ≡ nets_at job.now) × (result < 65536) }
{
    HEAD_LONG
}

// The usable width of m wires.
fn usable_width(m: usize) -> usize
    requires { m < 65536 }
    ensures { result ≡ usable_width m }
{
    m - m % 2
}

// The numbers as they stand in the job.
pub(crate) fn head_in(job: &[u8]) -> Head
    requires { head_long ≤ length job.now }
    ensures { result ≡ head_in job.now }
{
    let m = read(job, M_AT) as usize;
    Head {
        f: read(job, F_AT) as usize,
        c: read(job, C_AT) as usize,
        m,
        width: usable_width(m),
        n: read(job, N_AT) as usize,
        start: nets_at(job),
    }
}

// The byte of the first number of net i, where the nets start at byte `start`. Whoever needs a net's byte asks here.
pub fn first_at(start: usize, i: usize) -> usize
    requires { second_at start i < 18446744073709551616 }
    ensures { result ≡ first_at start i }
{
    start + 4 * i
}

// The byte of its second number.
pub fn second_at(start: usize, i: usize) -> usize
    requires { second_at start i < 18446744073709551616 }
    ensures { result ≡ second_at start i }
{
    first_at(start, i) + 2
}

// The two FPGAs of net i, of any bytes whose nets start at byte `start`.
pub fn ends_at(job: &[u8], start: usize, i: usize) -> (usize, usize)
    requires { (start ≡ nets_at job.now) × (second_at start i + 1 < length job.now) }
    ensures first { (result.0 ≡ first_in job.now i) × (result.0 < 65536) }
    ensures second { (result.1 ≡ second_in job.now i) × (result.1 < 65536) }
{
    let first = read(job, first_at(start, i)) as usize;
    let second = read(job, second_at(start, i)) as usize;
    (first, second)
}

// Net i of a job that has n nets.
pub fn net_at(job: &[u8], n: Net, i: Net) -> Option<(Fpga, Fpga)>
    ensures { result ≡ net_at job.now n.0 i.0 }
{
    if n <= i {
        return None;
    }
    let start = nets_at(job);
    let k = i.0 as usize;
    if job.len() < first_at(start, k + 1) {
        return None;
    }
    let (v, w) = ends_at(job, start, k);
    Some((Fpga(v as u16), Fpga(w as u16)))
}

// The caller's own bytes from the first net to the end; of a refused job the empty start.
pub fn net_section(job: &[u8]) -> &[u8]
    ensures { Stretch job.entry (section_from (checked_of job.now)) (section_long (checked_of job.now)) result }
{
    match check_job(job) {
        Err(_) => &job[..0],
        Ok(checked) => &job[checked.head.start..],
    }
}

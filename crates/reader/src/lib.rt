// A reader that holds the caller's job bytes and the four numbers of its head. Whatever it answers is worked out on the plain slice.
#![tactic(auto)]

ghost use Rattle.std.specs.Prelude.{◌≡◌};
ghost use Rattle.job.specs.Check.{checked_of};
ghost use Rattle.job.specs.Read.{net_at};
ghost use Rattle.reader.specs.Held.{numbers_of, reader_of, held_in, net_in};

use job::read::net_at;
use job::well_formed::check_job;
use words::{Crossbar, Fpga, Net};

// f, c, m and n, each under its sort.
#[derive(Clone, Copy, Debug, PartialEq, Eq)]
pub struct Numbers {
    pub f: Fpga,
    pub c: Crossbar,
    pub m: u16,
    pub n: Net,
}

// The caller's own job, and its numbers.
#[derive(Clone, Copy)]
pub struct Reader<'a> {
    pub job: &'a [u8],
    pub numbers: Numbers,
}

// The numbers of a job; of a refused job four zeros, which may not change (`gives_zeros`).
pub fn numbers_of(job: &[u8]) -> Numbers
    ensures { result ≡ numbers_of (checked_of job.now) }
{
    match check_job(job) {
        Ok(checked) => Numbers {
            f: Fpga(checked.head.f as u16),
            c: Crossbar(checked.head.c as u16),
            m: checked.head.m as u16,
            n: Net(checked.head.n as u16),
        },
        Err(_) => Numbers {
            f: Fpga(0),
            c: Crossbar(0),
            m: 0,
            n: Net(0),
        },
    }
}

// The check is made here, once for all that is read.
pub fn open<'a>(job: &'a [u8]) -> Reader<'a>
    ensures { result ≡ reader_of job.entry }
{
    Reader {
        job,
        numbers: numbers_of(job),
    }
}

pub fn numbers_held<'a>(r: Reader<'a>) -> Numbers
    ensures { result ≡ held_in r.entry }
{
    r.numbers
}

pub fn net<'a>(r: Reader<'a>, i: Net) -> Option<(Fpga, Fpga)>
    ensures { result ≡ net_in r.entry i.0 }
{
    net_at(r.job, r.numbers.n, i)
}

// From the plain job to its net: whoever calls this one sees no reader.
pub fn net_of_job(job: &[u8], i: Net) -> Option<(Fpga, Fpga)>
    ensures { result ≡ net_at job.now (numbers_of (checked_of job.now)).n.0 i.0 }
{
    net(open(job), i)
}

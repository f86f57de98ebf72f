// The job file: what stands where, its check, and what it says. No other crate knows a byte of it.
#![tactic(auto)]

ghost use Rattle.job.specs.Check.{WellFormed};

pub mod open;
pub mod read;
pub mod well_formed;

// The bytes of the numbers in the head, and the head's length.
pub(crate) const F_AT: usize = 2;

pub(crate) const C_AT: usize = 4;

pub(crate) const M_AT: usize = 6;

pub(crate) const N_AT: usize = 8;

pub(crate) const HEAD_LONG: usize = 10;

// The numbers of a job's head, m as written and the usable width; and the byte where its nets start.
#[derive(Clone, Copy)]
pub struct Head {
    pub f: usize,
    pub c: usize,
    pub m: usize,
    pub width: usize,
    pub n: usize,
    pub start: usize,
}

// A job that passed the check: the caller's own bytes, and the numbers of their head.
#[derive(Clone, Copy)]
pub struct Job<'a> {
    pub bytes: &'a [u8],
    pub head: Head,
    pub ghost well_formed: { WellFormed bytes.now head },
}

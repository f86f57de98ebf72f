// The refusals of spare and headroom: of the job, then of the FPGAs asked about.
ghost use Rattle.std.specs.Prelude.{◌≡◌, IfOk};
ghost use Rattle.words.specs.Verdict.{verdict_of};
ghost use Rattle.refusals.specs.Asked.{fitting_verdict, asked_verdict, both_verdict};

use crate::degrees::check_degrees;
use job::Job;
use job::well_formed::check_job;
use words::{Fpga, Place, Reason, Refusal, Verdict, refuse_if};

// Refusals 1 to 10, 27 and 12.
#[tactic(auto, using(words::proofs::Order::then_refused, words::proofs::Order::then_next), unfolding(crate::specs::Asked::fitting_verdict))]
pub fn check_fitting<'a>(job: &'a [u8]) -> Result<Job<'a>, Refusal>
    ensures verdict { verdict_of result ≡ fitting_verdict job.now }
    ensures bytes { IfOk result (λ checked. checked.bytes ≡ job.entry) }
{
    let checked = check_job(job)?;
    check_degrees(&checked)?;
    Ok(checked)
}

// Refused for this reason, if the board does not have the FPGA asked about.
#[tactic(auto, unfolding(crate::specs::Asked::asked_verdict))]
pub fn check_asked(reason: Reason, f: usize, v: Fpga) -> Verdict
    ensures { result ≡ asked_verdict reason f v.0 }
{
    refuse_if(f <= v.0 as usize, reason, Place::Fpga(v))
}

// Refusals 9, 27 and 10 of two.
#[tactic(auto, using(words::proofs::Order::then_refused, words::proofs::Order::then_next), unfolding(crate::specs::Asked::both_verdict))]
pub fn check_both(f: usize, v: Fpga, w: Fpga) -> Verdict
    ensures { result ≡ both_verdict f v.0 w.0 }
{
    check_asked(Reason::FirstEnd, f, v)?;
    check_asked(Reason::SecondEnd, f, w)?;
    refuse_if(v == w, Reason::SameEnd, Place::Fpga(v))
}

// The audit of a sheet against a job.
ghost use Rattle.std.specs.Prelude.{◌≡◌, length, IfOk};
ghost use Rattle.words.specs.Verdict.{verdict_of};
ghost use Rattle.sheet.specs.Sheet.{sheet_length};
ghost use Rattle.audit.specs.Audit.{numbers_verdict, against_verdict, audit_verdict};

use crate::heads::check_heads;
use crate::totals::check_totals;
use fit::check_fit;
use job::Job;
use job::well_formed::check_job;
use scratch::MOST_NETS;
use sheet::read::numbers_of;
use sheet::{sheet_length, totals_at};
use words::{Place, Reason, Refusal, Verdict, refuse_if};

// Refusals 23 to 26 by the sheet's own numbers. No memory is lent to an audit, so the numbers stand in this frame.
fn check_numbers(job: &Job, sheet: &[u8]) -> Verdict
    requires { length sheet.now ≡ sheet_length job.now.bytes.now }
    ensures { result ≡ numbers_verdict job.now.bytes.now sheet.now }
{
    let mut plan = [0u16; MOST_NETS];
    numbers_of(job, sheet, &mut plan);
    let totals = check_fit(Reason::SheetCrossbar, job, &plan)?;
    check_totals(&sheet[totals_at(job)..], &totals[..job.head.c])
}

// Refusals 21 to 26, for a job that passed its check.
pub fn check_sheet(job: &Job, sheet: &[u8]) -> Verdict
    ensures { result ≡ against_verdict job.now.bytes.now sheet.now }
{
    let long = sheet.len();
    refuse_if(
        long != sheet_length(job),
        Reason::SheetLength,
        Place::Length(long),
    )?;
    check_heads(job, sheet)?;
    check_numbers(job, sheet)
}

// The audit, with the checked job where it is done.
pub fn audit_job<'a>(job: &'a [u8], sheet: &[u8]) -> Result<Job<'a>, Refusal>
    ensures verdict { verdict_of result ≡ audit_verdict job.now sheet.now }
    ensures bytes { IfOk result (λ checked. checked.bytes ≡ job.entry) }
{
    let checked = check_job(job)?;
    check_sheet(&checked, sheet)?;
    Ok(checked)
}

// The audit: done, or the first refusal.
pub fn audit(job: &[u8], sheet: &[u8]) -> Verdict
    ensures { result ≡ audit_verdict job.now sheet.now }
{
    audit_job(job, sheet)?;
    Ok(())
}

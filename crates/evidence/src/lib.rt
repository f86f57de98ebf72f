// The bytes at fault.
#![tactic(auto)]

ghost use Rattle.std.specs.Prelude.{◌≡◌};
ghost use Rattle.evidence.specs.Evidence.{in_job, in_sheet, nothing, job_fault, sheet_fault, audit_fault, Evidence};

use audit::audit::check_sheet;
use job::Job;
use job::read::{first_at, nets_at};
use job::well_formed::check_job;
use sheet::totals_at;
use words::{Place, Reason, Refusal};

// One of the two files that an audit is asked of.
#[derive(Clone, Copy, Debug, PartialEq, Eq)]
pub enum File {
    Job,
    Sheet,
}

// A stretch of the job or of the sheet. Numbers and no slice: the C interface answers with these three.
#[derive(Clone, Copy, Debug, PartialEq, Eq)]
pub struct Fault {
    pub file: File,
    pub start: usize,
    pub long: usize,
}

// So many bytes of the job.
fn in_job(start: usize, long: usize) -> Fault
    ensures { result ≡ in_job start long }
{
    Fault {
        file: File::Job,
        start,
        long,
    }
}

// One number of the sheet.
fn in_sheet(start: usize) -> Fault
    ensures { result ≡ in_sheet start 2 }
{
    Fault {
        file: File::Sheet,
        start,
        long: 2,
    }
}

// The empty start of the job. No Option: where nothing is at fault, `evidence` hands back this stretch (`audit_fault`).
fn nothing() -> Fault
    ensures { result ≡ nothing }
{
    in_job(0, 0)
}

// What a refusal of the job points at.
fn job_fault(job: &[u8], refusal: Refusal) -> Fault
    ensures { result ≡ job_fault job.now refusal }
{
    match (refusal.reason, refusal.place) {
        (Reason::FirstEnd | Reason::SecondEnd, Place::End(_, at)) => in_job(at, 2),
        (Reason::SameEnd, Place::End(i, _)) => in_job(first_at(nets_at(job), i.0 as usize), 4),
        _ => nothing(),
    }
}

// What a refusal of the sheet points at.
fn sheet_fault(job: &Job, refusal: Refusal) -> Fault
    ensures { result ≡ sheet_fault job.now.bytes.now refusal }
{
    match (refusal.reason, refusal.place) {
        (Reason::SheetHead, Place::Byte(p)) => in_sheet(p),
        (Reason::SheetCrossbar, Place::Net(i)) => in_sheet(job.head.start + 2 * i.0 as usize),
        (Reason::WrittenTotal, Place::Crossbar(x)) => in_sheet(totals_at(job) + 2 * x.0 as usize),
        _ => nothing(),
    }
}

// Which bytes the audit finds at fault.
pub fn find_fault(job: &[u8], sheet: &[u8]) -> Fault
    ensures { result ≡ audit_fault job.now sheet.now }
{
    match check_job(job) {
        Err(refusal) => job_fault(job, refusal),
        Ok(checked) => match check_sheet(&checked, sheet) {
            Err(refusal) => sheet_fault(&checked, refusal),
            Ok(()) => nothing(),
        },
    }
}

// Those bytes themselves, as the caller's own stretch of job or sheet.
pub fn evidence<'a>(job: &'a [u8], sheet: &'a [u8]) -> &'a [u8]
    ensures { Evidence job.entry sheet.entry result }
{
    let fault = find_fault(job, sheet);
    let end = fault.start + fault.long;
    match fault.file {
        File::Job => &job[fault.start..end],
        File::Sheet => &sheet[fault.start..end],
    }
}

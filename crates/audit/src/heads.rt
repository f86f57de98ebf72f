// Refusal 22: a sheet begins with the job's own head, and the count of its totals is c.
ghost use Rattle.std.specs.Prelude.{◌≡◌, length};
ghost use Rattle.sheet.specs.Sheet.{sheet_length};
ghost use Rattle.audit.specs.Audit.{heads_verdict};

use job::Job;
use sheet::totals_count_at;
use words::number::read;
use words::{Place, Reason, Verdict, first_refusal, refuse_if};

// The numbers of the two heads in order, then the totals' count.
pub fn check_heads(job: &Job, sheet: &[u8]) -> Verdict
    requires { length sheet.now ≡ sheet_length job.now.bytes.now }
    ensures { result ≡ heads_verdict job.now.bytes.now sheet.now }
{
    first_refusal(job.head.start / 2, |k| {
        let at = 2 * k;
        let unlike = read(sheet, at) != read(job.bytes, at);
        refuse_if(unlike, Reason::SheetHead, Place::Byte(at))
    })?;
    let count_at = totals_count_at(job);
    let wrong = read(sheet, count_at) as usize != job.head.c;
    refuse_if(wrong, Reason::SheetHead, Place::Byte(count_at))
}

// The sheet writer and the sheet reader.
#![tactic(auto)]

ghost use Rattle.std.specs.Prelude.{◌≡◌, length};
ghost use Rattle.laws.specs.Row.{at, row};
ghost use Rattle.words.specs.Verdict.{answer};
ghost use Rattle.words.specs.Lent.{room_after};
ghost use Rattle.job.specs.Job.{n_in};
ghost use Rattle.sheet.specs.Sheet.{sheet_length, crossbar_in, sheet_of};
ghost use Rattle.audit.specs.Audit.{lent_verdict, write_sheet_verdict, read_sheet_verdict};

use audit::audit::audit_job;
use fit::check_fit;
use job::Job;
use job::well_formed::check_job;
use sheet::put::put_sheet;
use sheet::read::numbers_of;
use sheet::sheet_length;
use words::{Place, Reason, Refusal, Verdict, refuse_if};

// Refusal 11 of the writer, by the lengths of what is lent.
fn check_lent(job: &Job, plan_length: usize, room_length: usize) -> Verdict
    ensures { result ≡ lent_verdict job.now.bytes.now plan_length room_length }
{
    let short_plan = plan_length < job.head.n;
    refuse_if(short_plan, Reason::RoomShort, Place::Nowhere)?;
    let short_room = room_length < sheet_length(job);
    refuse_if(short_room, Reason::RoomShort, Place::Nowhere)
}

// The sheet of a job and an assignment to the front of the room.
pub fn write_sheet(job: &[u8], plan: &[u16], room: &mut [u8]) -> Result<usize, Refusal>
    ensures value { result ≡ answer (write_sheet_verdict job.now plan.now (length room.old)) (sheet_length job.now) }
    ensures room_after { room.new ≡ room_after (write_sheet_verdict job.now plan.now (length room.old)) (sheet_of job.now (at plan.now)) room.old }
{
    let checked = check_job(job)?;
    check_lent(&checked, plan.len(), room.len())?;
    let totals = check_fit(Reason::Start, &checked, plan)?;
    put_sheet(&checked, plan, &totals, room);
    Ok(sheet_length(&checked))
}

// The n crossbar numbers of a sheet that passes the audit, to the front of the list.
pub fn read_sheet(job: &[u8], sheet: &[u8], plan: &mut [u16]) -> Result<usize, Refusal>
    ensures value { result ≡ answer (read_sheet_verdict job.now sheet.now (length plan.old)) (n_in job.now) }
    ensures plan_after { plan.new ≡ room_after (read_sheet_verdict job.now sheet.now (length plan.old)) (row (crossbar_in job.now sheet.now) (n_in job.now)) plan.old }
{
    let audited = audit_job(job, sheet)?;
    let n = audited.head.n;
    refuse_if(plan.len() < n, Reason::RoomShort, Place::Nowhere)?;
    numbers_of(&audited, sheet, plan);
    Ok(n)
}

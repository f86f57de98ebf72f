// The calls for C, as include/hogvuldur.h declares them: a slice is a pointer and a length there. Parameters and answers are the C interface.
#![tactic(auto)]

ghost use Rattle.std.specs.Prelude.{◌≡◌, ℕ, length, Result};
ghost use Rattle.laws.specs.Row.{at, row};
ghost use Rattle.words.specs.declared.Refusal.{Refusal};
ghost use Rattle.words.specs.Verdict.{answer as answered};
ghost use Rattle.words.specs.Lent.{room_after};
ghost use Rattle.job.specs.Job.{n_in};
ghost use Rattle.job.specs.Check.{job_verdict, checked_of};
ghost use Rattle.job.specs.Checked.{heads};
ghost use Rattle.job.specs.Read.{net_at};
ghost use Rattle.job_writer.specs.Write.{written_length, write_verdict, job_of};
ghost use Rattle.text_reader.specs.ReadText.{ReadText};
ghost use Rattle.text_writer.specs.WriteText.{text_in, write_text_verdict};
ghost use Rattle.reader.specs.Held.{numbers_of};
ghost use Rattle.spare.specs.Spare.{spare_room, headroom_room};
ghost use Rattle.round.specs.Answer.{Round};
ghost use Rattle.round.specs.OneRound.{OneRound};
ghost use Rattle.finish.specs.Answer.{Finish};
ghost use Rattle.finish.specs.Finish.{FinishCall};
ghost use Rattle.finish.specs.Plan.{PlanCall};
ghost use Rattle.sheet.specs.Sheet.{sheet_length, sheet_of, crossbar_in};
ghost use Rattle.audit.specs.Audit.{audit_verdict, read_sheet_verdict, write_sheet_verdict};
ghost use Rattle.evidence.specs.Evidence.{audit_fault};
ghost use Rattle.tell.specs.InC.{verdict_in_c, written_in_c, numbers_in_c, net_in_c, section_in_c, round_in_c, finish_in_c, fault_in_c, room_in_c, Told};

use audit::audit::audit;
use evidence::find_fault;
use hogvuldur::{check, finish, plan};
use job::well_formed::check_job;
use job::{Head, Job};
use job_writer::write_job;
use reader::{net_of_job, numbers_of};
use round::one_round;
use sheet_calls::{read_sheet, write_sheet};
use spare::{headroom, spare};
use tell::{InFour, tell, tell_section};
use text_reader::read_text;
use text_writer::write_text;
use words::{Crossbar, Fpga, Net, Refusal};

#[unsafe(no_mangle)]
pub extern "C" fn hogvuldur_check(job: &[u8], answer: &mut [u64; 4]) -> u16
    ensures { (result, answer.new) ≡ verdict_in_c (job_verdict job.now) }
{
    tell(check(job), answer)
}

#[unsafe(no_mangle)]
pub extern "C" fn hogvuldur_numbers(job: &[u8], answer: &mut [u64; 4])
    ensures { answer.new ≡ numbers_in_c (numbers_of (checked_of job.now)) }
{
    *answer = numbers_of(job).in_four();
}

#[unsafe(no_mangle)]
pub extern "C" fn hogvuldur_net(job: &[u8], i: u16, answer: &mut [u64; 4]) -> u16
    ensures { (result, answer.new) ≡ net_in_c (net_at job.now (numbers_of (checked_of job.now)).n.0 i) }
{
    tell(net_of_job(job, Net(i)), answer)
}

// The check's answer, with the numbers of the head in the job's place.
fn heads(checked: Result<Job, Refusal>) -> Result<Head, Refusal>
    ensures { result ≡ heads checked.entry }
{
    match checked {
        Ok(job) => Ok(job.head),
        Err(refusal) => Err(refusal),
    }
}

#[unsafe(no_mangle)]
pub extern "C" fn hogvuldur_net_section(job: &[u8], answer: &mut [u64; 4])
    ensures { answer.new ≡ section_in_c (checked_of job.now) }
{
    tell_section(heads(check_job(job)), answer);
}

#[unsafe(no_mangle)]
pub extern "C" fn hogvuldur_write_job(
    f: u16,
    c: u16,
    m: u16,
    n: u16,
    ends: &[u16],
    room: &mut [u8],
    answer: &mut [u64; 4],
) -> u16
    ensures answer_after { (result, answer.new) ≡ written_in_c (answered (write_verdict f c m n ends.now (length room.old)) (written_length n)) }
    ensures room_after { room.new ≡ room_after (write_verdict f c m n ends.now (length room.old)) (job_of f c m n ends.now) room.old }
{
    tell(
        write_job(Fpga(f), Crossbar(c), m, Net(n), ends, room),
        answer,
    )
}

#[unsafe(no_mangle)]
pub extern "C" fn hogvuldur_read_text(text: &[u8], room: &mut [u8], answer: &mut [u64; 4]) -> u16
    ensures { Told (Result ℕ Refusal) (ReadText text.now room.old room.new) written_in_c (result, answer.new) }
{
    tell(read_text(text, room), answer)
}

#[unsafe(no_mangle)]
pub extern "C" fn hogvuldur_write_text(job: &[u8], room: &mut [u8], answer: &mut [u64; 4]) -> u16
    ensures answer_after { (result, answer.new) ≡ written_in_c (answered (write_text_verdict job.now (length room.old)) (length (text_in job.now))) }
    ensures room_after { room.new ≡ room_after (write_text_verdict job.now (length room.old)) (text_in job.now) room.old }
{
    tell(write_text(job, room), answer)
}

#[unsafe(no_mangle)]
pub extern "C" fn hogvuldur_one_round(
    job: &[u8],
    plan: &mut [u16],
    s: &mut [u16],
    answer: &mut [u64; 4],
) -> u16
    ensures { Told Round (OneRound job.now plan.old plan.new s.old s.new) round_in_c (result, answer.new) }
{
    tell(one_round(job, plan, s), answer)
}

#[unsafe(no_mangle)]
pub extern "C" fn hogvuldur_finish(
    job: &[u8],
    plan: &mut [u16],
    s: &mut [u16],
    answer: &mut [u64; 4],
) -> u16
    ensures { Told Finish (FinishCall job.now plan.old plan.new s.old s.new) finish_in_c (result, answer.new) }
{
    tell(finish(job, plan, s), answer)
}

#[unsafe(no_mangle)]
pub extern "C" fn hogvuldur_plan(
    job: &[u8],
    room: &mut [u16],
    s: &mut [u16],
    answer: &mut [u64; 4],
) -> u16
    ensures { Told Finish (PlanCall job.now room.old room.new s.old s.new) finish_in_c (result, answer.new) }
{
    tell(plan(job, room, s), answer)
}

#[unsafe(no_mangle)]
pub extern "C" fn hogvuldur_write_sheet(
    job: &[u8],
    plan: &[u16],
    room: &mut [u8],
    answer: &mut [u64; 4],
) -> u16
    ensures answer_after { (result, answer.new) ≡ written_in_c (answered (write_sheet_verdict job.now plan.now (length room.old)) (sheet_length job.now)) }
    ensures room_after { room.new ≡ room_after (write_sheet_verdict job.now plan.now (length room.old)) (sheet_of job.now (at plan.now)) room.old }
{
    tell(write_sheet(job, plan, room), answer)
}

#[unsafe(no_mangle)]
pub extern "C" fn hogvuldur_read_sheet(
    job: &[u8],
    sheet: &[u8],
    plan: &mut [u16],
    answer: &mut [u64; 4],
) -> u16
    ensures answer_after { (result, answer.new) ≡ written_in_c (answered (read_sheet_verdict job.now sheet.now (length plan.old)) (n_in job.now)) }
    ensures plan_after { plan.new ≡ room_after (read_sheet_verdict job.now sheet.now (length plan.old)) (row (crossbar_in job.now sheet.now) (n_in job.now)) plan.old }
{
    tell(read_sheet(job, sheet, plan), answer)
}

#[unsafe(no_mangle)]
pub extern "C" fn hogvuldur_audit(job: &[u8], sheet: &[u8], answer: &mut [u64; 4]) -> u16
    ensures { (result, answer.new) ≡ verdict_in_c (audit_verdict job.now sheet.now) }
{
    tell(audit(job, sheet), answer)
}

#[unsafe(no_mangle)]
pub extern "C" fn hogvuldur_evidence(job: &[u8], sheet: &[u8], answer: &mut [u64; 4])
    ensures { answer.new ≡ fault_in_c (audit_fault job.now sheet.now) }
{
    *answer = find_fault(job, sheet).in_four();
}

#[unsafe(no_mangle)]
pub extern "C" fn hogvuldur_spare(job: &[u8], v: u16, answer: &mut [u64; 4]) -> u16
    ensures { (result, answer.new) ≡ room_in_c (spare_room job.now v) }
{
    tell(spare(job, Fpga(v)), answer)
}

#[unsafe(no_mangle)]
pub extern "C" fn hogvuldur_headroom(job: &[u8], v: u16, w: u16, answer: &mut [u64; 4]) -> u16
    ensures { (result, answer.new) ≡ room_in_c (headroom_room job.now v w) }
{
    tell(headroom(job, Fpga(v), Fpga(w)), answer)
}

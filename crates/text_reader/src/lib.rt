// The text reader: a text to its job. One walk for the form, one for the values, one that writes; a refusal comes before the third.
#![tactic(auto)]

ghost use Rattle.std.specs.Prelude.{◌≡◌, ◌≤◌, length};
ghost use Rattle.words.specs.Lent.{onto};
ghost use Rattle.job.specs.Job.{head_long};
ghost use Rattle.job.specs.Check.{nets_verdict};
ghost use Rattle.job_writer.specs.Write.{first_of, second_of, written_length, job_of};
ghost use Rattle.text_reader.specs.ReadText.{read_verdict, OfLines, ReadText};

use form::Formed;
use form::nets::net;
use form::walk::check_form;
use job::well_formed::{check_net, check_ranges};
use job_writer::{START, put_head, put_net, written_length};
use words::{Place, Reason, Refusal, Verdict, refuse_if};

// Refusals 9, 27 and 10 for the lines of the nets, in order.
fn check_lines(formed: &Formed) -> Verdict
    requires { formed.now.head.n ≤ 4096 }
    ensures { OfLines formed.now (λ ends. result ≡ nets_verdict formed.now.head.f head_long (first_of ends) (second_of ends) formed.now.head.n) }
{
    let head = formed.head;
    let mut at = head.start;
    for i in 0..head.n {
        let line = net(formed.text, at).unwrap();
        let (v, w) = line.value;
        check_net(head.f as usize, START, i, v as usize, w as usize)?;
        at = line.end;
    }
    Ok(())
}

// All that is checked of a text of the form before the job is written; the room by its length.
fn check_values(formed: &Formed, room_length: usize) -> Verdict
    ensures { let head = formed.now.head in OfLines formed.now (λ ends. result ≡ read_verdict head.f head.c head.m head.n ends room_length) }
{
    let head = formed.head;
    let n = head.n as usize;
    check_ranges(head.f as usize, head.c as usize, head.m as usize, n)?;
    check_lines(formed)?;
    refuse_if(
        room_length < written_length(n),
        Reason::RoomShort,
        Place::Nowhere,
    )
}

// Writes the job of a text of the form to the front of the room.
fn put_values(formed: &Formed, room: &mut [u8])
    requires { written_length formed.now.head.n ≤ length room.old }
    ensures { let head = formed.now.head in OfLines formed.now (λ ends. room.new ≡ onto (job_of head.f head.c head.m head.n ends) room.old) }
{
    let head = formed.head;
    put_head(room, head.f, head.c, head.m, head.n);
    let mut at = head.start;
    for i in 0..head.n {
        let line = net(formed.text, at).unwrap();
        let (v, w) = line.value;
        put_net(room, i as usize, v, w);
        at = line.end;
    }
}

// The job of a text to the front of the room.
pub fn read_text(text: &[u8], room: &mut [u8]) -> Result<usize, Refusal>
    ensures { ReadText text.now room.old room.new result }
{
    let formed = check_form(text)?;
    check_values(&formed, room.len())?;
    put_values(&formed, room);
    Ok(written_length(formed.head.n as usize))
}

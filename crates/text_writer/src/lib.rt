// The text writer: a job to its text. How long the text is, is counted before its first byte is written.
#![tactic(auto)]

ghost use Rattle.std.specs.Prelude.{◌≡◌, ◌++◌, ◌≤◌, length};
ghost use Rattle.words.specs.Verdict.{answer};
ghost use Rattle.words.specs.Lent.{room_after};
ghost use Rattle.job.specs.Job.{nets_in};
ghost use Rattle.text.specs.Lent.{Gains};
ghost use Rattle.form.specs.Form.{number_then, board_text, count_text, nets_text};
ghost use Rattle.text_writer.specs.WriteText.{text_in, write_text_verdict};

use job::Job;
use job::well_formed::check_job;
use text::{Text, digits_long};
use words::{Place, Reason, Refusal, refuse_if};

// The letters of `board 3` and `nets`, the space between `nets` and its number, and the five ends of line.
const HEAD_LETTERS: usize = 17;

// ---- how long the text is

// What stands before the nets.
fn head_long(job: &Job) -> usize
    ensures { (result ≡ length (board_text job.now.head.f job.now.head.c job.now.head.m ++ count_text job.now.head.n)) × (result ≤ 97) }
{
    HEAD_LETTERS
        + digits_long(job.head.f)
        + digits_long(job.head.c)
        + digits_long(job.head.m)
        + digits_long(job.head.n)
}

// The lines of the nets.
fn nets_long(job: &Job) -> usize
    ensures { (result ≡ length (nets_text (nets_in job.now.bytes.now))) × (result ≤ 32768) }
{
    let mut long: usize = 0;
    for i in 0..job.head.n {
        let (v, w) = job.ends(i);
        long += digits_long(v) + digits_long(w) + 2;
    }
    long
}

fn text_long(job: &Job) -> usize
    ensures { result ≡ length (text_in job.now.bytes.now) }
{
    head_long(job) + nets_long(job)
}

// ---- the text

// A number, and the byte behind it.
fn number_then(text: &mut Text, x: usize, after: u8)
    ensures { Gains text.old text.new (number_then x after) }
{
    text.digits(x);
    text.byte(after);
}

// What stands before the nets.
fn put_head(text: &mut Text, job: &Job)
    ensures { Gains text.old text.new (board_text job.now.head.f job.now.head.c job.now.head.m ++ count_text job.now.head.n) }
{
    text.word(b"board 3\n");
    number_then(text, job.head.f, b'\n');
    number_then(text, job.head.c, b'\n');
    number_then(text, job.head.m, b'\n');
    text.word(b"nets ");
    number_then(text, job.head.n, b'\n');
}

// The lines of the nets.
fn put_nets(text: &mut Text, job: &Job)
    ensures { Gains text.old text.new (nets_text (nets_in job.now.bytes.now)) }
{
    for i in 0..job.head.n {
        let (v, w) = job.ends(i);
        number_then(text, v, b' ');
        number_then(text, w, b'\n');
    }
}

// The text of a job to the front of the room, unless there is too little room for it.
pub fn write_text(job: &[u8], room: &mut [u8]) -> Result<usize, Refusal>
    ensures value { result ≡ answer (write_text_verdict job.now (length room.old)) (length (text_in job.now)) }
    ensures room_after { room.new ≡ room_after (write_text_verdict job.now (length room.old)) (text_in job.now) room.old }
{
    let checked = check_job(job)?;
    let long = text_long(&checked);
    refuse_if(room.len() < long, Reason::RoomShort, Place::Nowhere)?;
    let mut text = Text::new(room);
    put_head(&mut text, &checked);
    put_nets(&mut text, &checked);
    Ok(long)
}

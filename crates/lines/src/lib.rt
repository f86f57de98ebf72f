// The lines of a listing, each put behind a text in lent memory.
#![tactic(auto)]

ghost use Rattle.std.specs.Prelude.{◌≡◌, [], ◌∷◌, ◌≤◌, length};
ghost use Rattle.laws.specs.Row as row;
ghost use Rattle.job.specs.Board.{board_of};
ghost use Rattle.text.specs.Text.{each};
ghost use Rattle.text.specs.Lent.{Gains};
ghost use Rattle.text.specs.Forms.{line};
ghost use Rattle.lines.specs.Lines.{crossbar_word, board_line, rounds_line, net_line, verdict_text, refusal_line};

use job::Job;
use text::Text;
use words::{Refusal, Verdict, number_of, p_of, q_of};

// A verdict as its number, p and q.
fn verdict_text(text: &mut Text, v: Verdict)
    ensures gains { Gains text.old text.new (verdict_text v) }
    ensures short { length (verdict_text v) ≤ 63 }
{
    text.number(number_of(v) as usize);
    text.number(p_of(v));
    text.number(q_of(v));
}

pub fn refusal_line(text: &mut Text, r: Refusal)
    ensures gains { Gains text.old text.new (refusal_line r) }
    ensures short { length (refusal_line r) ≤ 71 }
{
    text.word(b"refused");
    verdict_text(text, Err(r));
    text.byte(b'\n');
}

pub fn board_line(text: &mut Text, job: &Job)
    ensures { Gains text.old text.new (board_line job.now.bytes.now) }
{
    let head = job.head;
    let four = [head.f as u16, head.c as u16, head.m as u16, head.n as u16];
    text.line(b"board", &four);
}

pub fn rounds_line(text: &mut Text, made: usize, excess: usize)
    ensures { Gains text.old text.new (rounds_line made excess) }
{
    text.word(b"rounds");
    text.number(made);
    text.word(b" excess");
    text.number(excess);
    text.byte(b'\n');
}

pub fn net_lines(text: &mut Text, job: &Job, plan: &[u16])
    requires { job.now.head.n ≤ length plan.now }
    ensures { Gains text.old text.new (each (net_line (board_of job.now) (row.at plan.now)) job.now.head.n) }
{
    for i in 0..job.head.n {
        let (v, w) = job.ends(i);
        text.line(b"net", &[i as u16, v as u16, w as u16, plan[i]]);
    }
}

// The crossbars with their totals.
pub fn crossbar_lines(text: &mut Text, totals: &[u16])
    requires { length totals.now ≤ 128 }
    ensures { Gains text.old text.new (each (λ x. line crossbar_word (x ∷ row.at totals.now x ∷ [])) (length totals.now)) }
{
    for (x, total) in totals.iter().enumerate() {
        text.line(b"crossbar", &[x as u16, *total]);
    }
}

// The form of a text: walked once, to its end or to where it breaks.
ghost use Rattle.std.specs.Prelude.{◌≡◌, ◌≤◌, length, IfOk};
ghost use Rattle.form.specs.Walk.{WalkAt};
ghost use Rattle.form.specs.Answer.{refused_at, FormedBy};

use crate::head::{board, count};
use crate::nets::nets;
use crate::place::place_behind;
use crate::{Broken, Formed, HeadRead, Read};
use words::{Reason, Refusal};

// The board, the count of the nets, their lines.
fn walk(text: &[u8]) -> Result<Read<HeadRead>, Broken>
    ensures { WalkAt text.now result }
{
    let board = board(text)?;
    let count = count(text, board.end)?;
    let end = nets(text, count.end, count.value as usize)?;
    Ok(Read {
        value: HeadRead {
            f: board.value.f,
            c: board.value.c,
            m: board.value.m,
            n: count.value,
            start: count.end,
        },
        end,
    })
}

fn refused_at(reason: Reason, text: &[u8], stop: usize) -> Refusal
    requires { stop ≤ length text.now }
    ensures { result ≡ refused_at reason text.now stop }
{
    Refusal {
        reason,
        place: place_behind(&text[..stop]),
    }
}

// The whole text: 31 where the form breaks, 32 where more follows.
pub fn check_form<'a>(text: &'a [u8]) -> Result<Formed<'a>, Refusal>
    ensures form { FormedBy result text.now }
    ensures text { IfOk result (λ formed. formed.text ≡ text.entry) }
{
    match walk(text) {
        Err(Broken(stop)) => Err(refused_at(Reason::TextBreaks, text, stop)),
        Ok(read) => {
            if read.end < text.len() {
                return Err(refused_at(Reason::TextGoesOn, text, read.end));
            }
            Ok(Formed {
                text,
                head: read.value,
            })
        }
    }
}

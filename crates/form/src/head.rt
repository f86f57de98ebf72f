// What stands before the nets: `board 3`, three numbers, `nets` and their count.
ghost use Rattle.std.specs.Prelude.{◌≤◌, length};
ghost use Rattle.form.specs.Walk.{WordAt, CountAt, BoardAt};

use crate::number::number;
use crate::{Board, Broken, Read};

// The word that stands at byte `at`: the byte behind it.
fn word(text: &[u8], at: usize, letters: &[u8]) -> Result<usize, Broken>
    requires { at ≤ length text.now }
    ensures { WordAt letters.now text.now at result }
{
    for (i, letter) in letters.iter().enumerate() {
        if text.len() <= at + i || text[at + i] != *letter {
            return Err(Broken(at + i));
        }
    }
    Ok(at + letters.len())
}

// The first line, and the three with f, c and m.
pub fn board(text: &[u8]) -> Result<Read<Board>, Broken>
    ensures { BoardAt text.now result }
{
    let start = word(text, 0, b"board 3\n")?;
    let f = number(text, start, b'\n')?;
    let c = number(text, f.end, b'\n')?;
    let m = number(text, c.end, b'\n')?;
    Ok(Read {
        value: Board {
            f: f.value,
            c: c.value,
            m: m.value,
        },
        end: m.end,
    })
}

// The line with the count of the nets, at byte `at`.
pub fn count(text: &[u8], at: usize) -> Result<Read<u16>, Broken>
    requires { at ≤ length text.now }
    ensures { CountAt text.now at result }
{
    let start = word(text, at, b"nets ")?;
    number(text, start, b'\n')
}

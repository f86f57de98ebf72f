// The lines of the nets.
ghost use Rattle.std.specs.Prelude.{◌≤◌, length};
ghost use Rattle.form.specs.Walk.{NetAt, NetsAt};

use crate::number::number;
use crate::{Broken, Read};

// The line of one net, at byte `at`: its first number and a space, its second and the end of the line.
pub fn net(text: &[u8], at: usize) -> Result<Read<(u16, u16)>, Broken>
    requires { at ≤ length text.now }
    ensures { NetAt text.now at result }
{
    let first = number(text, at, b' ')?;
    let second = number(text, first.end, b'\n')?;
    Ok(Read {
        value: (first.value, second.value),
        end: second.end,
    })
}

// The lines of n nets, from byte `at` on: the byte behind them.
pub fn nets(text: &[u8], at: usize, n: usize) -> Result<usize, Broken>
    requires { at ≤ length text.now }
    ensures { NetsAt n text.now at result }
{
    let mut end = at;
    for _i in 0..n {
        end = net(text, end)?.end;
    }
    Ok(end)
}

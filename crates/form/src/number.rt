// A number in decimal, up to 65,535 and with no zero in front but for 0 itself.
ghost use Rattle.std.specs.Prelude.{◌≡◌, ◌≤◌, ◌<◌, length};
ghost use Rattle.form.specs.Walk.{digit_fits, NumberAt};

use crate::{Broken, Read};

// The largest number.
const MOST: usize = 65535;

// Byte b can be the first digit, or the next behind the digits of v: none behind a zero, and none that makes the number too large.
#[tactic(auto, unfolding(crate::specs::Walk::digit_fits))]
fn digit_fits(first: bool, v: usize, b: u8) -> bool
    requires { v < 65536 }
    ensures { result ≡ digit_fits first v b }
{
    b.is_ascii_digit() && (first || (1 <= v && 10 * v + (b - b'0') as usize <= MOST))
}

// The number at byte `at`, and the byte `after` behind it.
pub fn number(text: &[u8], at: usize, after: u8) -> Result<Read<u16>, Broken>
    requires { at ≤ length text.now }
    ensures { NumberAt after text.now at result }
{
    let rest = &text[at..];
    let mut value: usize = 0;
    for (i, byte) in rest.iter().enumerate() {
        let b = *byte;
        if !digit_fits(i == 0, value, b) {
            if 0 < i && b == after {
                return Ok(Read {
                    value: value as u16,
                    end: at + i + 1,
                });
            }
            return Err(Broken(at + i));
        }
        value = 10 * value + (b - b'0') as usize;
    }
    Err(Broken(text.len()))
}

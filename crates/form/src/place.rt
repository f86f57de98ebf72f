// The place behind some bytes: the line, from 1, and the byte in it, from 0.
ghost use Rattle.std.specs.Prelude.{◌≡◌};
ghost use Rattle.form.specs.Breaks.{place_behind};

use words::Place;

pub fn place_behind(read: &[u8]) -> Place
    ensures { result ≡ place_behind read.now }
{
    let mut line: usize = 1;
    let mut byte: usize = 0;
    for b in read {
        if *b == b'\n' {
            line += 1;
            byte = 0;
        } else {
            byte += 1;
        }
    }
    Place::Line(line, byte)
}

// A number of two bytes, high byte first: read and written here and nowhere else.
ghost use Rattle.std.specs.Prelude.{◌≡◌, ◌+◌, ◌*◌, ◌≤◌, ◌<◌, ◌++◌, length, take, drop};
ghost use Rattle.words.specs.Number.{word, bytes, numbers, put_word};
ghost use Rattle.words.specs.Lent.{onto};

// The number at byte i.
pub fn read(s: &[u8], i: usize) -> u16
    requires { i + 1 < length s.now }
    ensures { result ≡ word s.now i }
{
    u16::from_be_bytes([s[i], s[i + 1]])
}

// Writes the number to byte i and the next.
pub fn write(room: &mut [u8], i: usize, x: u16)
    requires { i + 1 < length room.old }
    ensures { room.new ≡ put_word room.old i x }
{
    let [high, low] = x.to_be_bytes();
    room[i] = high;
    room[i + 1] = low;
}

// Writes a list of numbers to the front of the room.
pub fn write_list(room: &mut [u8], xs: &[u16])
    requires { 2 * length xs.now ≤ length room.old }
    ensures { room.new ≡ onto (bytes xs.now) room.old }
{
    for (i, x) in xs.iter().enumerate() {
        write(room, 2 * i, *x);
    }
}

// The same from byte `start` on, where what stands before it stays.
pub fn write_behind(room: &mut [u8], start: usize, xs: &[u16])
    requires { start + 2 * length xs.now ≤ length room.old }
    ensures { room.new ≡ take start room.old ++ onto (bytes xs.now) (drop start room.old) }
{
    write_list(&mut room[start..], xs);
}

// Reads as many numbers as `out` has room for from the front of the bytes.
pub fn read_list(s: &[u8], out: &mut [u16])
    requires { 2 * length out.old ≤ length s.now }
    ensures { out.new ≡ take (length out.old) (numbers s.now) }
{
    for i in 0..out.len() {
        out[i] = read(s, 2 * i);
    }
}

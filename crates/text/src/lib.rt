// Text formed in lent memory: each piece is put behind the text so far. What has no room is left out.
#![tactic(auto)]

ghost use Rattle.std.specs.Prelude.{◌≡◌, [], ◌∷◌, ◌≤◌, length, take};
ghost use Rattle.text.specs.Text.{up_to};
ghost use Rattle.text.specs.Lent.{text_so_far, Gains};
ghost use Rattle.text.specs.Forms.{decimal, spaced, all_spaced, line};

// A lent room, and the byte of it where the text ends.
#[derive(Drop)]
pub struct Text<'a> {
    pub room: &'a mut [u8],
    pub end: usize,
}

impl<'a> Text<'a> {
    // The room with no text in it yet.
    pub fn new(room: &'a mut [u8]) -> Text<'a>
        ensures same_room { result.room.ghost_name ≡ room.entry.ghost_name }
        ensures empty { text_so_far result ≡ up_to room.old 0 }
    {
        Text { room, end: 0 }
    }

    pub fn byte(&mut self, b: u8)
        ensures { Gains self.old self.new (b ∷ []) }
    {
        if self.end < self.room.len() {
            self.room[self.end] = b;
            self.end += 1;
        }
    }

    pub fn word(&mut self, letters: &[u8])
        ensures { Gains self.old self.new letters.now }
    {
        for letter in letters {
            self.byte(*letter);
        }
    }

    // A number in decimal: its last digit stands behind the others. Not by `write!`: the library says what it wrote only on `Ok`, and never that a
    // writer that cannot fail gives `Ok`.
    pub fn digits(&mut self, n: usize)
        ensures { Gains self.old self.new (decimal n) }
    {
        if n < 10 {
            self.byte(b'0' + n as u8);
        } else {
            self.digits(n / 10);
            self.byte(b'0' + (n % 10) as u8);
        }
    }

    // A space and the number.
    pub fn number(&mut self, n: usize)
        ensures { Gains self.old self.new (spaced n) }
    {
        self.byte(b' ');
        self.digits(n);
    }

    pub fn numbers(&mut self, list: &[u16])
        ensures { Gains self.old self.new (all_spaced list.now) }
    {
        for n in list {
            self.number(*n as usize);
        }
    }

    // A word, its numbers and the end of the line.
    pub fn line(&mut self, letters: &[u8], list: &[u16])
        ensures { Gains self.old self.new (line letters.now list.now) }
    {
        self.word(letters);
        self.numbers(list);
        self.byte(b'\n');
    }
}

// How many digits a number has.
pub fn digits_long(n: usize) -> usize
    ensures { (result ≡ length (decimal n)) × (result ≤ 20) }
{
    if n < 10 {
        return 1;
    }
    digits_long(n / 10) + 1
}

// The text that ends at `end`.
pub fn so_far(room: &[u8], end: usize) -> &[u8]
    ensures { result.now ≡ take end room.now }
{
    &room[..end.min(room.len())]
}

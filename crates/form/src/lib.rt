// The text of a job: its form is walked once, byte by byte, to its end or to where it breaks.
#![tactic(auto)]

ghost use Rattle.form.specs.Walk.{WholeAt};

pub mod head;
pub mod nets;
pub mod number;
pub mod place;
pub mod walk;

// What was read, and the byte behind it.
#[derive(Clone, Copy, Debug, PartialEq, Eq)]
pub struct Read<T> {
    pub value: T,
    pub end: usize,
}

// The form breaks at this byte: all before it are in order.
#[derive(Clone, Copy, Debug, PartialEq, Eq)]
pub struct Broken(pub usize);

// The three numbers of a board.
#[derive(Clone, Copy, Debug, PartialEq, Eq)]
pub struct Board {
    pub f: u16,
    pub c: u16,
    pub m: u16,
}

// What stands before the nets: four numbers, and the byte where the nets start.
#[derive(Clone, Copy, Debug, PartialEq, Eq)]
pub struct HeadRead {
    pub f: u16,
    pub c: u16,
    pub m: u16,
    pub n: u16,
    pub start: usize,
}

// A text of the form: the caller's own bytes, and what stands before its nets.
#[derive(Clone, Copy)]
pub struct Formed<'a> {
    pub text: &'a [u8],
    pub head: HeadRead,
    pub ghost whole: { ∥ WholeAt text.now head ∥₁ },
}

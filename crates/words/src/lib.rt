// The customer's words: three sorts of count, a refusal with its place, and numbers of two bytes.
#![tactic(auto)]

ghost use Rattle.std.specs.Prelude.{◌≡◌, ℕ, ◌<◌};
ghost use Rattle.words.specs.Verdict.{Verdict, place_p, place_q, number_of, p_of, q_of, refuse_if, first_refusal};
ghost use Rattle.words.specs.Checked.{Checks};

pub mod number;

// An FPGA's number, or how many FPGAs there are.
#[derive(Clone, Copy, Debug, PartialEq, Eq, PartialOrd, Ord)]
pub struct Fpga(pub u16);

// A crossbar's number, or how many crossbars there are.
#[derive(Clone, Copy, Debug, PartialEq, Eq, PartialOrd, Ord)]
pub struct Crossbar(pub u16);

// A net's number, or how many nets there are.
#[derive(Clone, Copy, Debug, PartialEq, Eq, PartialOrd, Ord)]
pub struct Net(pub u16);

// What a refusal points at.
#[derive(Clone, Copy, Debug, PartialEq, Eq)]
pub enum Place {
    Byte(usize),
    Net(Net),
    // One of the net's two numbers, by its byte in the job.
    End(Net, usize),
    Fpga(Fpga),
    Crossbar(Crossbar),
    Load(Fpga, Crossbar),
    Length(usize),
    // A byte of a text, by its line from 1 and its place in that line from 0.
    Line(usize, usize),
    Nowhere,
}

// Why a call is refused, under document 01's numbers.
#[derive(Clone, Copy, Debug, PartialEq, Eq)]
pub enum Reason {
    // Job shorter than its head, or than its nets.
    JobShort = 1,
    // The board's count is not 3.
    BoardCount = 2,
    // F outside its range.
    FpgaCount = 3,
    // C outside its range.
    CrossbarCount = 4,
    // M outside its range.
    WireCount = 5,
    // M is 1.
    LoneWire = 6,
    // N outside its range.
    NetCount = 7,
    // Job longer than its nets.
    JobLong = 8,
    // The first number of a net, or of two that are asked about, at or above f.
    FirstEnd = 9,
    // The same FPGA twice.
    SameEnd = 10,
    // A lent buffer is too short.
    RoomShort = 11,
    // A degree above the limit.
    Degree = 12,
    // A crossbar number in a lent assignment that cannot be used.
    Start = 13,
    // A sheet of another length.
    SheetLength = 21,
    // A sheet that begins otherwise than the job.
    SheetHead = 22,
    // A crossbar number in a sheet that cannot be used.
    SheetCrossbar = 23,
    // A load above the width.
    Load = 24,
    // A spread above 1.
    Spread = 25,
    // A written total is wrong.
    WrittenTotal = 26,
    // The second number of a net, or of two, at or above f.
    SecondEnd = 27,
    // A text that breaks the form.
    TextBreaks = 31,
    // A text that goes on behind its form.
    TextGoesOn = 32,
}

#[derive(Clone, Copy, Debug, PartialEq, Eq)]
pub struct Refusal {
    pub reason: Reason,
    pub place: Place,
}

// Done, or refused.
pub type Verdict = Result<(), Refusal>;

impl Place {
    // The first of its two numbers; 0 where there is none.
    pub fn p(self) -> usize
        ensures { result ≡ place_p self }
    {
        match self {
            Place::Byte(i) => i,
            Place::Net(i) => i.0 as usize,
            Place::End(i, _) => i.0 as usize,
            Place::Fpga(v) => v.0 as usize,
            Place::Crossbar(x) => x.0 as usize,
            Place::Load(v, _) => v.0 as usize,
            Place::Length(n) => n,
            Place::Line(line, _) => line,
            Place::Nowhere => 0,
        }
    }

    // The second.
    pub fn q(self) -> usize
        ensures { result ≡ place_q self }
    {
        match self {
            Place::End(_, at) => at,
            Place::Load(_, x) => x.0 as usize,
            Place::Line(_, byte) => byte,
            _ => 0,
        }
    }
}

// Refused for this reason where the test holds.
pub fn refuse_if(test: bool, reason: Reason, place: Place) -> Verdict
    ensures { result ≡ refuse_if test reason place }
{
    if test {
        return Err(Refusal { reason, place });
    }
    Ok(())
}

// The first refusal of a check of 0, 1, .., n - 1.
pub fn first_refusal<F: Fn(usize) -> Verdict>(n: usize, check: F) -> Verdict
    requires { (i : ℕ) → i < n → F.pre check i }
    ensures { (g : ℕ → Verdict) → Checks (F.post check) g n → result ≡ first_refusal g n }
{
    for i in 0..n {
        check(i)?;
    }
    Ok(())
}

// The refusal's number, or 0 where there is none.
pub fn number_of(v: Verdict) -> u16
    ensures { result ≡ number_of v }
{
    match v {
        Ok(()) => 0,
        Err(refusal) => refusal.reason as u16,
    }
}

// The first of its two places.
pub fn p_of(v: Verdict) -> usize
    ensures { result ≡ p_of v }
{
    match v {
        Ok(()) => 0,
        Err(refusal) => refusal.place.p(),
    }
}

// The second of its two places.
pub fn q_of(v: Verdict) -> usize
    ensures { result ≡ q_of v }
{
    match v {
        Ok(()) => 0,
        Err(refusal) => refusal.place.q(),
    }
}

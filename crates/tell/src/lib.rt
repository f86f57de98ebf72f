// How an answer is told in C: a number that is returned, and four numbers in the caller's `answer`. Codes and zeros here are the C interface.
#![tactic(auto)]

ghost use Rattle.std.specs.Prelude.{◌≡◌, ◌≤◌, List, ℕ};
ghost use Rattle.job.specs.Read.{section_long};
ghost use Rattle.tell.specs.InC.{InC, four, answer_in_c, numbers_in_c, net_in_c, section_in_c, over_in_four, fault_in_c};

use evidence::Fault;
use finish::Rounds;
use job::Head;
use reader::Numbers;
use search::Over;
use words::{Fpga, Net, Refusal, number_of, p_of, q_of};

// What four numbers say, filled up with zeros.
pub trait InFour {
    ghost in_four: { Self → List ℕ };

    fn in_four(self) -> [u64; 4]
        ensures { result ≡ in_four self };
}

// What a call returns and writes.
pub trait Answer {
    ghost in_c: { Self → InC };

    fn in_c(self) -> (u16, [u64; 4])
        ensures { result ≡ in_c self };
}

// Done, and nothing more.
impl InFour for () {
    ghost in_four = { λ _. four 0 0 0 0 };

    fn in_four(self) -> [u64; 4] {
        [0; 4]
    }
}

// So many bytes or numbers written.
impl InFour for usize {
    ghost in_four = { λ k. four k 0 0 0 };

    fn in_four(self) -> [u64; 4] {
        [self as u64, 0, 0, 0]
    }
}

// Room for so many nets.
impl InFour for Net {
    ghost in_four = { λ k. four k.0 0 0 0 };

    fn in_four(self) -> [u64; 4] {
        [self.0 as u64, 0, 0, 0]
    }
}

// A round: 1 and what it was made on, or zeros where the assignment was settled.
impl InFour for Option<Over> {
    ghost in_four = { over_in_four };

    fn in_four(self) -> [u64; 4] {
        match self {
            None => [0; 4],
            Some(over) => [
                1,
                over.fpga.0 as u64,
                over.crowded.0 as u64,
                over.room.0 as u64,
            ],
        }
    }
}

// The rounds made, and the excess before the first.
impl InFour for Rounds {
    ghost in_four = { λ rounds. four rounds.made rounds.excess 0 0 };

    fn in_four(self) -> [u64; 4] {
        [self.made as u64, self.excess as u64, 0, 0]
    }
}

impl InFour for Numbers {
    ghost in_four = { numbers_in_c };

    fn in_four(self) -> [u64; 4] {
        [
            self.f.0 as u64,
            self.c.0 as u64,
            self.m as u64,
            self.n.0 as u64,
        ]
    }
}

impl InFour for Fault {
    ghost in_four = { fault_in_c };

    fn in_four(self) -> [u64; 4] {
        [self.file as u64, self.start as u64, self.long as u64, 0]
    }
}

// 0 and what was answered; or the refusal's number, p and q.
impl<T: InFour> Answer for Result<T, Refusal> {
    ghost in_c = { answer_in_c T.in_four };

    fn in_c(self) -> (u16, [u64; 4]) {
        match self {
            Ok(said) => (0, said.in_four()),
            Err(r) => {
                let refused = Err(r);
                (
                    number_of(refused),
                    [p_of(refused) as u64, q_of(refused) as u64, 0, 0],
                )
            }
        }
    }
}

// 1 and the net's two FPGAs; or 0.
impl Answer for Option<(Fpga, Fpga)> {
    ghost in_c = { net_in_c };

    fn in_c(self) -> (u16, [u64; 4]) {
        match self {
            None => (0, [0; 4]),
            Some((v, w)) => (1, [v.0 as u64, w.0 as u64, 0, 0]),
        }
    }
}

// Writes the four numbers of an answer to the caller's, and returns what C is to return.
pub fn tell<T: Answer>(said: T, answer: &mut [u64; 4]) -> u16
    ensures { (result, answer.new) ≡ T.in_c said }
{
    let (returned, written) = said.in_c();
    *answer = written;
    returned
}

// Where the nets of a job stand, by the check's answer; of a refused job four zeros.
pub fn tell_section(checked: Result<Head, Refusal>, answer: &mut [u64; 4])
    requires { section_long checked ≤ 16384 }
    ensures { answer.new ≡ section_in_c checked }
{
    *answer = match checked {
        Ok(head) => [head.start as u64, 4 * head.n as u64, 0, 0],
        Err(_) => [0; 4],
    };
}

// Finish and plan: rounds until the assignment is legal.
#![tactic(auto)]

pub mod calls;
pub mod deal;
pub mod settle;

use words::Refusal;

// How many rounds were made, and the excess before the first.
#[derive(Clone, Copy, Debug, PartialEq, Eq)]
pub struct Rounds {
    pub made: usize,
    pub excess: usize,
}

// The rounds, or the call is refused.
pub type Finish = Result<Rounds, Refusal>;

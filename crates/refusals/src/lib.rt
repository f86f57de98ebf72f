// The refusals before a plan (1 to 13), and those of spare and headroom.
#![tactic(auto)]

pub mod asked;
pub mod degrees;
pub mod range;
pub mod start;

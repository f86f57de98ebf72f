// The audit: refusals 21 to 26 of a sheet against a job, and what the sheet writer refuses by the same parts.
#![tactic(auto)]

pub mod audit;
pub mod heads;
pub mod totals;

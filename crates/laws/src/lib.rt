// Definitions and laws that every layer cites: sums, cases on equality, parts of a list. Nothing runs here.
#![tactic(auto)]
